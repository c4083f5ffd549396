//! Rows as a relaxation.
ghost use Rattle.std.specs.Prelude.{◌≡◌, ◌∷◌, [], map, take, length, IfOk};
ghost use Rattle.proof_tree.specs.Views.{present as shown_last};
ghost use Rattle.row_relax.specs.Choices.{choices_of, steps_of, IsLawfulIn, worth_in};
ghost use Rattle.row_relax.specs.View.{view_of, Fits, IsIn};
ghost use Rattle.row_relax.specs.laws.Laws.{steps_sound};

use crate::forgetting::forget;
use crate::pick::RowPick;
use crate::settling::settle;
use dual_bound::{Cert, cap};
use proof_tree::{Capped, Proof, Relaxation};
use range_prop::{RowCut, cut};
use row_kit::{Area, Found, Program};
use std::alloc::{AllocError, Global};

/// The rows of a program, as what a proof needs of the areas that it caps. An area fits where it has the program's slots.
#[derive(Drop)]
pub struct Rows {
    pub program: Program,
    /// By what points are judged: by the program that this one was made from, with fewer slots, which are the first here; where there
    /// is none, by this one.
    pub choices: Option<Program>,
}

impl Rows {
    /// An area of the root. It fits.
    pub fn root_area(&self, alloc: Global) -> Result<Area, AllocError>
        ensures root { IfOk result (λ area. area ≡ self.now.program.root ∷ []) }
        ensures fits { IfOk result (λ area. Fits self.now.program (shown_last (map view_of area))) }
    {
        let area = Area::new(alloc, &self.program)?;
        Ok(area)
    }

    /// The values of the slots that points have: the first of the values of all slots.
    pub fn chosen<'a>(&self, values: &'a [u8]) -> &'a [u8]
        ensures { result.now ≡ take (length (choices_of self.now).root) values.now }
    {
        let slots = choices_of(self).root.len();
        if slots < values.len() {
            &values[..slots]
        } else {
            values
        }
    }
}

/// The program by which points are judged: the choices, where there are any, else the program of the rows.
pub fn choices_of(rows: &Rows) -> &Program
    ensures { result.now ≡ choices_of rows.now }
{
    match &rows.choices {
        None => &rows.program,
        Some(choices) => choices,
    }
}

/// A proof over the rows of a program.
pub type RowProof = Proof<RowCut, Cert, RowPick, Found>;

impl Relaxation for Rows {
    type Area = Area;

    type Trim = RowCut;

    type Cert = Cert;

    type Pick = RowPick;

    type Found = Found;

    ghost views = { λ area. map view_of area };

    ghost steps = { λ rows. steps_of rows };

    ghost fits = { λ rows. Fits rows.program };

    ghost is_point = { λ _. IsIn };

    ghost is_lawful = { λ rows. IsLawfulIn rows };

    ghost worth = { λ rows. worth_in rows };

    ghost sound = { λ rows. steps_sound rows };

    fn cut(&self, area: &mut Area, trim: &RowCut) -> bool {
        if trim.row as usize >= self.program.rows.len() {
            return false;
        }
        if trim.slot >= area.slot_count() {
            return false;
        }
        cut(&self.program, area, trim.row, trim.slot);
        true
    }

    fn empty(&self, area: &Area) -> bool {
        area.has_empty()
    }

    fn cap(&self, area: &Area, cert: &Cert) -> Capped {
        cap(&self.program, area, cert)
    }

    fn settle(&self, area: &Area) -> Capped {
        settle(choices_of(self), area)
    }

    fn left(&self, area: &mut Area, pick: &RowPick) -> bool {
        if pick.slot >= area.slot_count() {
            return false;
        }
        area.at_most(pick.slot, pick.max);
        true
    }

    fn right(&self, area: &mut Area, pick: &RowPick) -> bool {
        if pick.slot >= area.slot_count() {
            return false;
        }
        area.above(pick.slot, pick.max);
        true
    }

    fn trim(&self, area: &mut Area, pick: &RowPick, cert: &Cert) -> Option<i128> {
        match &pick.floor {
            None => None,
            Some(floor) => forget(&self.program, area, cert, floor),
        }
    }

    fn mark(&self, area: &Area) -> u32 {
        area.mark()
    }

    fn back(&self, area: &mut Area, mark: u32) {
        area.back(mark);
        let _slots = area.slot_count();
    }
}
