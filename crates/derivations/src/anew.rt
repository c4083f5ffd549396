//! A program that grows by derivations of another one.
ghost use Rattle.std.specs.Prelude.{◌≡◌, ◌+◌, ◌≤◌, [], ◌∷◌, length, IfOk};
ghost use Rattle.std.specs.List.{All};
ghost use Rattle.row_kit.specs.Area.{present};
ghost use Rattle.row_kit.specs.Domain.{IsNormal};
ghost use Rattle.row_kit.specs.Row.{no_row};
ghost use Rattle.derivations.specs.declared.derivation.Derivation.TheVariants as derivation;
ghost use Rattle.derivations.specs.Anew.{IsWithAnew};
ghost use Rattle.derivations.specs.Growth.{rows_of};
ghost use Rattle.derivations.specs.laws.Growing.{HasGrownAnew};

use crate::derivation::Derivation;
use crate::growing::{pushed, rooted};
use crate::meeting::{domains_left, meet};
use derived_rows::{Derived, shown_row};
use range_prop::{RowCut, cut};
use row_kit::{Area, Domain, List, Program, Row};
use std::alloc::{AllocError, Global};

/// The program to which derivations of another program lead, looked at anew over domains with one for each slot: a cut goes over the
/// rows as they are here, and one that names nothing changes nothing; a derived row has its limit anew, and one that is not shown
/// here is a row without entries and of limit 0, so that each row keeps its number.
///
/// It takes the memory of `with_derivations`, and costs the same: each derived row is looked at anew.
pub fn with_derivations_anew(
    alloc: Global,
    program: Program,
    domains: &[Domain],
    derivations: &[Derivation],
) -> Result<Program, AllocError>
    requires same_slots { length domains.now ≡ length program.root }
    requires normal { All IsNormal domains.now }
    requires few_rows { length program.rows + rows_of derivations.now ≤ 400000 }
    ensures { IfOk result (IsWithAnew program domains.now derivations.now) }
{
    let root = List::from_slice(alloc, program.root.as_slice())?;
    let judged = List::from_slice(alloc, domains)?;
    let judged = rooted(program, judged);
    let mut area = Area::new(alloc, &judged)?;
    let grown = grow_anew(alloc, judged, &mut area, derivations)?;
    let left = domains_left(alloc, &area)?;
    let root = meet(alloc, root.as_slice(), left.as_slice())?;
    Ok(rooted(grown, root))
}

// The program and the area after derivations that are looked at anew.
fn grow_anew(
    alloc: Global,
    program: Program,
    area: &mut Area,
    derivations: &[Derivation],
) -> Result<Program, AllocError>
    requires slots { length (present area.old) ≡ length program.root }
    requires few_rows { length program.rows + rows_of derivations.now ≤ 400000 }
    ensures { IfOk result (HasGrownAnew program (present area.old) derivations.now
        (present area.new)) }
{
    let mut grown = program;
    for place in 0..derivations.len() {
        grown = derive_anew(alloc, grown, area, &derivations[place])?;
    }
    Ok(grown)
}

// The program and the area after a derivation that is looked at anew.
fn derive_anew(
    alloc: Global,
    program: Program,
    area: &mut Area,
    derivation: &Derivation,
) -> Result<Program, AllocError>
    requires slots { length (present area.old) ≡ length program.root }
    requires few_rows { length program.rows + rows_of (derivation.now ∷ []) ≤ 400000 }
    ensures { IfOk result (HasGrownAnew program (present area.old) (derivation.now ∷ [])
        (present area.new)) }
{
    match derivation {
        Derivation::Cut(made) => Ok(cut_anew(program, area, *made)),
        Derivation::Row(derived) => with_row_anew(alloc, program, area, derived),
    }
}

// The program and the area after a cut, if its row and its slot are there.
fn cut_anew(program: Program, area: &mut Area, made: RowCut) -> Program
    requires slots { length (present area.old) ≡ length program.root }
    ensures { HasGrownAnew program (present area.old) (derivation.Cut made ∷ [])
        (present area.new) result }
{
    if made.row as usize >= program.rows.len() || made.slot >= area.slot_count() {
        return program;
    }
    cut(&program, area, made.row, made.slot);
    program
}

// The program with a derived row, or with one that says nothing where it is not shown over what is left of the domains.
fn with_row_anew(
    alloc: Global,
    program: Program,
    area: &Area,
    derived: &Derived,
) -> Result<Program, AllocError>
    requires slots { length (present area.now) ≡ length program.root }
    requires few_rows { length program.rows + 1 ≤ 400000 }
    ensures { IfOk result (HasGrownAnew program (present area.now) (derivation.Row derived.now ∷ [])
        (present area.now)) }
{
    let left = domains_left(alloc, area)?;
    match shown_row(alloc, program.rows.as_slice(), left.as_slice(), derived)? {
        Some(row) => pushed(program, row),
        None => pushed(program, no_row(alloc)),
    }
}

// A row that says nothing.
fn no_row(alloc: Global) -> Row
    ensures { result ≡ no_row }
{
    Row {
        entries: List::new(alloc),
        limit: 0,
    }
}
