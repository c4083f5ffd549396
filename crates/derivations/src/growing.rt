//! A program that grows by derivations.
ghost use Rattle.std.specs.Prelude.{◌≡◌, ◌+◌, ◌<◌, ◌≤◌, [], ◌∷◌, length, IfOk, MatchOption};
ghost use Rattle.std.specs.List.{All};
ghost use Rattle.row_kit.specs.Area.{present};
ghost use Rattle.row_kit.specs.Bounds.{IsBoundedRow};
ghost use Rattle.row_kit.specs.Domain.{IsNormal};
ghost use Rattle.derived_rows.specs.Shown.{IsShownRow};
ghost use Rattle.derivations.specs.declared.derivation.Derivation.TheVariants as derivation;
ghost use Rattle.derivations.specs.Growth.{IsShownDerivation, rows_of};
ghost use Rattle.derivations.specs.Grown.{IsGrown};
ghost use Rattle.derivations.specs.Larger.{begun};
ghost use Rattle.derivations.specs.laws.Growing.{HasGrownBy, HasLed, IsRooted, IsWithMore};

use crate::derivation::Derivation;
use crate::grown::Grown;
use crate::meeting::{domains_left, meet};
use derived_rows::{Derived, shown_row};
use range_prop::{RowCut, cut};
use row_kit::{Area, Domain, List, Program, Row};
use std::alloc::{AllocError, Global};

/// The program to which derivations lead, judged over domains with one for each slot; or the place of the first derivation that is
/// not shown. The larger program's rows are the given ones and then each derived row in order, and its root is, slot by slot, what
/// the cuts have left of the domains and the given root holds besides.
///
/// It takes memory for the derived rows and for the domains, with room for a change of each of their values. A cut costs the
/// slots and the entries of its row, and a derived row what `shown_row` costs over the domains that are left.
pub fn with_derivations(
    alloc: Global,
    program: Program,
    domains: &[Domain],
    derivations: &[Derivation],
) -> Result<Grown, AllocError>
    requires same_slots { length domains.now ≡ length program.root }
    requires normal { All IsNormal domains.now }
    requires few_rows { length program.rows + rows_of derivations.now ≤ 400000 }
    ensures { IfOk result (IsGrown program domains.now derivations.now) }
{
    let root = List::from_slice(alloc, program.root.as_slice())?;
    let judged = List::from_slice(alloc, domains)?;
    let judged = rooted(program, judged);
    let mut area = Area::new(alloc, &judged)?;
    match grow(alloc, judged, &mut area, derivations)? {
        Ok(grown) => {
            let left = domains_left(alloc, &area)?;
            let root = meet(alloc, root.as_slice(), left.as_slice())?;
            Ok(Grown::Whole(rooted(grown, root)))
        }
        Err(place) => Ok(Grown::Unshown(place)),
    }
}

/// A program over another root with as many slots.
pub fn rooted(program: Program, root: List<Domain>) -> Program
    requires same_slots { length root ≡ length program.root }
    requires normal { All IsNormal root }
    ensures { IsRooted program root result }
{
    Program {
        rows: program.rows,
        profit: program.profit,
        base: program.base,
        root,
        tags: program.tags,
        changes: program.changes,
    }
}

// The program and the area after derivations; or the place of the first that is not shown.
fn grow(
    alloc: Global,
    program: Program,
    area: &mut Area,
    derivations: &[Derivation],
) -> Result<Result<Program, usize>, AllocError>
    requires slots { length (present area.old) ≡ length program.root }
    requires few_rows { length program.rows + rows_of derivations.now ≤ 400000 }
    ensures led { IfOk result (HasLed program (present area.old) derivations.now (present area.new)) }
{
    let mut grown = program;
    for place in 0..derivations.len() {
        match derive(alloc, grown, area, &derivations[place])? {
            Some(next) => grown = next,
            None => return Ok(Err(place)),
        }
    }
    Ok(Ok(grown))
}

// The program and the area after a derivation, or None where it is not shown.
fn derive(
    alloc: Global,
    program: Program,
    area: &mut Area,
    derivation: &Derivation,
) -> Result<Option<Program>, AllocError>
    requires slots { length (present area.old) ≡ length program.root }
    requires few_rows { length program.rows + rows_of (derivation.now ∷ []) ≤ 400000 }
    ensures { IfOk result (λ next. MatchOption next
        (¬ IsShownDerivation (begun program (present area.old)) derivation.now)
        (HasGrownBy program (present area.old) (derivation.now ∷ []) (present area.new))) }
{
    match derivation {
        Derivation::Cut(made) => Ok(cut_down(program, area, *made)),
        Derivation::Row(derived) => with_row(alloc, program, area, derived),
    }
}

// The program and the area after a cut, or None where its row or its slot is not there.
fn cut_down(program: Program, area: &mut Area, made: RowCut) -> Option<Program>
    requires slots { length (present area.old) ≡ length program.root }
    ensures { MatchOption result
        (¬ ((made.row < length program.rows) × (made.slot < length (present area.old))))
        (HasGrownBy program (present area.old) (derivation.Cut made ∷ []) (present area.new)) }
{
    if made.row as usize >= program.rows.len() || made.slot >= area.slot_count() {
        return None;
    }
    cut(&program, area, made.row, made.slot);
    Some(program)
}

// The program with a derived row, or None where the row is not shown over what is left of the domains.
fn with_row(
    alloc: Global,
    program: Program,
    area: &Area,
    derived: &Derived,
) -> Result<Option<Program>, AllocError>
    requires slots { length (present area.now) ≡ length program.root }
    requires few_rows { length program.rows + 1 ≤ 400000 }
    ensures { IfOk result (λ next. MatchOption next
        (¬ IsShownRow program.rows (present area.now) derived.now)
        (HasGrownBy program (present area.now) (derivation.Row derived.now ∷ []) (present area.now))) }
{
    let left = domains_left(alloc, area)?;
    match shown_row(alloc, program.rows.as_slice(), left.as_slice(), derived)? {
        Some(row) => Ok(Some(pushed(program, row)?)),
        None => Ok(None),
    }
}

/// A program with one row more.
pub fn pushed(program: Program, row: Row) -> Result<Program, AllocError>
    requires few_rows { length program.rows + 1 ≤ 400000 }
    requires bounded { IsBoundedRow (length program.root) row }
    ensures { IfOk result (IsWithMore program (row ∷ [])) }
{
    let mut rows = program.rows;
    rows.push(row)?;
    Ok(Program {
        rows,
        profit: program.profit,
        base: program.base,
        root: program.root,
        tags: program.tags,
        changes: program.changes,
    })
}
