//! Which cuts and derived rows the head of a log declares.
ghost use Rattle.std.specs.Prelude.{◌≡◌, ◌+◌, ◌↔◌, ◌≤◌, false, length, IfOk, IsTrue};
ghost use Rattle.std.specs.List.{All};
ghost use Rattle.row_kit.specs.Domain.{IsNormal};
ghost use Rattle.row_kit.specs.Row.{is_nothing};
ghost use Rattle.derivations.specs.Growth.{AreShown, rows_of};
ghost use Rattle.derivations.specs.Larger.{begun};
ghost use Rattle.head_choice.specs.Heading.{AreDeclared, EachCounts, FactorsAscend, HasForm};

use crate::copying::copy_over;
use box_advice::Advisers;
use derivations::{Derivation, Grown, row_count, with_derivations};
use derived_rows::Factor;
use dual_bound::MOST_MULTS;
use row_kit::{Domain, Entry, List, Program};
use std::alloc::{AllocError, Global};

// The most derived rows of a log.
const MOST_DERIVED: usize = 4_096;

// The derivations that advisers declare for a program with sums over domains; none where a log or a search has no room for them,
// or one of them is not shown. They are a matter of the rows and of the domains alone, whatever the root is.
pub fn declared<A: Advisers>(
    alloc: Global,
    program: &Program,
    domains: &[Domain],
) -> Result<List<Derivation>, AllocError>
    requires same_slots { length domains.now ≡ length program.now.root }
    requires normal { All IsNormal domains.now }
    ensures { IfOk result (AreDeclared program.now domains.now) }
{
    let whole = copy_over(alloc, program, domains)?;
    let offered = A::derived(alloc, &whole, domains)?;
    if has_room(&whole, offered.as_slice())
        && have_form(offered.as_slice())
        && are_shown(alloc, whole, domains, offered.as_slice())?
    {
        return Ok(offered);
    }
    Ok(List::new(alloc))
}

// Whether a log and a search have room for derivations of a program.
fn has_room(program: &Program, derivations: &[Derivation]) -> bool
    ensures log { IsTrue result → rows_of derivations.now ≤ 4096 }
    ensures search { IsTrue result → length program.now.rows + rows_of derivations.now ≤ 50000 }
{
    let rows = row_count(derivations);
    rows <= MOST_DERIVED && program.rows.len() + rows <= MOST_MULTS
}

// Whether each derivation is shown over domains, after those before it.
fn are_shown(
    alloc: Global,
    program: Program,
    domains: &[Domain],
    derivations: &[Derivation],
) -> Result<bool, AllocError>
    requires same_slots { length domains.now ≡ length program.root }
    requires normal { All IsNormal domains.now }
    requires few_rows { length program.rows + rows_of derivations.now ≤ 400000 }
    ensures { IfOk result (λ shown. IsTrue shown
        → AreShown (begun program domains.now) derivations.now) }
{
    match with_derivations(alloc, program, domains, derivations)? {
        Grown::Whole(_) => Ok(true),
        Grown::Unshown(_) => Ok(false),
    }
}

// Whether each derivation has the form of a log's.
fn have_form(derivations: &[Derivation]) -> bool
    ensures { IsTrue result ↔ All HasForm derivations.now }
{
    derivations.iter().all(|derivation| has_form(derivation))
}

// Whether a derivation has the form of a log's: of a row the rows of its factors ascend, and each of its entries counts something.
fn has_form(derivation: &Derivation) -> bool
    ensures { IsTrue result ↔ HasForm derivation.now }
{
    match derivation {
        Derivation::Cut(_) => true,
        Derivation::Row(derived) => {
            factors_ascend(derived.factors.as_slice()) && each_counts(derived.entries.as_slice())
        }
    }
}

// Whether the rows of factors ascend.
fn factors_ascend(factors: &[Factor]) -> bool
    ensures { IsTrue result ↔ FactorsAscend factors.now }
{
    for place in 1..factors.len() {
        if factors[place].row <= factors[place - 1].row {
            return false;
        }
    }
    true
}

// Whether each entry counts something.
fn each_counts(entries: &[Entry]) -> bool
    ensures { IsTrue result ↔ EachCounts entries.now }
{
    entries.iter().all(|entry| counts(entry))
}

// Whether an entry counts something.
fn counts(entry: &Entry) -> bool
    ensures { IsTrue result ↔ (is_nothing (entry.now.fixed, entry.now.per) ≡ false) }
{
    entry.fixed != 0 || entry.per != 0
}
