//! Derived rows that are shown.
ghost use Rattle.std.specs.Prelude.{◌≡◌, ◌≤◌, ℕ, ◌<◌, ◌↔◌, length, map, pos, ◌*ℤ◌, ◌≤ℤ◌, IsTrue, IfOk, IfSome, IsSome, unsigned_abs};
ghost use Rattle.std.specs.List.{All};
ghost use Rattle.row_kit.specs.Bounds.{IsBoundedRow};
ghost use Rattle.row_kit.specs.Domain.{Holds, IsNormal, domain_at};
ghost use Rattle.row_kit.specs.Row.{entry_at};
ghost use Rattle.derived_rows.specs.Derived.{derived_limit, round_of, slack_factor, term_at};
ghost use Rattle.derived_rows.specs.Line.{IsSmallFactor};
ghost use Rattle.derived_rows.specs.Shown.{IsDeclared, IsShownRow, derived_row};

use crate::declared::is_declared;
use crate::derived::{Derived, Factor};
use crate::limits::{derived_limit, slack_factors};
use crate::table::Table;
use row_kit::{Domain, List, MOST_LIMIT, Row};
use std::alloc::{AllocError, Global};

/// The row that is derived from rows, where it is shown over domains, and None where it is not. An error means
/// that memory was not found. It takes memory for seven numbers of each slot, the factors and the entries, and costs the slots, the
/// entries of the rows that factors and groups name, and phi at each value of 1 or more that the domains hold of the slots that
/// these factors or the entries count.
pub fn shown_row(
    alloc: Global,
    rows: &[Row],
    domains: &[Domain],
    derived: &Derived,
) -> Result<Option<Row>, AllocError>
    requires slots { length domains.now ≤ 4096 }
    requires normal { All IsNormal domains.now }
    requires bounded { All (IsBoundedRow (length domains.now)) rows.now }
    ensures shown { IfOk result (λ row. IsSome row
        ↔ IsShownRow rows.now domains.now derived.now) }
    ensures row { IfOk result (λ row. IfSome row
        (λ r. r ≡ derived_row rows.now derived.now)) }
    ensures bounded { IfOk result (λ row. IfSome row
        (IsBoundedRow (length domains.now))) }
{
    if !is_declared(rows, domains.len(), derived) {
        return Ok(None);
    }
    let slacks = slack_factors(alloc, rows, domains.len(), derived)?;
    let limit = derived_limit(rows, domains.len(), derived, slacks.as_slice());
    if limit.unsigned_abs() > MOST_LIMIT
        || !is_below(alloc, rows, domains, derived, slacks.as_slice())?
    {
        return Ok(None);
    }
    let entries = List::from_slice(alloc, derived.entries.as_slice())?;
    Ok(Some(Row { entries, limit }))
}

// Whether the entries are below what is rounded, at every slot and each value of 1 or more that its domain holds.
fn is_below(
    alloc: Global,
    rows: &[Row],
    domains: &[Domain],
    derived: &Derived,
    slacks: &[Factor],
) -> Result<bool, AllocError>
    requires slots { length domains.now ≤ 4096 }
    requires normal { All IsNormal domains.now }
    requires bounded { All (IsBoundedRow (length domains.now)) rows.now }
    requires declared { IsDeclared rows.now (length domains.now) derived.now }
    requires slacks { slacks.now ≡ map (slack_factor (round_of derived.now)) derived.now.factors }
    requires small { All (IsSmallFactor (length rows.now)) slacks.now }
    ensures { IfOk result (λ below. IsTrue below ↔ ((slot value : ℕ) → slot < length domains.now
        → 1 ≤ value → Holds (domain_at domains.now slot) value
        → (pos derived.now.down *ℤ entry_at derived.now.entries slot value)
        ≤ℤ (pos derived.now.up *ℤ term_at rows.now derived.now slot value))) }
{
    let table = Table::new(alloc, rows, domains.len(), derived, slacks)?;
    Ok(table.are_below(derived, domains))
}
