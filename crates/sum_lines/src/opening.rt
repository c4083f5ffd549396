//! What a line begins that stands where a sum may.
ghost use Rattle.std.specs.Prelude.{◌≡◌, ◌≤◌, ℕ, ℤ};
ghost use Rattle.sum_lines.specs.Front.{has_room, is_there, opening_defect};
ghost use Rattle.sum_lines.specs.Head.{IsThere, most_rows, most_slots};
ghost use Rattle.sum_lines.specs.declared.line.HeadLine.TheVariants as line;
ghost use Rattle.sum_lines.specs.laws.Walk.{IsOpened, MayBeSeen};

use crate::line::HeadLine;
use crate::walk::Seen;
use log_lines::Limits;
use log_lines::kinds::ROW_NUMBER;
use row_kit::List;
use std::alloc::Global;
use sum_slots::Sum;

/// With one sum more there would be too many slots or rows.
pub(crate) const TOO_MANY_SUMS: u8 = 21;

// A sum without its terms, which are to be so many; its defect; or nothing.
#[derive(Drop)]
pub(crate) enum Opened {
    Sum { sum: Sum, count: u32 },
    Bad(u8),
    Nothing,
}

// What the line that is seen after so many sums begins.
pub(crate) fn open_sum(
    alloc: Global,
    version: u8,
    limits: &Limits,
    before: usize,
    seen: Seen,
) -> Opened
    requires slots { limits.now.slots ≤ 4096 }
    requires rows { limits.now.rows ≤ 400000 }
    requires before { before ≤ 4096 }
    requires may_be { MayBeSeen seen }
    ensures { IsOpened version limits.now before seen result }
{
    match seen {
        Seen::Line(
            HeadLine::Sum {
                width,
                offset,
                low,
                high,
                count,
            },
        ) if count <= u128::from(limits.slots) => {
            match opening_defect(version, limits, before, low, high) {
                Some(kind) => Opened::Bad(kind),
                None => Opened::Sum {
                    sum: Sum {
                        width: width as u32,
                        offset: offset as i64,
                        low: narrow(low),
                        high: narrow(high),
                        terms: List::new(alloc),
                    },
                    count: count as u32,
                },
            }
        }
        _ => Opened::Nothing,
    }
}

// The kind of the defect of a sum line with these rows after so many sums.
fn opening_defect(
    version: u8,
    limits: &Limits,
    before: usize,
    low: Option<u128>,
    high: Option<u128>,
) -> Option<u8>
    requires slots { limits.now.slots ≤ 4096 }
    requires rows { limits.now.rows ≤ 400000 }
    requires before { before ≤ 4096 }
    ensures { (width : ℕ) (offset : ℤ) (count : ℕ)
        → result ≡ opening_defect version limits.now before (line.Sum width offset low high count) }
{
    if !is_there(limits.rows, low) || !is_there(limits.rows, high) {
        Some(ROW_NUMBER)
    } else if has_room(version, limits, before as u64 + 1) {
        None
    } else {
        Some(TOO_MANY_SUMS)
    }
}

// Whether a head of a version has room for so many sums.
fn has_room(version: u8, limits: &Limits, count: u64) -> bool
    requires slots { limits.now.slots ≤ 4096 }
    requires rows { limits.now.rows ≤ 400000 }
    requires count { count ≤ 4097 }
    ensures { result ≡ has_room version limits.now count }
{
    u64::from(limits.slots) + count <= most_slots(version)
        && u64::from(limits.rows) + 2 * count <= most_rows(version)
}

// The most slots of a program with those of its sums.
fn most_slots(version: u8) -> u64
    ensures { result ≡ most_slots version }
{
    if version == 4 { 4_096 } else { 512 }
}

// The most rows of a program with those of its sums.
fn most_rows(version: u8) -> u64
    ensures { result ≡ most_rows version }
{
    if version == 4 { 400_000 } else { 45_904 }
}

// Whether the row is there, where one is named.
fn is_there(rows: u32, row: Option<u128>) -> bool
    ensures { result ≡ is_there rows row }
{
    match row {
        Some(row) => row < u128::from(rows),
        None => true,
    }
}

// The number of a row that is there.
fn narrow(row: Option<u128>) -> Option<u32>
    requires { IsThere 400000 row }
    ensures { result ≡ row }
{
    match row {
        Some(row) => Some(row as u32),
        None => None,
    }
}
