//! What a line begins that stands where a setup may.
ghost use Rattle.std.specs.Prelude.{◌≡◌, ◌≤◌, IfSome, length, true};
ghost use Rattle.log_lines.specs.Grammar.{follows};
ghost use Rattle.sum_lines.specs.Line.{IsShort};
ghost use Rattle.setup_lines.specs.Front.{setup_defect};
ghost use Rattle.setup_lines.specs.Setups.{has_setup_room, with_setup};
ghost use Rattle.setup_lines.specs.laws.Walk.{IsBegun, IsBegunUnit};

use crate::setups::SetupSize;
use log_lines::Limits;

/// A unit is not there.
const NO_UNIT: u8 = 24;

/// With one setup more there would be too many slots or rows.
const NO_ROOM: u8 = 21;

/// The most slots of a program with those of its sums and setups.
const MOST_SLOTS: u64 = 4_096;

/// The most rows of a program with those of its sums and setups.
const MOST_ROWS: u64 = 400_000;

// The setup of a unit; the kind of its defect; or nothing.
#[derive(Clone, Copy)]
pub(crate) enum Begun {
    Unit(u32),
    Bad(u8),
    Nothing,
}

// What the line of this unit begins after the last one, where the limits are those with the setups before.
pub(crate) fn begin_setup(
    limits: &Limits,
    sizes: &[SetupSize],
    above: Option<u32>,
    seen: Option<u128>,
) -> Begun
    requires units { length sizes.now ≤ 65536 }
    requires short { IfSome seen IsShort }
    ensures { IsBegun limits.now sizes.now above seen result }
{
    match seen {
        Some(unit) => {
            if follows(above, unit) {
                set_up(limits, sizes, unit)
            } else {
                Begun::Nothing
            }
        }
        None => Begun::Nothing,
    }
}

// What the line of a unit that follows the last one begins.
fn set_up(limits: &Limits, sizes: &[SetupSize], unit: u128) -> Begun
    requires units { length sizes.now ≤ 65536 }
    ensures { IsBegunUnit limits.now sizes.now unit result }
{
    match setup_defect(limits, sizes, unit) {
        Some(kind) => Begun::Bad(kind),
        None => Begun::Unit(unit as u32),
    }
}

// The kind of the defect of a unit's setup.
fn setup_defect(limits: &Limits, sizes: &[SetupSize], unit: u128) -> Option<u8>
    ensures { result ≡ setup_defect limits.now sizes.now unit }
{
    if unit >= sizes.len() as u128 {
        Some(NO_UNIT)
    } else if has_room(limits, &sizes[unit as usize]) {
        None
    } else {
        Some(NO_ROOM)
    }
}

// Whether there is room for a setup of this size more.
fn has_room(limits: &Limits, size: &SetupSize) -> bool
    ensures { result ≡ has_setup_room (with_setup limits.now size.now) }
{
    u64::from(limits.slots) + u64::from(size.slots) <= MOST_SLOTS
        && u64::from(limits.rows) + u64::from(size.rows) <= MOST_ROWS
}

// The limits with a setup of this size more.
pub(crate) fn with_setup(limits: &Limits, size: &SetupSize) -> Limits
    requires { has_setup_room (with_setup limits.now size.now) ≡ true }
    ensures { result ≡ with_setup limits.now size.now }
{
    Limits {
        rows: limits.rows + size.rows,
        slots: limits.slots + size.slots,
        points: limits.points,
        depth: limits.depth,
    }
}

// Whether the unit is above the last one.
fn follows(above: Option<u32>, unit: u128) -> bool
    ensures { result ≡ follows above unit }
{
    match above {
        Some(last) => u128::from(last) < unit,
        None => true,
    }
}
