//! Where a box is split after what its floor forgets.
ghost use Rattle.std.specs.Prelude.{◌≡◌, ◌^◌, ◌<◌, Some, IfSome, IsTrue, length, true, unsigned_abs};
ghost use Rattle.std.specs.List.{All};
ghost use Rattle.row_kit.specs.Area.{present};
ghost use Rattle.row_kit.specs.Domain.{IsOpen, IsSingle};
ghost use Rattle.dual_bound.specs.Trimmed.{trimmed};
ghost use Rattle.branch_tree.specs.Justified.{IsParted, left_by};
ghost use Rattle.branch_tree.specs.laws.Ends.{IsFloor};
ghost use Rattle.branch_tree.specs.laws.Grounds.{program_of};

use crate::picking::pick_of;
use crate::reached::Ground;
use dual_bound::{Cert, trim};
use row_kit::Area;
use row_relax::RowPick;

// A floor has at most 30 digits, as all numbers of a log.
const FLOOR_END: u128 = 1_000_000_000_000_000_000_000_000_000_000;

// How many values the slots have in all.
fn values_left(area: &Area) -> u64 {
    let mut values = 0u64;
    for slot in 0..area.slot_count() {
        values = values.saturating_add(u64::from(area.domain(slot).count()));
    }
    values
}

// Where an area is split, with a floor; nowhere where it has one point or none.
fn pick_some(
    area: &Area,
    given: u32,
    slot: Option<u32>,
    max: Option<u8>,
    floor: i128,
) -> Option<RowPick>
    ensures parted { IfSome result (IsParted given (present area.now)) }
    ensures floor { IfSome result (λ pick. pick.floor ≡ Some floor) }
{
    if area.has_empty() || area.is_point() {
        return None;
    }
    Some(pick_of(area, given, slot, max, Some(floor)))
}

// Where an area is split after what a floor forgets, as it is advised; nowhere where that is nothing, or leaves one point or none.
// The area is afterwards as before.
fn pick_floored(
    ground: &Ground,
    area: &mut Area,
    cert: &Cert,
    floor: &i128,
    advised: &RowPick,
) -> Option<RowPick>
    requires slots { length (present area.old) ≡ length (program_of ground.now).root }
    ensures parted { IfSome result (IsParted ground.now.given
        (trimmed (program_of ground.now) (present area.old) cert.now floor.now)) }
    ensures floor { IfSome result (λ pick. pick.floor ≡ Some floor.now) }
    ensures same { area.new ≡ area.old }
{
    let mark = area.mark();
    let before = values_left(area);
    trim(&ground.rows.program, area, cert, *floor);
    let pick = if values_left(area) < before {
        pick_some(
            area,
            ground.given,
            Some(advised.slot),
            Some(advised.max),
            *floor,
        )
    } else {
        None
    };
    area.back(mark);
    pick
}

// Whether the worth of the best point may be a floor: where splits may have floors, and it has at most 30 digits.
fn may_be_floor(ground: &Ground, worth: &i128) -> bool
    ensures floors { IsTrue result → ground.now.floors ≡ true }
    ensures short { IsTrue result → unsigned_abs worth.now < 10 ^ 30 }
{
    ground.floors && worth.unsigned_abs() < FLOOR_END
}

// Where an area is split after what the best worth forgets, as it is advised; nowhere where that may be no floor, forgets nothing,
// or leaves one point or none. The area is afterwards as before.
fn pick_best(
    ground: &Ground,
    area: &mut Area,
    cert: &Cert,
    best: &Option<i128>,
    advised: &RowPick,
) -> Option<RowPick>
    requires slots { length (present area.old) ≡ length (program_of ground.now).root }
    ensures parted { IfSome result (λ pick. IsParted ground.now.given
        (left_by (program_of ground.now) (present area.old) cert.now pick.floor) pick) }
    ensures floor { IfSome result (λ pick.
        IfSome pick.floor (IsFloor ground.now.floors best.now)) }
    ensures same { area.new ≡ area.old }
{
    match best {
        Some(worth) if may_be_floor(ground, worth) => {
            pick_floored(ground, area, cert, worth, advised)
        }
        _ => None,
    }
}

// Where an area is split that has more than one point, as it is advised: after what the best worth forgets, as a floor, where that
// may be one and leaves the split at the same slot and value; else without a floor. The area is afterwards as before.
pub(crate) fn pick_left(
    ground: &Ground,
    area: &mut Area,
    cert: &Cert,
    best: &Option<i128>,
    slot: Option<u32>,
    max: Option<u8>,
) -> RowPick
    requires slots { length (present area.old) ≡ length (program_of ground.now).root }
    requires each_open { All IsOpen (present area.old) }
    requires more { ¬ All IsSingle (present area.old) }
    ensures parted { IsParted ground.now.given
        (left_by (program_of ground.now) (present area.old) cert.now result.floor) result }
    ensures floor { IfSome result.floor (IsFloor ground.now.floors best.now) }
    ensures same { area.new ≡ area.old }
{
    let plain = pick_of(area, ground.given, slot, max, None);
    match pick_best(ground, area, cert, best, &plain) {
        Some(pick) if pick.slot == plain.slot && pick.max == plain.max => pick,
        _ => plain,
    }
}
