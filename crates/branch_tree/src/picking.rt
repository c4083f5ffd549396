//! Where a box is split.
ghost use Rattle.std.specs.Prelude.{◌≡◌, ◌<◌, ◌≤◌, ◌↔◌, IsTrue, IfSome, false};
ghost use Rattle.std.specs.List.{All};
ghost use Rattle.row_kit.specs.Area.{present};
ghost use Rattle.row_kit.specs.Domain.{IsNormal, IsOpen, IsSingle, count_of};
ghost use Rattle.branch_tree.specs.Justified.{IsParted};
ghost use Rattle.branch_tree.specs.Splits.{halvings, split_value, splits_of, step_at};
ghost use Rattle.branch_tree.specs.laws.Picks.{HasTwo, IsAllowed, IsAsAdvised};

use row_kit::{Area, Domain};
use row_relax::RowPick;

// The value at which a domain is split that is not a sum's: 0 where it holds 0 and other values, else the middle of its values.
fn split_value(domain: Domain) -> u8
    requires normal { IsNormal domain }
    requires two { 2 ≤ count_of domain }
    ensures value { result ≡ split_value domain }
    ensures allowed { IsAllowed domain result }
{
    if domain.zero && domain.lo <= domain.hi {
        0
    } else {
        domain.lo + (domain.hi - domain.lo) / 2
    }
}

// 1 where a number is above another.
fn step_at(least: u32, number: u32) -> u32
    ensures { result ≡ step_at least number }
{
    if least < number { 1 } else { 0 }
}

// How often so many values can be halved.
fn halvings(values: u32) -> u32
    ensures count { result ≡ halvings values }
    ensures few { result ≤ 8 }
{
    step_at(1, values)
        + step_at(2, values)
        + step_at(4, values)
        + step_at(8, values)
        + step_at(16, values)
        + step_at(32, values)
        + step_at(64, values)
        + step_at(128, values)
}

// How often a domain can be split: once at 0, and as often as its other values can be halved.
pub(crate) fn splits_of(domain: Domain) -> u32
    ensures { result ≡ splits_of domain }
{
    let values = (u32::from(domain.hi) + 1).saturating_sub(u32::from(domain.lo));
    let halved = halvings(values);
    if domain.zero && domain.lo <= domain.hi {
        1 + halved
    } else {
        halved
    }
}

// Whether a part of a domain has values, and can be split less often than the domain.
fn is_lesser(part: Domain, whole: Domain) -> bool
    ensures { IsTrue result ↔ (IsOpen part × (splits_of part < splits_of whole)) }
{
    part.count() > 0 && splits_of(part) < splits_of(whole)
}

// Whether a domain may be split at a value: both parts have values, and can be split less often than the domain.
fn is_allowed(domain: Domain, value: u8) -> bool
    requires { IsNormal domain }
    ensures { IsTrue result ↔ IsAllowed domain value }
{
    value < 255
        && is_lesser(domain.shared(Domain::new(true, 1, value)), domain)
        && is_lesser(domain.shared(Domain::new(false, value + 1, 255)), domain)
}

// The value at which a domain may be split that is nearest to an advised one, on the way from there to its split value.
fn nearest(domain: Domain, advised: u8) -> u8
    requires normal { IsNormal domain }
    requires two { 2 ≤ count_of domain }
    ensures allowed { IsAllowed domain result }
    ensures own { IsAllowed domain advised → result ≡ advised }
{
    let last = split_value(domain);
    let mut value = advised;
    while value != last && !is_allowed(domain, value) {
        value = if value < last { value + 1 } else { value - 1 };
    }
    value
}

// The value at which a slot's domain is split: a sum's where it is advised, or nearest to there; else the split value.
fn value_of(domain: Domain, is_sum: bool, advised: Option<u8>) -> u8
    requires normal { IsNormal domain }
    requires two { 2 ≤ count_of domain }
    ensures allowed { IsAllowed domain result }
    ensures given { is_sum ≡ false → result ≡ split_value domain }
    ensures own { IfSome advised
        (λ value. IsTrue is_sum → IsAllowed domain value → result ≡ value) }
{
    match advised {
        Some(value) if is_sum => nearest(domain, value),
        _ => split_value(domain),
    }
}

// Whether a slot is there, and its domain has two values or more.
fn has_two(area: &Area, slot: u32) -> bool
    ensures { IsTrue result ↔ HasTwo (present area.now) slot }
{
    slot < area.slot_count() && area.domain(slot).count() >= 2
}

// The first slot whose domain has two values or more.
fn first_slot(area: &Area) -> u32
    requires each_open { All IsOpen (present area.now) }
    requires more { ¬ All IsSingle (present area.now) }
    ensures { HasTwo (present area.now) result }
{
    for slot in 0..area.slot_count() {
        if has_two(area, slot) {
            return slot;
        }
    }
    unreachable!()
}

// Which slot is split, and the value that is advised there: the advised slot where its domain has two values or more, else the
// first that has, where no value is advised.
fn slot_of(area: &Area, slot: Option<u32>, max: Option<u8>) -> (u32, Option<u8>)
    requires each_open { All IsOpen (present area.now) }
    requires more { ¬ All IsSingle (present area.now) }
    ensures two { HasTwo (present area.now) result.0 }
    ensures own { IfSome slot (λ place. HasTwo (present area.now) place → result ≡ (place, max)) }
{
    match slot {
        Some(slot) if has_two(area, slot) => (slot, max),
        _ => (first_slot(area), None),
    }
}

// Where an area is split that has more than one point: at the advised slot where its domain has two values or more, else at the
// first that has. Slots from the number `given` on are sums: there the advised value counts.
pub(crate) fn pick_of(
    area: &Area,
    given: u32,
    slot: Option<u32>,
    max: Option<u8>,
    floor: Option<i128>,
) -> RowPick
    requires each_open { All IsOpen (present area.now) }
    requires more { ¬ All IsSingle (present area.now) }
    ensures parted { IsParted given (present area.now) result }
    ensures floor { result.floor ≡ floor }
    ensures own { IsAsAdvised given (present area.now) slot max floor result }
{
    let (slot, max) = slot_of(area, slot, max);
    RowPick {
        slot,
        max: value_of(area.domain(slot), given <= slot, max),
        floor,
    }
}
