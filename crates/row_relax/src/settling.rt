//! What an area settles to: the worth of the only point of its first slots.
ghost use Rattle.std.specs.Prelude.{◌≡◌, ◌≤◌, ◌↔◌, length, take, IsTrue};
ghost use Rattle.std.specs.List.{All};
ghost use Rattle.row_kit.specs.Area.{present};
ghost use Rattle.row_kit.specs.Domain.{IsSingle};
ghost use Rattle.row_kit.specs.Point.{IsLawful};
ghost use Rattle.row_relax.specs.Settle.{cap_at, only_value, only_point, settled};

use proof_tree::Capped;
use row_kit::{Area, Domain, MOST_SLOTS, Program, is_lawful, worth};

/// The most slots of a point that takes the less room of two sizes.
pub const FEW_SLOTS: usize = 512;

/// The worth of the only point of an area's first slots, as many as the program has: `Bad` exactly where some of their domains does
/// not have exactly one value, `NoPoint` exactly where the point does not lie in the root or breaks a row. It takes no memory. The
/// values are to be no part of the frame of a caller.
#[inline(never)]
pub fn settle(program: &Program, area: &Area) -> Capped
    ensures { result ≡ settled program.now (take (length program.now.root) (present area.now)) }
{
    let slots = first_slots(program, area);
    if !first_are_single(area, slots) {
        return Capped::Bad;
    }
    let count = slots as usize;
    if count <= FEW_SLOTS {
        cap_of(program, area, slots, &mut [0; FEW_SLOTS][..count])
    } else {
        cap_of(program, area, slots, &mut [0; MOST_SLOTS][..count])
    }
}

/// How many slots of an area are its first ones: as many as the program has, where the area has so many.
pub fn first_slots(program: &Program, area: &Area) -> u32
    ensures within { result ≤ length (present area.now) }
    ensures few { result ≤ length program.now.root }
    ensures first { take result (present area.now)
        ≡ take (length program.now.root) (present area.now) }
{
    let slots = area.slot_count();
    let wanted = program.root.len() as u32;
    if wanted < slots { wanted } else { slots }
}

/// Whether each of so many first slots of an area has exactly one value.
pub fn first_are_single(area: &Area, slots: u32) -> bool
    requires { slots ≤ length (present area.now) }
    ensures { IsTrue result ↔ All IsSingle (take slots (present area.now)) }
{
    for slot in 0..slots {
        if area.domain(slot).count() != 1 {
            return false;
        }
    }
    true
}

// The worth of the only point of so many first slots of an area, whose values are filled in.
fn cap_of(program: &Program, area: &Area, slots: u32, point: &mut [u8]) -> Capped
    requires within { slots ≤ length (present area.now) }
    requires places { length point.old ≡ slots }
    ensures { result ≡ cap_at program.now (only_point (take slots (present area.now))) }
{
    put_values(area, slots, point);
    cap_at(program, point, is_lawful(program, point))
}

/// The worth of a point, where it is lawful.
pub fn cap_at(program: &Program, point: &[u8], lawful: bool) -> Capped
    requires { IsTrue lawful ↔ IsLawful program.now point.now }
    ensures { result ≡ cap_at program.now point.now }
{
    if lawful {
        Capped::AtMost(worth(program, point))
    } else {
        Capped::NoPoint
    }
}

/// Fills in the values of so many first slots of an area that has a value in each; where a slot has several values, the least one.
pub fn put_values(area: &Area, slots: u32, point: &mut [u8])
    requires within { slots ≤ length (present area.now) }
    requires places { length point.old ≡ slots }
    ensures { point.new ≡ only_point (take slots (present area.now)) }
{
    for slot in 0..slots {
        point[slot as usize] = only_value(area.domain(slot));
    }
}

// The only value of a domain, or the least of several.
fn only_value(domain: Domain) -> u8
    ensures { result ≡ only_value domain }
{
    if domain.zero { 0 } else { domain.lo }
}
