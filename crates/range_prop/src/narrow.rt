//! Domains that keep the values with room.
ghost use Rattle.std.specs.Prelude.{◌≡◌, ℕ, ◌<◌, ◌≤◌, ◌^◌, ◌↔◌, not, IsTrue, length, pos, ◌+ℤ◌, ◌≤ℤ◌, int_le, unsigned_abs};
ghost use Rattle.std.specs.List.{sum_by};
ghost use Rattle.row_kit.specs.Area.{present, with_domain, is_same};
ghost use Rattle.row_kit.specs.Domain.{count_of, domain_at, Holds, IsNormal, IsOpen};
ghost use Rattle.row_kit.specs.Row.{counted};
ghost use Rattle.range_prop.specs.Cut.{kept_of, least_counted};
ghost use Rattle.range_prop.specs.laws.Sums.{IsLight};

use crate::allowed::allowed;
use crate::spread::spread_of;
use row_kit::{Area, Entry};

// Keeps the values of an entry's slot at which it counts at most the room. The answer says whether the domain shrank.
pub fn keep_allowed(area: &mut Area, entry: &Entry, room: &i128) -> bool
    requires slot { entry.now.slot < length (present area.old) }
    requires normal { IsNormal (domain_at (present area.old) entry.now.slot) }
    requires light { IsLight entry.now }
    requires small { unsigned_abs room.now ≤ 2 ^ 60 }
    ensures marks { area.new ≡ with_domain area.old entry.now.slot
        (kept_of (λ v. int_le (counted entry.now v) room.now)
        (domain_at (present area.old) entry.now.slot)) }
    ensures values { (v : ℕ) → Holds (domain_at (present area.new) entry.now.slot) v
        ↔ (Holds (domain_at (present area.old) entry.now.slot) v
        × (counted entry.now v ≤ℤ room.now)) }
    ensures shrank { result ≡ not (is_same (domain_at (present area.old) entry.now.slot)
        (kept_of (λ v. int_le (counted entry.now v) room.now)
        (domain_at (present area.old) entry.now.slot))) }
    ensures fewer { IsTrue result → sum_by count_of (present area.new)
        < sum_by count_of (present area.old) }
    ensures slots { length (present area.new) ≡ length (present area.old) }
{
    let kept = allowed(entry, room);
    let before = area.mark();
    area.keep(entry.slot, kept.zero, kept.lo, kept.hi);
    area.mark() != before
}

// Keeps the values of an entry's slot at which it counts at most the slack more than at its least. The domain keeps a value,
// and the least entry stays. The answer says whether the domain shrank.
pub fn keep_near(area: &mut Area, entry: &Entry, slack: &i128) -> bool
    requires slot { entry.now.slot < length (present area.old) }
    requires light { IsLight entry.now }
    requires open_ { IsOpen (domain_at (present area.old) entry.now.slot) }
    requires least { pos 0 ≤ℤ slack.now }
    requires small { unsigned_abs slack.now ≤ 2 ^ 50 }
    ensures marks { area.new ≡ with_domain area.old entry.now.slot
        (kept_of (λ v. int_le (counted entry.now v)
        (slack.now +ℤ least_counted (present area.old) entry.now))
        (domain_at (present area.old) entry.now.slot)) }
    ensures shrank { result ≡ not (is_same (domain_at (present area.old) entry.now.slot)
        (domain_at (present area.new) entry.now.slot)) }
    ensures near { (v : ℕ) → Holds (domain_at (present area.new) entry.now.slot) v
        → counted entry.now v ≤ℤ (slack.now +ℤ least_counted (present area.old) entry.now) }
    ensures least { least_counted (present area.new) entry.now
        ≡ least_counted (present area.old) entry.now }
    ensures open_ { IsOpen (domain_at (present area.new) entry.now.slot) }
    ensures slots { length (present area.new) ≡ length (present area.old) }
{
    let spread = spread_of(entry, &area.domain(entry.slot));
    let room = *slack + spread.least;
    if spread.most <= room {
        return false;
    }
    keep_allowed(area, entry, &room)
}
