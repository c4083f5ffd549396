//! The cut of one row at one slot.
ghost use Rattle.std.specs.Prelude.{◌≡◌, ℕ, List, ◌<◌, ◌≤◌, ◌↔◌, IsTrue, false, length, ◌+ℤ◌, ◌≤ℤ◌};
ghost use Rattle.std.specs.List.{All, Any, list_any, sum_by};
ghost use Rattle.row_kit.specs.Area.{present, with_domain};
ghost use Rattle.row_kit.specs.Bounds.{IsBoundedRow};
ghost use Rattle.row_kit.specs.Domain.{count_of, domain_at, Holds, IsBare, IsNormal};
ghost use Rattle.row_kit.specs.Point.{LiesIn};
ghost use Rattle.row_kit.specs.Points.{points_of};
ghost use Rattle.row_kit.specs.Row.{IsKept, entry_at, row_at};
ghost use Rattle.range_prop.specs.Cut.{cut_domain, is_bare, least_others, shrinks};

use crate::narrow::keep_allowed;
use crate::sums::{least_others, own_entry};
use row_kit::{Area, Program, Row};

/// Keeps of a slot the values for which a row has room, whatever the other slots are: where the slot's own entry plus the sum
/// over all other slots of the least entry over their domains is at most the limit. Where some domain is empty, nothing
/// changes. The answer says whether the domain shrank. It takes no memory, and costs the slots and the entries of the row.
pub fn cut(program: &Program, area: &mut Area, row: u32, slot: u32) -> bool
    requires row { row < length program.now.rows }
    requires slot { slot < length (present area.old) }
    requires slots { length (present area.old) ≡ length program.now.root }
    ensures marks { area.new ≡ with_domain area.old slot
        (cut_domain (row_at program.now.rows row) slot (present area.old)) }
    ensures values { let cutter = row_at program.now.rows row in ¬ Any IsBare (present area.old)
        → (v : ℕ) → Holds (domain_at (present area.new) slot) v
        ↔ (Holds (domain_at (present area.old) slot) v × ((entry_at cutter.entries slot v
        +ℤ least_others cutter.entries slot (present area.old)) ≤ℤ cutter.limit)) }
    ensures bare { Any IsBare (present area.old) → area.new ≡ area.old }
    ensures shrank { result ≡ shrinks (row_at program.now.rows row) slot (present area.old) }
    ensures less { IsTrue result → sum_by count_of (present area.new)
        < sum_by count_of (present area.old) }
    ensures fewer { points_of (present area.new) ≤ points_of (present area.old) }
    ensures points { (point : List ℕ) → LiesIn (present area.old) point
        → IsKept point (row_at program.now.rows row) → LiesIn (present area.new) point }
    ensures slots { length (present area.new) ≡ length (present area.old) }
{
    let _slots = area.slot_count();
    if area.has_empty() {
        return false;
    }
    cut_open(area, program.rows.get(row as usize), slot)
}

// Cuts a row at a slot, where no domain is empty.
fn cut_open(area: &mut Area, row: &Row, slot: u32) -> bool
    requires slot { slot < length (present area.old) }
    requires few { length (present area.old) ≤ 4096 }
    requires bounded { IsBoundedRow (length (present area.old)) row.now }
    requires normal { All IsNormal (present area.old) }
    requires open_ { list_any is_bare (present area.old) ≡ false }
    ensures marks { area.new ≡ with_domain area.old slot
        (cut_domain row.now slot (present area.old)) }
    ensures values { (v : ℕ) → Holds (domain_at (present area.new) slot) v
        ↔ (Holds (domain_at (present area.old) slot) v × ((entry_at row.now.entries slot v
        +ℤ least_others row.now.entries slot (present area.old)) ≤ℤ row.now.limit)) }
    ensures shrank { result ≡ shrinks row.now slot (present area.old) }
    ensures fewer { IsTrue result → sum_by count_of (present area.new)
        < sum_by count_of (present area.old) }
    ensures slots { length (present area.new) ≡ length (present area.old) }
{
    let entries = row.entries.as_slice();
    let own = own_entry(entries, slot);
    let room = row.limit - least_others(entries, slot, area);
    keep_allowed(area, &own, &room)
}
