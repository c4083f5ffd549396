//! Domains that are left, and what they share with a root.
ghost use Rattle.std.specs.Prelude.{◌≡◌, ◌+◌, ◌<◌, length, take, IfOk};
ghost use Rattle.std.specs.List.{All};
ghost use Rattle.row_kit.specs.Area.{present};
ghost use Rattle.row_kit.specs.Domain.{IsNormal};
ghost use Rattle.derivations.specs.Larger.{met};

use row_kit::{Area, Domain, List};
use std::alloc::{AllocError, Global};

/// The present domains of an area.
pub fn domains_left(alloc: Global, area: &Area) -> Result<List<Domain>, AllocError>
    ensures left { IfOk result (λ domains. domains ≡ present area.now) }
    ensures normal { IfOk result (λ domains. All IsNormal domains) }
{
    let slots = area.slot_count();
    let mut domains = List::new(alloc);
    for slot in 0..slots {
        domains.push(area.domain(slot))?;
    }
    Ok(domains)
}

// The values that two lists of domains share, slot by slot.
pub fn meet(alloc: Global, one: &[Domain], other: &[Domain]) -> Result<List<Domain>, AllocError>
    requires same_slots { length other.now ≡ length one.now }
    requires normal { All IsNormal one.now }
    ensures met { IfOk result (λ domains. domains ≡ met one.now other.now) }
    ensures normal { IfOk result (λ domains. All IsNormal domains) }
{
    let mut domains = List::new(alloc);
    for slot in 0..one.len() {
        domains.push(one[slot].shared(other[slot]))?;
    }
    Ok(domains)
}
