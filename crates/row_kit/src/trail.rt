//! The trail of an area: what its domains were.
ghost use Rattle.std.specs.Prelude.{◌≡◌, ℕ, ◌+◌, ◌*◌, ◌≤◌, ◌<◌, length, take, false, IfOk, slice_index_or, slice_set, vec_len, vec_capacity, []};
ghost use Rattle.std.specs.List.{sum_by};
ghost use Rattle.row_kit.specs.Area.{history, is_same, with_domain, IsSound};
ghost use Rattle.row_kit.specs.Domain.{count_of, domain_at, IsNormal};

use crate::domain::Domain;
use crate::former::Former;
use std::alloc::{AllocError, Global};

// An empty trail with room for as many changes as the domains have values.
pub fn reserve_trail(alloc: Global, domains: &[Domain]) -> Result<Vec<Former>, AllocError>
    requires { length domains.now ≤ 4096 }
    ensures items { IfOk result (λ trail. trail.items ≡ []) }
    ensures room { IfOk result (λ trail. vec_capacity trail ≡ sum_by count_of domains.now) }
    ensures small { IfOk result (λ trail. vec_capacity trail ≤ 257 * length domains.now) }
{
    let mut room = 0usize;
    for domain in domains {
        room += domain.count() as usize;
    }
    Vec::with_capacity(alloc, room)
}

// Gives a slot a domain, and puts what it had on the trail, unless it had that one already.
pub fn put_domain(domains: &mut Vec<Domain>, trail: &mut Vec<Former>, slot: u32, next: Domain)
    requires sound { IsSound domains.old.items trail.old.items (vec_capacity trail.old) }
    requires slot { slot < length domains.old.items }
    requires normal { IsNormal next }
    requires fewer { is_same (domain_at domains.old.items slot) next ≡ false
        → count_of next < count_of (domain_at domains.old.items slot) }
    ensures sound { IsSound domains.new.items trail.new.items (vec_capacity trail.new) }
    ensures marks { history domains.new.items trail.new.items
        ≡ with_domain (history domains.old.items trail.old.items) slot next }
    ensures domains { domains.new.items ≡ slice_set domains.old.items slot next }
{
    let former = domains[slot as usize];
    if !former.is_same(&next) {
        trail.push_reserved(Former {
            slot,
            domain: former,
        });
        domains[slot as usize] = next;
    }
}

// Takes the newest changes back until as many are left as the mark says.
pub fn undo_to(domains: &mut Vec<Domain>, trail: &mut Vec<Former>, mark: u32)
    requires sound { IsSound domains.old.items trail.old.items (vec_capacity trail.old) }
    requires mark { mark ≤ vec_len trail.old }
    ensures sound { IsSound domains.new.items trail.new.items (vec_capacity trail.new) }
    ensures marks { history domains.new.items trail.new.items
        ≡ take (mark + 1) (history domains.old.items trail.old.items) }
    ensures slots { length domains.new.items ≡ length domains.old.items }
{
    while trail.len() > mark as usize {
        if let Some(change) = trail.pop() {
            domains[change.slot as usize] = change.domain;
        }
    }
}
