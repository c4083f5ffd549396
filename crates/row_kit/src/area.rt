//! Areas: a domain for each slot, at each mark.
ghost use Rattle.std.specs.Prelude.{◌≡◌, ℕ, ◌+◌, ◌-◌, ◌≤◌, ◌<◌, ◌↔◌, length, take, IsTrue, IfOk, slice_index_or, [], ◌∷◌, ◌++◌};
ghost use Rattle.std.specs.List.{All, Any};

use crate::counts::{are_single, has_bare};
use crate::domain::Domain;
use crate::former::Former;
use crate::program::Program;
use crate::trail::{put_domain, reserve_trail, undo_to};
use std::alloc::{AllocError, Global};
use std::marker::Model;

/// One domain for each slot, with the domains at earlier marks. Contracts see it as the list of its domains at the marks 0 to
/// its own, the present ones last.
///
/// A change of a slot takes at least one value away, so the trail has room for each change that can come, and no call but
/// `new` takes memory. The number of slots never changes, and each domain is normal.
#[derive(Drop)]
pub struct Area {
    domains: Vec<Domain>,
    trail: Vec<Former>,
}

impl Model for Area {
    ghost use Rattle.std.specs.Prelude.{List, vec_capacity};
    ghost use Rattle.row_kit.specs.declared.domain.Domain.{Domain};
    ghost use Rattle.row_kit.specs.Area.{history, IsSound};

    ghost Value = { List (List Domain) };

    ghost view = { λ a. history a.domains.items a.trail.items };

    ghost invariant = { λ a. IsSound a.domains.items a.trail.items (vec_capacity a.trail) };
}

impl Area {
    ghost use Rattle.row_kit.specs.Domain.{domain_at, Holds, IsNormal, IsBare, IsSingle, shared, up_to, over, normal};
    ghost use Rattle.row_kit.specs.Area.{present, with_domain};
    ghost use Rattle.row_kit.specs.Points.{kept_at, points_of};

    /// The domains of the root, at mark 0.
    pub fn new(alloc: Global, program: &Program) -> Result<Area, AllocError>
        ensures { IfOk result (λ area. area ≡ program.now.root ∷ []) }
    {
        let domains = Vec::from_slice(alloc, program.root.as_slice())?;
        let trail = reserve_trail(alloc, domains.as_slice())?;
        Ok(Area { domains, trail })
    }

    /// The number of slots.
    pub fn slot_count(&self) -> u32
        ensures count { result ≡ length (present self.now) }
        ensures normal { All IsNormal (present self.now) }
    {
        self.domains.len() as u32
    }

    /// The present domain of a slot. It is normal.
    pub fn domain(&self, slot: u32) -> Domain
        requires { slot < length (present self.now) }
        ensures value { result ≡ domain_at (present self.now) slot }
        ensures normal { IsNormal result }
    {
        self.domains[slot as usize]
    }

    /// Keeps the values of a slot up to m. With the values above m that makes two parts, which share out the points.
    pub fn at_most(&mut self, slot: u32, m: u8)
        requires { slot < length (present self.old) }
        ensures values { (v : ℕ) → Holds (domain_at (present self.new) slot) v
            ↔ (Holds (domain_at (present self.old) slot) v × (v ≤ m)) }
        ensures marks { self.new ≡ with_domain self.old slot
            (shared (domain_at (present self.old) slot) (up_to m)) }
        ensures split { points_of (present self.new)
            + points_of (kept_at (present self.old) slot (over m)) ≡ points_of (present self.old) }
        ensures slots { length (present self.new) ≡ length (present self.old) }
    {
        self.narrow(slot, Domain::up_to(m));
    }

    /// Keeps the values of a slot above m. With the values up to m that makes two parts, which share out the points.
    pub fn above(&mut self, slot: u32, m: u8)
        requires { slot < length (present self.old) }
        ensures values { (v : ℕ) → Holds (domain_at (present self.new) slot) v
            ↔ (Holds (domain_at (present self.old) slot) v × (m < v)) }
        ensures marks { self.new ≡ with_domain self.old slot
            (shared (domain_at (present self.old) slot) (over m)) }
        ensures split { points_of (kept_at (present self.old) slot (up_to m))
            + points_of (present self.new) ≡ points_of (present self.old) }
        ensures slots { length (present self.new) ≡ length (present self.old) }
    {
        self.narrow(slot, Domain::over(m));
    }

    /// Keeps the values of a slot that lie in `lo` to `hi`, and 0 where `zero` is true.
    pub fn keep(&mut self, slot: u32, zero: bool, lo: u8, hi: u8)
        requires slot { slot < length (present self.old) }
        requires lo { 1 ≤ lo }
        ensures values { (v : ℕ) → Holds (domain_at (present self.new) slot) v
            ↔ (Holds (domain_at (present self.old) slot) v × Holds (normal zero lo hi) v) }
        ensures marks { self.new ≡ with_domain self.old slot
            (shared (domain_at (present self.old) slot) (normal zero lo hi)) }
        ensures fewer { points_of (present self.new) ≤ points_of (present self.old) }
        ensures slots { length (present self.new) ≡ length (present self.old) }
    {
        self.narrow(slot, Domain::new(zero, lo, hi));
    }

    /// The mark: how often a slot has been changed since mark 0, changes taken back aside.
    pub fn mark(&self) -> u32
        ensures { result + 1 ≡ length self.now }
    {
        self.trail.len() as u32
    }

    /// Gives each slot the domain that it had at a mark. The domains at earlier marks stay.
    pub fn back(&mut self, mark: u32)
        requires { mark < length self.old }
        ensures marks { self.new ≡ take (mark + 1) self.old }
        ensures slots { length (present self.new) ≡ length (present self.old) }
    {
        undo_to(&mut self.domains, &mut self.trail, mark);
    }

    /// Whether each domain has one value: then there is one point.
    pub fn is_point(&self) -> bool
        ensures single { IsTrue result ↔ All IsSingle (present self.now) }
        ensures one { IsTrue result → points_of (present self.now) ≡ 1 }
    {
        are_single(self.domains.as_slice())
    }

    /// Whether some domain has no value: exactly then there is no point.
    pub fn has_empty(&self) -> bool
        ensures bare { IsTrue result ↔ Any IsBare (present self.now) }
        ensures none { IsTrue result ↔ (points_of (present self.now) ≡ 0) }
    {
        has_bare(self.domains.as_slice())
    }

    // Keeps the values of a slot that the other domain holds.
    fn narrow(&mut self, slot: u32, other: Domain)
        requires slot { slot < length (present self.old) }
        requires positive { 1 ≤ other.lo }
        ensures normal { IsNormal (domain_at (present self.old) slot) }
        ensures domains { present self.new ≡ kept_at (present self.old) slot other }
        ensures values { (v : ℕ) → Holds (domain_at (present self.new) slot) v
            ↔ (Holds (domain_at (present self.old) slot) v × Holds other v) }
        ensures marks { self.new ≡ with_domain self.old slot
            (shared (domain_at (present self.old) slot) other) }
        ensures slots { length (present self.new) ≡ length (present self.old) }
    {
        let next = self.domains[slot as usize].shared(other);
        put_domain(&mut self.domains, &mut self.trail, slot, next);
    }
}
