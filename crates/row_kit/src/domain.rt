//! Domains: the values that a slot may have.
ghost use Rattle.std.specs.Prelude.{◌≡◌, ℕ, ◌+◌, ◌≤◌, ◌<◌, ◌↔◌, ◌==◌, length, IsTrue};
ghost use Rattle.std.specs.List.{Contains};

/// A set of values of one slot: `lo` to `hi`, and 0 where `zero` is true. It is normal where `lo` is 1 or more, and, where no
/// value of 1 or more is held, `lo` is 1 and `hi` is 0.
#[derive(Clone, Copy, PartialEq, Eq, Debug)]
pub struct Domain {
    pub zero: bool,
    pub lo: u8,
    pub hi: u8,
}

impl Domain {
    ghost use Rattle.row_kit.specs.Domain.{Holds, IsNormal, count_of, values_of, shared, up_to, over, normal};
    ghost use Rattle.row_kit.specs.Area.{is_same};

    /// The normal domain of the values from `lo` to `hi`, and of 0 where `zero` is true.
    pub fn new(zero: bool, lo: u8, hi: u8) -> Domain
        requires { 1 ≤ lo }
        ensures written { result ≡ normal zero lo hi }
        ensures normal { IsNormal result }
        ensures values { (v : ℕ) → Holds result v
            ↔ Holds (record { zero = zero; lo = lo; hi = hi }) v }
    {
        if lo <= hi {
            Domain { zero, lo, hi }
        } else {
            Domain { zero, lo: 1, hi: 0 }
        }
    }

    /// The number of its values.
    #[tactic(auto, using(crate::proofs::Domains::counts))]
    pub fn count(&self) -> u32
        ensures count { result ≡ count_of self.now }
        ensures values { result ≡ length (values_of self.now) }
        ensures few { result ≤ 257 }
        ensures held { 1 ≤ self.now.lo → (v : ℕ) → Contains (values_of self.now) v
            ↔ Holds self.now v }
    {
        let above = if self.lo <= self.hi {
            u32::from(self.hi - self.lo) + 1
        } else {
            0
        };
        if self.zero { above + 1 } else { above }
    }

    /// Whether it is normal.
    pub fn is_normal(&self) -> bool
        ensures { IsTrue result ↔ IsNormal self.now }
    {
        self.lo >= 1 && (self.lo <= self.hi || (self.lo == 1 && self.hi == 0))
    }

    /// Whether it holds a value.
    pub fn holds(&self, value: u8) -> bool
        ensures { IsTrue result ↔ Holds self.now value }
    {
        if value == 0 {
            self.zero
        } else {
            self.lo <= value && value <= self.hi
        }
    }

    /// The values that two domains share.
    pub fn shared(self, other: Domain) -> Domain
        ensures written { result ≡ shared self other }
        ensures values { (v : ℕ) → Holds result v ↔ (Holds self v × Holds other v) }
        ensures normal { IsNormal self → IsNormal result }
    {
        let zero = self.zero && other.zero;
        let lo = if self.lo < other.lo {
            other.lo
        } else {
            self.lo
        };
        let hi = if self.hi < other.hi {
            self.hi
        } else {
            other.hi
        };
        if lo <= hi {
            Domain { zero, lo, hi }
        } else {
            Domain { zero, lo: 1, hi: 0 }
        }
    }

    // The values up to m.
    pub(crate) fn up_to(m: u8) -> Domain
        ensures written { result ≡ up_to m }
        ensures values { (v : ℕ) → Holds result v ↔ (v ≤ m) }
    {
        Domain::new(true, 1, m)
    }

    // The values of a byte above m.
    pub(crate) fn over(m: u8) -> Domain
        ensures written { result ≡ over m }
        ensures values { (v : ℕ) → Holds result v ↔ ((m < v) × (v ≤ 255)) }
    {
        if m == 255 {
            Domain {
                zero: false,
                lo: 1,
                hi: 0,
            }
        } else {
            Domain {
                zero: false,
                lo: m + 1,
                hi: 255,
            }
        }
    }

    // Whether two domains are written alike.
    pub(crate) fn is_same(&self, other: &Domain) -> bool
        ensures { result ≡ is_same self.now other.now }
    {
        self.zero == other.zero && self.lo == other.lo && self.hi == other.hi
    }
}
