//! Whether two nodes are the same.
ghost use Rattle.std.specs.Prelude.{◌≡◌, ◌↔◌, ◌++◌, List as Items, IsTrue};
ghost use Rattle.range_prop.specs.declared.row_cut.RowCut.{RowCut};
ghost use Rattle.log_nodes.specs.laws.Nodes.{IsLeafEnd};

use crate::node::{Ending, Node};
use dual_bound::{Cert, Mult};
use range_prop::RowCut;
use row_kit::Found;

// What can be told to be the same.
trait Same {
    fn is_same(&self, other: &Self) -> bool
        ensures { IsTrue result ↔ self.now ≡ other.now };
}

impl Same for RowCut {
    fn is_same(&self, other: &RowCut) -> bool {
        *self == *other
    }
}

impl Same for Mult {
    fn is_same(&self, other: &Mult) -> bool {
        *self == *other
    }
}

impl Same for u8 {
    fn is_same(&self, other: &u8) -> bool {
        *self == *other
    }
}

// Whether two lists are the same.
fn are_same<T: Same>(one: &[T], other: &[T]) -> bool
    ensures { IsTrue result ↔ one.now ≡ other.now }
{
    if one.len() != other.len() {
        return false;
    }
    for place in 0..one.len() {
        if !one[place].is_same(&other[place]) {
            return false;
        }
    }
    true
}

// Whether two certificates are the same.
fn is_same_cert(one: &Cert, other: &Cert) -> bool
    ensures { IsTrue result → one.now ≡ other.now }
{
    one.scale == other.scale && are_same(one.mults.as_slice(), other.mults.as_slice())
}

// Whether two found points are the same, or there is none at either.
fn is_same_found(one: &Option<Found>, other: &Option<Found>) -> bool
    ensures { IsTrue result → one.now ≡ other.now }
{
    match one {
        None => other.is_none(),
        Some(found) => match other {
            None => false,
            Some(own) => is_same_point(found, own),
        },
    }
}

// Whether two found points are the same.
fn is_same_point(one: &Found, other: &Found) -> bool
    ensures { IsTrue result → one.now ≡ other.now }
{
    one.value == other.value && are_same(one.point.as_slice(), other.point.as_slice())
}

// Whether two ends are the same.
fn is_same_end(one: &Ending, other: &Ending) -> bool
    ensures { IsTrue result → one.now ≡ other.now }
{
    match one {
        Ending::Empty => match other {
            Ending::Empty => true,
            _ => false,
        },
        Ending::Point => match other {
            Ending::Point => true,
            _ => false,
        },
        Ending::Dual(cert) => match other {
            Ending::Dual(own) => is_same_cert(cert, own),
            _ => false,
        },
        Ending::Pending(cert) => match other {
            Ending::Pending(own) => is_same_cert(cert, own),
            _ => false,
        },
        Ending::Split(pick, cert) => match other {
            Ending::Split(own, own_cert) => *pick == *own && is_same_cert(cert, own_cert),
            _ => false,
        },
    }
}

/// Whether two nodes are the same.
pub fn is_same_node(one: &Node, other: &Node) -> bool
    ensures { IsTrue result → one.now ≡ other.now }
{
    are_same(one.cuts.as_slice(), other.cuts.as_slice())
        && is_same_found(&one.found, &other.found)
        && is_same_end(&one.end, &other.end)
}

// Whether two certificates have the same scale and the same multipliers.
fn has_same_parts(one: &Cert, other: &Cert) -> bool
    ensures { IsTrue result ↔ ((one.now.scale ≡ other.now.scale)
        × (one.now.mults ≡ other.now.mults)) }
{
    one.scale == other.scale && are_same(one.mults.as_slice(), other.mults.as_slice())
}

/// Whether two nodes split in the same way: behind the same cuts, by the same pick, with the same certificate.
pub fn is_same_split(one: &Node, other: &Node) -> bool
    ensures same { IsTrue result
        → (one.now.cuts ≡ other.now.cuts) × (one.now.end ≡ other.now.end) }
    ensures differ { ¬ IsTrue result → ¬ IsLeafEnd one.now.end
        → ¬ ((one.now.cuts ≡ other.now.cuts) × (one.now.end ≡ other.now.end)) }
{
    match &one.end {
        Ending::Split(pick, cert) => match &other.end {
            Ending::Split(own, own_cert) => {
                are_same(one.cuts.as_slice(), other.cuts.as_slice())
                    && *pick == *own
                    && has_same_parts(cert, own_cert)
            }
            _ => false,
        },
        _ => false,
    }
}

/// Whether a list of cuts begins with others.
pub fn begins_with(cuts: &[RowCut], first: &[RowCut]) -> bool
    ensures { IsTrue result → (more : Items RowCut) × (cuts.now ≡ first.now ++ more) }
{
    first.len() <= cuts.len() && are_same(&cuts[..first.len()], first)
}
