//! The items of a proof.
use crate::relaxation::Relaxation;

/// A piece of a proof. The items of a proof are, in prefix order: `Node`, its cuts, its found point if
/// there is one, its end, and for a split the items of the left and then of the right part.
#[derive(Drop)]
pub enum Item<R: Relaxation> {
    /// A node begins.
    Node,
    /// A cut of the node.
    Cut(R::Trim),
    /// The point that was found at the node.
    Found(R::Found),
    /// The node's area has no point.
    Empty,
    /// The certificate caps the node's area.
    Dual(R::Cert),
    /// The node's area has one point.
    Point,
    /// The node is left open, with a certificate that caps its area.
    Pending(R::Cert),
    /// The area has two parts, once what the pick's floor and the certificate take away is forgotten; the
    /// certificate shows why it was split.
    Split(R::Pick, R::Cert),
}
