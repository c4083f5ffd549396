//! A proof: a tree of nodes and their ends.
use crate::list::List;

/// How a node of a proof ends. The parameters are the types of a cut's name, a certificate, a pick and
/// a found point.
#[cycle(proof)]
#[derive(Drop)]
pub enum End<U, C, P, F> {
    /// The node's area has no point.
    Empty,
    /// The certificate caps the node's area.
    Dual(C),
    /// The node's area has one point, which caps it by its worth.
    Point,
    /// The node is left open; the certificate caps its area.
    Pending(C),
    /// The split forgets the points that the pick's floor and the certificate take away, if the pick has
    /// a floor. What is left has two parts, left and right of the pick, and a proof of each. The
    /// certificate gives no cap: it shows why the area was split.
    Split(P, C, Box<Proof<U, C, P, F>>, Box<Proof<U, C, P, F>>),
}

/// A node of a proof with all that stands below it.
#[cycle(proof)]
#[derive(Drop)]
pub struct Proof<U, C, P, F> {
    /// The cuts of the node, made in this order before its end is looked at.
    pub cuts: List<U>,
    /// The point that was found at the node, if one was.
    pub found: Option<F>,
    /// What closes the node.
    pub end: End<U, C, P, F>,
}
