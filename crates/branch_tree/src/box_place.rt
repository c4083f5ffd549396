//! Where a box stands in a proof.
use dual_bound::Cert;

/// Where a box stands in a proof, and the certificate that is at hand there.
#[derive(Drop)]
pub struct BoxPlace {
    /// How many splits it stands below.
    pub depth: u32,
    /// A certificate of the box: in a search that of the split above it.
    pub held: Cert,
}
