//! Copies of what a proof over rows holds.
ghost use Rattle.std.specs.Prelude.{◌≡◌, IfOk};

use dual_bound::Cert;
use proof_tree::{Item, ItemCopier};
use row_kit::{Found, List};
use row_relax::Rows;
use std::alloc::{AllocError, Global};

// Copies the items of proofs over rows.
#[derive(Drop)]
pub(crate) struct RowCopier;

impl ItemCopier<Rows> for RowCopier {
    fn copied(&self, alloc: Global, item: &Item<Rows>) -> Result<Item<Rows>, AllocError> {
        match item {
            Item::Node => Ok(Item::Node),
            Item::Cut(cut) => Ok(Item::Cut(*cut)),
            Item::Found(found) => Ok(Item::Found(copied_found(alloc, found)?)),
            Item::Empty => Ok(Item::Empty),
            Item::Dual(cert) => Ok(Item::Dual(copied_cert(alloc, cert)?)),
            Item::Point => Ok(Item::Point),
            Item::Pending(cert) => Ok(Item::Pending(copied_cert(alloc, cert)?)),
            Item::Split(pick, cert) => Ok(Item::Split(*pick, copied_cert(alloc, cert)?)),
        }
    }
}

// Another certificate that is the same.
pub(crate) fn copied_cert(alloc: Global, cert: &Cert) -> Result<Cert, AllocError>
    ensures { IfOk result (λ copy. copy ≡ cert.now) }
{
    Ok(Cert {
        scale: cert.scale,
        mults: List::from_slice(alloc, cert.mults.as_slice())?,
    })
}

// Another found point that is the same.
fn copied_found(alloc: Global, found: &Found) -> Result<Found, AllocError>
    ensures { IfOk result (λ copy. copy ≡ found.now) }
{
    Ok(Found {
        value: found.value,
        point: List::from_slice(alloc, found.point.as_slice())?,
    })
}
