//! Ends that are searched on.
ghost use Rattle.std.specs.Prelude.{◌≡◌, IsTrue, false};
ghost use Rattle.row_relax.specs.View.{Fits};
ghost use Rattle.branch_tree.specs.Deep.{is_deep};
ghost use Rattle.log_nodes.specs.laws.Seen.{seen};

use branch_tree::is_deep;
use log_nodes::{Ending, Pair, in_share};
use proof_tree::{Capped, Relaxation};
use row_kit::Area;
use row_relax::Rows;

/// The cap of an end that has a certificate, over an area; no point for any other.
pub fn cap_of(rows: &Rows, area: &Area, end: &Ending) -> Capped
    requires { Fits rows.now.program (seen area.now) }
{
    match end {
        Ending::Dual(cert) | Ending::Pending(cert) => rows.cap(area, cert),
        _ => Capped::NoPoint,
    }
}

/// Whether an open end with this number may be searched on, over an area below so many splits: it is of the share, and not too deep.
pub fn may_search(pair: &Pair, area: &Area, depth: u32, number: u64) -> bool
    ensures { IsTrue result → is_deep pair.now.most depth (seen area.now) ≡ false }
{
    in_share(&pair.share, number) && !is_deep(area, depth, pair.most)
}
