//! Whether an end is open.
ghost use Rattle.std.specs.Prelude.{◌≡◌};
ghost use Rattle.row_relax.specs.Steps.{row_steps};
ghost use Rattle.row_relax.specs.View.{Fits};
ghost use Rattle.log_nodes.specs.OpenEnds.{in_share, is_open, leaves_open};
ghost use Rattle.log_nodes.specs.laws.Seen.{seen};
ghost use Rattle.log_nodes.specs.laws.Nodes.{IsLeafEnd, counted_leaf, item_of, leaf_of};

use crate::node::Ending;
use crate::pair::Share;
use proof_tree::{Capped, Item, Relaxation};
use row_kit::Area;
use row_relax::Rows;

/// Whether a cap leaves its end open.
pub fn leaves_open(profit: &Option<i128>, cap: Capped) -> bool
    ensures { result ≡ leaves_open profit.now cap }
{
    match cap {
        Capped::AtMost(most) => match profit {
            Some(profit) => *profit < most,
            None => true,
        },
        Capped::NoPoint => false,
        Capped::Bad => false,
    }
}

/// Whether an end is open over an area.
pub fn is_open(rows: &Rows, area: &Area, profit: &Option<i128>, end: &Ending) -> bool
    requires { Fits rows.now.program (seen area.now) }
    ensures { result ≡ is_open (row_steps rows.now.program) profit.now (seen area.now)
        (leaf_of end.now) }
{
    match end {
        Ending::Dual(cert) => leaves_open(profit, rows.cap(area, cert)),
        Ending::Pending(cert) => leaves_open(profit, rows.cap(area, cert)),
        Ending::Empty => false,
        Ending::Point => false,
        Ending::Split(_, _) => false,
    }
}

/// Whether the number of an open end is one of those that may be searched on.
pub fn in_share(share: &Option<Share>, number: u64) -> bool
    ensures { result ≡ in_share share.now number }
{
    match share {
        None => true,
        Some(share) => number % u64::from(share.shares) == u64::from(share.rest),
    }
}

/// How many boxes an end counts that splits nothing.
pub fn boxes_of(end: &Ending) -> u64
    requires { IsLeafEnd end.now }
    ensures { result ≡ counted_leaf (leaf_of end.now) }
{
    match end {
        Ending::Pending(_) => 0,
        Ending::Empty => 1,
        Ending::Dual(_) => 1,
        Ending::Point => 1,
        Ending::Split(_, _) => 1,
    }
}

/// The item of an end.
pub fn item_of(end: Ending) -> Item<Rows>
    ensures { result ≡ item_of end }
{
    match end {
        Ending::Empty => Item::Empty,
        Ending::Dual(cert) => Item::Dual(cert),
        Ending::Point => Item::Point,
        Ending::Pending(cert) => Item::Pending(cert),
        Ending::Split(pick, cert) => Item::Split(pick, cert),
    }
}
