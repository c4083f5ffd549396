//! The items of a proof, put one after another.
ghost use Rattle.std.specs.Prelude.{◌≡◌, ◌≢◌, ◌≤◌, ◌<◌, length, Option, Some, None, [], ◌∷◌, map, option_to_list, IfOk, IfSome, OnOk, OnErr, IsErrOf};
ghost use Rattle.std.specs.List.{All};
ghost use Rattle.row_kit.specs.Area.{present};
ghost use Rattle.range_prop.specs.Cuts.{AreDone, HaveRoom, HaveRoomBut};
ghost use Rattle.dual_bound.specs.Total.{is_fit};
ghost use Rattle.proof_tree.specs.Taker.{Rose};
ghost use Rattle.proof_tree.specs.Views.{KeepsViews};
ghost use Rattle.proof_tree.specs.declared.item.Item.TheVariants.{Node as NodeItem, Cut as CutItem, Found as FoundItem, Pending as PendingItem};
ghost use Rattle.row_relax.specs.Choices.{steps_of};
ghost use Rattle.row_relax.specs.View.{Fits, domains_of, view_of};
ghost use Rattle.branch_tree.specs.Justified.{IsGroup};
ghost use Rattle.branch_tree.specs.Searched.{IsFitItem};
ghost use Rattle.branch_tree.specs.Compared.{better_of};
ghost use Rattle.branch_tree.specs.laws.Grounds.{IsGround, program_of, seen, rows_of};
ghost use Rattle.branch_tree.specs.laws.Handed.{Grows, HeadHanded, found_items};
ghost use Rattle.branch_tree.specs.laws.Stops.{Stopped, HeadStopped, LookStopped};

use crate::copies::copied_cert;
use crate::cutting::cut_box;
use crate::found::better;
use crate::reached::Ground;
use dual_bound::Cert;
use proof_tree::{Capped, Item, NodeTaker, Relaxation, TakeStop};
use range_prop::RowCut;
use row_kit::{Area, Found};
use row_relax::Rows;

// Puts cuts.
fn put_cuts<O, T: NodeTaker<Rows, O>>(
    cuts: &[RowCut],
    taker: &mut T,
    out: &mut O,
) -> Result<(), TakeStop>
    requires { T.ready taker.old out.old }
    ensures ready { OnOk result (T.ready taker.new out.new) }
    ensures handed { OnOk result
        (Grows T.took T.took taker.old out.old (map CutItem cuts.now) taker.new out.new) }
    ensures err { OnErr result (Stopped T.took T.broke taker.old out.old (map CutItem cuts.now)
        taker.new out.new) }
    ensures later { T.faults out.old ≤ T.faults out.new }
    ensures failed { IsErrOf result TakeStop.Failed → Rose (T.faults out.old) (T.faults out.new) }
{
    for cut in cuts {
        taker.put(out, &Item::Cut(*cut))?;
    }
    Ok(())
}

// Puts the first items of a counted box: the node and its cuts.
pub(crate) fn open_box<O, T: NodeTaker<Rows, O>>(
    ground: &Ground,
    area: &mut Area,
    changed: Option<u32>,
    taker: &mut T,
    out: &mut O,
) -> Result<(), TakeStop>
    requires ground { IsGround ground.now }
    requires fits { Fits (program_of ground.now) (seen area.old) }
    requires room { IfSome changed (λ slot. (slot < length (program_of ground.now).root)
        × HaveRoomBut (program_of ground.now).rows (slot ∷ []) (domains_of (seen area.old))) }
    requires ready { T.ready taker.old out.old }
    ensures fits { OnOk result (Fits (program_of ground.now) (seen area.new)) }
    ensures keeps { OnOk result (KeepsViews (map view_of area.old) (map view_of area.new)) }
    ensures done { OnOk result (AreDone (program_of ground.now).rows (present area.new)) }
    ensures room { OnOk result (HaveRoom (program_of ground.now).rows (present area.new)) }
    ensures ready { OnOk result (T.ready taker.new out.new) }
    ensures handed { OnOk result
        (HeadHanded T.took (rows_of ground.now) ground.now.floors (seen area.old) taker.old
        out.old (seen area.new) taker.new out.new) }
    ensures err { OnErr result (HeadStopped T.took T.broke (rows_of ground.now)
        ground.now.floors taker.old out.old taker.new out.new) }
    ensures later { T.faults out.old ≤ T.faults out.new }
    ensures failed { IsErrOf result TakeStop.Failed → Rose (T.faults out.old) (T.faults out.new) }
{
    taker.put(out, &Item::Node)?;
    let cuts = cut_box(ground, area, changed)?;
    put_cuts(cuts.as_slice(), taker, out)
}

// Puts a found point, and gives it back.
fn put_one<O, T: NodeTaker<Rows, O>>(
    found: Found,
    taker: &mut T,
    out: &mut O,
) -> Result<Found, TakeStop>
    requires { T.ready taker.old out.old }
    ensures ready { OnOk result (T.ready taker.new out.new) }
    ensures same { IfOk result (λ f. f ≡ found) }
    ensures handed { OnOk result
        (Grows T.took T.took taker.old out.old (FoundItem found ∷ []) taker.new out.new) }
    ensures err { OnErr result (Stopped T.took T.broke taker.old out.old (FoundItem found ∷ [])
        taker.new out.new) }
    ensures later { T.faults out.old ≤ T.faults out.new }
    ensures failed { IsErrOf result TakeStop.Failed → Rose (T.faults out.old) (T.faults out.new) }
{
    let item = Item::Found(found);
    taker.put(out, &item)?;
    Ok(found_back(item))
}

// The found point of an item.
fn found_back(item: Item<Rows>) -> Found
    requires { (found : Found) × (item ≡ FoundItem found) }
    ensures { item ≡ FoundItem result }
{
    match item {
        Item::Found(found) => found,
        _ => unreachable!(),
    }
}

// Puts the found point of a box, if there is one, and keeps the better of it and the best so far.
pub(crate) fn put_found<O, T: NodeTaker<Rows, O>>(
    found: Option<Found>,
    best: &mut Option<Found>,
    taker: &mut T,
    out: &mut O,
) -> Result<(), TakeStop>
    requires { T.ready taker.old out.old }
    ensures ready { OnOk result (T.ready taker.new out.new) }
    ensures best { OnOk result (best.new ≡ better_of best.old found) }
    ensures handed { OnOk result
        (Grows T.took T.took taker.old out.old (found_items found) taker.new out.new) }
    ensures err { OnErr result (Stopped T.took T.broke taker.old out.old (found_items found)
        taker.new out.new) }
    ensures later { T.faults out.old ≤ T.faults out.new }
    ensures failed { IsErrOf result TakeStop.Failed → Rose (T.faults out.old) (T.faults out.new) }
{
    let Some(found) = found else {
        return Ok(());
    };
    let found = put_one(found, taker, out)?;
    *best = better(best.take(), Some(found));
    Ok(())
}

// Leaves a part of a split open, with the certificate of the split.
pub(crate) fn leave_open<O, T: NodeTaker<Rows, O>>(
    ground: &Ground,
    area: &Area,
    held: &Cert,
    taker: &mut T,
    out: &mut O,
) -> Result<Capped, TakeStop>
    requires fits { Fits (program_of ground.now) (seen area.now) }
    requires ready { T.ready taker.old out.old }
    ensures ready { OnOk result (T.ready taker.new out.new) }
    ensures cap { IfOk result (λ cap. cap
        ≡ (steps_of (rows_of ground.now)).cap (seen area.now) held.now) }
    ensures handed { OnOk result
        (Grows T.took T.took taker.old out.old (NodeItem ∷ (PendingItem held.now ∷ [])) taker.new
        out.new) }
    ensures err { OnErr result (Stopped T.took T.broke taker.old out.old
        (NodeItem ∷ (PendingItem held.now ∷ [])) taker.new out.new) }
    ensures later { T.faults out.old ≤ T.faults out.new }
    ensures failed { IsErrOf result TakeStop.Failed → Rose (T.faults out.old) (T.faults out.new) }
{
    taker.put(out, &Item::Node)?;
    let copy = copied_cert(ground.alloc, held)?;
    taker.put(out, &Item::Pending(copy))?;
    Ok(ground.rows.cap(area, held))
}
