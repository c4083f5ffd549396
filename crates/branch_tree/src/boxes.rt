//! The search of a box: its cuts, its end, and both parts of its split.
ghost use Rattle.std.specs.Prelude.{◌≡◌, ◌≢◌, ℕ, ◌+◌, ◌<◌, ◌≤◌, List as Listed, Option, Some, None, length, false, ⊤, IfOk, IfSome, OnOk, OnErr, IsErrOf, IsTrue, true, ◌≤ℤ◌};
ghost use Rattle.std.specs.List.{All};
ghost use Rattle.row_kit.specs.Area.{present};
ghost use Rattle.row_kit.specs.Domain.{IsOpen};
ghost use Rattle.range_prop.specs.Cuts.{AreDone, HaveRoom};
ghost use Rattle.proof_tree.specs.Cap.{Bounds};
ghost use Rattle.proof_tree.specs.Taker.{Rose};
ghost use Rattle.row_relax.specs.Choices.{steps_of};
ghost use Rattle.row_relax.specs.View.{Fits, domains_of};
ghost use Rattle.branch_tree.specs.Justified.{IsGroup, HasCause};
ghost use Rattle.branch_tree.specs.Searched.{IsBest, IsFitItem};
ghost use Rattle.branch_tree.specs.laws.Ends.{ItemEnds};
ghost use Rattle.branch_tree.specs.laws.Grounds.{StandsIn, GoesOn, LeavesOff, IsOwnBest, IsSplitPart, IsSplitAt, program_of, seen, slot_alone, rows_of};
ghost use Rattle.branch_tree.specs.laws.Handed.{LookHanded, TailHanded, SplitHanded, PartsHanded, BoxHanded};
ghost use Rattle.branch_tree.specs.laws.Stops.{LookStopped, TailStopped, PartsStopped, BoxStopped};

use crate::advisers::SearchAdvisers;
use crate::copies::copied_cert;
use crate::found::{found_at, is_chosen, worth_of};
use crate::judging::judge;
use crate::putting::{leave_open, open_box, put_found};
use crate::reached::{Ground, Reached};
use box_advice::{Advice, Asked, Guide, Hinter};
use dual_bound::Cert;
use proof_tree::{Capped, Item, NodeTaker, Relaxation, TakeStop, floor_cap, greater_cap};
use row_kit::{Area, Found};
use row_relax::{RowPick, Rows};
use std::alloc::AllocError;

// A split of a box: where, and the certificate that stands for its parts where they are left open.
#[derive(Clone, Copy)]
struct RowSplit<'a> {
    pub pick: &'a RowPick,
    pub cert: &'a Cert,
}

// What the guide advises on a box with points.
fn advised<G: Guide>(
    ground: &Ground,
    area: &Area,
    reached: &mut Reached,
    guide: &mut G,
) -> Result<Advice, AllocError>
    requires slots { length (present area.now) ≡ length (program_of ground.now).root }
    requires places { length reached.old.point.items ≡ length (program_of ground.now).root }
    requires each_open { All IsOpen (present area.now) }
    ensures places { length reached.new.point.items ≡ length reached.old.point.items }
    ensures same { reached.new ≡ record reached.old { point = reached.new.point } }
{
    if is_chosen(ground, area) {
        return Ok(Advice {
            cert: None,
            slot: None,
            max: None,
        });
    }
    let asked = Asked {
        alloc: ground.alloc,
        program: &ground.rows.program,
        area,
        depth: reached.depth,
        best: worth_of(&reached.best),
    };
    guide.advise(&asked, &mut reached.point)
}

// Looks at a counted box after its cuts: puts its found point, and answers its end. The area is afterwards as before.
fn look<H: Hinter, G: Guide, O, T: NodeTaker<Rows, O>>(
    ground: &Ground,
    area: &mut Area,
    reached: &mut Reached,
    advisers: &mut SearchAdvisers<H, G>,
    taker: &mut T,
    out: &mut O,
) -> Result<Item<Rows>, TakeStop>
    requires stands { StandsIn ground.now (seen area.old) reached.old }
    requires done { AreDone (program_of ground.now).rows (present area.old) }
    requires ready { T.ready taker.old out.old }
    ensures same { area.new ≡ area.old }
    ensures ready { OnOk result (T.ready taker.new out.new) }
    ensures handed { IfOk result
        (λ item. LookHanded T.took (rows_of ground.now) ground.now.floors ground.now.given
        (seen area.old) item reached.old taker.old out.old reached.new taker.new out.new) }
    ensures own { OnOk result (IsOwnBest reached.old.own reached.new.best) }
    ensures spent { reached.new.spent ≡ reached.old.spent }
    ensures depth { reached.new.depth ≡ reached.old.depth }
    ensures changed { reached.new.changed ≡ reached.old.changed }
    ensures none { OnOk result (reached.new.own ≡ None) }
    ensures places { length reached.new.point.items ≡ length reached.old.point.items }
    ensures err { OnErr result (LookStopped T.took T.broke (rows_of ground.now)
        ground.now.floors taker.old out.old taker.new out.new) }
    ensures later { T.faults out.old ≤ T.faults out.new }
    ensures failed { IsErrOf result TakeStop.Failed → Rose (T.faults out.old) (T.faults out.new) }
{
    let own = reached.own.take();
    if area.has_empty() {
        return Ok(Item::Empty);
    }
    let advice = advised(ground, area, reached, advisers.guide)?;
    let found = found_at(ground, area, own, advisers.hinter, &mut reached.point)?;
    put_found(found, &mut reached.best, taker, out)?;
    let best = worth_of(&reached.best);
    Ok(judge(ground, area, advice, reached.held.take(), best)?)
}

// Searches a counted box. The area is afterwards as before.
#[cycle(search)]
pub(crate) fn search_box<H: Hinter, G: Guide, O, T: NodeTaker<Rows, O>>(
    ground: &Ground,
    area: &mut Area,
    reached: &mut Reached,
    advisers: &mut SearchAdvisers<H, G>,
    taker: &mut T,
    out: &mut O,
) -> Result<Capped, TakeStop>
    requires stands { StandsIn ground.now (seen area.old) reached.old }
    requires room { reached.old.spent < ground.now.budget }
    requires ready { T.ready taker.old out.old }
    ensures left { OnOk result (LeavesOff (T.ready taker.new out.new) ground.now area.old area.new
        reached.new) }
    ensures own { OnOk result (IsOwnBest reached.old.own reached.new.best) }
    ensures places { length reached.new.point.items ≡ length reached.old.point.items }
    ensures handed { IfOk result
        (λ cap. BoxHanded T.took (λ _. ⊤) (rows_of ground.now) ground.now.floors
        ground.now.given ground.now.budget ground.now.may_leave
        (seen area.old) cap reached.old taker.old out.old reached.new taker.new out.new) }
    ensures err { OnErr result (BoxStopped T.took T.broke (rows_of ground.now)
        ground.now.floors (seen area.old) taker.old out.old taker.new out.new) }
    ensures later { T.faults out.old ≤ T.faults out.new }
    ensures failed { IsErrOf result TakeStop.Failed → Rose (T.faults out.old) (T.faults out.new) }
{
    let start = ground.rows.mark(area);
    open_box(ground, area, reached.changed.take(), taker, out)?;
    reached.spent += 1;
    let item = look(ground, area, reached, advisers, taker, out)?;
    let cap = search_end(ground, area, item, reached, advisers, taker, out)?;
    ground.rows.back(area, start);
    Ok(cap)
}

// Puts the end of a counted box, and searches its parts where it is a split.
#[cycle(search)]
fn search_end<H: Hinter, G: Guide, O, T: NodeTaker<Rows, O>>(
    ground: &Ground,
    area: &mut Area,
    item: Item<Rows>,
    reached: &mut Reached,
    advisers: &mut SearchAdvisers<H, G>,
    taker: &mut T,
    out: &mut O,
) -> Result<Capped, TakeStop>
    requires can { GoesOn (T.ready taker.old out.old) ground.now (seen area.old) reached.old }
    requires room { HaveRoom (program_of ground.now).rows (domains_of (seen area.old)) }
    requires ends { (found : Listed Found) → IsBest reached.old.best found
        → ItemEnds (rows_of ground.now) ground.now.given (seen area.old) found item }
    requires fit { IsFitItem (rows_of ground.now) ground.now.floors item }
    ensures left { OnOk result (LeavesOff (T.ready taker.new out.new) ground.now area.old area.new
        reached.new) }
    ensures places { length reached.new.point.items ≡ length reached.old.point.items }
    ensures handed { IfOk result
        (λ cap. TailHanded T.took (rows_of ground.now) ground.now.floors ground.now.given
        ground.now.budget ground.now.may_leave
        (seen area.old) cap reached.old taker.old out.old reached.new taker.new out.new) }
    ensures err { OnErr result (TailStopped T.took T.broke (rows_of ground.now)
        ground.now.floors (seen area.old) taker.old out.old taker.new out.new) }
    ensures later { T.faults out.old ≤ T.faults out.new }
    ensures failed { IsErrOf result TakeStop.Failed → Rose (T.faults out.old) (T.faults out.new) }
{
    taker.put(out, &item)?;
    match &item {
        Item::Empty => Ok(Capped::NoPoint),
        Item::Dual(cert) => Ok(ground.rows.cap(area, cert)),
        Item::Point => Ok(ground.rows.settle(area)),
        Item::Split(pick, cert) => {
            let split = RowSplit { pick, cert };
            search_split(ground, area, split, reached, advisers, taker, out)
        }
        _ => unreachable!(),
    }
}

// Searches what the floor of a split leaves.
#[cycle(search)]
fn search_split<H: Hinter, G: Guide, O, T: NodeTaker<Rows, O>>(
    ground: &Ground,
    area: &mut Area,
    split: RowSplit,
    reached: &mut Reached,
    advisers: &mut SearchAdvisers<H, G>,
    taker: &mut T,
    out: &mut O,
) -> Result<Capped, TakeStop>
    requires can { GoesOn (T.ready taker.old out.old) ground.now (seen area.old) reached.old }
    requires room { HaveRoom (program_of ground.now).rows (domains_of (seen area.old)) }
    requires split { IsSplitAt (program_of ground.now) ground.now.given
        ((steps_of (rows_of ground.now)).trim (seen area.old) split.pick.now split.cert.now)
        split.pick.now split.cert.now }
    ensures left { OnOk result (LeavesOff (T.ready taker.new out.new) ground.now area.old area.new
        reached.new) }
    ensures places { length reached.new.point.items ≡ length reached.old.point.items }
    ensures handed { IfOk result
        (λ cap. SplitHanded T.took (rows_of ground.now) ground.now.floors ground.now.given
        ground.now.budget ground.now.may_leave
        (seen area.old) split.entry.pick.now split.entry.cert.now cap reached.old
        taker.old out.old reached.new taker.new out.new) }
    ensures err { OnErr result (PartsStopped T.took T.broke (rows_of ground.now)
        ground.now.floors (seen area.old) taker.old out.old taker.new out.new) }
    ensures later { T.faults out.old ≤ T.faults out.new }
    ensures failed { IsErrOf result TakeStop.Failed → Rose (T.faults out.old) (T.faults out.new) }
{
    let start = ground.rows.mark(area);
    let floor = ground.rows.trim(area, split.pick, split.cert);
    reached.changed = None;
    let cap = search_parts(ground, area, split, reached, advisers, taker, out)?;
    ground.rows.back(area, start);
    Ok(greater_cap(floor_cap(floor), cap))
}

// The slot of a split, where it has no floor: else values of others may be gone too.
fn slot_alone(pick: &RowPick) -> Option<u32>
    ensures { result ≡ slot_alone pick.now.floor pick.now.slot }
{
    match &pick.floor {
        None => Some(pick.slot),
        Some(_) => None,
    }
}

// Searches both parts of a split.
#[cycle(search)]
fn search_parts<H: Hinter, G: Guide, O, T: NodeTaker<Rows, O>>(
    ground: &Ground,
    area: &mut Area,
    split: RowSplit,
    reached: &mut Reached,
    advisers: &mut SearchAdvisers<H, G>,
    taker: &mut T,
    out: &mut O,
) -> Result<Capped, TakeStop>
    requires can { GoesOn (T.ready taker.old out.old) ground.now (seen area.old) reached.old }
    requires room { IfSome (slot_alone split.pick.now.floor split.pick.now.slot)
        (λ slot. HaveRoom (program_of ground.now).rows (domains_of (seen area.old))) }
    requires split { IsSplitAt (program_of ground.now) ground.now.given (seen area.old)
        split.pick.now split.cert.now }
    ensures left { OnOk result (LeavesOff (T.ready taker.new out.new) ground.now area.old area.new
        reached.new) }
    ensures places { length reached.new.point.items ≡ length reached.old.point.items }
    ensures handed { IfOk result
        (λ cap. PartsHanded T.took (rows_of ground.now) ground.now.floors ground.now.given
        ground.now.budget ground.now.may_leave
        (seen area.old) split.entry.pick.now split.entry.cert.now cap reached.old
        taker.old out.old reached.new taker.new out.new) }
    ensures err { OnErr result (PartsStopped T.took T.broke (rows_of ground.now)
        ground.now.floors (seen area.old) taker.old out.old taker.new out.new) }
    ensures later { T.faults out.old ≤ T.faults out.new }
    ensures failed { IsErrOf result TakeStop.Failed → Rose (T.faults out.old) (T.faults out.new) }
{
    let mark = ground.rows.mark(area);
    let RowSplit { pick, cert } = split;
    let below = reached.depth + 1;
    let _ = ground.rows.left(area, pick);
    reached.depth = below;
    reached.changed = slot_alone(pick);
    let first = search_part(ground, area, cert, reached, advisers, taker, out)?;
    ground.rows.back(area, mark);
    let _ = ground.rows.right(area, pick);
    reached.depth = below;
    reached.changed = slot_alone(pick);
    let second = search_part(ground, area, cert, reached, advisers, taker, out)?;
    ground.rows.back(area, mark);
    Ok(greater_cap(first, second))
}

// Searches a part of a split, or leaves it open where the budget is spent or the guide says so.
#[cycle(search)]
fn search_part<H: Hinter, G: Guide, O, T: NodeTaker<Rows, O>>(
    ground: &Ground,
    area: &mut Area,
    cert: &Cert,
    reached: &mut Reached,
    advisers: &mut SearchAdvisers<H, G>,
    taker: &mut T,
    out: &mut O,
) -> Result<Capped, TakeStop>
    requires can { GoesOn (T.ready taker.old out.old) ground.now (seen area.old) reached.old }
    requires part { IsSplitPart (program_of ground.now) (seen area.old) cert.now }
    ensures left { OnOk result (LeavesOff (T.ready taker.new out.new) ground.now area.old area.new
        reached.new) }
    ensures places { length reached.new.point.items ≡ length reached.old.point.items }
    ensures handed { IfOk result
        (λ cap. BoxHanded T.took (λ parent. parent
        ≡ Some cert.now) (rows_of ground.now) ground.now.floors ground.now.given
        ground.now.budget ground.now.may_leave (seen area.old) cap reached.old taker.old out.old
        reached.new taker.new out.new) }
    ensures err { OnErr result (BoxStopped T.took T.broke (rows_of ground.now)
        ground.now.floors (seen area.old) taker.old out.old taker.new out.new) }
    ensures later { T.faults out.old ≤ T.faults out.new }
    ensures failed { IsErrOf result TakeStop.Failed → Rose (T.faults out.old) (T.faults out.new) }
{
    if reached.spent == ground.budget || is_left(ground, area, reached.depth, advisers.guide) {
        return leave_open(ground, area, cert, taker, out);
    }
    reached.held = Some(copied_cert(ground.alloc, cert)?);
    search_box(ground, area, reached, advisers, taker, out)
}

// Whether the guide leaves a part of a split open, and may.
fn is_left<G: Guide>(ground: &Ground, area: &Area, depth: u32, guide: &mut G) -> bool
    requires slots { length (present area.now) ≡ length (program_of ground.now).root }
    requires each_open { All IsOpen (present area.now) }
    ensures { IsTrue result → ground.now.may_leave ≡ true }
{
    ground.may_leave && guide.leaves(&ground.rows.program, area, depth)
}
