//! The search of a root.
ghost use Rattle.std.specs.Prelude.{◌≡◌, List, [], IfOk, OnErr, false};
ghost use Rattle.proof_tree.specs.Tree.{tree_of};
ghost use Rattle.proof_tree.specs.Items.{tree_items};
ghost use Rattle.proof_tree.specs.Built.{HoldsItems};
ghost use Rattle.branch_tree.specs.Searched.{ended_of};
ghost use Rattle.branch_tree.specs.SearchRequest.{CanSearch, CountsFaults, HasBuilt, HasEnded, IsExactFor, TellsExact, WasBrokenOff};
ghost use Rattle.row_relax.specs.RowProofs.{RowTree};
ghost use Rattle.branch_tree.specs.laws.Grounds.{IsOffered, IsStart};

use crate::advisers::SearchAdvisers;
use crate::boxes::search_box;
use crate::copies::RowCopier;
use crate::ended::{Ended, Guided, Searched};
use crate::found::{better, put_least, tested, worth_of};
use crate::judging::exceeds;
use crate::reached::{Ground, Reached};
use crate::request::SearchRequest;
use box_advice::{Guide, Hinter};
use proof_tree::{NodeTaker, TakeStop, TreeTaker};
use range_prop::RowIndex;
use row_kit::{Found, Program};
use row_relax::{Rows, choices_of};
use std::alloc::{AllocError, Global};

// The one of two points that is worth more, where it is lawful.
fn offered(
    alloc: Global,
    program: &Program,
    least: &[u8],
    start: &[u8],
) -> Result<Option<Found>, AllocError>
    ensures { IfOk result (IsOffered program.now least.now start.now) }
{
    let given = tested(alloc, program, start)?;
    let own = tested(alloc, program, least)?;
    Ok(better(given, own))
}

// The start of a search: nothing is counted, and the point to begin with or the least point is offered first, the one of those that
// are lawful which is worth more.
fn begun(alloc: Global, rows: &Rows, start: &[u8]) -> Result<Reached, AllocError>
    ensures { IfOk result (IsStart rows.now start.now) }
{
    let choices = choices_of(rows);
    let mut least = vec![in alloc; 0u8; choices.root.len()]?;
    put_least(choices.root.as_slice(), &mut least);
    let own = offered(alloc, choices, least.as_slice(), start)?;
    Ok(Reached {
        depth: 0,
        spent: 0,
        best: None,
        own,
        changed: None,
        held: None,
        point: vec![in alloc; 0u8; rows.program.root.len()]?,
    })
}

// Searches the root, with a guide that may leave boxes open though budget is left, or may not.
fn search_root<H: Hinter, G: Guide, O, T: NodeTaker<Rows, O>>(
    alloc: Global,
    sought: &SearchRequest,
    may_leave: bool,
    hinter: &mut H,
    guide: &mut G,
    taker: &mut T,
    out: &mut O,
) -> Result<Ended, TakeStop>
    requires can { CanSearch sought.now }
    requires ready { T.ready taker.old out.old }
    ensures ok { IfOk result (λ ended. HasEnded T.ready T.took sought.now ended taker.old out.old
        taker.new out.new) }
    ensures exact { IfOk result (λ ended. may_leave ≡ false → IsExactFor sought.now ended) }
    ensures full { IfOk result
        (λ ended. ended.spent ≡ sought.now.budget → IsExactFor sought.now ended) }
    ensures err { OnErr result (WasBrokenOff T.took T.broke sought.now taker.old out.old
        taker.new out.new) }
    ensures faults { CountsFaults T.faults result out.old out.new }
{
    let ground = Ground {
        alloc,
        rows: sought.rows,
        index: RowIndex::new(alloc, &sought.rows.program)?,
        most: sought.rules.most,
        given: sought.rules.given,
        floors: sought.rules.floors,
        budget: sought.budget,
        may_leave,
    };
    let mut reached = begun(alloc, sought.rows, sought.start)?;
    let mut area = sought.rows.root_area(alloc)?;
    let mut advisers = SearchAdvisers { hinter, guide };
    let cap = search_box(&ground, &mut area, &mut reached, &mut advisers, taker, out)?;
    let left_open = exceeds(cap, worth_of(&reached.best));
    let Reached { best, spent, .. } = reached;
    Ok(Ended {
        best,
        cap,
        spent,
        left_open,
    })
}

/// As `search_to`, with a guide that may leave boxes open though budget is left. The answer also says whether the count is
/// exact: whether the budget was spent, or nothing is left open.
pub fn search_guided_to<H: Hinter, G: Guide, O, T: NodeTaker<Rows, O>>(
    alloc: Global,
    sought: &SearchRequest,
    hinter: &mut H,
    guide: &mut G,
    taker: &mut T,
    out: &mut O,
) -> Result<Guided, TakeStop>
    requires can { CanSearch sought.now }
    requires ready { T.ready taker.old out.old }
    ensures ok { IfOk result (λ guided. HasEnded T.ready T.took sought.now guided.ended taker.old
        out.old taker.new out.new) }
    ensures exact { IfOk result (λ guided. TellsExact sought.now guided.exact guided.ended) }
    ensures err { OnErr result (WasBrokenOff T.took T.broke sought.now taker.old out.old
        taker.new out.new) }
    ensures faults { CountsFaults T.faults result out.old out.new }
{
    let ended = search_root(alloc, sought, true, hinter, guide, taker, out)?;
    let exact = !ended.left_open || ended.spent == sought.budget;
    Ok(Guided { ended, exact })
}

/// Searches the root by branch and bound, and puts the items of the proof as it is made: after `Ok` the taker took the items of
/// a justified proof that covers the root, whose numbers the answer tells. It counts at most as many boxes as the budget, and
/// leaves a box open only where it counted just as many: the guide is not asked which to leave. After an error the taker took the first
/// items of some proof.
pub fn search_to<H: Hinter, G: Guide, O, T: NodeTaker<Rows, O>>(
    alloc: Global,
    sought: &SearchRequest,
    hinter: &mut H,
    guide: &mut G,
    taker: &mut T,
    out: &mut O,
) -> Result<Ended, TakeStop>
    requires can { CanSearch sought.now }
    requires ready { T.ready taker.old out.old }
    ensures ok { IfOk result (λ ended. HasEnded T.ready T.took sought.now ended taker.old out.old
        taker.new out.new) }
    ensures exact { IfOk result (IsExactFor sought.now) }
    ensures err { OnErr result (WasBrokenOff T.took T.broke sought.now taker.old out.old
        taker.new out.new) }
    ensures faults { CountsFaults T.faults result out.old out.new }
{
    search_root(alloc, sought, false, hinter, guide, taker, out)
}

/// As `search`, with a guide that may leave boxes open though budget is left. The answer also says whether the count is exact.
pub fn search_guided<H: Hinter, G: Guide>(
    alloc: Global,
    sought: &SearchRequest,
    hinter: &mut H,
    guide: &mut G,
) -> Result<(Searched, bool), AllocError>
    requires { CanSearch sought.now }
    ensures ok { IfOk result (λ found. HasBuilt sought.now found.0) }
    ensures exact { IfOk result (λ found. TellsExact sought.now found.1 (ended_of found.0)) }
{
    let mut taker = TreeTaker::new(alloc, RowCopier);
    match search_guided_to(alloc, sought, hinter, guide, &mut taker, &mut ()) {
        Ok(guided) => Ok((with_tree(guided.ended, taker), guided.exact)),
        Err(_) => Err(AllocError),
    }
}

/// Searches the root by branch and bound, and builds the proof: a justified one that covers the root, whose numbers the answer
/// tells. It counts at most as many boxes as the budget, and leaves a box open only where it counted just as many.
pub fn search<H: Hinter, G: Guide>(
    alloc: Global,
    sought: &SearchRequest,
    hinter: &mut H,
    guide: &mut G,
) -> Result<Searched, AllocError>
    requires { CanSearch sought.now }
    ensures ok { IfOk result (HasBuilt sought.now) }
    ensures exact { IfOk result (λ searched. IsExactFor sought.now (ended_of searched)) }
{
    let mut taker = TreeTaker::new(alloc, RowCopier);
    match search_to(alloc, sought, hinter, guide, &mut taker, &mut ()) {
        Ok(ended) => Ok(with_tree(ended, taker)),
        Err(_) => Err(AllocError),
    }
}

// What a search ended with, with the tree that was built.
fn with_tree(ended: Ended, taker: TreeTaker<Rows, RowCopier>) -> Searched
    requires { (tree : RowTree) × HoldsItems (tree_items tree) taker }
    ensures ended { ended_of result ≡ ended }
    ensures tree { (tree : RowTree) → HoldsItems (tree_items tree) taker
        → tree_of result.tree ≡ tree }
{
    let Ended {
        best,
        cap,
        spent,
        left_open,
    } = ended;
    match taker.proof() {
        Some(tree) => Searched {
            tree,
            best,
            cap,
            spent,
            left_open,
        },
        None => unreachable!(),
    }
}
