//! Searches with the advice on plans, and where that leaves boxes open though budget is left, anew without it.
ghost use Rattle.std.specs.Prelude.{◌≡◌, ◌≤◌, IfOk, OnErr, false, true};
ghost use Rattle.proof_tree.specs.Tree.{tree_of};
ghost use Rattle.row_relax.specs.Choices.{HaveImages, choices_of};
ghost use Rattle.branch_tree.specs.Searched.{AreSearchable, IsWorth, ended_of};
ghost use Rattle.branch_tree.specs.SearchRequest.{BeganFor, CanSearch, CountsFaults, HasEnded, IsExactFor, WasBrokenOff};
ghost use Rattle.plan_told.specs.Ended.{IsSearchOf, IsSearched, empty_end};
ghost use Rattle.logged_search.specs.Logging.{HasFewSplits};
ghost use Rattle.logged_search.specs.laws.SearchRequest.{IsEndingFor};

use crate::item_dropper::ItemDropper;
use advised_search::{build_advised, build_hinted, search_advised, search_hinted};
use box_advice::Advisers;
use branch_tree::{Ended, Guided, SearchRequest, Searched, SplitRules, is_searchable};
use proof_tree::{Capped, NodeTaker, TakeStop};
use row_relax::Rows;
use std::alloc::{AllocError, Global};

// What one empty box comes to: no point, and nothing left open.
pub(crate) fn empty_end() -> Ended
    ensures { result ≡ empty_end }
{
    Ended {
        best: None,
        cap: Capped::NoPoint,
        spent: 1,
        left_open: false,
    }
}

/// Searches the root, beginning with a point where that is lawful, and drops the proof. A root in which some slot has no value is one
/// empty box.
pub fn search_only<A: Advisers>(
    alloc: Global,
    rows: &Rows,
    rules: SplitRules,
    budget: u32,
    start: &[u8],
) -> Result<Ended, AllocError>
    requires images { HaveImages rows.now }
    requires splits { HasFewSplits rules.most rows.now.program }
    requires budget { (1 ≤ budget) × (budget ≤ 100000) }
    ensures ended { IfOk result (IsSearched rules.most rows.now rules.floors rules.given budget) }
    ensures begun { IfOk result (λ ended. IsWorth (choices_of rows.now) start.now ended.best) }
{
    if is_searchable(&rows.program, rules.most) {
        let sought = SearchRequest {
            rows,
            rules,
            budget,
            start,
        };
        search_open::<A>(alloc, &sought)
    } else {
        Ok(empty_end())
    }
}

// Searches a root in which each slot has a value, and drops the proof.
fn search_open<A: Advisers>(alloc: Global, sought: &SearchRequest) -> Result<Ended, AllocError>
    requires { CanSearch sought.now }
    ensures ended { IfOk result (IsEndingFor sought.now) }
    ensures begun { IfOk result (λ ended. BeganFor sought.now ended.best) }
{
    let mut taker = ItemDropper;
    let Ok(guided) = put_search::<A, _, _>(alloc, sought, true, &mut taker, &mut ()) else {
        return Err(AllocError);
    };
    if guided.exact {
        return Ok(guided.ended);
    }
    match put_search::<A, _, _>(alloc, sought, false, &mut taker, &mut ()) {
        Ok(second) => Ok(second.ended),
        Err(_) => Err(AllocError),
    }
}

// Searches a root in which each slot has a value, with both advisers or without a guide, and puts the items of the proof. The answer
// also says whether the count is exact, as it is without a guide.
pub(crate) fn put_search<A: Advisers, O, T: NodeTaker<Rows, O>>(
    alloc: Global,
    sought: &SearchRequest,
    guided: bool,
    taker: &mut T,
    out: &mut O,
) -> Result<Guided, TakeStop>
    requires can { CanSearch sought.now }
    requires ready { T.ready taker.old out.old }
    ensures ok { IfOk result (λ found. HasEnded T.ready T.took sought.now found.ended taker.old
        out.old taker.new out.new) }
    ensures exact { IfOk result (λ found. found.exact ≡ true → IsExactFor sought.now found.ended) }
    ensures unguided { IfOk result (λ found. guided ≡ false → found.exact ≡ true) }
    ensures err { OnErr result (WasBrokenOff T.took T.broke sought.now taker.old out.old
        taker.new out.new) }
    ensures faults { CountsFaults T.faults result out.old out.new }
{
    if guided {
        return search_advised::<A, _, _>(alloc, sought, taker, out);
    }
    let ended = search_hinted::<A, _, _>(alloc, sought, taker, out)?;
    Ok(Guided { ended, exact: true })
}

/// Searches the root, and builds the proof.
pub fn search_built<A: Advisers>(
    alloc: Global,
    rows: &Rows,
    rules: SplitRules,
    budget: u32,
) -> Result<Searched, AllocError>
    requires searchable { AreSearchable rules.most rows.now }
    requires budget { (1 ≤ budget) × (budget ≤ 100000) }
    ensures { IfOk result (λ searched. IsSearchOf rules.most rows.now rules.floors rules.given budget
        (ended_of searched) (tree_of searched.tree)) }
{
    let sought = SearchRequest {
        rows,
        rules,
        budget,
        start: &[],
    };
    let (searched, exact) = build_advised::<A>(alloc, &sought)?;
    if exact {
        return Ok(searched);
    }
    build_hinted::<A>(alloc, &sought)
}
