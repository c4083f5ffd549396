//! Searches with the advisers, which are made and let go of in each call.
ghost use Rattle.std.specs.Prelude.{IfOk, OnErr};
ghost use Rattle.branch_tree.specs.Searched.{ended_of};
ghost use Rattle.branch_tree.specs.SearchRequest.{CanSearch, CountsFaults, HasBuilt, HasEnded, IsExactFor, TellsExact, WasBrokenOff};

use box_advice::{Advisers, Sought};
use branch_tree::{
    Ended, Guided, SearchRequest, Searched, search, search_guided, search_guided_to, search_to,
};
use proof_tree::{NodeTaker, TakeStop};
use row_relax::{Rows, choices_of};
use std::alloc::{AllocError, Global};

// The guide and the hinter of a search, of which the guide may leave boxes open though budget is left.
fn advised<A: Advisers>(
    alloc: Global,
    sought: &SearchRequest,
) -> Result<(A::Guide, A::Hinter), AllocError> {
    A::advised(alloc, &asked_for(sought), sought.budget)
}

// The guide and the hinter of a search, of which the guide leaves none open.
fn hinted<A: Advisers>(
    alloc: Global,
    sought: &SearchRequest,
) -> Result<(A::Guide, A::Hinter), AllocError> {
    A::hinted(alloc, &asked_for(sought))
}

// What the advisers of a search are made for.
fn asked_for<'a>(sought: &SearchRequest<'a>) -> Sought<'a> {
    Sought {
        program: &sought.rows.program,
        choices: choices_of(sought.rows),
        given: sought.rules.given,
        start: sought.start,
    }
}

/// Searches the root with the advice of both advisers, as `branch_tree::search_guided_to` does. The guide may leave boxes open
/// though budget is left: the answer also says whether the count is exact, so that the budget was spent, or nothing is left open.
pub fn search_advised<A: Advisers, O, T: NodeTaker<Rows, O>>(
    alloc: Global,
    sought: &SearchRequest,
    taker: &mut T,
    out: &mut O,
) -> Result<Guided, TakeStop>
    requires can { CanSearch sought.now }
    requires ready { T.ready taker.old out.old }
    ensures ok { IfOk result (λ guided. HasEnded T.ready T.took sought.now guided.ended taker.old
        out.old taker.new out.new) }
    ensures exact { IfOk result (λ guided. TellsExact sought.now guided.exact guided.ended) }
    ensures err { OnErr result (WasBrokenOff T.took T.broke sought.now taker.old out.old
        taker.new out.new) }
    ensures faults { CountsFaults T.faults result out.old out.new }
{
    let (mut guide, mut hinter) = advised::<A>(alloc, sought)?;
    search_guided_to(alloc, sought, &mut hinter, &mut guide, taker, out)
}

/// Searches the root without advice on where to split, as `branch_tree::search_to` does, and looks for plans on the way.
pub fn search_hinted<A: Advisers, O, T: NodeTaker<Rows, O>>(
    alloc: Global,
    sought: &SearchRequest,
    taker: &mut T,
    out: &mut O,
) -> Result<Ended, TakeStop>
    requires can { CanSearch sought.now }
    requires ready { T.ready taker.old out.old }
    ensures ok { IfOk result (λ ended. HasEnded T.ready T.took sought.now ended taker.old out.old
        taker.new out.new) }
    ensures exact { IfOk result (IsExactFor sought.now) }
    ensures err { OnErr result (WasBrokenOff T.took T.broke sought.now taker.old out.old
        taker.new out.new) }
    ensures faults { CountsFaults T.faults result out.old out.new }
{
    let (mut guide, mut hinter) = hinted::<A>(alloc, sought)?;
    search_to(alloc, sought, &mut hinter, &mut guide, taker, out)
}

/// As `search_advised`, and builds the proof. The answer also says whether the count is exact.
pub fn build_advised<A: Advisers>(
    alloc: Global,
    sought: &SearchRequest,
) -> Result<(Searched, bool), AllocError>
    requires { CanSearch sought.now }
    ensures ok { IfOk result (λ found. HasBuilt sought.now found.0) }
    ensures exact { IfOk result (λ found. TellsExact sought.now found.1 (ended_of found.0)) }
{
    let (mut guide, mut hinter) = advised::<A>(alloc, sought)?;
    search_guided(alloc, sought, &mut hinter, &mut guide)
}

/// As `search_hinted`, and builds the proof.
pub fn build_hinted<A: Advisers>(
    alloc: Global,
    sought: &SearchRequest,
) -> Result<Searched, AllocError>
    requires { CanSearch sought.now }
    ensures ok { IfOk result (HasBuilt sought.now) }
    ensures exact { IfOk result (λ searched. IsExactFor sought.now (ended_of searched)) }
{
    let (mut guide, mut hinter) = hinted::<A>(alloc, sought)?;
    search(alloc, sought, &mut hinter, &mut guide)
}
