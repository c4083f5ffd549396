//! Searches of a small program.
ghost use Rattle.std.specs.Prelude.{◌≤◌};
ghost use Rattle.branch_tree.specs.Searched.{AreSearchable};
ghost use Rattle.branch_tree.specs.SearchRequest.{CanSearch};

use crate::advisers::{Liar, Silent, Splitter, Teller};
use crate::told::{put_best, put_floor, put_search, put_split};
use branch_tree::{
    Hinter, SearchRequest, Searched, SplitRules, are_plain_searchable, search, search_guided,
};
use case_programs::{bytes_of, put_cap};
use case_tables::{Sheet, Tried};
use row_relax::Rows;
use split_advice::PlainGuide;
use std::alloc::{AllocError, Global};

// So many splits may stand one below another.
const MOST_SPLITS: u32 = 4_608;

/// Prints what a search gives.
pub fn answer_step(alloc: Global, rows: &Rows, verb: &str, sheet: &mut Sheet) -> Tried {
    if !are_plain_searchable(rows, MOST_SPLITS) {
        return sheet.refused();
    }
    match verb {
        "search" | "hint" => plain(alloc, rows, sheet),
        "begin" => begun(alloc, rows, sheet),
        "floor" => floored(alloc, rows, sheet),
        "lie" => guided(alloc, rows, false, sheet),
        "leave" => guided(alloc, rows, true, sheet),
        "split" => split(alloc, rows, sheet),
        _ => sheet.refused(),
    }
}

// A budget of boxes.
fn budget_of(sheet: &mut Sheet) -> u32
    ensures { (1 ≤ result) × (result ≤ 100000) }
{
    let budget = sheet.number();
    if budget < 1 || budget > 100_000 {
        sheet.refuse();
        return 1;
    }
    budget
}

// The number of slots, none of which is a sum's.
fn slot_count(rows: &Rows) -> u32 {
    rows.program.root.len() as u32
}

// A search of at most so many boxes that begins with this point. Slots from the number `given` on are sums.
fn sought_in<'a>(
    rows: &'a Rows,
    given: u32,
    floors: bool,
    budget: u32,
    start: &'a [u8],
) -> SearchRequest<'a>
    requires searchable { AreSearchable 4608 rows.now }
    requires budget { (1 ≤ budget) × (budget ≤ 100000) }
    ensures { CanSearch result }
{
    let rules = SplitRules {
        given,
        floors,
        most: MOST_SPLITS,
    };
    SearchRequest {
        rows,
        rules,
        budget,
        start,
    }
}

// `search BUDGET` with a hinter that says of points outside of every box that they are lawful, and `hint BUDGET VALUE ..` with
// one that tells this point: the cap, the worth of the best point, and whether a box is left open.
fn plain(alloc: Global, rows: &Rows, sheet: &mut Sheet) -> Tried
    requires { AreSearchable 4608 rows.now }
{
    let budget = budget_of(sheet);
    let mut hinter = Teller {
        point: bytes_of(alloc, sheet)?,
    };
    let found = search_plain(alloc, rows, budget, &[], &mut hinter)?;
    put_search(&found, sheet);
    Ok(())
}

// A search that is not advised where to split.
fn search_plain<H: Hinter>(
    alloc: Global,
    rows: &Rows,
    budget: u32,
    start: &[u8],
    hinter: &mut H,
) -> Result<Searched, AllocError>
    requires searchable { AreSearchable 4608 rows.now }
    requires budget { (1 ≤ budget) × (budget ≤ 100000) }
{
    let sought = sought_in(rows, slot_count(rows), false, budget, start);
    search(alloc, &sought, hinter, &mut PlainGuide)
}

// `begin BUDGET VALUE ..`, without plans that are offered: a search that begins with this point, which may not be lawful.
fn begun(alloc: Global, rows: &Rows, sheet: &mut Sheet) -> Tried
    requires { AreSearchable 4608 rows.now }
{
    let budget = budget_of(sheet);
    let start = bytes_of(alloc, sheet)?;
    let found = search_plain(alloc, rows, budget, &start, &mut Silent)?;
    put_search(&found, sheet);
    Ok(())
}

// `floor BUDGET VALUE ..`: as `begin`, where splits may have floors, and the floor of the root's split.
fn floored(alloc: Global, rows: &Rows, sheet: &mut Sheet) -> Tried
    requires { AreSearchable 4608 rows.now }
{
    let budget = budget_of(sheet);
    let start = bytes_of(alloc, sheet)?;
    let found = search_floored(alloc, rows, budget, &start)?;
    put_search(&found, sheet);
    put_floor(&found.tree, sheet);
    Ok(())
}

fn search_floored(
    alloc: Global,
    rows: &Rows,
    budget: u32,
    start: &[u8],
) -> Result<Searched, AllocError>
    requires searchable { AreSearchable 4608 rows.now }
    requires budget { (1 ≤ budget) × (budget ≤ 100000) }
{
    let sought = sought_in(rows, slot_count(rows), true, budget, start);
    search(alloc, &sought, &mut Silent, &mut PlainGuide)
}

// `lie BUDGET` and `leave BUDGET`, with a guide that advises what is not there, and may leave every part open: the best point,
// whether a box is left open, whether the count is exact, and the cap where none is open.
fn guided(alloc: Global, rows: &Rows, leaves: bool, sheet: &mut Sheet) -> Tried
    requires { AreSearchable 4608 rows.now }
{
    let budget = budget_of(sheet);
    let (found, exact) = search_lying(alloc, rows, budget, leaves)?;
    put_guided(&found, exact, sheet);
    Ok(())
}

fn search_lying(
    alloc: Global,
    rows: &Rows,
    budget: u32,
    leaves: bool,
) -> Result<(Searched, bool), AllocError>
    requires searchable { AreSearchable 4608 rows.now }
    requires budget { (1 ≤ budget) × (budget ≤ 100000) }
{
    let mut hinter = Teller {
        point: Vec::new(alloc),
    };
    let mut guide = Liar { leaves };
    let sought = sought_in(rows, slot_count(rows), false, budget, &[]);
    search_guided(alloc, &sought, &mut hinter, &mut guide)
}

fn put_guided(found: &Searched, exact: bool, sheet: &mut Sheet) {
    put_best(&found.best, found.left_open, sheet);
    sheet.line(if exact { "exact" } else { "not exact" });
    if !found.left_open {
        put_cap(found.cap, sheet);
    }
}

// `split GIVEN VALUE`, with a guide that advises to split the first slot there, where the slots from GIVEN on are sums: the cap,
// the best point, and where the root is split.
fn split(alloc: Global, rows: &Rows, sheet: &mut Sheet) -> Tried
    requires { AreSearchable 4608 rows.now }
{
    let given = sheet.number();
    let max = sheet.number();
    let (found, _) = search_splitting(alloc, rows, given, max)?;
    put_search(&found, sheet);
    put_split(&found.tree, sheet);
    Ok(())
}

fn search_splitting(
    alloc: Global,
    rows: &Rows,
    given: u32,
    max: u8,
) -> Result<(Searched, bool), AllocError>
    requires { AreSearchable 4608 rows.now }
{
    let sought = sought_in(rows, given, false, 1_000, &[]);
    search_guided(alloc, &sought, &mut Silent, &mut Splitter { max })
}
