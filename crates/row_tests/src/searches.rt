//! Searches with a hinter that counts, a taker that refuses, and a guide that dives.
ghost use Rattle.std.specs.Prelude.{IfSome, ◌≤◌};
ghost use Rattle.branch_tree.specs.Searched.{AreSearchable};
ghost use Rattle.branch_tree.specs.SearchRequest.{CanSearch};

use crate::tables::{CHAIN, CHAIN_ROWS, WIDE, over_rows, program};
use branch_tree::{
    Advice, Asked, Guide, Hinter, SearchRequest, SplitRules, are_plain_searchable, search_guided,
    search_to,
};
use dual_bound::{Cert, Mult};
use proof_tree::{Capped, Item, NodeTaker, TakeStop};
use row_kit::{Area, Entry, List, Program, Row};
use row_relax::Rows;
use split_advice::PlainGuide;
use std::alloc::{AllocError, Global};
use std::test::Fail;

// So many splits may stand one below another.
const MOST_SPLITS: u32 = 4_608;

// Offers nothing, and counts how often it is asked.
#[derive(Drop)]
struct Silent {
    asked: u32,
}

impl Hinter for Silent {
    fn offer(&mut self, _program: &Program, _area: &Area, _point: &mut [u8]) -> bool {
        self.asked = self.asked.saturating_add(1);
        false
    }
}

// Leaves each part in which some slot lacks its greatest value, so that the search goes down one deep path.
#[derive(Drop)]
struct Diver;

impl Guide for Diver {
    fn leaves(&mut self, _program: &Program, area: &Area, _depth: u32) -> bool {
        for slot in 0..area.slot_count() {
            if area.domain(slot).hi < 255 {
                return true;
            }
        }
        false
    }

    fn advise(&mut self, asked: &Asked, _point: &mut [u8]) -> Result<Advice, AllocError> {
        let mults = [Mult { row: 0, factor: 1 }];
        let cert = Cert {
            scale: 1,
            mults: List::from_slice(asked.alloc, &mults)?,
        };
        Ok(Advice {
            cert: Some(cert),
            slot: None,
            max: None,
        })
    }
}

// Takes so many items, and then finds no memory.
#[derive(Drop)]
struct Cutoff {
    left: u32,
}

impl NodeTaker<Rows, ()> for Cutoff {
    ghost faults = { λ _. 0 };

    ghost ready = { λ _ _. Unit {0} };

    ghost took = { λ _ _ _ _ _. Unit {0} };

    ghost broke = { λ _ _ _ _ _. Unit {0} };

    ghost took_none = { λ _ _. tt };

    fn put(&mut self, _out: &mut (), _item: &Item<Rows>) -> Result<(), TakeStop> {
        match self.left.checked_sub(1) {
            Some(left) => {
                self.left = left;
                Ok(())
            }
            None => Err(TakeStop::Memory),
        }
    }
}

// A search of rows, none of whose slots is a sum's, that counts at most so many boxes.
fn sought_in(rows: &Rows, budget: u32) -> SearchRequest
    requires searchable { AreSearchable 4608 rows.now }
    requires budget { (1 ≤ budget) × (budget ≤ 100000) }
    ensures { CanSearch result }
{
    SearchRequest {
        rows,
        rules: SplitRules {
            given: rows.program.root.len() as u32,
            floors: false,
            most: MOST_SPLITS,
        },
        budget,
        start: &[],
    }
}

// The rows of a program that can be searched.
fn searchable(program: Option<Program>) -> Option<Rows>
    ensures { IfSome result (AreSearchable 4608) }
{
    let Some(program) = program else {
        return None;
    };
    let rows = Rows {
        program,
        choices: None,
    };
    if are_plain_searchable(&rows, MOST_SPLITS) {
        Some(rows)
    } else {
        None
    }
}

// Searches a chain with a taker that takes so many items: why it broke off, and how often the hinter was asked.
fn searched(alloc: Global, rows: &Rows, left: u32) -> (Option<TakeStop>, u32)
    requires { AreSearchable 4608 rows.now }
{
    let mut hinter = Silent { asked: 0 };
    let mut taker = Cutoff { left };
    let sought = sought_in(rows, 7);
    let ended = search_to(
        alloc,
        &sought,
        &mut hinter,
        &mut PlainGuide,
        &mut taker,
        &mut (),
    );
    (ended.err(), hinter.asked)
}

#[test]
fn items_are_put_while_the_search_runs(rt: HostRuntime) -> Result<(), Fail> {
    let alloc = rt.alloc();
    let rows = searchable(program(alloc, CHAIN, CHAIN_ROWS)?).ok_or("bounds")?;
    let (broken, asked) = searched(alloc, &rows, 1);
    assert!(rt; broken == Some(TakeStop::Memory) && asked <= 1);
    let (broken, asked) = searched(alloc, &rows, 1_000);
    assert!(rt; broken.is_none() && asked >= 3);
    Ok(())
}

// A row over all these slots, which lacks a quantum of letting each have its greatest value.
fn long_row(alloc: Global) -> Result<Row, AllocError> {
    let mut entries = List::new(alloc);
    for slot in 0..512u32 {
        entries.push(Entry {
            slot,
            fixed: 0,
            per: 1,
        })?;
    }
    Ok(Row {
        entries,
        limit: 130_559,
    })
}

// The widest program, with that row.
fn wide_program(alloc: Global) -> Result<Option<Program>, AllocError> {
    let mut list = List::new(alloc);
    list.push(long_row(alloc)?)?;
    over_rows(alloc, WIDE, list)
}

// Dives: whether a box is left open and the count is not exact, the cap, and the boxes that were counted.
fn dived(alloc: Global, rows: &Rows) -> Result<(bool, Capped, u32), AllocError>
    requires { AreSearchable 4608 rows.now }
{
    let mut hinter = Silent { asked: 0 };
    let sought = sought_in(rows, 100_000);
    let (found, exact) = search_guided(alloc, &sought, &mut hinter, &mut Diver)?;
    Ok((found.left_open && !exact, found.cap, found.spent))
}

#[test]
fn a_deep_path_fits_the_stack(rt: HostRuntime) -> Result<(), Fail> {
    let alloc = rt.alloc();
    let rows = searchable(wide_program(alloc)?).ok_or("bounds")?;
    let (open, cap, spent) = dived(alloc, &rows)?;
    assert!(rt; open && cap == Capped::AtMost(130_559) && spent > 4_000);
    Ok(())
}
