//! The open ends of a log, and its best plan.
ghost use Rattle.std.specs.Prelude.{◌≡◌, ◌≢◌, ℕ, map, Err, IsTrue, IfOk, OnOk};
ghost use Rattle.stn_edge.specs.Count.{Rose};
ghost use Rattle.row_relax.specs.declared.rows.Rows.{Rows};
ghost use Rattle.row_relax.specs.View.{Fits, view_of};
ghost use Rattle.branch_tree.specs.laws.Going.{CanGoOn};
ghost use Rattle.store_frames.specs.Frames.{OnlyReads};
ghost use Rattle.log_nodes.specs.laws.Seen.{seen};
ghost use Rattle.resumed_log.specs.laws.Walks.{CanWalk, GoesOnWalking, HasPassed};

use crate::claiming::point_of;
use crate::leaves::{cap_of, may_search};
use crate::walk::{OpenSplit, Walk, go_on, open_split};
use branch_tree::GoingOn;
use end_advice::OpenEnd;
use log_nodes::{Ending, Front, Node, Pair, WalkStop, enter_node, is_open, reader_at};
use proof_log::{Claim, LogPart, LogReader};
use proof_tree::{Capped, Relaxation, Stack};
use row_kit::{Area, Found};
use std::alloc::{AllocError, Global};
use stn_edge::Shelf;

/// What is found in a log: the search that is to go on, which knows its best plan, and the open ends that may be searched on, in their
/// order.
#[derive(Drop)]
pub struct Gathered<'a> {
    pub going: GoingOn<'a>,
    pub ends: Vec<OpenEnd>,
    // How many open ends there are so far.
    number: u64,
}

impl<'a> Gathered<'a> {
    /// Nothing is found yet.
    pub fn new(alloc: Global, going: GoingOn<'a>) -> Gathered<'a>
        ensures { result.going ≡ going.entry }
    {
        Gathered {
            going,
            ends: Vec::new(alloc),
            number: 0,
        }
    }

    // Keeps what an end tells that splits nothing, over an area below so many splits.
    fn note(
        &mut self,
        alloc: Global,
        pair: &Pair,
        area: &Area,
        depth: u32,
        end: &Ending,
    ) -> Result<(), AllocError>
        requires can { CanGoOn pair.now.most pair.now.rows.now self.old.going }
        requires fits { Fits pair.now.rows.now.program (seen area.now) }
        ensures { OnOk result (CanGoOn pair.now.most pair.now.rows.now self.new.going) }
    {
        if let Ending::Point = end {
            return self.going.settle(area);
        }
        if !is_open(pair.rows, area, &pair.profit, end) {
            return Ok(());
        }
        if may_search(pair, area, depth, self.number) {
            let cap = number_of(cap_of(pair.rows, area, end));
            self.ends.push(OpenEnd::over(alloc, area, depth, cap)?)?;
        }
        self.number = self.number.saturating_add(1);
        Ok(())
    }

    // Keeps a found point, where it is worth more.
    fn note_found(&mut self, found: &Option<Found>) -> Result<(), AllocError>
        ensures { (most : ℕ) (rows : Rows) → CanGoOn most rows self.old.going
            → OnOk result (CanGoOn most rows self.new.going) }
    {
        match found {
            Some(found) if is_more(found.value, self.going.best()) => {
                self.going.offer(found.point.as_slice())
            }
            _ => Ok(()),
        }
    }

    // Keeps the point of a claim, if it names one.
    fn note_claim(&mut self, claim: &Claim) -> Result<(), AllocError>
        ensures { (most : ℕ) (rows : Rows) → CanGoOn most rows self.old.going
            → OnOk result (CanGoOn most rows self.new.going) }
    {
        match point_of(claim) {
            Some(point) => self.going.offer(point),
            None => Ok(()),
        }
    }
}

// Whether a worth is above that of a point, or there is none.
fn is_more(worth: i128, best: &Option<Found>) -> bool {
    match best {
        Some(found) => found.value < worth,
        None => true,
    }
}

// A cap as a number: the least where there is no point, the greatest where nothing is claimed.
fn number_of(cap: Capped) -> i128 {
    match cap {
        Capped::NoPoint => i128::MIN,
        Capped::AtMost(most) => most,
        Capped::Bad => i128::MAX,
    }
}

/// Reads a whole log behind its head, and answers its claim as it stands there.
pub fn gather<F: Shelf>(
    alloc: Global,
    pair: Pair,
    front: Front,
    files: &mut F,
    gathered: &mut Gathered,
) -> Result<Claim, WalkStop>
    requires allowed { IsTrue (F.may_read files.old pair.log.now) }
    requires can { CanGoOn pair.most pair.rows.now gathered.old.going }
    ensures frame { OnlyReads F.Shelf files.old files.new }
    ensures read_fault { result ≡ Err WalkStop.ReadFault
        → Rose (F.read_faults files.old) (F.read_faults files.new) }
    ensures no_fault { result ≢ Err WalkStop.WriteFault }
{
    let mut reader = reader_at(alloc, front)?;
    let mut area = pair.rows.root_area(alloc)?;
    let walk = Walk {
        alloc,
        pair,
        depth: 0,
    };
    gather_node(walk, files, &mut reader, gathered, &mut area)?;
    gather_claim(pair, files, &mut reader, gathered)
}

// Reads the claim of a log, and keeps its point.
fn gather_claim<F: Shelf>(
    pair: Pair,
    files: &mut F,
    reader: &mut LogReader,
    gathered: &mut Gathered,
) -> Result<Claim, WalkStop>
    requires allowed { IsTrue (F.may_read files.old pair.log.now) }
    requires walking { GoesOnWalking (F.files files.old) pair.log.now reader.old
        pair.most pair.rows.now gathered.old.going }
    ensures frame { OnlyReads F.Shelf files.old files.new }
    ensures read_fault { result ≡ Err WalkStop.ReadFault
        → Rose (F.read_faults files.old) (F.read_faults files.new) }
    ensures no_fault { result ≢ Err WalkStop.WriteFault }
{
    match reader.next(files, pair.log)? {
        LogPart::Claim { line: _, claim } => {
            gathered.note_claim(&claim)?;
            Ok(claim)
        }
        _ => Err(WalkStop::Other),
    }
}

// Reads a proof over an area, which is afterwards as before. It is a loop, and holds the splits whose right parts are left to read.
fn gather_node<F: Shelf>(
    walk: Walk,
    files: &mut F,
    reader: &mut LogReader,
    gathered: &mut Gathered,
    area: &mut Area,
) -> Result<(), WalkStop>
    requires can { CanWalk F.Shelf files.old walk.pair reader.old gathered.old.going
        (seen area.old) }
    ensures walking { OnOk result (GoesOnWalking (F.files files.new) walk.entry.pair.log.now
        reader.new walk.entry.pair.most walk.entry.pair.rows.now gathered.new.going) }
    ensures as_before { OnOk result (map view_of area.new ≡ map view_of area.old) }
    ensures frame { OnlyReads F.Shelf files.old files.new }
    ensures read_fault { result ≡ Err WalkStop.ReadFault
        → Rose (F.read_faults files.old) (F.read_faults files.new) }
    ensures no_fault { result ≢ Err WalkStop.WriteFault }
{
    let mark = walk.pair.rows.mark(area);
    let mut splits = Stack::new(walk.alloc);
    let mut depth = walk.depth;
    'nodes: loop {
        let here = Walk { depth, ..walk };
        let split = gather_here(here, files, reader, gathered, area)?;
        match go_on(walk, area, &mut splits, split)? {
            Some(below) => depth = below,
            None => {
                walk.pair.rows.back(area, mark);
                return Ok(());
            }
        }
    }
}

// Reads the next node over an area, and keeps what it tells; where it splits, the area is afterwards its left part.
fn gather_here<F: Shelf>(
    walk: Walk,
    files: &mut F,
    reader: &mut LogReader,
    gathered: &mut Gathered,
    area: &mut Area,
) -> Result<Option<OpenSplit>, WalkStop>
    requires can { CanWalk F.Shelf files.old walk.pair reader.old gathered.old.going
        (seen area.old) }
    ensures walking { OnOk result (GoesOnWalking (F.files files.new) walk.entry.pair.log.now
        reader.new walk.entry.pair.most walk.entry.pair.rows.now gathered.new.going) }
    ensures passed { IfOk result (HasPassed walk.entry.pair walk.entry.depth
        (map view_of area.old) (map view_of area.new)) }
    ensures frame { OnlyReads F.Shelf files.old files.new }
    ensures read_fault { result ≡ Err WalkStop.ReadFault
        → Rose (F.read_faults files.old) (F.read_faults files.new) }
    ensures no_fault { result ≢ Err WalkStop.WriteFault }
{
    let node = enter_node(walk.alloc, walk.pair, files, reader, area)?;
    gather_below(walk, gathered, area, &node)
}

// Keeps what a node tells, over an area after its cuts; where it splits, the area is afterwards its left part.
fn gather_below(
    walk: Walk,
    gathered: &mut Gathered,
    area: &mut Area,
    node: &Node,
) -> Result<Option<OpenSplit>, WalkStop>
    requires can { CanGoOn walk.pair.most walk.pair.rows.now gathered.old.going }
    requires fits { Fits walk.pair.rows.now.program (seen area.old) }
    ensures can { OnOk result
        (CanGoOn walk.entry.pair.most walk.entry.pair.rows.now gathered.new.going) }
    ensures passed { IfOk result (HasPassed walk.entry.pair walk.entry.depth
        (map view_of area.old) (map view_of area.new)) }
    ensures no_fault { (result ≢ Err WalkStop.ReadFault) × (result ≢ Err WalkStop.WriteFault) }
{
    gathered.note_found(&node.found)?;
    let Ending::Split(pick, cert) = &node.end else {
        gathered.note(walk.alloc, &walk.pair, area, walk.depth, &node.end)?;
        return Ok(None);
    };
    let _ = walk.pair.rows.trim(area, pick, cert);
    Ok(Some(open_split(walk, area, pick)?))
}
