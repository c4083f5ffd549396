//! Searches whose proof is written to a log behind a head while they go on.
ghost use Rattle.std.specs.Prelude.{◌≡◌, ◌≤◌, ◌↔◌, Bool, false, true, length, Err, IsTrue, IfOk, OnErr};
ghost use Rattle.std.specs.List.{All};
ghost use Rattle.stn_edge.specs.Count.{Rose};
ghost use Rattle.store_frames.specs.Frames.{WritesOne};
ghost use Rattle.row_kit.specs.Domain.{IsOpen};
ghost use Rattle.row_relax.specs.Choices.{HaveImages, choices_of};
ghost use Rattle.branch_tree.specs.Searched.{IsWorth};
ghost use Rattle.branch_tree.specs.SearchRequest.{BeganFor, CanSearch, IsExactFor, IsSearchFor};
ghost use Rattle.plan_told.specs.Ended.{IsEmptyRoot, IsEnding};
ghost use Rattle.proof_log.specs.Writer.{KeepsOthers, writing};
ghost use Rattle.logged_search.specs.Logging.{HasFewSplits, IsLogged, LeavesBegun, stored};
ghost use Rattle.logged_search.specs.laws.SearchRequest.{IsLoggedFor};

use crate::searching::{empty_end, put_search};
use box_advice::Advisers;
use branch_tree::{Ended, SearchRequest, is_searchable};
use log_lines::{Line, put_line};
use proof_log::LogWriter;
use proof_tree::TakeStop;
use row_relax::Rows;
use std::alloc::Global;
use stn_edge::{Shelf, Stop};

/// What a search ended with, and the writer of its log, which lacks the claim.
#[derive(Drop)]
pub struct Logged {
    pub ended: Ended,
    pub writer: LogWriter,
}

/// Searches the root with the advice on plans, and where its count is not exact anew without it, log and all. A root in which some slot
/// has no value is one empty box. The log begins with a head.
pub fn search_logged<A: Advisers, F: Shelf>(
    alloc: Global,
    sought: &SearchRequest,
    head: &[u8],
    files: &mut F,
    name: &str,
) -> Result<Logged, Stop>
    requires images { HaveImages sought.now.rows.now }
    requires splits { HasFewSplits sought.now.rules.most sought.now.rows.now.program }
    requires budget { (1 ≤ sought.now.budget) × (sought.now.budget ≤ 100000) }
    requires allowed { IsTrue (F.may_write files.old name.now) }
    ensures logged { IfOk result (λ logged. IsLogged
        (IsEnding sought.now.rules.most sought.now.rows.now sought.now.rules.floors
        sought.now.rules.given sought.now.budget logged.ended)
        sought.now.rules.most sought.now.rows.now sought.now.rules.floors head.now name.now
        (writing F.files F.read_faults F.may_read F.may_write logged.writer files.new)) }
    ensures begun { IfOk result (λ logged. IsWorth (choices_of sought.now.rows.now)
        sought.now.start.now logged.ended.best) }
    ensures err { OnErr result (LeavesBegun sought.now.rules.most sought.now.rows.now
        sought.now.rules.floors head.now name.now (F.files files.old) (F.files files.new)) }
    ensures kept { KeepsOthers
        (stored F.files F.read_faults F.may_read F.may_write name.now files.old)
        (stored F.files F.read_faults F.may_read F.may_write name.now files.new) }
    ensures later { F.write_faults files.old ≤ F.write_faults files.new }
    ensures failed { result ≡ Err Stop.Failed
        → Rose (F.write_faults files.old) (F.write_faults files.new) }
{
    let most = sought.rules.most;
    if !is_searchable(&sought.rows.program, most) {
        return log_empty(alloc, sought.rows, most, head, files, name);
    }
    let (logged, exact) = log_open::<A, _>(alloc, sought, true, head, files, name)?;
    if exact {
        return Ok(logged);
    }
    let (again, _) = log_open::<A, _>(alloc, sought, false, head, files, name)?;
    Ok(again)
}

// Begins a log and writes the proof of one empty box: some slot of the root has no value.
fn log_empty<F: Shelf>(
    alloc: Global,
    rows: &Rows,
    most: u32,
    head: &[u8],
    files: &mut F,
    name: &str,
) -> Result<Logged, Stop>
    requires bare { ¬ All IsOpen rows.now.program.root }
    requires splits { HasFewSplits most rows.now.program }
    requires allowed { IsTrue (F.may_write files.old name.now) }
    ensures logged { (floors : Bool)
        → IfOk result (λ logged. IsLogged (IsEmptyRoot rows.now.program logged.ended)
        most rows.now floors head.now name.now
        (writing F.files F.read_faults F.may_read F.may_write logged.writer files.new)) }
    ensures err { (floors : Bool)
        → OnErr result (LeavesBegun most rows.now floors head.now name.now
        (F.files files.old) (F.files files.new)) }
    ensures frame { WritesOne F.Shelf name.now files.old files.new }
    ensures failed { result ≡ Err Stop.Failed
        → Rose (F.write_faults files.old) (F.write_faults files.new) }
{
    let mut text = Vec::from_slice(alloc, head)?;
    put_line(alloc, &Line::Node, &mut text)?;
    put_line(alloc, &Line::Empty, &mut text)?;
    let writer = LogWriter::begin_with(alloc, files, name, text.as_slice())?;
    let ended = empty_end();
    Ok(Logged { ended, writer })
}

// Begins a log and writes the proof of a search with both advisers, or without a guide. The answer also says whether its count is
// exact, as it is without a guide.
fn log_open<A: Advisers, F: Shelf>(
    alloc: Global,
    sought: &SearchRequest,
    guided: bool,
    head: &[u8],
    files: &mut F,
    name: &str,
) -> Result<(Logged, bool), Stop>
    requires can { CanSearch sought.now }
    requires allowed { IsTrue (F.may_write files.old name.now) }
    ensures logged { IfOk result (λ found. IsLoggedFor sought.now
        (IsSearchFor sought.now found.0.ended) head.now name.now
        (writing F.files F.read_faults F.may_read F.may_write found.0.writer files.new)) }
    ensures begun { IfOk result (λ found. BeganFor sought.now found.0.ended.best) }
    ensures exact { IfOk result (λ found. found.1 ≡ true → IsExactFor sought.now found.0.ended) }
    ensures unguided { IfOk result (λ found. guided ≡ false → found.1 ≡ true) }
    ensures err { OnErr result (LeavesBegun sought.now.rules.most sought.now.rows.now
        sought.now.rules.floors head.now name.now (F.files files.old) (F.files files.new)) }
    ensures frame { WritesOne F.Shelf name.now files.old files.new }
    ensures failed { result ≡ Err Stop.Failed
        → Rose (F.write_faults files.old) (F.write_faults files.new) }
{
    let mut writer = LogWriter::begin_with(alloc, files, name, head)?;
    match put_search::<A, _, _>(alloc, sought, guided, &mut writer, files) {
        Ok(found) => {
            let exact = found.exact;
            let logged = Logged {
                ended: found.ended,
                writer,
            };
            Ok((logged, exact))
        }
        Err(stop) => Err(stop_of(stop)),
    }
}

// Why an item was not written.
fn stop_of(stop: TakeStop) -> Stop
    ensures { result ≡ Stop.Failed ↔ stop ≡ TakeStop.Failed }
{
    match stop {
        TakeStop::Failed => Stop::Failed,
        TakeStop::Memory => Stop::Memory,
    }
}
