//! The judgement of a log that was written.
ghost use Rattle.std.specs.Prelude.{◌≡◌, ◌≤◌, Err, IsTrue, IfOk, IfSome, None, ◌+◌};
ghost use Rattle.stn_edge.specs.Count.{Rose};
ghost use Rattle.store_frames.specs.Frames.{OnlyReads};
ghost use Rattle.stn_edge.specs.Files.{file_of};
ghost use Rattle.stn_model.specs.Sound.{Sound};
ghost use Rattle.branch_tree.specs.Searched.{IsSearchable};
ghost use Rattle.valid_log.specs.Claims.{SaysOfPlans};
ghost use Rattle.opened_logs.specs.Opened.{front_of};
ghost use Rattle.opened_logs.specs.Claims.{IsOpenClaim, IsNoLess, IsNoMore, cap_of, profit_of};
ghost use Rattle.log_resuming.specs.laws.Judged.{IsMeasured, Judges};

use crate::numbers::{is_spent, is_within};
use crate::resuming::Going;
use branch_tree::is_searchable;
use log_growth::{Growth, growth};
use log_nodes::{Pair, Share};
use log_parts::{LogHead, declares_same};
use log_stops::CheckStop;
use opened_logs::{Opened, cap_of, front_of, is_no_less, is_no_more, is_open, open_log, profit_of};
use plant_check::check_stream;
use proof_log::Claim;
use row_relax::Rows;
use std::alloc::Global;
use stn_edge::Shelf;
use stn_model::{Plant, depth_limit};
use valid_log::LogVerdict;

// The version of a log that is written.
const NEWEST: u8 = 4;

/// A log that was judged: its claim, and how many boxes it counts.
#[derive(Drop)]
pub struct Judged {
    pub claim: Claim,
    pub boxes: u64,
}

// The claims of a log and of one that goes on from it.
#[derive(Clone, Copy)]
struct Claims<'a> {
    old: &'a Claim,
    new: &'a Claim,
}

// Whether what was read of both logs is what going on from the first with so many boxes comes to, where at most so many splits may stand
// one below another: where a box is left open, exactly so many more, but for ends that stand too deep, floors above the old claim's
// plan, programs too large to search, and shares.
fn is_right(
    rows: &Rows,
    most: u32,
    growth: &Growth,
    claims: Claims,
    budget: u32,
    share: &Option<Share>,
) -> bool
    ensures within { IsTrue result → growth.now.after ≤ growth.now.before + budget }
    ensures exactly { IsTrue result → share.now ≡ None → IsOpenClaim claims.entry.new.now
        → growth.now.deep ≡ 0 → growth.now.floors ≡ 0 → IsSearchable most rows.now.program
        → growth.now.after ≡ growth.now.before + budget }
    ensures profit { IsTrue result → IsNoLess (profit_of claims.entry.old.now)
        (profit_of claims.entry.new.now) }
    ensures cap { IsTrue result → IsNoMore (cap_of claims.entry.old.now)
        (cap_of claims.entry.new.now) }
{
    let Claims { old, new } = claims;
    is_within(growth, budget)
        && is_no_less(profit_of(old), profit_of(new))
        && is_no_more(cap_of(old), cap_of(new))
        && (is_spent(growth, budget) || may_be_less(rows, most, growth, new, share))
}

// Whether fewer boxes may be counted.
fn may_be_less(rows: &Rows, most: u32, growth: &Growth, new: &Claim, share: &Option<Share>) -> bool
    ensures { IsTrue result → share.now ≡ None → IsOpenClaim new.now → growth.now.deep ≡ 0
        → growth.now.floors ≡ 0 → ¬ IsSearchable most rows.now.program }
{
    share.is_some()
        || !is_open(new)
        || growth.deep != 0
        || growth.floors != 0
        || !is_searchable(&rows.program, most)
}

/// Judges a log that was written to go on from another with at most so many boxes more, where the other is valid with this claim and is
/// opened: it is checked, and read beside the other. None where it is not what going on from that comes to.
pub fn judge<F: Shelf>(
    alloc: Global,
    plant: &Plant,
    files: &mut F,
    going: Going,
    opened: &Opened,
    old: &Claim,
) -> Result<Option<Judged>, CheckStop>
    requires sound { Sound plant.now }
    requires log_allowed { IsTrue (F.may_read files.old going.log.now) }
    requires out_allowed { IsTrue (F.may_read files.old going.out.now) }
    ensures judged { IfOk result (λ judged. IfSome judged (λ j. IfSome (F.files files.old)
        (λ m. Judges plant.now (file_of m going.entry.log.now) (file_of m going.entry.out.now)
        going.entry.budget going.entry.share opened.now old.now j.claim j.boxes))) }
    ensures says { IfOk result (λ judged. IfSome judged (λ j. SaysOfPlans plant.now j.claim)) }
    ensures frame { OnlyReads F.Shelf files.old files.new }
    ensures fault { result ≡ Err CheckStop.Fault
        → Rose (F.read_faults files.old) (F.read_faults files.new) }
{
    let LogVerdict::Yes(claim) = check_stream(alloc, plant, files, going.out)? else {
        return Ok(None);
    };
    let Some(out) = open_log(alloc, plant, files, going.out)? else {
        return Ok(None);
    };
    let head = &out.head;
    if head.version != NEWEST || !declares_same(&opened.head.declared, head) {
        return Ok(None);
    }
    let claims = Claims { old, new: &claim };
    match measure(
        alloc,
        depth_limit(plant),
        files,
        going,
        opened,
        head,
        claims,
    )? {
        Some(boxes) => Ok(Some(Judged { claim, boxes })),
        None => Ok(None),
    }
}

// Reads both logs side by side, and answers how many boxes the second counts, where it is what going on from the first comes to and at
// most so many splits may stand one below another.
fn measure<F: Shelf>(
    alloc: Global,
    most: u32,
    files: &mut F,
    going: Going,
    opened: &Opened,
    head: &LogHead,
    claims: Claims,
) -> Result<Option<u64>, CheckStop>
    requires log_allowed { IsTrue (F.may_read files.old going.log.now) }
    requires out_allowed { IsTrue (F.may_read files.old going.out.now) }
    ensures measured { IfOk result (λ boxes. IfSome boxes (λ n. IfSome (F.files files.old)
        (λ m. IsMeasured most (file_of m going.entry.log.now) (file_of m going.entry.out.now)
        going.entry.budget going.entry.share opened.now head.now claims.entry.old.now
        claims.entry.new.now n))) }
    ensures frame { OnlyReads F.Shelf files.old files.new }
    ensures fault { result ≡ Err CheckStop.Fault
        → Rose (F.read_faults files.old) (F.read_faults files.new) }
{
    let rows = &opened.rows;
    let pair = Pair {
        rows,
        most,
        log: going.log,
        out: going.out,
        profit: profit_of(claims.old),
        share: going.share,
    };
    let log = front_of(&opened.head);
    let out = front_of(head);
    match growth(alloc, pair, log, out, files)? {
        Some(growth) if is_right(rows, most, &growth, claims, going.budget, &going.share) => {
            Ok(Some(growth.after))
        }
        _ => Ok(None),
    }
}
