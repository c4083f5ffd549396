//! The lines of a claim.

ghost use Rattle.std.specs.Prelude.{◌≡◌, ℕ, ◌++◌, ◌∷◌, [], List, flat_map, OnOk, OnErr};
ghost use Rattle.log_lines.specs.declared.line.Line.{Line};
ghost use Rattle.row_relax.specs.RowProofs.{RowItem};
ghost use Rattle.proof_log.specs.Log.{item_lines, claim_lines, lines_text, log_text, started, value_lines};

use crate::claim::Claim;
use crate::parts::{put_values, started};
use log_lines::{Line, put_line};
use std::alloc::{AllocError, Global};

/// Appends the lines of the claim and the end of its log. After an error `into` is as before.
pub fn put_claim(alloc: Global, claim: &Claim, into: &mut Vec<u8>) -> Result<(), AllocError>
    ensures ok { OnOk result (into.new.items
        ≡ into.old.items ++ lines_text (claim_lines claim.now ++ Line.End ∷ [])) }
    ensures err { OnErr result (into.new.items ≡ into.old.items) }

    // Behind the lines of a proof that makes the text of a log.
    ensures log { OnOk result ((before : List ℕ) (items : List RowItem)
        → into.old.items ≡ before ++ lines_text (Line.Header 2 ∷ flat_map item_lines items)
        → into.new.items ≡ before ++ log_text 2 items claim.now) }
{
    let mut lines = Vec::new(alloc);
    append_rest(alloc, claim, &mut lines)?;
    into.extend_from_slice(lines.as_slice())
}

/// Appends the lines of the claim and the end of its log, or a part of them and then an error.
#[tactic(auto, unfolding(crate::specs::Log::lines_text))]
pub(crate) fn append_rest(
    alloc: Global,
    claim: &Claim,
    into: &mut Vec<u8>,
) -> Result<(), AllocError>
    ensures { OnOk result (into.new.items
        ≡ into.old.items ++ lines_text (claim_lines claim.now ++ Line.End ∷ [])) }
{
    append_claim(alloc, claim, into)?;
    put_line(alloc, &Line::End, into)
}

// Appends the lines of the claim, or of a part of it and then an error.
#[tactic(auto, unfolding(crate::specs::Log::lines_text, crate::specs::Log::claim_lines))]
fn append_claim(alloc: Global, claim: &Claim, into: &mut Vec<u8>) -> Result<(), AllocError>
    ensures { OnOk result (into.new.items ≡ into.old.items ++ lines_text (claim_lines claim.now)) }
{
    match claim {
        Claim::Optimal { profit, point } => put_optimal(alloc, profit, point.as_slice(), into),
        Claim::Infeasible => put_line(alloc, &Line::ClaimInfeasible, into),
        Claim::Between { profit, cap, point } => {
            put_between(alloc, profit, cap, point.as_slice(), into)
        }
        Claim::Below { cap } => put_line(alloc, &Line::ClaimBelow { cap: *cap }, into),
    }
}

// Appends the lines of a best plan.
#[tactic(auto, unfolding(crate::specs::Log::lines_text, crate::specs::Log::claim_lines))]
fn put_optimal(
    alloc: Global,
    profit: &i128,
    point: &[u8],
    into: &mut Vec<u8>,
) -> Result<(), AllocError>
    ensures { OnOk result (into.new.items
        ≡ into.old.items ++ lines_text
        (Line.ClaimOptimal profit.now (started point.now) ∷ value_lines 0 point.now)) }
{
    let count = started(point);
    let profit = *profit;
    put_line(alloc, &Line::ClaimOptimal { profit, count }, into)?;
    put_values(alloc, point, into)
}

// Appends the lines of a plan and a cap.
#[tactic(auto, unfolding(crate::specs::Log::lines_text, crate::specs::Log::claim_lines))]
fn put_between(
    alloc: Global,
    profit: &i128,
    cap: &i128,
    point: &[u8],
    into: &mut Vec<u8>,
) -> Result<(), AllocError>
    ensures { OnOk result (into.new.items
        ≡ into.old.items ++ lines_text
        (Line.ClaimBetween profit.now cap.now (started point.now) ∷ value_lines 0 point.now)) }
{
    let count = started(point);
    let profit = *profit;
    let cap = *cap;
    put_line(alloc, &Line::ClaimBetween { profit, cap, count }, into)?;
    put_values(alloc, point, into)
}
