//! What a check of a log found.
ghost use Rattle.std.specs.Prelude.{◌≡◌, ◌++◌, IfOk, codes, decimal};
ghost use Rattle.std.specs.Fmt.{signed_decimal};
ghost use Rattle.answer_texts.specs.Checking.{claim_words, checked_text, checked_status};

use crate::lines::amount_line;
use command_replies::Reply;
use log_lines::Defect;
use proof_log::Claim;
use std::alloc::{AllocError, Global};
use valid_log::LogVerdict;

/// The answer that a check of a log found.
#[tactic(auto, unfolding(crate::specs::Checking::checked_text, crate::specs::Checking::claim_text))]
pub fn checked(alloc: Global, verdict: &LogVerdict) -> Result<Reply, AllocError>
    ensures { IfOk result (λ reply. (reply.status ≡ checked_status verdict.now)
        × (reply.text.items ≡ checked_text verdict.now)) }
{
    match verdict {
        LogVerdict::Yes(claim) => {
            let text = claim_line(alloc, "yes ", claim)?;
            Ok(Reply { status: 0, text })
        }
        LogVerdict::No(defect) => {
            let text = defect_text(alloc, defect)?;
            Ok(Reply { status: 1, text })
        }
    }
}

/// A line that ends in a claim.
pub fn claim_line(alloc: Global, what: &str, claim: &Claim) -> Result<Vec<u8>, AllocError>
    ensures { IfOk result (λ text. text.items ≡ what.now ++ claim_words claim.now) }
{
    let mut text = Vec::from_slice(alloc, what.as_bytes())?;
    let words = claim_words(alloc, claim)?;
    text.extend_from_slice(words.as_slice())?;
    Ok(text)
}

#[tactic(auto, unfolding(crate::specs::Checking::claim_words))]
fn claim_words(alloc: Global, claim: &Claim) -> Result<Vec<u8>, AllocError>
    ensures { IfOk result (λ text. text.items ≡ claim_words claim.now) }
{
    match claim {
        Claim::Optimal { profit, point: _ } => amount_line(alloc, "optimal ", profit),
        Claim::Infeasible => Vec::from_slice(alloc, "infeasible\n".as_bytes()),
        Claim::Between {
            profit,
            cap,
            point: _,
        } => between_text(alloc, profit, cap),
        Claim::Below { cap } => amount_line(alloc, "below ", cap),
    }
}

fn between_text(alloc: Global, profit: &i128, cap: &i128) -> Result<Vec<u8>, AllocError>
    ensures { IfOk result (λ text. text.items
        ≡ codes "between " ++ (signed_decimal profit.now ++ (codes " "
        ++ (signed_decimal cap.now ++ codes "\n")))) }
{
    let line = format!(in alloc; "between {profit} {cap}\n")?;
    Vec::from_slice(alloc, line.as_bytes())
}

fn defect_text(alloc: Global, defect: &Defect) -> Result<Vec<u8>, AllocError>
    ensures { IfOk result (λ text. text.items
        ≡ codes "no " ++ (decimal defect.now.line ++ (codes " " ++ (decimal defect.now.kind
        ++ codes "\n")))) }
{
    let line = defect.line;
    let kind = defect.kind;
    let text = format!(in alloc; "no {line} {kind}\n")?;
    Vec::from_slice(alloc, text.as_bytes())
}
