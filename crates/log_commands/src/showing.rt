//! `plan PLANT LOG`: the plan that a proof log claims.
ghost use Rattle.std.specs.Prelude.{IfOk};
ghost use Rattle.stn_model.specs.Sound.{Sound};
ghost use Rattle.valid_log.specs.Claims.{SaysOfPlans, YesSays};
ghost use Rattle.log_commands.specs.Showing.{IsPlanText, TellsPlan};

use crate::claimed::{claimed_plan, in_money};
use answer_texts::{checked, claim_line};
use command_replies::Reply;
use plan_text::put_plan;
use proof_log::Claim;
use std::alloc::{AllocError, Global};
use stn_model::Plant;
use valid_log::LogVerdict;

/// What is printed of a verdict: the plan of the claim, or the first defect.
pub fn tell_plan(alloc: Global, plant: &Plant, verdict: &LogVerdict) -> Result<Reply, AllocError>
    requires sound { Sound plant.now }
    requires says { YesSays plant.now verdict.now }
    ensures { IfOk result (λ reply. TellsPlan plant.now verdict.now reply.status reply.text.items) }
{
    match verdict {
        LogVerdict::Yes(claim) => {
            let text = plan_text(alloc, plant, claim)?;
            Ok(Reply { status: 0, text })
        }
        LogVerdict::No(_) => checked(alloc, verdict),
    }
}

// The text on a claim that holds.
fn plan_text(alloc: Global, plant: &Plant, claim: &Claim) -> Result<Vec<u8>, AllocError>
    requires sound { Sound plant.now }
    requires says { SaysOfPlans plant.now claim.now }
    ensures { IfOk result (λ text. IsPlanText plant.now claim.now text.items) }
{
    let plan = claimed_plan(alloc, plant, claim)?;
    let mut text = claim_line(alloc, "# ", claim)?;
    in_money(claim);
    put_plan(alloc, plant, plan.as_slice(), &mut text)?;
    Ok(text)
}
