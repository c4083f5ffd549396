//! The text of an answer, and its status.
ghost use Rattle.std.specs.Prelude.{◌≡◌, ◌++◌, All, IfOk, codes, count_by, string_bytes};
ghost use Rattle.std.specs.Fmt.{signed_decimal};
ghost use Rattle.stn_model.specs.Sound.{Sound};
ghost use Rattle.plan_text.specs.PlanLines.{IsNamed};
ghost use Rattle.order_conflict.specs.declared.answer.ConflictAnswer.TheVariants.{Planned};
ghost use Rattle.conflict_commands.specs.Finding.{answer_status, answer_text, has_open, is_open_mark, IsPrintable};

use answer_texts::with_plan;
use command_replies::Reply;
use order_conflict::ConflictAnswer;
use order_text::{Mark, conflict_text};
use std::alloc::{AllocError, Global};
use stn_model::{List, Plant, Start};

// The reply to an answer.
pub fn reply_of(alloc: Global, plant: &Plant, said: &ConflictAnswer) -> Result<Reply, AllocError>
    requires sound { Sound plant.now }
    requires printable { IsPrintable plant.now said.now }
    ensures { IfOk result (λ reply. (reply.status ≡ answer_status said.now)
        × (reply.text.items ≡ answer_text plant.now said.now)) }
{
    let text = text_of(alloc, plant, said)?;
    Ok(Reply {
        status: status_of(said),
        text,
    })
}

// The status of an answer.
fn status_of(said: &ConflictAnswer) -> u8
    ensures { result ≡ answer_status said.now }
{
    match said {
        ConflictAnswer::Planned { profit: _, plan: _ } => 0,
        ConflictAnswer::Unsettled => 6,
        ConflictAnswer::Among { marks } => { if has_open(marks.as_slice()) { 6 } else { 0 } }
        ConflictAnswer::Unproved { marks: _ } => 6,
    }
}

// Whether the step without some delivery spent its budget.
fn has_open(marks: &[Mark]) -> bool
    ensures { result ≡ has_open marks.now }
{
    count_open(marks) > 0
}

fn count_open(marks: &[Mark]) -> usize
    ensures { result ≡ count_by is_open_mark marks.now }
{
    marks.iter().filter(|mark| is_open_mark(**mark)).count()
}

fn is_open_mark(mark: Mark) -> bool
    ensures { result ≡ is_open_mark mark }
{
    match mark {
        Mark::Out => false,
        Mark::Needed => false,
        Mark::Open => true,
    }
}

// The text of an answer.
#[tactic(auto, unfolding(crate::specs::Finding::answer_text))]
fn text_of(alloc: Global, plant: &Plant, said: &ConflictAnswer) -> Result<Vec<u8>, AllocError>
    requires sound { Sound plant.now }
    requires printable { IsPrintable plant.now said.now }
    ensures { IfOk result (λ text. text.items ≡ answer_text plant.now said.now) }
{
    match said {
        ConflictAnswer::Planned { profit, plan } => plan_text(alloc, plant, profit, plan),
        ConflictAnswer::Unsettled => open_text(alloc),
        ConflictAnswer::Among { marks } => conflict_text(alloc, plant, marks.as_slice()),
        ConflictAnswer::Unproved { marks: _ } => open_text(alloc),
    }
}

fn plan_text(
    alloc: Global,
    plant: &Plant,
    profit: &i128,
    plan: &List<Start>,
) -> Result<Vec<u8>, AllocError>
    requires { All (IsNamed plant.now) plan.now }
    ensures { IfOk result (λ text. text.items
        ≡ answer_text plant.now (Planned profit.now plan.now)) }
{
    let head = plan_head(alloc, profit)?;
    with_plan(alloc, plant, head.as_str(), plan.as_slice())
}

fn plan_head(alloc: Global, profit: &i128) -> Result<String, AllocError>
    ensures { IfOk result (λ head. string_bytes head
        ≡ codes "# feasible " ++ (signed_decimal profit.now ++ codes "\n")) }
{
    format!(in alloc; "# feasible {profit}\n")
}

fn open_text(alloc: Global) -> Result<Vec<u8>, AllocError>
    ensures { IfOk result (λ text. text.items ≡ codes "# open\n") }
{
    Vec::from_slice(alloc, "# open\n".as_bytes())
}
