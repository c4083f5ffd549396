//! What planning found.
ghost use Rattle.std.specs.Prelude.{◌≡◌, ◌++◌, All, IfOk, codes, string_bytes};
ghost use Rattle.std.specs.Fmt.{signed_decimal};
ghost use Rattle.plan_text.specs.PlanLines.{plan_lines, IsNamed};
ghost use Rattle.answer_texts.specs.Planning.{
  answer_text,
  boxes_lines,
  status_of,
  IsNamedIn,
  IsInMoney,
  IsMoney,
};

use command_replies::Reply;
use plan_text::put_plan;
use std::alloc::{AllocError, Global};
use stn_model::{Answer, List, Outcome, Plant, Start};

/// The answer that planning found, which says how many starts have changed where they are counted. It takes memory for its text.
pub fn planned(
    alloc: Global,
    plant: &Plant,
    outcome: &Outcome,
    changed: Option<usize>,
) -> Result<Reply, AllocError>
    requires { IsNamedIn plant.now outcome.now.answer }
    ensures { IfOk result (λ reply. (reply.status ≡ status_of outcome.now.answer)
        × (reply.text.items
        ≡ answer_text plant.now outcome.now.boxes changed outcome.now.answer)) }
{
    answered(
        alloc,
        plant,
        &outcome.answer,
        u64::from(outcome.boxes),
        changed,
    )
}

/// An answer with so many boxes, which says how many starts have changed where they are counted. It takes memory for its text.
pub fn answered(
    alloc: Global,
    plant: &Plant,
    answer: &Answer,
    boxes: u64,
    changed: Option<usize>,
) -> Result<Reply, AllocError>
    requires { IsNamedIn plant.now answer.now }
    ensures { IfOk result (λ reply. (reply.status ≡ status_of answer.now)
        × (reply.text.items ≡ answer_text plant.now boxes changed answer.now)) }
{
    let counts = boxes_lines(alloc, boxes, changed)?;
    let lines = counts.as_str();
    match answer {
        Answer::Optimal { plan, profit } => {
            let text = optimal_text(alloc, plant, lines, plan, profit)?;
            Ok(Reply { status: 0, text })
        }
        Answer::Infeasible => {
            let text = infeasible_text(alloc, lines)?;
            Ok(Reply { status: 1, text })
        }
        Answer::BudgetSpent { plan, profit, cap } => {
            let text = match plan {
                Some(plan) => spent_text(alloc, plant, lines, plan, profit, cap)?,
                None => unsettled_text(alloc, lines, cap)?,
            };
            Ok(Reply { status: 6, text })
        }
    }
}

/// What the types of an answer's amounts say of them.
pub fn in_money(answer: &Answer)
    ensures { IsInMoney answer.now }
{
    match answer {
        Answer::Optimal { plan: _, profit } => bounded(profit),
        Answer::Infeasible => (),
        Answer::BudgetSpent {
            plan: _,
            profit,
            cap,
        } => {
            bounded(profit);
            bounded(cap);
        }
    }
}

/// What an amount's type says of it.
pub fn bounded(amount: &i128)
    ensures { IsMoney amount.now }
{
    let _value = *amount;
}

// The line of the boxes, and that of the starts that have changed.
fn boxes_lines(alloc: Global, boxes: u64, changed: Option<usize>) -> Result<String, AllocError>
    ensures { IfOk result (λ lines. string_bytes lines ≡ boxes_lines boxes changed) }
{
    match changed {
        Some(count) => format!(in alloc; "# boxes {boxes}\n# changed {count}\n"),
        None => format!(in alloc; "# boxes {boxes}\n"),
    }
}

fn optimal_text(
    alloc: Global,
    plant: &Plant,
    lines: &str,
    plan: &List<Start>,
    profit: &i128,
) -> Result<Vec<u8>, AllocError>
    requires { All (IsNamed plant.now) plan.now }
    ensures { IfOk result (λ text. text.items
        ≡ codes "# optimal " ++ (signed_decimal profit.now ++ (codes "\n"
        ++ (lines.now ++ plan_lines plant.now plan.now)))) }
{
    let head = optimal_head(alloc, profit, lines)?;
    with_plan(alloc, plant, head.as_str(), plan.as_slice())
}

fn infeasible_text(alloc: Global, lines: &str) -> Result<Vec<u8>, AllocError>
    ensures { IfOk result (λ text. text.items ≡ codes "# infeasible\n" ++ lines.now) }
{
    let head = format!(in alloc; "# infeasible\n{lines}")?;
    Vec::from_slice(alloc, head.as_bytes())
}

fn spent_text(
    alloc: Global,
    plant: &Plant,
    lines: &str,
    plan: &List<Start>,
    profit: &i128,
    cap: &i128,
) -> Result<Vec<u8>, AllocError>
    requires { All (IsNamed plant.now) plan.now }
    ensures { IfOk result (λ text. text.items
        ≡ codes "# budget-spent " ++ (signed_decimal profit.now ++ (codes " "
        ++ (signed_decimal cap.now ++ (codes "\n"
        ++ (lines.now ++ plan_lines plant.now plan.now)))))) }
{
    let head = spent_head(alloc, profit, cap, lines)?;
    with_plan(alloc, plant, head.as_str(), plan.as_slice())
}

fn unsettled_text(alloc: Global, lines: &str, cap: &i128) -> Result<Vec<u8>, AllocError>
    ensures { IfOk result (λ text. text.items
        ≡ codes "# budget-spent - " ++ (signed_decimal cap.now ++ (codes "\n" ++ lines.now))) }
{
    let head = format!(in alloc; "# budget-spent - {cap}\n{lines}")?;
    Vec::from_slice(alloc, head.as_bytes())
}

fn optimal_head(alloc: Global, profit: &i128, lines: &str) -> Result<String, AllocError>
    ensures { IfOk result (λ head. string_bytes head
        ≡ codes "# optimal " ++ (signed_decimal profit.now ++ (codes "\n" ++ lines.now))) }
{
    format!(in alloc; "# optimal {profit}\n{lines}")
}

fn spent_head(alloc: Global, profit: &i128, cap: &i128, lines: &str) -> Result<String, AllocError>
    ensures { IfOk result (λ head. string_bytes head
        ≡ codes "# budget-spent " ++ (signed_decimal profit.now ++ (codes " "
        ++ (signed_decimal cap.now ++ (codes "\n" ++ lines.now))))) }
{
    format!(in alloc; "# budget-spent {profit} {cap}\n{lines}")
}

/// The head, followed by the lines of the plan.
pub fn with_plan(
    alloc: Global,
    plant: &Plant,
    head: &str,
    plan: &[Start],
) -> Result<Vec<u8>, AllocError>
    requires { All (IsNamed plant.now) plan.now }
    ensures { IfOk result (λ text. text.items ≡ head.now ++ plan_lines plant.now plan.now) }
{
    let mut text = Vec::from_slice(alloc, head.as_bytes())?;
    put_plan(alloc, plant, plan, &mut text)?;
    Ok(text)
}
