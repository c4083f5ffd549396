//! How many starts of a plan at hand an answer does not take over.
ghost use Rattle.std.specs.Prelude.{◌≡◌};
ghost use Rattle.answer_texts.specs.Changed.{
  same_start,
  has_start,
  is_changed,
  changed_count,
  counted_since,
};
ghost use Rattle.answer_texts.specs.Planning.{printed_plan};

use stn_model::{Answer, Start};

/// How many starts of a plan the plan of an answer does not have, where they are counted from a period on: all of them where the
/// answer has no plan. Each of them is looked for in the answer's plan from its front.
pub fn counted_since(plan: &[Start], since: Option<u32>, answer: &Answer) -> Option<usize>
    ensures { result ≡ counted_since since plan.now answer.now }
{
    match since {
        Some(period) => Some(changed_count(plan, period, printed_plan(answer))),
        None => None,
    }
}

// The plan that an answer prints.
fn printed_plan(answer: &Answer) -> &[Start]
    ensures { result.now ≡ printed_plan answer.now }
{
    match answer {
        Answer::Optimal { plan, profit: _ } => plan.as_slice(),
        Answer::Infeasible => &[],
        Answer::BudgetSpent {
            plan: None,
            profit: _,
            cap: _,
        } => &[],
        Answer::BudgetSpent {
            plan: Some(plan),
            profit: _,
            cap: _,
        } => plan.as_slice(),
    }
}

// How many starts of a plan have changed from a period on.
fn changed_count(plan: &[Start], period: u32, other: &[Start]) -> usize
    ensures { result ≡ changed_count period plan.now other.now }
{
    let mut count = 0;
    for start in plan {
        if is_changed(period, other, start) {
            count += 1;
        }
    }
    count
}

fn is_changed(period: u32, other: &[Start], start: &Start) -> bool
    ensures { result ≡ is_changed period other.now start.now }
{
    period <= start.period && !has_start(other, start)
}

// The plan has a start of the same task, unit, period and quanta.
fn has_start(plan: &[Start], start: &Start) -> bool
    ensures { result ≡ has_start plan.now start.now }
{
    for other in plan {
        if same_start(start, other) {
            return true;
        }
    }
    false
}

fn same_start(a: &Start, b: &Start) -> bool
    ensures { result ≡ same_start a.now b.now }
{
    a.period == b.period && a.unit == b.unit && a.task == b.task && a.quanta == b.quanta
}
