//! A plan as its lines.

ghost use Rattle.std.specs.Prelude.{◌≡◌, ◌++◌, ◌∷◌, [], decimal, OnOk, OnErr, All};
ghost use Rattle.plan_text.specs.PlanLines.{IsNamed, plan_line, plan_lines};
ghost use Rattle.plan_text.specs.ReadsBack.{ReadsBack, SaysAgain};

use std::alloc::{AllocError, Global};
use stn_model::{Plant, Start};
use text_words::put_number;

/// Appends the lines of the plan, one for each start, in the order of the plan. After want of memory
/// `into` is as before. It takes time linear in the length of the lines.
pub fn put_plan(
    alloc: Global,
    plant: &Plant,
    plan: &[Start],
    into: &mut Vec<u8>,
) -> Result<(), AllocError>
    requires { All (IsNamed plant.now) plan.now }
    ensures ok { OnOk result (into.new.items ≡ into.old.items ++ plan_lines plant.now plan.now) }
    ensures err { OnErr result (into.new.items ≡ into.old.items) }

    // Of these lines `read_plan` gives the plan again.
    ensures again { SaysAgain plant.now plan.now }

    // So it does of comments and then these lines, where they are not too long together.
    ensures after_comments { ReadsBack plant.now plan.now }
{
    let mut lines = Vec::new(alloc);
    for start in plan {
        put_line(alloc, plant, *start, &mut lines)?;
    }
    into.extend_from_slice(lines.as_slice())
}

// Appends the line of a start.
fn put_line(
    alloc: Global,
    plant: &Plant,
    start: Start,
    lines: &mut Vec<u8>,
) -> Result<(), AllocError>
    requires { IsNamed plant.now start }
    ensures { OnOk result (lines.new.items ≡ lines.old.items ++ plan_line plant.now start) }
{
    put_number(alloc, u64::from(start.period), lines)?;
    put_name(plant.units.get(start.unit as usize).name.as_slice(), lines)?;
    put_name(plant.tasks.get(start.task as usize).name.as_slice(), lines)?;
    lines.push(b' ')?;
    put_number(alloc, u64::from(start.quanta), lines)?;
    lines.push(b'\n')?;
    Ok(())
}

// Appends a blank and the name.
fn put_name(name: &[u8], lines: &mut Vec<u8>) -> Result<(), AllocError>
    ensures { OnOk result (lines.new.items ≡ lines.old.items ++ (32 ∷ name.now)) }
{
    lines.push(b' ')?;
    lines.extend_from_slice(name)
}
