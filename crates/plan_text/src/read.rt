//! A plan from its text.

ghost use Rattle.std.specs.Prelude.{◌≡◌, ◌<◌, ◌≤◌, ◌^◌, length, position, bytes_eq, All, IfOk, MatchResult};
ghost use Rattle.plan_text.specs.PlanText.{IsStop, ReadsPlan, after_line, is_comment, line_start, named_start, plan_of_lines, plan_of_text, start_of, task_named, text_lines, unit_named};
ghost use Rattle.plan_text.specs.Published.{most_bytes, most_lines};
ghost use Rattle.plan_text.specs.ReadsBack.{IsWritable};

use crate::fault::{
    BAD_LINE, MAX_BYTES, MAX_STARTS, NUMBER_LIMIT, PlanFault, PlanStop, SMALL_BYTES, SMALL_STARTS,
    TOO_LONG, TOO_MANY_LINES, UNKNOWN_NAME,
};
use std::alloc::Global;
use stn_model::limits::{MAX_TASKS, MAX_UNITS};
use stn_model::{List, Name, Plant, Start, StnUnit, Task};
use text_words::{cut_at, read_number};

/// The plan that the text says: the starts of its lines that are no comments, in their order. Else the
/// first fault of the text, or want of memory. The units and tasks of the plan are in the plant. It takes
/// time linear in the text, times the units and tasks for the names.
pub fn read_plan(alloc: Global, plant: &Plant, bytes: &[u8]) -> Result<List<Start>, PlanStop>
    requires units { length plant.now.units ≤ MAX_UNITS }
    requires tasks { length plant.now.tasks ≤ MAX_TASKS }
    ensures gives { ReadsPlan (plan_of_text plant.now bytes.now) result }
    ensures lines { IfOk result (λ plan. length plan ≤ most_lines plant.now) }
    ensures few { IfOk result (λ plan. length plan ≤ 4096) }
    ensures writable { IfOk result (All (IsWritable plant.now)) }
{
    if bytes.len() > most_bytes(plant) {
        return Err(PlanStop::Fault(PlanFault {
            kind: TOO_LONG,
            line: 0,
        }));
    }
    read_lines(alloc, plant, bytes)
}

// How many bytes a plan text for the plant has at most.
fn most_bytes(plant: &Plant) -> usize
    ensures { result ≡ most_bytes plant.now }
{
    if plant.large { MAX_BYTES } else { SMALL_BYTES }
}

// How many lines of a plan text for the plant are no comments, at most.
fn most_starts(plant: &Plant) -> usize
    ensures { result ≡ most_lines plant.now }
{
    if plant.large {
        MAX_STARTS
    } else {
        SMALL_STARTS
    }
}

// The plan that the lines of the text say, or their first fault.
fn read_lines(alloc: Global, plant: &Plant, text: &[u8]) -> Result<List<Start>, PlanStop>
    requires units { length plant.now.units ≤ MAX_UNITS }
    requires tasks { length plant.now.tasks ≤ MAX_TASKS }
    requires short { length text.now ≤ MAX_BYTES }
    ensures { ReadsPlan (plan_of_lines plant.now (text_lines text.now)) result }
{
    let mut plan = List::new(alloc);
    let mut rest = text;
    let mut number = 0;
    while !rest.is_empty() {
        let (line, after) = cut_at(rest, b'\n');
        number += 1;
        take_line(plant, line, number, &mut plan)?;
        rest = after;
    }
    Ok(plan)
}

// Puts the start of a line, which has this number, at the end of the plan.
fn take_line(
    plant: &Plant,
    line: &[u8],
    number: u32,
    plan: &mut List<Start>,
) -> Result<(), PlanStop>
    requires units { length plant.now.units ≤ MAX_UNITS }
    requires tasks { length plant.now.tasks ≤ MAX_TASKS }
    ensures { MatchResult result
        (λ _. after_line plant.now number plan.old line.now ≡ Ok plan.new)
        (IsStop (after_line plant.now number plan.old line.now)) }
{
    if is_comment(line) {
        return Ok(());
    }
    if plan.len() == most_starts(plant) {
        return Err(PlanStop::Fault(PlanFault {
            kind: TOO_MANY_LINES,
            line: number,
        }));
    }
    match read_start(plant, line) {
        Ok(start) => {
            plan.push(start)?;
            Ok(())
        }
        Err(kind) => Err(PlanStop::Fault(PlanFault { kind, line: number })),
    }
}

// Whether the line is a comment.
fn is_comment(line: &[u8]) -> bool
    ensures { result ≡ is_comment line.now }
{
    match line {
        [b'#', ..] => true,
        _ => false,
    }
}

// The start that a line says, or the kind of its fault.
fn read_start(plant: &Plant, line: &[u8]) -> Result<Start, u8>
    requires units { length plant.now.units ≤ MAX_UNITS }
    requires tasks { length plant.now.tasks ≤ MAX_TASKS }
    ensures { result ≡ line_start plant.now line.now }
{
    let (period, rest) = cut_at(line, b' ');
    let (unit, rest) = cut_at(rest, b' ');
    let (task, quanta) = cut_at(rest, b' ');
    read_words(plant, period, unit, task, quanta)
}

// The start that four words say, or the kind of their fault.
fn read_words(
    plant: &Plant,
    period: &[u8],
    unit: &[u8],
    task: &[u8],
    quanta: &[u8],
) -> Result<Start, u8>
    requires units { length plant.now.units ≤ MAX_UNITS }
    requires tasks { length plant.now.tasks ≤ MAX_TASKS }
    ensures { result ≡ start_of plant.now period.now unit.now task.now quanta.now }
{
    if unit.is_empty() {
        return Err(BAD_LINE);
    }
    if task.is_empty() {
        return Err(BAD_LINE);
    }
    let limit = u64::from(NUMBER_LIMIT);
    match (read_number(period, limit), read_number(quanta, limit)) {
        (Some(period), Some(quanta)) => {
            find_start(plant, period as u32, unit, task, quanta as u32)
        }
        _ => Err(BAD_LINE),
    }
}

// The start with these names and numbers.
fn find_start(
    plant: &Plant,
    period: u32,
    unit: &[u8],
    task: &[u8],
    quanta: u32,
) -> Result<Start, u8>
    requires units { length plant.now.units ≤ MAX_UNITS }
    requires tasks { length plant.now.tasks ≤ MAX_TASKS }
    ensures { result ≡ named_start plant.now period unit.now task.now quanta }
{
    match (find_unit(plant, unit), find_task(plant, task)) {
        (Some(unit), Some(task)) => Ok(Start {
            period,
            unit,
            task,
            quanta,
        }),
        _ => Err(UNKNOWN_NAME),
    }
}

// The number of the unit of this name.
fn find_unit(plant: &Plant, word: &[u8]) -> Option<u32>
    requires { length plant.now.units ≤ MAX_UNITS }
    ensures { result ≡ unit_named plant.now word.now }
{
    match unit_place(plant.units.as_slice(), word) {
        Some(place) => Some(place as u32),
        None => None,
    }
}

// Where the first unit of this name stands.
fn unit_place(units: &[StnUnit], word: &[u8]) -> Option<usize>
    ensures { result ≡ position (λ unit. bytes_eq unit.name word.now) units.now }
{
    units.iter().position(|unit| is_word(&unit.name, word))
}

// The number of the task of this name.
fn find_task(plant: &Plant, word: &[u8]) -> Option<u32>
    requires { length plant.now.tasks ≤ MAX_TASKS }
    ensures { result ≡ task_named plant.now word.now }
{
    match task_place(plant.tasks.as_slice(), word) {
        Some(place) => Some(place as u32),
        None => None,
    }
}

// Where the first task of this name stands.
fn task_place(tasks: &[Task], word: &[u8]) -> Option<usize>
    ensures { result ≡ position (λ task. bytes_eq task.name word.now) tasks.now }
{
    tasks.iter().position(|task| is_word(&task.name, word))
}

// Whether the name is the word.
fn is_word(name: &Name, word: &[u8]) -> bool
    ensures { result ≡ bytes_eq name.now word.now }
{
    name.as_slice() == word
}
