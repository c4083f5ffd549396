//! The work on a command, by the crate that its call stands in.
ghost use Rattle.std.specs.Prelude.{◌≢◌, Err};
ghost use Rattle.command_words.specs.Words.{meaning};
ghost use Rattle.command_replies.specs.Sources.{IfReplied};
ghost use Rattle.demo_commands.specs.Demo.{Shown};
ghost use Rattle.stn_top.specs.Done.{HasDone, KeepsLeave, MayBeDone};
ghost use Rattle.stn_top.specs.Rooms.{IsPlanning, IsReplanning, IsOfHorizons, IsOfConflicts, IsOfPlans, IsOfLogs, IsOfParts, IsResuming};

use best_first::BestFirst;
use command_replies::{Reply, Stopped};
use command_words::Command;
use conflict_commands::{check_conflict_file, find_file, find_log_file};
use demo_commands::show;
use horizon_commands::{audit_file, seek_file, trace_file};
use log_commands::{check_replan_file, tell_file};
use part_commands::{join_file, parts_file};
use plan_commands::{roll_file, simulate_file};
use planning_commands::{plan_on_file, solve_file, solve_part_file};
use resume_commands::{merge_files, resume_file};
use std::alloc::Global;
use stn_edge::Shelf;
use tank_commands::estimate_file;

// Planning a plant, or a part of it.
pub(crate) fn planning_reply<F: Shelf>(
    alloc: Global,
    command: Command,
    files: &mut F,
) -> Result<Reply, Stopped>
    requires of { IsPlanning command }
    requires may { MayBeDone F.Shelf (meaning command) files.old }
    ensures done { HasDone F.Shelf (meaning command.entry) files.old files.new result }
    ensures leave { KeepsLeave F.Shelf files.old files.new }
{
    match command {
        Command::Solve { plant, budget } => solve_file::<BestFirst, _>(
            alloc, files, plant, budget, None,
        ),
        Command::Log { plant, budget, log } => solve_file::<BestFirst, _>(
            alloc,
            files,
            plant,
            budget,
            Some(log),
        ),
        Command::SolvePart {
            plant,
            part,
            budget,
            log,
        } => solve_part_file::<BestFirst, _>(alloc, files, plant, part, budget, log),
        _ => unreachable!(),
    }
}

// Planning that goes on from a plan.
pub(crate) fn replanning_reply<F: Shelf>(
    alloc: Global,
    command: Command,
    files: &mut F,
) -> Result<Reply, Stopped>
    requires of { IsReplanning command }
    requires may { MayBeDone F.Shelf (meaning command) files.old }
    ensures done { HasDone F.Shelf (meaning command.entry) files.old files.new result }
    ensures leave { KeepsLeave F.Shelf files.old files.new }
{
    match command {
        Command::Replan {
            plant,
            plan,
            period,
            budget,
        } => {
            let kept = Some(period.number);
            plan_on_file::<BestFirst, _>(alloc, files, plant, plan, kept, budget, None)
        }
        Command::LogReplan {
            plant,
            plan,
            period,
            budget,
            log,
        } => {
            let kept = Some(period.number);
            plan_on_file::<BestFirst, _>(alloc, files, plant, plan, kept, budget, Some(log))
        }
        Command::Improve {
            plant,
            plan,
            budget,
            log,
        } => plan_on_file::<BestFirst, _>(alloc, files, plant, plan, None, budget, log),
        _ => unreachable!(),
    }
}

// The least horizon, and the check of the logs that show it.
pub(crate) fn horizon_reply<F: Shelf>(
    alloc: Global,
    command: Command,
    files: &mut F,
) -> Result<Reply, Stopped>
    requires of { IsOfHorizons command }
    requires may { MayBeDone F.Shelf (meaning command) files.old }
    ensures done { HasDone F.Shelf (meaning command.entry) files.old files.new result }
    ensures leave { KeepsLeave F.Shelf files.old files.new }
{
    match command {
        Command::Least { plant, budget } => seek_file::<BestFirst, _>(alloc, files, plant, budget),
        Command::LeastLogs {
            plant,
            budget,
            stem,
        } => trace_file::<BestFirst, _>(alloc, files, plant, budget, stem),
        Command::CheckLeast {
            plant,
            horizon,
            stem,
        } => audit_file(alloc, files, plant, horizon, stem),
        _ => unreachable!(),
    }
}

// Deliveries that can't be met together, and the check of the log that shows it.
pub(crate) fn conflict_reply<F: Shelf>(
    alloc: Global,
    command: Command,
    files: &mut F,
) -> Result<Reply, Stopped>
    requires of { IsOfConflicts command }
    requires may { MayBeDone F.Shelf (meaning command) files.old }
    ensures done { HasDone F.Shelf (meaning command.entry) files.old files.new result }
    ensures leave { KeepsLeave F.Shelf files.old files.new }
{
    match command {
        Command::Conflict { plant, budget } => find_file::<BestFirst, _>(
            alloc, files, plant, budget,
        ),
        Command::ConflictLogs {
            plant,
            budget,
            stem,
        } => find_log_file::<BestFirst, _>(alloc, files, plant, budget, stem),
        Command::CheckConflict { plant, stem } => check_conflict_file(alloc, files, plant, stem),
        _ => unreachable!(),
    }
}

// What a plan comes to, and the plant after it.
pub(crate) fn plan_reply<F: Shelf>(
    alloc: Global,
    command: Command,
    files: &mut F,
) -> Result<Reply, Stopped>
    requires of { IsOfPlans command }
    requires may { MayBeDone F.Shelf (meaning command) files.old }
    ensures done { HasDone F.Shelf (meaning command.entry) files.old files.new result }
    ensures leave { KeepsLeave F.Shelf files.old files.new }
{
    match command {
        Command::Simulate { usage, plant, plan } => simulate_file(alloc, files, usage, plant, plan),
        Command::Roll {
            plant,
            plan,
            period,
            rest,
        } => roll_file(alloc, files, plant, plan, period, rest),
        _ => unreachable!(),
    }
}

// What a log shows.
pub(crate) fn log_reply<F: Shelf>(
    alloc: Global,
    command: Command,
    files: &mut F,
) -> Result<Reply, Stopped>
    requires of { IsOfLogs command }
    requires may { MayBeDone F.Shelf (meaning command) files.old }
    ensures done { HasDone F.Shelf (meaning command.entry) files.old files.new result }
    ensures leave { KeepsLeave F.Shelf files.old files.new }
{
    match command {
        Command::Tell { usage, plant, log } => tell_file(alloc, files, usage, plant, log),
        Command::CheckReplan {
            plant,
            plan,
            period,
            log,
        } => check_replan_file(alloc, files, plant, plan, period, log),
        Command::Estimate {
            plant,
            log,
            state,
            steps,
        } => estimate_file(alloc, files, plant, log, state, steps),
        _ => unreachable!(),
    }
}

// The parts of a plant, and the log that theirs make up.
pub(crate) fn part_reply<F: Shelf>(
    alloc: Global,
    command: Command,
    files: &mut F,
) -> Result<Reply, Stopped>
    requires of { IsOfParts command }
    requires may { MayBeDone F.Shelf (meaning command) files.old }
    ensures done { HasDone F.Shelf (meaning command.entry) files.old files.new result }
    ensures leave { KeepsLeave F.Shelf files.old files.new }
{
    match command {
        Command::Parts { plant, levels } => parts_file(alloc, files, plant, levels),
        Command::Join {
            plant,
            levels,
            stem,
            log,
        } => join_file(alloc, files, plant, levels, stem, log),
        _ => unreachable!(),
    }
}

// Going on from a log, and merging logs.
pub(crate) fn resume_reply<F: Shelf>(
    alloc: Global,
    command: Command,
    files: &mut F,
) -> Result<Reply, Stopped>
    requires of { IsResuming command }
    requires may { MayBeDone F.Shelf (meaning command) files.old }
    ensures done { HasDone F.Shelf (meaning command.entry) files.old files.new result }
    ensures leave { KeepsLeave F.Shelf files.old files.new }
{
    match command {
        Command::Resume {
            plant,
            log,
            budget,
            out,
            share,
        } => resume_file::<BestFirst, _>(alloc, files, plant, log, budget, out, share),
        Command::Merge {
            plant,
            stem,
            count,
            out,
        } => merge_files(alloc, files, plant, stem, count, out),
        _ => unreachable!(),
    }
}

// What the demonstration answers. It touches no file.
pub(crate) fn demonstrate(alloc: Global, seed: u32) -> Result<Reply, Stopped>
    ensures answer { IfReplied result (λ reply. Shown seed reply.status reply.text.items) }
    ensures no_read { result ≢ Err Stopped.ReadFault }
    ensures no_write { result ≢ Err Stopped.WriteFault }
{
    Ok(show::<BestFirst>(alloc, seed)?)
}
