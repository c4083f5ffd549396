//! Checks of logs in memory.
ghost use Rattle.std.specs.Prelude.{◌≡◌, IfOk, None};
ghost use Rattle.stn_model.specs.Sound.{Sound};
ghost use Rattle.row_set.specs.PlantProgram.{IsMadeOf, IsProgramOf};

use crate::no_answer::NoAnswer;
use answer_texts::checked;
use log_lines::Limits;
use plant_check::{check_bytes, check_log};
use proof_log::{LogStop, read_log};
use row_relax::Rows;
use row_set::program_of;
use std::alloc::{AllocError, Global};
use stn_model::{Plant, depth_limit};
use valid_log::LogVerdict;

/// Puts what a check of a log of version 1 or 2 answers: the check of its bytes, or of the log that was read of them first.
pub fn answer_log(
    alloc: Global,
    plant: &Plant,
    log: &[u8],
    is_read: bool,
    text: &mut String,
) -> Result<u8, NoAnswer>
    requires { Sound plant.now }
{
    if is_read {
        let verdict = read_verdict(alloc, plant, log)?;
        return put_verdict(alloc, &verdict, text);
    }
    let verdict = check_bytes(alloc, plant, log)?;
    put_verdict(alloc, &verdict, text)
}

// What the check of the log says that is read first.
fn read_verdict(alloc: Global, plant: &Plant, log: &[u8]) -> Result<LogVerdict, NoAnswer>
    requires { Sound plant.now }
{
    let rows = rows_of(alloc, plant)?;
    match read_log(alloc, log, &limits_of(plant, &rows)) {
        Ok(log) => Ok(check_log(alloc, plant, &rows, &log)?),
        Err(LogStop::Defect(defect)) => Ok(LogVerdict::No(defect)),
        Err(LogStop::Memory) => Err(NoAnswer::Memory),
    }
}

fn rows_of(alloc: Global, plant: &Plant) -> Result<Rows, AllocError>
    requires { Sound plant.now }
    ensures made { IfOk result (λ rows. IsMadeOf plant.now rows.program) }
    ensures means { IfOk result (λ rows. IsProgramOf plant.now rows.program) }
    ensures plain { IfOk result (λ rows. rows.choices ≡ None) }
{
    let program = program_of(alloc, plant)?;
    Ok(Rows {
        program,
        choices: None,
    })
}

fn limits_of(plant: &Plant, rows: &Rows) -> Limits {
    let slots = rows.program.root.len() as u32;
    Limits {
        rows: rows.program.rows.len() as u32,
        slots,
        points: slots,
        depth: depth_limit(plant),
    }
}

// Puts the answer that `check` gives of this verdict.
fn put_verdict(alloc: Global, verdict: &LogVerdict, text: &mut String) -> Result<u8, NoAnswer> {
    let reply = checked(alloc, verdict)?;
    match str::from_utf8(reply.text.as_slice()) {
        Ok(words) => {
            text.push_str(words)?;
            Ok(reply.status)
        }
        Err(_) => Err(NoAnswer::Unasked),
    }
}
