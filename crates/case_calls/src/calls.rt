//! Which call the words say.
ghost use Rattle.stn_model.specs.Sound.{Sound};

use crate::logs::answer_log;
use crate::no_answer::NoAnswer;
use crate::plans::answer_plan;
use crate::programs::answer_program;
use case_book::{File, file_of};
use plant_text::read_plant;
use std::alloc::Global;
use stn_model::Plant;

/// Puts what the call of these words answers over the files to the text, and answers with its status.
pub fn answer_call(
    alloc: Global,
    words: &[&str],
    files: &[File],
    text: &mut String,
) -> Result<u8, NoAnswer> {
    match words {
        [call, plant, rest @ ..] => {
            let bytes = bytes_of(files, plant)?;
            answer_bytes(alloc, bytes, call, rest, files, text)
        }
        _ => Err(NoAnswer::Unasked),
    }
}

// The answer on the plant of these bytes.
fn answer_bytes(
    alloc: Global,
    plant: &[u8],
    call: &str,
    rest: &[&str],
    files: &[File],
    text: &mut String,
) -> Result<u8, NoAnswer> {
    let plant = read_plant(alloc, plant)?;
    answer_on(alloc, &plant, call, rest, files, text)
}

// The answer on this plant.
fn answer_on(
    alloc: Global,
    plant: &Plant,
    call: &str,
    rest: &[&str],
    files: &[File],
    text: &mut String,
) -> Result<u8, NoAnswer>
    requires { Sound plant.now }
{
    match (call, rest) {
        ("program", []) => answer_program(alloc, plant, None, text),
        ("row", [number]) => answer_program(alloc, plant, Some(number_of(number)?), text),
        (_, [name, rest @ ..]) => {
            let bytes = bytes_of(files, name)?;
            answer_file(alloc, plant, call, bytes, rest, text)
        }
        _ => Err(NoAnswer::Unasked),
    }
}

// The answer on this plant and the bytes of a log or a plan.
fn answer_file(
    alloc: Global,
    plant: &Plant,
    call: &str,
    bytes: &[u8],
    rest: &[&str],
    text: &mut String,
) -> Result<u8, NoAnswer>
    requires { Sound plant.now }
{
    match (call, rest) {
        ("check-bytes", []) => answer_log(alloc, plant, bytes, false, text),
        ("check-read", []) => answer_log(alloc, plant, bytes, true, text),
        (_, []) => answer_plan(alloc, plant, bytes, call, (0, 0), text),
        (_, [number]) => answer_plan(alloc, plant, bytes, call, (number_of(number)?, 0), text),
        (_, [first, second]) => {
            let numbers = (number_of(first)?, number_of(second)?);
            answer_plan(alloc, plant, bytes, call, numbers, text)
        }
        _ => Err(NoAnswer::Unasked),
    }
}

fn bytes_of<'a>(files: &'a [File], name: &str) -> Result<&'a [u8], NoAnswer> {
    match file_of(files, name) {
        Some(bytes) => Ok(bytes),
        None => Err(NoAnswer::Unasked),
    }
}

fn number_of(word: &str) -> Result<u32, NoAnswer> {
    match word.parse::<u32>() {
        Ok(number) => Ok(number),
        Err(_) => Err(NoAnswer::Unasked),
    }
}
