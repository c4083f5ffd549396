//! `demo SEED`: a plant that is made of a seed, read, planned and checked.
ghost use Rattle.std.specs.Prelude.{◌≡◌, ◌≢◌, ◌<◌, ◌++◌, Some, IfOk, codes};
ghost use Rattle.std.specs.Fmt.{signed_decimal};
ghost use Rattle.stn_model.specs.Sound.{Sound};
ghost use Rattle.stn_model.specs.declared.answer.Outcome.{Outcome};
ghost use Rattle.plan_told.specs.Proofs.{HasPlantProof, bytes_in, claim_of};
ghost use Rattle.answer_texts.specs.Checking.{claim_text};
ghost use Rattle.answer_texts.specs.Planning.{profit_word, status_of};
ghost use Rattle.demo_commands.specs.Demo.{shown_plant, answer_line, demo_head, Shown};

use answer_texts::{amount_line, checked};
use box_advice::Advisers;
use command_replies::Reply;
use plant_check::check_stream;
use plant_make::{make, put_plant};
use plant_text::{PlantStop, read_plant};
use std::alloc::{AllocError, Global};
use stn_edge::FixedShelf;
use stn_model::{Answer, List, Plant, Start};
use stn_solve::solve_to;
use time_grid::Grid;

/// How many chains the plant has.
const CHAINS: u32 = 4;

// The most bytes of a plant file that is not of version 3.
const MOST_BYTES: usize = 1_048_576;

/// How many boxes its planning takes at most.
const BOXES: u32 = 500;

/// Makes the plant of a seed, prints and reads it, plans it, and checks the log of its proof, all in
/// memory.
pub fn show<A: Advisers>(alloc: Global, seed: u32) -> Result<Reply, AllocError>
    ensures { IfOk result (λ reply. Shown seed reply.status reply.text.items) }
{
    let plant = read_made(alloc, seed)?;
    let mut files = FixedShelf::new(alloc);
    match solve_to::<A, _>(alloc, &plant, &[], BOXES, &mut files, "log") {
        Ok(outcome) => {
            let line = check_line(alloc, &plant, &mut files, "log")?;
            let text = demo_text(alloc, seed, &plant, &outcome.answer, &line)?;
            let status = status_of(&outcome.answer);
            Ok(Reply { status, text })
        }
        // A store in memory fails only for want of memory.
        Err(_) => Err(AllocError),
    }
}

// The plant of a seed, read from the file that it is printed to; one that is too long is not read.
fn read_made(alloc: Global, seed: u32) -> Result<Plant, AllocError>
    ensures made { IfOk result (λ plant. plant ≡ shown_plant seed) }
    ensures sound { IfOk result Sound }
{
    let made = make(alloc, seed, CHAINS)?;
    let mut text = Vec::new(alloc);
    put_plant(alloc, &made, &mut text)?;
    if text.len() > MOST_BYTES {
        return Ok(made);
    }
    match read_plant(alloc, text.as_slice()) {
        Ok(plant) => Ok(plant),
        Err(PlantStop::Fault(_)) => Ok(made),
        Err(PlantStop::Memory) => Err(AllocError),
    }
}

// The line of a check of the log in memory: where it is the log of an outcome, the answer's claim.
fn check_line(
    alloc: Global,
    plant: &Plant,
    files: &mut FixedShelf,
    name: &str,
) -> Result<Vec<u8>, AllocError>
    requires { Sound plant.now }
    ensures { IfOk result (λ line. (outcome : Outcome)
        → HasPlantProof plant.now (bytes_in name.now (Some files.old.files)) outcome
        → line.items ≡ claim_text (claim_of plant.now outcome.answer)) }
{
    match check_stream(alloc, plant, files, name) {
        Ok(verdict) => {
            let reply = checked(alloc, &verdict)?;
            Ok(reply.text)
        }
        // A store in memory fails only for want of memory.
        Err(_) => Err(AllocError),
    }
}

// The four lines, of which the last is given.
fn demo_text(
    alloc: Global,
    seed: u32,
    plant: &Plant,
    answer: &Answer,
    line: &Vec<u8>,
) -> Result<Vec<u8>, AllocError>
    requires { Sound plant.now }
    ensures { IfOk result (λ text. text.items
        ≡ demo_head seed plant.now ++ (answer_line answer.now ++ line.now.items)) }
{
    let mut text = demo_head(alloc, seed, plant)?;
    let answered = answer_line(alloc, answer)?;
    text.extend_from_slice(answered.as_slice())?;
    text.extend_from_slice(line.as_slice())?;
    Ok(text)
}

// The lines of the seed and of the number of slots.
fn demo_head(alloc: Global, seed: u32, plant: &Plant) -> Result<Vec<u8>, AllocError>
    requires { Sound plant.now }
    ensures { IfOk result (λ text. text.items ≡ demo_head seed plant.now) }
{
    let slots = Grid::new(alloc, plant)?.slot_count();
    let head = format!(in alloc; "demo {seed}\nslots {slots}\n")?;
    Vec::from_slice(alloc, head.as_bytes())
}

// The first line of an answer, without its mark.
#[tactic(auto, unfolding(crate::specs::Demo::answer_line))]
fn answer_line(alloc: Global, answer: &Answer) -> Result<Vec<u8>, AllocError>
    ensures { IfOk result (λ line. line.items ≡ answer_line answer.now) }
{
    match answer {
        Answer::Optimal { plan: _, profit } => amount_line(alloc, "optimal ", profit),
        Answer::Infeasible => Vec::from_slice(alloc, "infeasible\n".as_bytes()),
        Answer::BudgetSpent { plan, profit, cap } => spent_line(alloc, plan, profit, cap),
    }
}

// The line on a budget that was spent.
fn spent_line(
    alloc: Global,
    plan: &Option<List<Start>>,
    profit: &i128,
    cap: &i128,
) -> Result<Vec<u8>, AllocError>
    ensures { IfOk result (λ line. line.items ≡ codes "budget-spent "
        ++ (profit_word plan.now profit.now
        ++ (codes " " ++ (signed_decimal cap.now ++ codes "\n")))) }
{
    match plan {
        Some(_) => {
            let line = format!(in alloc; "budget-spent {profit} {cap}\n")?;
            Vec::from_slice(alloc, line.as_bytes())
        }
        None => amount_line(alloc, "budget-spent - ", cap),
    }
}

// The exit status of an answer.
fn status_of(answer: &Answer) -> u8
    ensures value { result ≡ status_of answer.now }
    ensures whole { result < 7 }
    ensures asked { result ≢ 2 }
{
    match answer {
        Answer::Optimal { plan: _, profit: _ } => 0,
        Answer::Infeasible => 1,
        Answer::BudgetSpent {
            plan: _,
            profit: _,
            cap: _,
        } => 6,
    }
}
