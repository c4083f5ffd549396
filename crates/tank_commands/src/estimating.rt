//! `whatif PLANT LOG STATE STEP COUNT`: what a larger or a smaller tank would be worth at most, by the proof of an old log.
ghost use Rattle.std.specs.Prelude.{◌≡◌, ◌≢◌, ◌≤◌, ◌<◌, ◌+◌, ◌*◌, ◌++◌, ◌^◌, ◌∷◌, [], unsigned_abs, ℕ, List as Items, Some, None, Option, Err, IsTrue, IfOk, IfSome, OnOk, length, codes, decimal, position, pos, ◌*ℤ◌};
ghost use Rattle.std.specs.Option.{option_map};
ghost use Rattle.stn_edge.specs.Files.{file_of};
ghost use Rattle.stn_model.specs.Plant.{state_at};
ghost use Rattle.stn_model.specs.Sound.{Sound};
ghost use Rattle.time_grid.specs.Slots.{slots};
ghost use Rattle.proof_tree.specs.Tree.{tree_of};
ghost use Rattle.proof_log.specs.OneText.{IsClaimOver};
ghost use Rattle.what_if.specs.Raised.{raised};
ghost use Rattle.command_replies.specs.Frames.{HadReadFault};
ghost use Rattle.store_frames.specs.Frames.{OnlyReads};
ghost use Rattle.command_replies.specs.Answers.{AnswersPlant, content};
ghost use Rattle.command_replies.specs.Sources.{IfRefused, IfReplied};
ghost use Rattle.tank_commands.specs.Estimating.{
  is_tank,
  line_head,
  tank_number,
  text_head,
  AreLines,
  AreOwn,
  Estimated,
  IsEstimated,
  IsRefusedLog,
  IsStanding,
  IsTankLine,
  IsTankText,
  OnBytes,
  OnTank,
};

use answer_texts::{checked, simulate_plan};
use command_replies::{Reply, Stopped, plant_in};
use command_words::{PlanUse, Steps};
use std::alloc::{AllocError, Global};
use std::mem;
use stn_edge::{ReadStop, Shelf, read_all};
use stn_model::{List, Plant, Start, State};
use valid_log::LogVerdict;
use what_if::{OldLog, ValidLog, claimed_plan, estimate, old_log, raise};

/// The longest log that is read, in bytes.
const MOST_BYTES: u64 = 67_108_864;

/// Says what no plan of the plant in a file earns more than where the limits of a state are raised, by the log in another. The
/// files are as before.
pub fn estimate_file<F: Shelf>(
    alloc: Global,
    files: &mut F,
    plant: &str,
    log: &str,
    state: &str,
    steps: Steps,
) -> Result<Reply, Stopped>
    requires plant_readable { IsTrue (F.may_read files.old plant.now) }
    requires log_readable { IsTrue (F.may_read files.old log.now) }
    ensures answer { IfReplied result (AnswersPlant (F.files files.old) (F.files files.new)
        plant.now (log.now ∷ [])
        (λ contents. Estimated state.now steps.step steps.count (content contents 1))) }
    ensures fault { HadReadFault F.Shelf files.old files.new result }
    ensures unwritten { result ≢ Err Stopped.WriteFault }
    ensures kept { OnlyReads F.Shelf files.old files.new }
{
    let plant = plant_in(alloc, files, plant)?;
    estimate_log(alloc, files, plant, log, state, steps)
}

// The answer on a plant and a log in a file.
fn estimate_log<F: Shelf>(
    alloc: Global,
    files: &mut F,
    plant: Plant,
    log: &str,
    state: &str,
    steps: Steps,
) -> Result<Reply, Stopped>
    requires allowed { IsTrue (F.may_read files.old log.now) }
    requires sound { Sound plant }
    ensures answer { IfOk result
        (λ reply. OnBytes (option_map (λ m. file_of m log.now) (F.files files.old))
        (λ bytes. Estimated state.now steps.step steps.count bytes plant reply.status
        reply.text.items)) }
    ensures none { IfRefused result (λ _. ⊥) }
    ensures fault { HadReadFault F.Shelf files.old files.new result }
    ensures unwritten { result ≢ Err Stopped.WriteFault }
    ensures kept { OnlyReads F.Shelf files.old files.new }
{
    match tank_number(&plant, state.as_bytes()) {
        Some(number) => estimate_tank(alloc, files, plant, number, log, steps),
        None => Ok(refused_state(alloc)?),
    }
}

// The number of the state with limits of this name.
#[tactic(auto, unfolding(crate::specs::Estimating::tank_number))]
fn tank_number(plant: &Plant, name: &[u8]) -> Option<u32>
    requires { Sound plant.now }
    ensures number { result ≡ tank_number plant.now name.now }
    ensures there { IfSome result (λ number. number < length plant.now.states) }
{
    match tank_place(plant.states.as_slice(), name) {
        Some(place) => Some(place as u32),
        None => None,
    }
}

// Where the first state with limits of this name stands.
fn tank_place(states: &[State], name: &[u8]) -> Option<usize>
    ensures place { result ≡ position (is_tank name.now) states.now }
    ensures within { IfSome result (λ place. place < length states.now) }
{
    states.iter().position(|state| is_tank(state, name))
}

// Whether the state has this name, and limits.
fn is_tank(state: &State, name: &[u8]) -> bool
    ensures { result ≡ is_tank name.now state.now }
{
    state.name.as_slice() == name && state.limits.len() != 0
}

// The refusal of a name that is not that of a state with limits.
fn refused_state(alloc: Global) -> Result<Reply, AllocError>
    ensures { IfOk result (λ reply. (reply.status ≡ 5)
        × (reply.text.items ≡ codes "refused state\n")) }
{
    let text = Vec::from_slice(alloc, "refused state\n".as_bytes())?;
    Ok(Reply { status: 5, text })
}

// The answer on a state with limits and a log in a file.
fn estimate_tank<F: Shelf>(
    alloc: Global,
    files: &mut F,
    plant: Plant,
    number: u32,
    log: &str,
    steps: Steps,
) -> Result<Reply, Stopped>
    requires allowed { IsTrue (F.may_read files.old log.now) }
    requires sound { Sound plant }
    requires there { number < length plant.states }
    ensures answer { IfOk result
        (λ reply. OnBytes (option_map (λ m. file_of m log.now) (F.files files.old))
        (λ bytes. OnTank plant number steps.step steps.count bytes reply.status reply.text.items)) }
    ensures none { IfRefused result (λ _. ⊥) }
    ensures fault { HadReadFault F.Shelf files.old files.new result }
    ensures unwritten { result ≢ Err Stopped.WriteFault }
    ensures kept { OnlyReads F.Shelf files.old files.new }
{
    match read_all(alloc, files, log, MOST_BYTES) {
        Ok(bytes) => Ok(estimate_bytes(alloc, plant, number, bytes.as_slice(), steps)?),
        Err(ReadStop::TooLong) => Ok(long_log(alloc)?),
        Err(ReadStop::Fault) => Err(Stopped::ReadFault),
        Err(ReadStop::Memory) => Err(Stopped::Memory),
    }
}

// The answer on a log that is too long.
fn long_log(alloc: Global) -> Result<Reply, AllocError>
    ensures { IfOk result (λ reply. (reply.status ≡ 1) × (reply.text.items ≡ codes "no 0 17\n")) }
{
    let text = Vec::from_slice(alloc, "no 0 17\n".as_bytes())?;
    Ok(Reply { status: 1, text })
}

// The answer on a state with limits and the bytes of a log.
fn estimate_bytes(
    alloc: Global,
    plant: Plant,
    number: u32,
    bytes: &[u8],
    steps: Steps,
) -> Result<Reply, AllocError>
    requires sound { Sound plant }
    requires there { number < length plant.states }
    requires short { length bytes.now ≤ 67108864 }
    ensures { IfOk result (λ reply. OnTank plant number steps.step steps.count bytes.now
        reply.status reply.text.items) }
{
    match old_log(alloc, &plant, bytes)? {
        OldLog::Valid(log) => estimate_plants(alloc, plant, number, &log, steps),
        OldLog::Defective(defect) => checked(alloc, &LogVerdict::No(defect)),
    }
}

// The answer on a state with limits and a valid log.
fn estimate_plants(
    alloc: Global,
    plant: Plant,
    number: u32,
    log: &ValidLog,
    steps: Steps,
) -> Result<Reply, AllocError>
    requires sound { Sound plant }
    requires there { number < length plant.states }
    requires over { IsClaimOver (length (slots plant)) log.now.claim }
    requires own { AreOwn plant log.now.head (tree_of log.now.tree) }
    ensures status { IfOk result (λ reply. reply.status ≡ 0) }
    ensures says { IfOk result (λ reply. IsTankText plant number steps.step steps.count
        log.now.head (tree_of log.now.tree) log.now.claim reply.text.items) }
{
    let plan = claimed_plan(alloc, &plant, &log.claim)?;
    let mut text = text_head(alloc, &plant, number)?;
    put_lines(alloc, plant, number, log, &plan, steps, &mut text)?;
    Ok(Reply { status: 0, text })
}

// The first line: the name of the state.
#[tactic(auto, unfolding(crate::specs::Estimating::text_head))]
fn text_head(alloc: Global, plant: &Plant, number: u32) -> Result<Vec<u8>, AllocError>
    requires { number < length plant.now.states }
    ensures { IfOk result (λ text. text.items ≡ text_head plant.now number) }
{
    let mut text = Vec::from_slice(alloc, "whatif ".as_bytes())?;
    text.extend_from_slice(plant.states.get(number as usize).name.as_slice())?;
    text.extend_from_slice("\n".as_bytes())?;
    Ok(text)
}

// Puts a line for each plant whose limits of the state are raised.
fn put_lines(
    alloc: Global,
    plant: Plant,
    number: u32,
    log: &ValidLog,
    plan: &Option<List<Start>>,
    steps: Steps,
    text: &mut Vec<u8>,
) -> Result<(), AllocError>
    requires sound { Sound plant }
    requires there { number < length plant.states }
    requires short { IfSome plan.now (λ starts. length starts < 2 ^ 32) }
    requires own { AreOwn plant log.now.head (tree_of log.now.tree) }
    ensures { OnOk result ((lines : Items ℕ) × ((text.new.items ≡ text.old.items ++ lines)
        × AreLines (λ times. IsTankLine (raised plant number steps.step times) log.now.head
        (tree_of log.now.tree) plan.now times)
        (steps.count + 1) lines)) }
{
    let mut raised = plant;
    let states = mem::replace(&mut raised.states, List::new(alloc));
    for times in 0..steps.count + 1 {
        let amount = multiple(times, steps.step);
        raise(alloc, &mut raised, states.as_slice(), number, amount)?;
        put_line(alloc, &raised, times, log, plan, text)?;
    }
    Ok(())
}

// A multiple of a step.
fn multiple(times: u32, step: i64) -> i64
    requires { times * unsigned_abs step ≤ 2 ^ 62 }
    ensures { result ≡ pos times *ℤ step }
{
    i64::from(times) * step
}

// Puts the line of a plant.
fn put_line(
    alloc: Global,
    plant: &Plant,
    number: u32,
    log: &ValidLog,
    plan: &Option<List<Start>>,
    text: &mut Vec<u8>,
) -> Result<(), AllocError>
    requires sound { Sound plant.now }
    requires short { IfSome plan.now (λ starts. length starts < 2 ^ 32) }
    requires own { number ≡ 0 → AreOwn plant.now log.now.head (tree_of log.now.tree) }
    ensures { OnOk result ((line : Items ℕ) × ((text.new.items ≡ text.old.items ++ line)
        × IsTankLine plant.now log.now.head (tree_of log.now.tree) plan.now number line)) }
{
    let cap = estimate(alloc, plant, &log.head, &log.tree)?;
    let line = line_head(alloc, number, cap)?;
    let standing = standing(alloc, plant, plan)?;
    text.extend_from_slice(line.as_slice())?;
    text.extend_from_slice(standing.as_slice())?;
    Ok(())
}

// The number of a plant and what no plan of it earns more than.
#[tactic(auto, unfolding(crate::specs::Estimating::line_head))]
fn line_head(alloc: Global, number: u32, cap: Option<i128>) -> Result<Vec<u8>, AllocError>
    ensures { IfOk result (λ text. text.items ≡ line_head number cap) }
{
    let line = match cap {
        Some(cap) => format!(in alloc; "{number} cap {cap} ")?,
        None => format!(in alloc; "{number} cap none ")?,
    };
    Vec::from_slice(alloc, line.as_bytes())
}

// What is printed of an old plan on a plant.
fn standing(alloc: Global, plant: &Plant, plan: &Option<List<Start>>) -> Result<Vec<u8>, AllocError>
    requires sound { Sound plant.now }
    requires short { IfSome plan.now (λ starts. length starts < 2 ^ 32) }
    ensures { IfOk result (λ text. IsStanding plant.now plan.now text.items) }
{
    match plan {
        Some(plan) => {
            let reply = simulate_plan(alloc, PlanUse::Simulate, plant, plan.as_slice())?;
            Ok(reply.text)
        }
        None => Vec::from_slice(alloc, "-\n".as_bytes()),
    }
}
