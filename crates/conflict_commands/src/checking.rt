//! `check-conflict PLANT STEM`: checking that deliveries can't be met together.
ghost use Rattle.std.specs.Prelude.{◌≡◌, ◌≢◌, ◌≤◌, ◌++◌, ◌∷◌, [], length, Err, IsTrue, IfOk, codes, decimal};
ghost use Rattle.stn_edge.specs.Count.{Rose};
ghost use Rattle.stn_model.specs.Sound.{Sound};
ghost use Rattle.proof_log.specs.LogNames.{log_name};
ghost use Rattle.command_replies.specs.Frames.{HadReadFault};
ghost use Rattle.store_frames.specs.Frames.{OnlyReads};
ghost use Rattle.command_replies.specs.Answers.{AnswersPlant};
ghost use Rattle.command_replies.specs.Sources.{IfReplied, IfRefused};
ghost use Rattle.order_text.specs.Marks.{kept_count};
ghost use Rattle.conflict_commands.specs.Checking.{
  check_status,
  check_text,
  ConflictChecked,
  IsKeptChecked,
  IsRightOn,
  ReadsText,
  YesSaysNoPlan,
};

use answer_texts::numbered_defect;
use command_replies::{Reply, Stopped, plant_in};
use fewer_orders::alone;
use least_horizon::speaks_against;
use log_lines::Defect;
use log_stops::CheckStop;
use order_text::{OrderStop, read_conflict};
use proof_log::log_name;
use std::alloc::{AllocError, Global};
use stn_edge::{ReadStop, Shelf, read_all};
use stn_model::Plant;

/// What the check of a conflict found.
#[derive(Drop)]
pub enum ConflictVerdict {
    /// The log shows that no plan meets these deliveries.
    Yes { kept: Vec<bool> },
    /// The text is not that of a conflict of the plant: its first defect.
    NoText { defect: Defect },
    /// The log does not show that no plan meets these deliveries: its first defect, or line 0 and kind 19 for another claim.
    NoLog { kept: Vec<bool>, defect: Defect },
}

/// Checks the text STEM.0 and the log STEM.1 against the plant in a file. The files are as before.
pub fn check_conflict_file<F: Shelf>(
    alloc: Global,
    files: &mut F,
    plant: &str,
    stem: &str,
) -> Result<Reply, Stopped>
    requires plant_readable { IsTrue (F.may_read files.old plant.now) }
    requires text_readable { IsTrue (F.may_read files.old (log_name stem.now 0)) }
    requires log_readable { IsTrue (F.may_read files.old (log_name stem.now 1)) }
    ensures answer { IfReplied result (AnswersPlant (F.files files.old) (F.files files.new)
        plant.now (log_name stem.now 0 ∷ log_name stem.now 1 ∷ [])
        (λ _. ConflictChecked (F.files files.old) stem.now)) }
    ensures fault { HadReadFault F.Shelf files.old files.new result }
    ensures unwritten { result ≢ Err Stopped.WriteFault }
    ensures kept { OnlyReads F.Shelf files.old files.new }
{
    let plant = plant_in(alloc, files, plant)?;
    check_plant(alloc, files, &plant, stem)
}

// The answer of checking a conflict of a plant.
fn check_plant<F: Shelf>(
    alloc: Global,
    files: &mut F,
    plant: &Plant,
    stem: &str,
) -> Result<Reply, Stopped>
    requires sound { Sound plant.now }
    requires text_readable { IsTrue (F.may_read files.old (log_name stem.now 0)) }
    requires log_readable { IsTrue (F.may_read files.old (log_name stem.now 1)) }
    ensures answer { IfOk result (λ reply. ConflictChecked (F.files files.old) stem.now
        plant.now reply.status reply.text.items) }
    ensures none { IfRefused result (λ _. ⊥) }
    ensures fault { HadReadFault F.Shelf files.old files.new result }
    ensures unwritten { result ≢ Err Stopped.WriteFault }
    ensures kept { OnlyReads F.Shelf files.old files.new }
{
    let verdict = verdict_on(alloc, files, plant, stem)?;
    Ok(checked(alloc, &verdict)?)
}

// What the text and the log come to.
fn verdict_on<F: Shelf>(
    alloc: Global,
    files: &mut F,
    plant: &Plant,
    stem: &str,
) -> Result<ConflictVerdict, Stopped>
    requires sound { Sound plant.now }
    requires text_readable { IsTrue (F.may_read files.old (log_name stem.now 0)) }
    requires log_readable { IsTrue (F.may_read files.old (log_name stem.now 1)) }
    ensures right { IfOk result (IsRightOn plant.now (F.files files.old) stem.now) }
    ensures says { IfOk result (YesSaysNoPlan plant.now) }
    ensures none { IfRefused result (λ _. ⊥) }
    ensures fault { HadReadFault F.Shelf files.old files.new result }
    ensures unwritten { result ≢ Err Stopped.WriteFault }
    ensures kept { OnlyReads F.Shelf files.old files.new }
{
    let name = log_name(alloc, stem, 0)?;
    match read_text(alloc, files, plant, name.as_str()) {
        Ok(kept) => check_kept(alloc, files, plant, stem, kept),
        Err(TextStop::Bad(defect)) => Ok(ConflictVerdict::NoText { defect }),
        Err(TextStop::Fault) => Err(Stopped::ReadFault),
        Err(TextStop::Memory) => Err(Stopped::Memory),
    }
}

// Why no text was read.
#[derive(Drop)]
enum TextStop {
    // The first defect of the text.
    Bad(Defect),
    // The file could not be read.
    Fault,
    // Memory was not found.
    Memory,
}

// Which deliveries the text in a file names.
fn read_text<F: Shelf>(
    alloc: Global,
    files: &mut F,
    plant: &Plant,
    name: &str,
) -> Result<Vec<bool>, TextStop>
    requires sound { Sound plant.now }
    requires allowed { IsTrue (F.may_read files.old name.now) }
    ensures reads { ReadsText plant.now (F.files files.old) name.now result }
    ensures each { IfOk result (λ kept. length kept.items ≡ length plant.now.deliveries) }
    ensures fault { result ≡ Err TextStop.Fault
        → Rose (F.read_faults files.old) (F.read_faults files.new) }
    ensures kept { OnlyReads F.Shelf files.old files.new }
{
    match read_all(alloc, files, name, order_text::MAX_BYTES as u64) {
        Ok(bytes) => match read_conflict(alloc, plant, bytes.as_slice()) {
            Ok(kept) => Ok(kept),
            Err(OrderStop::Bad(defect)) => Err(TextStop::Bad(defect)),
            Err(OrderStop::Memory) => Err(TextStop::Memory),
        },
        Err(ReadStop::TooLong) => Err(TextStop::Bad(Defect { line: 0, kind: 1 })),
        Err(ReadStop::Fault) => Err(TextStop::Fault),
        Err(ReadStop::Memory) => Err(TextStop::Memory),
    }
}

// What the log says of the plant with these deliveries alone.
fn check_kept<F: Shelf>(
    alloc: Global,
    files: &mut F,
    plant: &Plant,
    stem: &str,
    kept: Vec<bool>,
) -> Result<ConflictVerdict, Stopped>
    requires sound { Sound plant.now }
    requires each { length kept.items ≡ length plant.now.deliveries }
    requires allowed { IsTrue (F.may_read files.old (log_name stem.now 1)) }
    ensures checked { IfOk result
        (IsKeptChecked plant.now (F.files files.old) (log_name stem.now 1) kept.items) }
    ensures none { IfRefused result (λ _. ⊥) }
    ensures fault { HadReadFault F.Shelf files.old files.new result }
    ensures unwritten { result ≢ Err Stopped.WriteFault }
    ensures kept { OnlyReads F.Shelf files.old files.new }
{
    let fewer = alone(alloc, plant, kept.as_slice())?;
    let name = log_name(alloc, stem, 1)?;
    match speaks_against(alloc, &fewer, files, name.as_str()) {
        Ok(None) => Ok(ConflictVerdict::Yes { kept }),
        Ok(Some(defect)) => Ok(ConflictVerdict::NoLog { kept, defect }),
        Err(CheckStop::Fault) => Err(Stopped::ReadFault),
        Err(CheckStop::Memory) => Err(Stopped::Memory),
    }
}

// The reply to a verdict.
#[tactic(auto, unfolding(crate::specs::Checking::check_text))]
fn checked(alloc: Global, verdict: &ConflictVerdict) -> Result<Reply, AllocError>
    ensures { IfOk result (λ reply. (reply.status ≡ check_status verdict.now)
        × (reply.text.items ≡ check_text verdict.now)) }
{
    match verdict {
        ConflictVerdict::Yes { kept } => {
            let text = yes_text(alloc, count_kept(kept.as_slice()) as u64)?;
            Ok(Reply { status: 0, text })
        }
        ConflictVerdict::NoText { defect } => {
            let text = numbered_defect(alloc, 0, *defect)?;
            Ok(Reply { status: 1, text })
        }
        ConflictVerdict::NoLog { kept: _, defect } => {
            let text = numbered_defect(alloc, 1, *defect)?;
            Ok(Reply { status: 1, text })
        }
    }
}

fn count_kept(kept: &[bool]) -> usize
    ensures { result ≡ kept_count kept.now }
{
    kept.iter().filter(|one| **one).count()
}

fn yes_text(alloc: Global, count: u64) -> Result<Vec<u8>, AllocError>
    ensures { IfOk result (λ text. text.items
        ≡ codes "yes conflict " ++ (decimal count ++ codes "\n")) }
{
    let line = format!(in alloc; "yes conflict {count}\n")?;
    Vec::from_slice(alloc, line.as_bytes())
}
