//! `check-least PLANT H STEM`: checking that no shorter horizon has a feasible plan.
ghost use Rattle.std.specs.Prelude.{◌≡◌, ◌≢◌, ◌≤◌, ◌++◌, Err, IsTrue, IfOk, codes, decimal};
ghost use Rattle.stn_model.specs.Sound.{Sound};
ghost use Rattle.least_horizon.specs.LogNames.{AreAllowed};
ghost use Rattle.command_replies.specs.Frames.{HadReadFault};
ghost use Rattle.store_frames.specs.Frames.{OnlyReads};
ghost use Rattle.command_replies.specs.Answers.{AnswersPlant};
ghost use Rattle.command_replies.specs.Sources.{IfReplied, IfRefused};
ghost use Rattle.horizon_commands.specs.Auditing.{audit_status, audit_text, Audited};
ghost use Rattle.horizon_commands.specs.Seeking.{log_names};

use answer_texts::numbered_defect;
use command_replies::{Reply, Stopped, plant_in};
use least_horizon::{StemVerdict, check_least};
use log_stops::CheckStop;
use std::alloc::{AllocError, Global};
use stn_edge::Shelf;
use stn_model::Plant;

/// Checks the logs of the horizons that are shorter than this one against the plant in a file. The files are as before.
pub fn audit_file<F: Shelf>(
    alloc: Global,
    files: &mut F,
    plant: &str,
    horizon: u32,
    stem: &str,
) -> Result<Reply, Stopped>
    requires plant_readable { IsTrue (F.may_read files.old plant.now) }
    requires logs_readable { AreAllowed (F.may_read files.old) stem.now horizon }
    ensures answer { IfReplied result (AnswersPlant (F.files files.old) (F.files files.new)
        plant.now (log_names stem.now horizon)
        (λ _. Audited (F.files files.old) horizon stem.now)) }
    ensures fault { HadReadFault F.Shelf files.old files.new result }
    ensures unwritten { result ≢ Err Stopped.WriteFault }
    ensures kept { OnlyReads F.Shelf files.old files.new }
{
    let plant = plant_in(alloc, files, plant)?;
    audit_plant(alloc, files, &plant, horizon, stem)
}

// The answer of checking the logs of a stem against a plant.
fn audit_plant<F: Shelf>(
    alloc: Global,
    files: &mut F,
    plant: &Plant,
    horizon: u32,
    stem: &str,
) -> Result<Reply, Stopped>
    requires allowed { AreAllowed (F.may_read files.old) stem.now horizon }
    requires sound { Sound plant.now }
    ensures answer { IfOk result (λ reply. Audited (F.files files.old) horizon stem.now
        plant.now reply.status reply.text.items) }
    ensures none { IfRefused result (λ _. ⊥) }
    ensures fault { HadReadFault F.Shelf files.old files.new result }
    ensures unwritten { result ≢ Err Stopped.WriteFault }
    ensures kept { OnlyReads F.Shelf files.old files.new }
{
    match check_least(alloc, plant, horizon, files, stem) {
        Ok(verdict) => Ok(audited(alloc, horizon, verdict)?),
        Err(CheckStop::Fault) => Err(Stopped::ReadFault),
        Err(CheckStop::Memory) => Err(Stopped::Memory),
    }
}

// The answer that the check found.
#[tactic(auto, unfolding(crate::specs::Auditing::audit_text))]
fn audited(alloc: Global, horizon: u32, verdict: StemVerdict) -> Result<Reply, AllocError>
    ensures { IfOk result (λ reply. (reply.status ≡ audit_status verdict)
        × (reply.text.items ≡ audit_text horizon verdict)) }
{
    match verdict {
        StemVerdict::Yes => {
            let text = yes_text(alloc, horizon)?;
            Ok(Reply { status: 0, text })
        }
        StemVerdict::No {
            horizon: at,
            defect,
        } => {
            let text = numbered_defect(alloc, at, defect)?;
            Ok(Reply { status: 1, text })
        }
    }
}

fn yes_text(alloc: Global, horizon: u32) -> Result<Vec<u8>, AllocError>
    ensures { IfOk result (λ text. text.items
        ≡ codes "yes none-below " ++ (decimal horizon ++ codes "\n")) }
{
    let line = format!(in alloc; "yes none-below {horizon}\n")?;
    Vec::from_slice(alloc, line.as_bytes())
}
