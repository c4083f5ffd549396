//! The check of the logs of the horizons.
ghost use Rattle.std.specs.Prelude.{◌≡◌, ◌+◌, ◌<◌, ◌≤◌, None, Some, Err, IfOk, IfSome, IsTrue, min};
ghost use Rattle.stn_edge.specs.Count.{Rose};
ghost use Rattle.stn_edge.specs.Files.{file_of};
ghost use Rattle.stn_model.specs.Best.{NoPlan};
ghost use Rattle.stn_model.specs.Sound.{Sound, Within};
ghost use Rattle.shorter_plant.specs.PlantAt.{plant_at};
ghost use Rattle.proof_log.specs.LogNames.{log_name};
ghost use Rattle.least_horizon.specs.LogNames.{AreAllowed};
ghost use Rattle.least_horizon.specs.Least.{NoneBelow};
ghost use Rattle.least_horizon.specs.Stems.{objection, IsJudged, IsStemVerdict};
ghost use Rattle.store_frames.specs.Frames.{OnlyReads};

use log_lines::Defect;
use log_stops::CheckStop;
use plant_check::check_stream;
use proof_log::{Claim, log_name};
use shorter_plant::plant_at;
use std::alloc::Global;
use stn_edge::Shelf;
use stn_model::Plant;
use valid_log::LogVerdict;

/// Whether the logs of a stem show that no plan is feasible within a shorter horizon.
#[derive(Clone, Copy, PartialEq, Eq, Debug)]
pub enum StemVerdict {
    /// Each log is valid, and claims that no plan is feasible.
    Yes,
    /// The first horizon whose log is not valid, with its first defect, or claims something else, with line 0 and kind 19.
    No { horizon: u32, defect: Defect },
}

/// Checks the logs of the horizons from 1 on that are shorter than this one and within the plant's periods, in their order, and
/// stops at the first that does not show that no plan is feasible. The files are as before. `Fault` comes only where a read failed.
pub fn check_least<F: Shelf>(
    alloc: Global,
    plant: &Plant,
    horizon: u32,
    files: &mut F,
    stem: &str,
) -> Result<StemVerdict, CheckStop>
    requires sound { Sound plant.now }
    requires allowed { AreAllowed (F.may_read files.old) stem.now
        (min horizon (plant.now.periods + 1)) }
    ensures checked { IfOk result (λ verdict. IfSome (F.files files.old)
        (λ m. IsStemVerdict plant.now (λ g. file_of m (log_name stem.now g))
        (min horizon (plant.now.periods + 1)) verdict)) }

    // After a yes no plan is feasible within any of these horizons, whether the files are told or not.
    ensures says { IfOk result (λ verdict. verdict ≡ StemVerdict.Yes
        → NoneBelow plant.now (min horizon (plant.now.periods + 1))) }
    ensures fault { result ≡ Err CheckStop.Fault
        → Rose (F.read_faults files.old) (F.read_faults files.new) }
    ensures frame { OnlyReads F.Shelf files.old files.new }
{
    let limit = horizon.min(plant.periods + 1);
    for shorter in 1..limit {
        if let Some(defect) = judge(alloc, plant, shorter, files, stem)? {
            return Ok(StemVerdict::No {
                horizon: shorter,
                defect,
            });
        }
    }
    Ok(StemVerdict::Yes)
}

// What speaks against the log of a horizon.
fn judge<F: Shelf>(
    alloc: Global,
    plant: &Plant,
    horizon: u32,
    files: &mut F,
    stem: &str,
) -> Result<Option<Defect>, CheckStop>
    requires sound { Sound plant.now }
    requires within { Within 1 plant.now.periods horizon }
    requires allowed { IsTrue (F.may_read files.old (log_name stem.now horizon)) }
    ensures judged { IfOk result (λ found. IfSome (F.files files.old)
        (λ m. IsJudged (plant_at plant.now horizon) (file_of m (log_name stem.now horizon))
        found)) }
    ensures says { IfOk result (λ found. found ≡ None → NoPlan (plant_at plant.now horizon)) }
    ensures fault { result ≡ Err CheckStop.Fault
        → Rose (F.read_faults files.old) (F.read_faults files.new) }
    ensures frame { OnlyReads F.Shelf files.old files.new }
{
    let short = plant_at(alloc, plant, horizon)?;
    let name = log_name(alloc, stem, horizon)?;
    speaks_against(alloc, &short, files, name.as_str())
}

/// What speaks against the log in a file as one that shows that no plan is feasible: its first defect, or that it claims something
/// else, as line 0 and kind 19. The files are as before. `Fault` comes only where a read failed.
pub fn speaks_against<F: Shelf>(
    alloc: Global,
    plant: &Plant,
    files: &mut F,
    name: &str,
) -> Result<Option<Defect>, CheckStop>
    requires sound { Sound plant.now }
    requires allowed { IsTrue (F.may_read files.old name.now) }
    ensures judged { IfOk result (λ found. IfSome (F.files files.old)
        (λ m. IsJudged plant.now (file_of m name.now) found)) }
    ensures says { IfOk result (λ found. found ≡ None → NoPlan plant.now) }
    ensures fault { result ≡ Err CheckStop.Fault
        → Rose (F.read_faults files.old) (F.read_faults files.new) }
    ensures frame { OnlyReads F.Shelf files.old files.new }
{
    let verdict = check_stream(alloc, plant, files, name)?;
    Ok(objection(verdict))
}

// What speaks against a log with this verdict.
fn objection(verdict: LogVerdict) -> Option<Defect>
    ensures { result ≡ objection verdict }
{
    match verdict {
        LogVerdict::Yes(Claim::Infeasible) => None,
        LogVerdict::Yes(_) => Some(Defect { line: 0, kind: 19 }),
        LogVerdict::No(defect) => Some(defect),
    }
}
