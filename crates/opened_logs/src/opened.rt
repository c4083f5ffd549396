//! The head of a log, and the rows that its proof is over.
ghost use Rattle.std.specs.Prelude.{◌≡◌, ◌≢◌, Err, IsTrue, IfOk, IfSome};
ghost use Rattle.stn_edge.specs.Count.{Rose};
ghost use Rattle.store_frames.specs.Frames.{OnlyReads};
ghost use Rattle.stn_edge.specs.Files.{file_of};
ghost use Rattle.stn_model.specs.Points.{depth_limit};
ghost use Rattle.stn_model.specs.Sound.{Sound};
ghost use Rattle.row_set.specs.Parts.{IsPartOf};
ghost use Rattle.sum_slots.specs.Shown.{AreRanges};
ghost use Rattle.sum_lines.specs.Head.{IsKeptHead};
ghost use Rattle.log_parts.specs.Heads.{lines_on};
ghost use Rattle.log_parts.specs.laws.Checked.{IsCounted, head_with};
ghost use Rattle.plant_check.specs.Heads.{IsHeadHeld, IsTailHeld};
ghost use Rattle.valid_log.specs.Heads.{IsWithHead, limits_with};
ghost use Rattle.opened_logs.specs.Opened.{IsOpened, IsOpenedHead, IsOpenedOver, IsOpenedSetUp, front_of};

use derivation_lines::{Tail, TailFront};
use log_nodes::Front as ProofFront;
use log_parts::{LogHead, head_with, no_head};
use log_stops::CheckStop;
use plant_check::{judge_head, limits_behind, plant_limits, read_setups, read_tail};
use row_kit::{Domain, Program};
use row_relax::Rows;
use row_set::{plant_root, program_of};
use setup_lines::{SetupFront, Setups};
use std::alloc::Global;
use stn_edge::Shelf;
use stn_model::{Plant, depth_limit};
use sum_lines::{Front, Head, read_head};

/// The head of a log, and the rows of the plant's program with what it declares.
#[derive(Drop)]
pub struct Opened {
    pub head: LogHead,
    pub rows: Rows,
}

/// Where the proof of a log with a head begins, and the limits that it keeps.
pub fn front_of(head: &LogHead) -> ProofFront
    ensures { result ≡ front_of head.now }
{
    ProofFront {
        limits: head.limits,
        version: head.version,
        head: head.bytes,
    }
}

/// Reads the head of a log of a plant; none where it has a defect. It takes memory for what it declares and for the rows.
pub fn open_log<F: Shelf>(
    alloc: Global,
    plant: &Plant,
    files: &mut F,
    name: &str,
) -> Result<Option<Opened>, CheckStop>
    requires sound { Sound plant.now }
    requires allowed { IsTrue (F.may_read files.old name.now) }
    ensures opened { IfOk result (λ opened. IfSome opened (λ o. IfSome (F.files files.old)
        (λ m. IsOpened plant.now (file_of m name.now) o))) }
    ensures lines { IfOk result (λ opened. IfSome opened
        (λ o. o.head.lines ≡ lines_on o.head.declared)) }
    ensures frame { OnlyReads F.Shelf files.old files.new }
    ensures fault { result ≡ Err CheckStop.Fault
        → Rose (F.read_faults files.old) (F.read_faults files.new) }
{
    let program = program_of(alloc, plant)?;
    let judged = plant_root(alloc, plant)?;
    open_over(alloc, plant, program, judged.as_slice(), files, name)
}

// Reads the head of a log over a program of a plant, judged over domains.
fn open_over<F: Shelf>(
    alloc: Global,
    plant: &Plant,
    program: Program,
    judged: &[Domain],
    files: &mut F,
    name: &str,
) -> Result<Option<Opened>, CheckStop>
    requires sound { Sound plant.now }
    requires part { IsPartOf plant.now program }
    requires ranges { AreRanges program judged.now }
    requires allowed { IsTrue (F.may_read files.old name.now) }
    ensures lines { IfOk result (λ opened. IfSome opened
        (λ o. o.head.lines ≡ lines_on o.head.declared)) }
    ensures opened { IfOk result (λ opened. IfSome opened (λ o. IfSome (F.files files.old)
        (λ m. IsOpenedOver plant.now program judged.now (file_of m name.now) o))) }
    ensures frame { OnlyReads F.Shelf files.old files.new }
    ensures fault { result ≡ Err CheckStop.Fault
        → Rose (F.read_faults files.old) (F.read_faults files.new) }
{
    let limits = plant_limits(plant, &program, 0);
    match read_head(alloc, &limits, files, name)? {
        Front::Plain => Ok(Some(Opened {
            head: no_head(alloc, limits),
            rows: Rows {
                program,
                choices: None,
            },
        })),
        Front::Headed(head) => open_headed(alloc, plant, program, judged, head, files, name),
        Front::Bad(_) => Ok(None),
    }
}

// Reads what stands behind the sums of a head.
fn open_headed<F: Shelf>(
    alloc: Global,
    plant: &Plant,
    program: Program,
    judged: &[Domain],
    head: Head,
    files: &mut F,
    name: &str,
) -> Result<Option<Opened>, CheckStop>
    requires sound { Sound plant.now }
    requires part { IsPartOf plant.now program }
    requires kept { IsKeptHead (limits_with program (depth_limit plant.now) 0) head }
    requires ranges { AreRanges program judged.now }
    requires allowed { IsTrue (F.may_read files.old name.now) }
    ensures lines { IfOk result (λ opened. IfSome opened
        (λ o. o.head.lines ≡ lines_on o.head.declared)) }
    ensures opened { IfOk result (λ opened. IfSome opened (λ o. IfSome (F.files files.old)
        (λ m. IsOpenedHead plant.now program judged.now (file_of m name.now) head o))) }
    ensures frame { OnlyReads F.Shelf files.old files.new }
    ensures fault { result ≡ Err CheckStop.Fault
        → Rose (F.read_faults files.old) (F.read_faults files.new) }
{
    let limits = plant_limits(plant, &program, head.sums.len());
    match read_setups(alloc, plant, &limits, head, files, name)? {
        SetupFront::Whole(setups) => {
            open_set_up(alloc, plant, program, judged, setups, files, name)
        }
        SetupFront::Bad(_) => Ok(None),
    }
}

// Reads what stands behind the setups of a head.
fn open_set_up<F: Shelf>(
    alloc: Global,
    plant: &Plant,
    program: Program,
    judged: &[Domain],
    setups: Setups,
    files: &mut F,
    name: &str,
) -> Result<Option<Opened>, CheckStop>
    requires held { IsHeadHeld plant.now program (depth_limit plant.now) setups }
    requires sound { Sound plant.now }
    requires part { IsPartOf plant.now program }
    requires ranges { AreRanges program judged.now }
    requires counted { IsCounted setups }
    requires allowed { IsTrue (F.may_read files.old name.now) }
    ensures lines { IfOk result (λ opened. IfSome opened
        (λ o. o.head.lines ≡ lines_on o.head.declared)) }
    ensures opened { IfOk result (λ opened. IfSome opened (λ o. IfSome (F.files files.old)
        (λ m. IsOpenedSetUp plant.now program judged.now (file_of m name.now) setups o))) }
    ensures frame { OnlyReads F.Shelf files.old files.new }
    ensures fault { result ≡ Err CheckStop.Fault
        → Rose (F.read_faults files.old) (F.read_faults files.new) }
{
    match read_tail(alloc, &setups.limits, &setups.head, files, name)? {
        TailFront::Whole(tail) => open_tailed(alloc, plant, program, judged, setups, tail),
        TailFront::Bad(_) => Ok(None),
    }
}

// The rows of a program of a plant with what a head declares, where all of it is shown.
fn open_tailed(
    alloc: Global,
    plant: &Plant,
    program: Program,
    judged: &[Domain],
    setups: Setups,
    tail: Tail,
) -> Result<Option<Opened>, CheckStop>
    requires tailed { IsTailHeld setups.limits setups.head tail }
    requires sound { Sound plant.now }
    requires part { IsPartOf plant.now program }
    requires ranges { AreRanges program judged.now }
    requires held { IsHeadHeld plant.now program (depth_limit plant.now) setups }
    requires counted { IsCounted setups }
    ensures over { IfOk result (λ opened. IfSome opened (λ o.
        IsWithHead plant.now setups.head.version program judged.now setups.head.sums setups.units
        tail.derivations o.rows)) }
    ensures head { IfOk result (λ opened. IfSome opened (λ o. o.head ≡ head_with setups tail)) }
    ensures lines { IfOk result (λ opened. IfSome opened
        (λ o. o.head.lines ≡ lines_on o.head.declared)) }
    ensures no_fault { result ≢ Err CheckStop.Fault }
{
    let limits = limits_behind(&setups, &tail);
    match judge_head(
        alloc,
        plant,
        program,
        depth_limit(plant),
        judged,
        &setups,
        &tail,
    )? {
        Ok(rows) => Ok(Some(Opened {
            head: head_with(setups, tail, limits)?,
            rows,
        })),
        Err(_) => Ok(None),
    }
}
