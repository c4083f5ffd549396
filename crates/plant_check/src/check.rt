//! The check of a log of any version.
ghost use Rattle.std.specs.Prelude.{◌≡◌, ◌≤◌, Err, IsTrue, IfOk, IfSome, length};
ghost use Rattle.stn_edge.specs.Count.{Rose};
ghost use Rattle.stn_edge.specs.Files.{file_of};
ghost use Rattle.stn_model.specs.Sound.{Sound};
ghost use Rattle.row_set.specs.Parts.{IsPartOf};
ghost use Rattle.sum_slots.specs.Shown.{AreRanges};
ghost use Rattle.sum_lines.specs.Head.{IsKeptHead};
ghost use Rattle.derivation_lines.specs.declared.tail.TailFront.TheVariants.{Whole};
ghost use Rattle.log_lines.specs.TextDefect.{log_text_defect};
ghost use Rattle.proof_log.specs.Behind.{behind};
ghost use Rattle.valid_log.specs.declared.verdict.LogVerdict.TheVariants.{No};
ghost use Rattle.row_relax.specs.Choices.{plain};
ghost use Rattle.valid_log.specs.Claims.{YesSaysOf};
ghost use Rattle.valid_log.specs.Verdict.{IsVerdict};
ghost use Rattle.valid_log.specs.Heads.{judged_over, limits_with};
ghost use Rattle.valid_log.specs.AnyVersion.{IsAnyVerdict, IsHeadVerdict, IsSetUpVerdict, IsTailVerdict, unshown_defect};
ghost use Rattle.plant_check.specs.Heads.{IsHeadHeld, IsPartOver, IsTailHeld};
ghost use Rattle.store_frames.specs.Frames.{OnlyReads};

use crate::given::{given_verdict, in_file};
use crate::head::judge_head;
use crate::limits::{limits_behind, limits_with};
use crate::setups::read_setups;
use crate::tail::read_tail;
use derivation_lines::{Tail, TailFront};
use log_check::{check_behind, check_rows};
use log_lines::{Defect, Limits};
use log_stops::CheckStop;
use proof_log::first_defect;
use row_kit::{Domain, Program};
use row_relax::Rows;
use setup_lines::{SetupFront, Setups};
use std::alloc::Global;
use stn_edge::Shelf;
use stn_model::Plant;
use sum_lines::{Front, Head, read_head};
use valid_log::LogVerdict;

/// A part of a plant's choices, over which a log is checked.
#[derive(Drop)]
pub struct CheckedPart<'a> {
    /// The plant whose plans the claim is of.
    pub plant: &'a Plant,
    /// The program of the part.
    pub program: Program,
    /// In the log at most so many splits stand one in another.
    pub depth: u32,
}

/// Checks the log of any version that lies in a file of the shelf, over a part of a plant's choices. In version 3 its sums are to be shown
/// by `ranges`, in version 4 its head is judged over `root`: both are domains in which the points of the part's program lie.
///
/// A log with a head is read in two passes: its head, and what follows. It takes memory as `check_rows` does, and for the declared
/// sums, the derivations and the larger program, and where it has setups for the program without them, too.
///
/// The answer is the first text defect of the log; where there is none, kind 20 at the first sum that is not shown, or where all
/// are, kind 23 at the first derived row that is not shown; where there is none, the first meaning defect; and where there is
/// none, the claim, its point cut back to the slots of the given program: then what it says holds of all plans that the part
/// admits. `Fault` comes only where a read failed.
pub fn check_any<F: Shelf>(
    alloc: Global,
    part: CheckedPart,
    ranges: &[Domain],
    root: &[Domain],
    files: &mut F,
    name: &str,
) -> Result<LogVerdict, CheckStop>
    requires sound { Sound part.plant.now }
    requires part { IsPartOf part.plant.now part.program }
    requires ranges { AreRanges part.program ranges.now }
    requires root { AreRanges part.program root.now }
    requires allowed { IsTrue (F.may_read files.old name.now) }
    ensures verdict { IfOk result (λ verdict. IfSome (F.files files.old)
        (λ m. IsAnyVerdict part.entry.plant.now part.entry.program ranges.now root.now
        part.entry.depth (file_of m name.now) verdict)) }
    ensures says { IfOk result (YesSaysOf part.entry.plant.now part.entry.program) }
    ensures fault { result ≡ Err CheckStop.Fault
        → Rose (F.read_faults files.old) (F.read_faults files.new) }
    ensures frame { OnlyReads F.Shelf files.old files.new }
{
    let limits = limits_with(&part.program, part.depth, 0);
    match read_head(alloc, &limits, files, name)? {
        Front::Plain => check_plain(alloc, part, files, name),
        Front::Bad(defect) => Ok(LogVerdict::No(defect)),
        Front::Headed(head) => {
            let judged = judged_over(ranges, root, head.version);
            check_headed(alloc, part, judged, head, files, name)
        }
    }
}

// Checks a log without a head.
fn check_plain<F: Shelf>(
    alloc: Global,
    part: CheckedPart,
    files: &mut F,
    name: &str,
) -> Result<LogVerdict, CheckStop>
    requires sound { Sound part.plant.now }
    requires part { IsPartOf part.plant.now part.program }
    requires allowed { IsTrue (F.may_read files.old name.now) }
    ensures verdict { IfOk result (λ verdict. IfSome (F.files files.old)
        (λ m. IsVerdict (plain part.entry.program) part.entry.depth (file_of m name.now) verdict)) }
    ensures says { IfOk result (YesSaysOf part.entry.plant.now part.entry.program) }
    ensures fault { result ≡ Err CheckStop.Fault
        → Rose (F.read_faults files.old) (F.read_faults files.new) }
    ensures frame { OnlyReads F.Shelf files.old files.new }
{
    let rows = Rows {
        program: part.program,
        choices: None,
    };
    check_rows(alloc, &rows, part.depth, files, name)
}

// The domains over which a head of a version is judged.
fn judged_over<'a>(ranges: &'a [Domain], root: &'a [Domain], version: u8) -> &'a [Domain]
    ensures judged { result.now ≡ judged_over ranges.now root.now version }
    ensures ranges { (program : Program) → AreRanges program ranges.now → AreRanges program root.now
        → AreRanges program result.now }
{
    if version == 3 { ranges } else { root }
}

// Checks what follows the sums of a head.
fn check_headed<F: Shelf>(
    alloc: Global,
    part: CheckedPart,
    judged: &[Domain],
    head: Head,
    files: &mut F,
    name: &str,
) -> Result<LogVerdict, CheckStop>
    requires over { IsPartOver part judged.now }
    requires kept { IsKeptHead (limits_with part.program part.depth 0) head }
    requires allowed { IsTrue (F.may_read files.old name.now) }
    ensures verdict { IfOk result (λ verdict. IfSome (F.files files.old)
        (λ m. IsHeadVerdict part.entry.plant.now part.entry.program judged.now part.entry.depth
        (file_of m name.now) head verdict)) }
    ensures says { IfOk result (YesSaysOf part.entry.plant.now part.entry.program) }
    ensures fault { result ≡ Err CheckStop.Fault
        → Rose (F.read_faults files.old) (F.read_faults files.new) }
    ensures frame { OnlyReads F.Shelf files.old files.new }
{
    let limits = limits_with(&part.program, part.depth, head.sums.len());
    match read_setups(alloc, part.plant, &limits, head, files, name)? {
        SetupFront::Bad(defect) => Ok(LogVerdict::No(defect)),
        SetupFront::Whole(setups) => check_set_up(alloc, part, judged, &setups, files, name),
    }
}

// Checks what follows the setups of a head.
fn check_set_up<F: Shelf>(
    alloc: Global,
    part: CheckedPart,
    judged: &[Domain],
    setups: &Setups,
    files: &mut F,
    name: &str,
) -> Result<LogVerdict, CheckStop>
    requires over { IsPartOver part judged.now }
    requires held { IsHeadHeld part.plant.now part.program part.depth setups.now }
    requires allowed { IsTrue (F.may_read files.old name.now) }
    ensures verdict { IfOk result (λ verdict. IfSome (F.files files.old)
        (λ m. IsSetUpVerdict part.entry.plant.now part.entry.program judged.now part.entry.depth
        (file_of m name.now) setups.now verdict)) }
    ensures says { IfOk result (YesSaysOf part.entry.plant.now part.entry.program) }
    ensures fault { result ≡ Err CheckStop.Fault
        → Rose (F.read_faults files.old) (F.read_faults files.new) }
    ensures frame { OnlyReads F.Shelf files.old files.new }
{
    match read_tail(alloc, &setups.limits, &setups.head, files, name)? {
        TailFront::Bad(defect) => Ok(LogVerdict::No(defect)),
        TailFront::Whole(tail) => check_tailed(alloc, part, judged, setups, &tail, files, name),
    }
}

// Checks what follows a head, its setups and its derivations.
fn check_tailed<F: Shelf>(
    alloc: Global,
    part: CheckedPart,
    judged: &[Domain],
    setups: &Setups,
    tail: &Tail,
    files: &mut F,
    name: &str,
) -> Result<LogVerdict, CheckStop>
    requires over { IsPartOver part judged.now }
    requires held { IsHeadHeld part.plant.now part.program part.depth setups.now }
    requires tailed { IsTailHeld setups.now.limits setups.now.head tail.now }
    requires allowed { IsTrue (F.may_read files.old name.now) }
    ensures verdict { IfOk result (λ verdict. IfSome (F.files files.old)
        (λ m. IsTailVerdict part.entry.plant.now part.entry.program judged.now part.entry.depth
        (file_of m name.now) setups.now (Whole tail.now) verdict)) }
    ensures says { IfOk result (YesSaysOf part.entry.plant.now part.entry.program) }
    ensures fault { result ≡ Err CheckStop.Fault
        → Rose (F.read_faults files.old) (F.read_faults files.new) }
    ensures frame { OnlyReads F.Shelf files.old files.new }
{
    let CheckedPart {
        plant,
        program,
        depth,
    } = part;
    let slots = program.root.len();
    let limits = limits_behind(setups, tail);
    let version = setups.head.version;
    match judge_head(alloc, plant, program, depth, judged, setups, tail)? {
        Ok(rows) => {
            let own = check_behind(alloc, &rows, depth, version, tail.bytes, files, name)?;
            given_verdict(alloc, slots, tail.count, own)
        }
        Err(defect) => check_text(alloc, limits, version, tail, defect, files, name),
    }
}

// Looks for a text defect behind a head with a defect in its meaning. It never answers yes.
fn check_text<F: Shelf>(
    alloc: Global,
    limits: Limits,
    version: u8,
    tail: &Tail,
    unshown: Defect,
    files: &mut F,
    name: &str,
) -> Result<LogVerdict, CheckStop>
    requires count { 1 ≤ tail.now.count }
    requires allowed { IsTrue (F.may_read files.old name.now) }
    ensures verdict { IfOk result (λ verdict. IfSome (F.files files.old)
        (λ m. verdict ≡ No (unshown_defect tail.now.count unshown.line unshown.kind
        (log_text_defect limits (behind version tail.now.bytes (file_of m name.now)))))) }
    ensures says { (plant : Plant) (program : Program) → IfOk result (YesSaysOf plant program) }
    ensures fault { result ≡ Err CheckStop.Fault
        → Rose (F.read_faults files.old) (F.read_faults files.new) }
    ensures frame { OnlyReads F.Shelf files.old files.new }
{
    match first_defect(alloc, limits, version, tail.bytes, files, name)? {
        Some(defect) => Ok(LogVerdict::No(in_file(tail.count, defect)?)),
        None => Ok(LogVerdict::No(unshown)),
    }
}
