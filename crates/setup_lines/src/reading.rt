//! The setups of a log, one after another.
ghost use Rattle.std.specs.Prelude.{◌≡◌, ◌+◌, ◌-◌, ◌<◌, ◌≤◌, ◌^◌, ◌++◌, ◌∷◌, [], ℕ, drop, length, List as Items, None, Ok, Err, IsTrue, IfOk, IfSome};
ghost use Rattle.log_lines.specs.declared.defect.Defect.{Defect};
ghost use Rattle.stn_edge.specs.Count.{Rose};
ghost use Rattle.stn_edge.specs.Files.{file_of};
ghost use Rattle.stn_edge.specs.declared.stop.Stop.TheVariants.{Failed};
ghost use Rattle.sum_lines.specs.declared.halt.Halt.TheVariants as halt;
ghost use Rattle.sum_lines.specs.Line.{IsShort};
ghost use Rattle.setup_lines.specs.Front.{IsBadAt, IsBadSetup, IsSetUp, IsSetupFront, NoneFirst, SetupsKeepLimits};
ghost use Rattle.setup_lines.specs.Setups.{AreSetupsKept, IsSetupsKept, MaySetUp};
ghost use Rattle.setup_lines.specs.laws.Walk.{HasPassed, HasSeen, IsSetupKept, rest_after};
ghost use Rattle.store_frames.specs.Frames.{OnlyReads};

use crate::beginning::{Begun, begin_setup, with_setup};
use crate::line::read_setup_line;
use crate::setups::{SetupFront, SetupSize, Setups};
use log_lines::{Defect, Limits, LineEnd};
use row_kit::List;
use std::alloc::Global;
use stn_edge::{Shelf, Stop};
use sum_lines::{Halt, Head, Walk};

/// Reads the setups that stand behind the head of a log in a file of the shelf, once from there on to the line after them: for a head
/// of version 4, since one of version 3 has none. The limits are those of the program with the head's sums, and the sizes say what
/// the setup of each unit adds to it. It takes memory for the units and for a piece of the file. `Failed` comes only where a read
/// failed.
pub fn read_setups<F: Shelf>(
    alloc: Global,
    limits: &Limits,
    sizes: &[SetupSize],
    head: Head,
    files: &mut F,
    name: &str,
) -> Result<SetupFront, Stop>
    requires units { length sizes.now ≤ 65536 }
    requires allowed { IsTrue (F.may_read files.old name.now) }
    ensures front { IfOk result (λ front. IfSome (F.files files.old)
        (λ m. IsSetupFront limits.now sizes.now head (file_of m name.now) front)) }

    // Whether the files are told or not:
    ensures kept { IfOk result (λ front. SetupsKeepLimits limits.now sizes.now head front) }
    ensures fault { result ≡ Err Failed
        → Rose (F.read_faults files.old) (F.read_faults files.new) }
    ensures frame { OnlyReads F.Shelf files.old files.new }
{
    if head.count == u64::MAX {
        // No file has as many lines.
        return Err(Stop::Memory);
    }
    let mut walk = Walk::begin_at(alloc, head.count + 1, head.bytes)?;
    match read_units(alloc, limits, sizes, head, &mut walk, files, name) {
        Ok(setups) => Ok(SetupFront::Whole(setups)),
        Err(Halt::Bad(defect)) => Ok(SetupFront::Bad(defect)),
        Err(Halt::Stopped(stop)) => Err(stop),
    }
}

// The setups behind a head, where a walk stands.
fn read_units<F: Shelf>(
    alloc: Global,
    limits: &Limits,
    sizes: &[SetupSize],
    head: Head,
    walk: &mut Walk,
    files: &mut F,
    name: &str,
) -> Result<Setups, Halt>
    requires units { length sizes.now ≤ 65536 }
    requires allowed { IsTrue (F.may_read files.old name.now) }
    requires passed { HasPassed (F.files files.old) name.now head.bytes
        (1 + head.count) [] walk.old }
    ensures setups { IfOk result (λ setups. IfSome (F.files files.old)
        (λ m. IsSetUp limits.now sizes.now head (file_of m name.now) setups)) }
    ensures kept { IfOk result (IsSetupsKept limits.now sizes.now head) }
    ensures bad { (defect : Defect) → result ≡ Err (halt.Bad defect)
        → IfSome (F.files files.old)
        (λ m. IsBadSetup limits.now sizes.now head (file_of m name.now) defect) }
    ensures fault { result ≡ Err (halt.Stopped Failed)
        → Rose (F.read_faults files.old) (F.read_faults files.new) }
    ensures frame { OnlyReads F.Shelf files.old files.new }
{
    let mut units = List::new(alloc);
    let mut above = None;
    let mut running = *limits;
    'setups: loop {
        let line = walk.line;
        let bytes = walk.bytes;
        match next_setup(&running, sizes, above, walk, files, name) {
            Ok(Some(unit)) => {
                running = with_setup(&running, &sizes[unit as usize]);
                above = Some(unit);
                units.push(unit)?;
            }
            Ok(None) => return Ok(setups_with(units, head, running, line, bytes)),
            Err(halt) => return Err(halt),
        }
    }
}

// The setups of these units behind a head with these limits, before a line and after so many bytes.
fn setups_with(units: List<u32>, mut head: Head, limits: Limits, line: u64, bytes: u64) -> Setups
    requires { 1 ≤ line }
    ensures is { result ≡ record {
      units = units;
      head = record head { count = line - 1; bytes = bytes };
      limits = limits;
    } }
    ensures small { bytes < 2 ^ 64 }
{
    head.count = line - 1;
    head.bytes = bytes;
    Setups {
        units,
        head,
        limits,
    }
}

// The number of a line, which is one of 64 bits.
fn line_number(line: u64) -> u64
    ensures is { result ≡ line }
    ensures small { line < 2 ^ 64 }
{
    line
}

// The unit whose setup comes next after another, or None where no line stands there that may be its. The limits are those with the
// setups before.
fn next_setup<F: Shelf>(
    limits: &Limits,
    sizes: &[SetupSize],
    above: Option<u32>,
    walk: &mut Walk,
    files: &mut F,
    name: &str,
) -> Result<Option<u32>, Halt>
    requires units { length sizes.now ≤ 65536 }
    requires allowed { IsTrue (F.may_read files.old name.now) }
    requires passed { (start number : ℕ) × (units : Items ℕ)
        × HasPassed (F.files files.old) name.now start number units walk.old }
    ensures line { walk.old.line < 2 ^ 64 }
    ensures unit { IfOk result
        (λ found. IfSome found (IsSetupKept limits.now sizes.now above)) }
    ensures goes { IfOk result (λ found. IfSome found (λ unit.
        (start number : ℕ) (units : Items ℕ)
        → HasPassed (F.files files.old) name.now start number units walk.old
        → HasPassed (F.files files.old) name.now start number (units ++ unit ∷ []) walk.new)) }
    ensures ends { result ≡ Ok None → (start number : ℕ) (units : Items ℕ)
        → HasPassed (F.files files.old) name.now start number units walk.old
        → IfSome (F.files files.old)
        (λ m. NoneFirst (MaySetUp above) (rest_after start units (file_of m name.now))) }
    ensures bad { (defect : Defect) → result ≡ Err (halt.Bad defect)
        → (start number : ℕ) (units : Items ℕ)
        → HasPassed (F.files files.old) name.now start number units walk.old
        → IfSome (F.files files.old) (λ m. IsBadAt limits.now sizes.now above number units
        (drop start (file_of m name.now)) defect) }
    ensures fault { result ≡ Err (halt.Stopped Failed)
        → Rose (F.read_faults files.old) (F.read_faults files.new) }
    ensures frame { OnlyReads F.Shelf files.old files.new }
{
    let line = line_number(walk.line);
    let seen = next_unit(walk, files, name)?;
    match begin_setup(limits, sizes, above, seen) {
        Begun::Nothing => Ok(None),
        Begun::Bad(kind) => Err(Halt::Bad(Defect { line, kind })),
        Begun::Unit(unit) => Ok(Some(unit)),
    }
}

// The unit of the setup line that stands next, which is passed, or None where no such line does.
fn next_unit<F: Shelf>(walk: &mut Walk, files: &mut F, name: &str) -> Result<Option<u128>, Stop>
    requires allowed { IsTrue (F.may_read files.old name.now) }
    requires passed { (start number : ℕ) × (units : Items ℕ)
        × HasPassed (F.files files.old) name.now start number units walk.old }
    ensures short { IfOk result (λ found. IfSome found IsShort) }
    ensures seen { IfOk result (λ found. (start number : ℕ) (units : Items ℕ)
        → HasPassed (F.files files.old) name.now start number units walk.old
        → HasSeen (F.files files.old) name.now start number units walk.new found) }
    ensures frame { OnlyReads F.Shelf files.old files.new }
    ensures fault { result ≡ Err Failed
        → Rose (F.read_faults files.old) (F.read_faults files.new) }
{
    match walk.step(files, name)? {
        LineEnd::Whole => Ok(read_setup_line(walk.reader.line())),
        _ => Ok(None),
    }
}
