//! The head of a log, sum by sum.
ghost use Rattle.std.specs.Prelude.{◌≡◌, ◌<◌, ◌≤◌, ◌-◌, ◌^◌, ◌++◌, [], List as Items, None, Ok, Err, IsTrue, IfOk, IfSome};
ghost use Rattle.log_lines.specs.declared.defect.Defect.{Defect};
ghost use Rattle.stn_edge.specs.Count.{Rose};
ghost use Rattle.stn_edge.specs.Files.{file_of};
ghost use Rattle.stn_edge.specs.declared.stop.Stop.TheVariants.{Failed};
ghost use Rattle.sum_lines.specs.Front.{IsBadAt, IsBadHead, IsFront, IsHeaded, KeepsLimits, MayOpen, NoneFirst};
ghost use Rattle.sum_lines.specs.Head.{IsHeadVersion, IsKeptHead, sum_lines};
ghost use Rattle.sum_lines.specs.declared.line.HeadLine.{HeadLine};
ghost use Rattle.sum_lines.specs.laws.Sums.{IsSumKept};
ghost use Rattle.sum_lines.specs.laws.Walk.{HasPassed, rest_after};
ghost use Rattle.store_frames.specs.Frames.{OnlyReads};

use crate::halt::Halt;
use crate::head::{Front, Head};
use crate::opening::{Opened, open_sum};
use crate::terms::read_terms;
use crate::walk::Walk;
use log_lines::{Defect, Limits};
use row_kit::List;
use std::alloc::Global;
use stn_edge::{Shelf, Stop};
use sum_slots::Sum;

/// Reads the head of the log that lies in a file of the shelf, once from front to back and one line further. It takes memory for the
/// sums and for a piece of the file. `Failed` comes only where a read failed.
pub fn read_head<F: Shelf>(
    alloc: Global,
    limits: &Limits,
    files: &mut F,
    name: &str,
) -> Result<Front, Stop>
    requires slots { limits.now.slots ≤ 4096 }
    requires rows { limits.now.rows ≤ 400000 }
    requires allowed { IsTrue (F.may_read files.old name.now) }
    ensures front { IfOk result (λ front. IfSome (F.files files.old)
        (λ m. IsFront limits.now (file_of m name.now) front)) }

    // Whether the files are told or not:
    ensures kept { IfOk result (λ front. KeepsLimits limits.now front) }
    ensures fault { result ≡ Err Stop.Failed
        → Rose (F.read_faults files.old) (F.read_faults files.new) }
    ensures frame { OnlyReads F.Shelf files.old files.new }
{
    match read_front(alloc, limits, files, name) {
        Ok(front) => Ok(front),
        Err(Halt::Bad(defect)) => Ok(Front::Bad(defect)),
        Err(Halt::Stopped(stop)) => Err(stop),
    }
}

// The front of a file without a defect.
fn read_front<F: Shelf>(
    alloc: Global,
    limits: &Limits,
    files: &mut F,
    name: &str,
) -> Result<Front, Halt>
    requires slots { limits.now.slots ≤ 4096 }
    requires rows { limits.now.rows ≤ 400000 }
    requires allowed { IsTrue (F.may_read files.old name.now) }
    ensures front { IfOk result (λ front. IfSome (F.files files.old)
        (λ m. IsFront limits.now (file_of m name.now) front)) }
    ensures kept { IfOk result (λ front. KeepsLimits limits.now front) }
    ensures bad { (defect : Defect) → result ≡ Err (Halt.Bad defect)
        → IfSome (F.files files.old) (λ m. IsBadHead limits.now (file_of m name.now) defect) }
    ensures fault { result ≡ Err (Halt.Stopped Failed)
        → Rose (F.read_faults files.old) (F.read_faults files.new) }
    ensures frame { OnlyReads F.Shelf files.old files.new }
{
    match Walk::begin(alloc, files, name)? {
        None => Ok(Front::Plain),
        Some((mut walk, version)) => match read_sums(
            alloc, version, limits, &mut walk, files, name,
        ) {
            Ok(head) => Ok(Front::Headed(head)),
            Err(halt) => Err(halt),
        },
    }
}

// The head whose first line was passed.
fn read_sums<F: Shelf>(
    alloc: Global,
    version: u8,
    limits: &Limits,
    walk: &mut Walk,
    files: &mut F,
    name: &str,
) -> Result<Head, Halt>
    requires slots { limits.now.slots ≤ 4096 }
    requires rows { limits.now.rows ≤ 400000 }
    requires allowed { IsTrue (F.may_read files.old name.now) }
    requires version { IsHeadVersion version }
    requires passed { HasPassed (F.files files.old) name.now version [] walk.old }
    ensures head { IfOk result (λ head. IfSome (F.files files.old)
        (λ m. IsHeaded limits.now (file_of m name.now) head)) }
    ensures kept { IfOk result (IsKeptHead limits.now) }
    ensures bad { (defect : Defect) → result ≡ Err (Halt.Bad defect)
        → IfSome (F.files files.old) (λ m. IsBadHead limits.now (file_of m name.now) defect) }
    ensures fault { result ≡ Err (Halt.Stopped Failed)
        → Rose (F.read_faults files.old) (F.read_faults files.new) }
    ensures frame { OnlyReads F.Shelf files.old files.new }
{
    let mut sums = List::new(alloc);
    let mut lines = List::new(alloc);
    'sums: loop {
        let line = walk.line;
        let bytes = walk.bytes;
        match next_sum(alloc, version, limits, sums.len(), walk, files, name) {
            Ok(Some(sum)) => {
                sums.push(sum)?;
                lines.push(line)?;
            }
            Ok(None) => return Ok(head_with(version, sums, lines, line, bytes)),
            Err(halt) => return Err(halt),
        }
    }
}

// The head of a version with these sums, which begin on these lines, before a line and after so many bytes.
fn head_with(version: u8, sums: List<Sum>, lines: List<u64>, line: u64, bytes: u64) -> Head
    requires { 1 ≤ line }
    ensures is { result
        ≡ record { version = version; sums = sums; lines = lines; count = line - 1; bytes = bytes } }
    ensures small { bytes < 2 ^ 64 }
{
    Head {
        version,
        sums,
        lines,
        count: line - 1,
        bytes,
    }
}

// The sum that comes next after so many, or None where no line stands there that may begin one.
fn next_sum<F: Shelf>(
    alloc: Global,
    version: u8,
    limits: &Limits,
    before: usize,
    walk: &mut Walk,
    files: &mut F,
    name: &str,
) -> Result<Option<Sum>, Halt>
    requires slots { limits.now.slots ≤ 4096 }
    requires rows { limits.now.rows ≤ 400000 }
    requires before { before ≤ 4096 }
    requires allowed { IsTrue (F.may_read files.old name.now) }
    requires passed { (lines : Items HeadLine)
        × HasPassed (F.files files.old) name.now version lines walk.old }
    ensures sum { IfOk result (λ found. IfSome found (IsSumKept version limits.now before)) }
    ensures goes { IfOk result (λ found. IfSome found (λ sum. (lines : Items HeadLine)
        → HasPassed (F.files files.old) name.now version lines walk.old
        → HasPassed (F.files files.old) name.now version (lines ++ sum_lines sum) walk.new)) }
    ensures ends { result ≡ Ok None → (lines : Items HeadLine)
        → HasPassed (F.files files.old) name.now version lines walk.old
        → IfSome (F.files files.old)
        (λ m. NoneFirst (MayOpen limits.now.slots) (rest_after version lines (file_of m name.now))) }
    ensures bad { (defect : Defect) → result ≡ Err (Halt.Bad defect)
        → (lines : Items HeadLine) → HasPassed (F.files files.old) name.now version lines walk.old
        → IfSome (F.files files.old)
        (λ m. IsBadAt version limits.now before lines (file_of m name.now) defect) }
    ensures fault { result ≡ Err (Halt.Stopped Failed)
        → Rose (F.read_faults files.old) (F.read_faults files.new) }
    ensures frame { OnlyReads F.Shelf files.old files.new }
{
    let line = walk.line;
    let seen = walk.next(files, name)?;
    match open_sum(alloc, version, limits, before, seen) {
        Opened::Nothing => Ok(None),
        Opened::Bad(kind) => Err(Halt::Bad(Defect { line, kind })),
        Opened::Sum { mut sum, count } => {
            match read_terms(alloc, limits.slots, count, walk, files, name) {
                Ok(terms) => {
                    sum.terms = terms;
                    Ok(Some(sum))
                }
                Err(halt) => Err(halt),
            }
        }
    }
}
