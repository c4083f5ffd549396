//! The derivations of a log, one after another.
ghost use Rattle.std.specs.Prelude.{◌≡◌, ◌+◌, ◌<◌, ◌≤◌, ◌-◌, ◌^◌, ◌++◌, ◌∷◌, [], ℕ, drop, List as Items, None, Ok, Err, IsTrue, IfOk, IfSome};
ghost use Rattle.log_lines.specs.declared.defect.Defect.{Defect};
ghost use Rattle.stn_edge.specs.Count.{Rose};
ghost use Rattle.stn_edge.specs.Files.{file_of};
ghost use Rattle.stn_edge.specs.declared.stop.Stop.TheVariants.{Failed};
ghost use Rattle.sum_lines.specs.declared.halt.Halt.TheVariants as halt;
ghost use Rattle.derivation_lines.specs.Front.{IsBadAt, IsBadTail, IsTailFront, IsTailed, MayBegin, NoneFirst, TailKeepsLimits};
ghost use Rattle.derivation_lines.specs.Tail.{IsDerivationKept, IsTailKept, derivation_lines};
ghost use Rattle.derivations.specs.Growth.{rows_of};
ghost use Rattle.derivation_lines.specs.declared.line.TailLine.{TailLine};
ghost use Rattle.derivation_lines.specs.laws.Walk.{HasPassed, rest_after};
ghost use Rattle.store_frames.specs.Frames.{OnlyReads};

use crate::beginning::{Begun, begin_derivation};
use crate::parts::read_parts;
use crate::seen::next_line;
use crate::tail::{Reach, Tail, TailFront};
use derivations::Derivation;
use log_lines::{Defect, Limits};
use row_kit::List;
use std::alloc::Global;
use stn_edge::{Shelf, Stop};
use sum_lines::{Halt, Head, Walk};

/// Reads the derivations that stand behind the head of a log in a file of the shelf, once from there on to the line after them:
/// for a head of version 4, since one of version 3 has none.
/// The limits are those of the program with the head's sums. It takes memory for the derivations and for a piece of the file.
/// `Failed` comes only where a read failed.
pub fn read_derivations<F: Shelf>(
    alloc: Global,
    limits: &Limits,
    head: &Head,
    files: &mut F,
    name: &str,
) -> Result<TailFront, Stop>
    requires rows { limits.now.rows ≤ 400000 }
    requires allowed { IsTrue (F.may_read files.old name.now) }
    ensures front { IfOk result (λ front. IfSome (F.files files.old)
        (λ m. IsTailFront limits.now head.now (file_of m name.now) front)) }

    // Whether the files are told or not:
    ensures kept { IfOk result (λ front. TailKeepsLimits limits.now head.now front) }
    ensures fault { result ≡ Err Failed
        → Rose (F.read_faults files.old) (F.read_faults files.new) }
    ensures frame { OnlyReads F.Shelf files.old files.new }
{
    if head.count == u64::MAX {
        // No file has as many lines.
        return Err(Stop::Memory);
    }
    let mut walk = Walk::begin_at(alloc, head.count + 1, head.bytes)?;
    match read_tail(alloc, limits, head, &mut walk, files, name) {
        Ok(tail) => Ok(TailFront::Whole(tail)),
        Err(Halt::Bad(defect)) => Ok(TailFront::Bad(defect)),
        Err(Halt::Stopped(stop)) => Err(stop),
    }
}

// The derivations behind a head, where a walk stands.
fn read_tail<F: Shelf>(
    alloc: Global,
    limits: &Limits,
    head: &Head,
    walk: &mut Walk,
    files: &mut F,
    name: &str,
) -> Result<Tail, Halt>
    requires rows { limits.now.rows ≤ 400000 }
    requires allowed { IsTrue (F.may_read files.old name.now) }
    requires passed { HasPassed (F.files files.old) name.now head.now.bytes
        (1 + head.now.count) [] walk.old }
    ensures tail { IfOk result (λ tail. IfSome (F.files files.old)
        (λ m. IsTailed limits.now head.now (file_of m name.now) tail)) }
    ensures kept { IfOk result (IsTailKept limits.now head.now) }
    ensures bad { (defect : Defect) → result ≡ Err (halt.Bad defect)
        → IfSome (F.files files.old)
        (λ m. IsBadTail limits.now head.now (file_of m name.now) defect) }
    ensures fault { result ≡ Err (halt.Stopped Failed)
        → Rose (F.read_faults files.old) (F.read_faults files.new) }
    ensures frame { OnlyReads F.Shelf files.old files.new }
{
    let mut derivations = List::new(alloc);
    let mut lines = List::new(alloc);
    let mut before = 0u32;
    'derivations: loop {
        let line = walk.line;
        let bytes = walk.bytes;
        match next_derivation(alloc, limits, before, walk, files, name) {
            Ok(Some(derivation)) => {
                before += rows_in(&derivation);
                derivations.push(derivation)?;
                lines.push(line)?;
            }
            Ok(None) => return Ok(tail_with(derivations, lines, line, bytes)),
            Err(halt) => return Err(halt),
        }
    }
}

// How many of one derivation are rows.
fn rows_in(derivation: &Derivation) -> u32
    ensures { result ≡ rows_of (derivation.now ∷ []) }
{
    match derivation {
        Derivation::Cut(_) => 0,
        Derivation::Row(_) => 1,
    }
}

// The derivations that begin on these lines, before a line and after so many bytes.
fn tail_with(derivations: List<Derivation>, lines: List<u64>, line: u64, bytes: u64) -> Tail
    requires { 1 ≤ line }
    ensures is { result
        ≡ record { derivations = derivations; lines = lines; count = line - 1; bytes = bytes } }
    ensures small { bytes < 2 ^ 64 }
{
    Tail {
        derivations,
        lines,
        count: line - 1,
        bytes,
    }
}

// The number of a line, which is one of 64 bits.
fn line_number(line: u64) -> u64
    ensures is { result ≡ line }
    ensures small { line < 2 ^ 64 }
{
    line
}

// The derivation that comes next after so many derived rows, or None where no line stands there that may begin one.
fn next_derivation<F: Shelf>(
    alloc: Global,
    limits: &Limits,
    before: u32,
    walk: &mut Walk,
    files: &mut F,
    name: &str,
) -> Result<Option<Derivation>, Halt>
    requires rows { limits.now.rows ≤ 400000 }
    requires before { before ≤ 4096 }
    requires allowed { IsTrue (F.may_read files.old name.now) }
    requires passed { (start number : ℕ) × (lines : Items TailLine)
        × HasPassed (F.files files.old) name.now start number lines walk.old }
    ensures line { walk.old.line < 2 ^ 64 }
    ensures derivation { IfOk result
        (λ found. IfSome found (IsDerivationKept limits.now before)) }
    ensures goes { IfOk result (λ found. IfSome found (λ derivation.
        (start number : ℕ) (lines : Items TailLine)
        → HasPassed (F.files files.old) name.now start number lines walk.old
        → HasPassed (F.files files.old) name.now start number
        (lines ++ derivation_lines derivation) walk.new)) }
    ensures ends { result ≡ Ok None → (start number : ℕ) (lines : Items TailLine)
        → HasPassed (F.files files.old) name.now start number lines walk.old
        → IfSome (F.files files.old)
        (λ m. NoneFirst (MayBegin limits.now.slots) (rest_after start lines (file_of m name.now))) }
    ensures bad { (defect : Defect) → result ≡ Err (halt.Bad defect)
        → (start number : ℕ) (lines : Items TailLine)
        → HasPassed (F.files files.old) name.now start number lines walk.old
        → IfSome (F.files files.old) (λ m. IsBadAt limits.now before number lines
        (drop start (file_of m name.now)) defect) }
    ensures fault { result ≡ Err (halt.Stopped Failed)
        → Rose (F.read_faults files.old) (F.read_faults files.new) }
    ensures frame { OnlyReads F.Shelf files.old files.new }
{
    let line = line_number(walk.line);
    let seen = next_line(alloc, walk, files, name)?;
    match begin_derivation(alloc, limits, before, seen) {
        Begun::Nothing => Ok(None),
        Begun::Bad(kind) => Err(Halt::Bad(Defect { line, kind })),
        Begun::Cut(cut) => Ok(Some(Derivation::Cut(cut))),
        Begun::Row(mut derived, counts) => {
            let reach = Reach {
                slots: limits.slots,
                rows: limits.rows + before,
            };
            match read_parts(alloc, reach, &counts, &mut derived, walk, files, name) {
                Ok(()) => Ok(Some(Derivation::Row(derived))),
                Err(halt) => Err(halt),
            }
        }
    }
}
