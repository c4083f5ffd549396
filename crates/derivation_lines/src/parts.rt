//! The parts of a derived row, one after another.
ghost use Rattle.std.specs.Prelude.{◌≡◌, ◌≤◌, ◌∷◌, [], ◌++◌, ℕ, List as Items, OnOk, OnErr, Err, IsTrue, IfOk, ◌↔◌};
ghost use Rattle.log_lines.specs.declared.defect.Defect.{Defect};
ghost use Rattle.stn_edge.specs.Count.{Rose};
ghost use Rattle.stn_edge.specs.declared.stop.Stop.TheVariants.{Failed};
ghost use Rattle.derivation_lines.specs.Front.{IsFewer, next_part};
ghost use Rattle.derivation_lines.specs.Tail.{ArePartsKept, counts_of, part_lines};
ghost use Rattle.derivation_lines.specs.declared.line.TailLine.{TailLine};
ghost use Rattle.derivation_lines.specs.laws.Parts.{HasBadPart, HasBadParts, HasHead, HasNoParts, IsNextPiece, piece_line, with_piece};
ghost use Rattle.derivation_lines.specs.laws.Walk.{HasPassed};
ghost use Rattle.sum_lines.specs.declared.halt.Halt.TheVariants as halt;
ghost use Rattle.store_frames.specs.Frames.{OnlyReads};

use crate::pieces::{Piece, next_part, piece_of};
use crate::seen::next_line;
use crate::tail::{Counts, Reach};
use derived_rows::Derived;
use log_lines::Defect;
use std::alloc::{AllocError, Global};
use stn_edge::Shelf;
use sum_lines::{Halt, Walk};

// So many parts of a row, which come next, for a row without parts. After an error the row has a first part of them.
pub(crate) fn read_parts<F: Shelf>(
    alloc: Global,
    reach: Reach,
    counts: &Counts,
    derived: &mut Derived,
    walk: &mut Walk,
    files: &mut F,
    name: &str,
) -> Result<(), Halt>
    requires none { HasNoParts derived.old }
    requires allowed { IsTrue (F.may_read files.old name.now) }
    requires passed { (start number : ℕ) × (lines : Items TailLine)
        × HasPassed (F.files files.old) name.now start number lines walk.old }
    ensures counts { OnOk result (counts_of derived.new ≡ counts.now) }
    ensures parts { ArePartsKept reach.slots reach.rows derived.new }
    ensures head { HasHead derived.old derived.new }
    ensures goes { OnOk result ((start number : ℕ) (lines : Items TailLine)
        → HasPassed (F.files files.old) name.now start number lines walk.old
        → HasPassed (F.files files.old) name.now start number
        (lines ++ part_lines derived.new) walk.new) }
    ensures bad { (defect : Defect) → result ≡ Err (halt.Bad defect)
        → (start number : ℕ) (lines : Items TailLine)
        → HasPassed (F.files files.old) name.now start number lines walk.old
        → HasBadParts (F.files files.old) name.now start number reach.slots reach.rows
        derived.old counts.now lines defect }
    ensures frame { OnlyReads F.Shelf files.old files.new }
    ensures fault { result ≡ Err (halt.Stopped Failed)
        → Rose (F.read_faults files.old) (F.read_faults files.new) }
{
    'parts: while is_short(derived, counts) {
        match next_piece(alloc, reach, counts, derived, walk, files, name) {
            Ok(piece) => add_piece(derived, piece)?,
            Err(halt) => return Err(halt),
        }
    }
    Ok(())
}

// Whether a row has fewer parts than it is to have.
fn is_short(derived: &Derived, counts: &Counts) -> bool
    ensures { IsTrue result ↔ IsFewer derived.now counts.now }
{
    derived.factors.len() < counts.factors as usize
        || derived.groups.len() < counts.groups as usize
        || derived.entries.len() < counts.entries as usize
}

// The part that comes next.
fn next_piece<F: Shelf>(
    alloc: Global,
    reach: Reach,
    counts: &Counts,
    derived: &Derived,
    walk: &mut Walk,
    files: &mut F,
    name: &str,
) -> Result<Piece, Halt>
    requires allowed { IsTrue (F.may_read files.old name.now) }
    requires passed { (start number : ℕ) × (lines : Items TailLine)
        × HasPassed (F.files files.old) name.now start number lines walk.old }
    ensures piece { IfOk result
        (IsNextPiece reach.slots reach.rows derived.now (next_part derived.now counts.now)) }
    ensures goes { IfOk result (λ piece. (start number : ℕ) (lines : Items TailLine)
        → HasPassed (F.files files.old) name.now start number lines walk.old
        → HasPassed (F.files files.old) name.now start number
        (lines ++ piece_line piece ∷ []) walk.new) }
    ensures bad { (defect : Defect) → result ≡ Err (halt.Bad defect)
        → (start number : ℕ) (lines : Items TailLine)
        → HasPassed (F.files files.old) name.now start number lines walk.old
        → HasBadPart (F.files files.old) name.now start number reach.slots reach.rows
        derived.now (next_part derived.now counts.now) lines defect }
    ensures frame { OnlyReads F.Shelf files.old files.new }
    ensures fault { result ≡ Err (halt.Stopped Failed)
        → Rose (F.read_faults files.old) (F.read_faults files.new) }
{
    let line = walk.line;
    let next = next_part(derived, counts);
    let seen = next_line(alloc, walk, files, name)?;
    match piece_of(reach, derived, next, seen) {
        Ok(piece) => Ok(piece),
        Err(kind) => Err(Halt::Bad(Defect { line, kind })),
    }
}

// Adds a part to a row. After an error the row is as before.
fn add_piece(derived: &mut Derived, piece: Piece) -> Result<(), AllocError>
    ensures ok { OnOk result (derived.new ≡ with_piece derived.old piece) }
    ensures err { OnErr result (derived.new ≡ derived.old) }
{
    match piece {
        Piece::Factor(factor) => derived.factors.push(factor),
        Piece::Group(group) => derived.groups.push(group),
        Piece::Entry(entry) => derived.entries.push(entry),
    }
}
