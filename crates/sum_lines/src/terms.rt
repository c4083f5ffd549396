//! The terms of a sum, line by line.
ghost use Rattle.std.specs.Prelude.{◌≡◌, ◌≤◌, ℕ, ◌∷◌, [], ◌++◌, List as Items, Err, IsTrue, IfErr, IfOk, length, map};
ghost use Rattle.log_lines.specs.Grammar.{follows};
ghost use Rattle.log_lines.specs.declared.defect.Defect.{Defect};
ghost use Rattle.stn_edge.specs.Count.{Rose};
ghost use Rattle.stn_edge.specs.declared.stop.Stop.TheVariants.{Failed};
ghost use Rattle.sum_lines.specs.Head.{AreTerms, term_line};
ghost use Rattle.sum_lines.specs.declared.line.HeadLine.{HeadLine};
ghost use Rattle.sum_lines.specs.declared.walk.Seen.TheVariants.{Line};
ghost use Rattle.sum_lines.specs.laws.Walk.{HasBadTerm, HasBadTerms, HasPassed, IsTermAbove, IsTermKind, MayBeSeen};
ghost use Rattle.store_frames.specs.Frames.{OnlyReads};

use crate::halt::Halt;
use crate::line::HeadLine;
use crate::walk::{Seen, Walk};
use log_lines::Defect;
use log_lines::kinds::{GRAMMAR, SLOT_NUMBER, TRUNCATED};
use row_kit::{Entry, List};
use std::alloc::Global;
use stn_edge::Shelf;

// So many terms, which come next.
pub(crate) fn read_terms<F: Shelf>(
    alloc: Global,
    slots: u32,
    count: u32,
    walk: &mut Walk,
    files: &mut F,
    name: &str,
) -> Result<List<Entry>, Halt>
    requires allowed { IsTrue (F.may_read files.old name.now) }
    requires passed { (version : ℕ) × (lines : Items HeadLine)
        × HasPassed (F.files files.old) name.now version lines walk.old }
    ensures count { IfOk result (λ terms. length terms ≡ count) }
    ensures terms { IfOk result (AreTerms slots) }
    ensures goes { IfOk result
        (λ terms. (version : ℕ) (lines : Items HeadLine)
        → HasPassed (F.files files.old) name.now version lines walk.old
        → HasPassed (F.files files.old) name.now version (lines ++ map term_line terms) walk.new) }
    ensures bad { (defect : Defect) → result ≡ Err (Halt.Bad defect)
        → (version : ℕ) (lines : Items HeadLine)
        → HasPassed (F.files files.old) name.now version lines walk.old
        → HasBadTerms (F.files files.old) name.now version slots count lines defect }
    ensures frame { OnlyReads F.Shelf files.old files.new }
    ensures fault { result ≡ Err (Halt.Stopped Failed)
        → Rose (F.read_faults files.old) (F.read_faults files.new) }
{
    let mut terms = List::new(alloc);
    let mut above = None;
    'terms: while terms.len() < count as usize {
        match next_term(slots, above, walk, files, name) {
            Ok(term) => {
                above = Some(term.slot);
                terms.push(term)?;
            }
            Err(halt) => return Err(halt),
        }
    }
    Ok(terms)
}

// The term that comes next, above the last slot.
fn next_term<F: Shelf>(
    slots: u32,
    above: Option<u32>,
    walk: &mut Walk,
    files: &mut F,
    name: &str,
) -> Result<Entry, Halt>
    requires allowed { IsTrue (F.may_read files.old name.now) }
    requires passed { (version : ℕ) × (lines : Items HeadLine)
        × HasPassed (F.files files.old) name.now version lines walk.old }
    ensures term { IfOk result (IsTermAbove slots above) }
    ensures goes { IfOk result
        (λ term. (version : ℕ) (lines : Items HeadLine)
        → HasPassed (F.files files.old) name.now version lines walk.old
        → HasPassed (F.files files.old) name.now version (lines ++ term_line term ∷ []) walk.new) }
    ensures bad { (defect : Defect) → result ≡ Err (Halt.Bad defect)
        → (version : ℕ) (lines : Items HeadLine)
        → HasPassed (F.files files.old) name.now version lines walk.old
        → HasBadTerm (F.files files.old) name.now version slots above lines defect }
    ensures frame { OnlyReads F.Shelf files.old files.new }
    ensures fault { result ≡ Err (Halt.Stopped Failed)
        → Rose (F.read_faults files.old) (F.read_faults files.new) }
{
    let line = walk.line;
    let seen = walk.next(files, name)?;
    match term_of(slots, above, seen) {
        Ok(term) => Ok(term),
        Err(kind) => Err(Halt::Bad(Defect { line, kind })),
    }
}

// The term that is seen above the last slot, or the kind of its defect.
fn term_of(slots: u32, above: Option<u32>, seen: Seen) -> Result<Entry, u8>
    requires { MayBeSeen seen }
    ensures term { IfOk result (IsTermAbove slots above) }
    ensures is { IfOk result (λ term. seen ≡ Line (term_line term)) }
    ensures bad { IfErr result (IsTermKind slots above seen) }
{
    match seen {
        Seen::Cut => Err(TRUNCATED),
        Seen::Line(HeadLine::Term { slot, fixed, per }) if follows(above, slot) => {
            if slot < u128::from(slots) {
                Ok(Entry {
                    slot: slot as u32,
                    fixed: fixed as i64,
                    per: per as i64,
                })
            } else {
                Err(SLOT_NUMBER)
            }
        }
        _ => Err(GRAMMAR),
    }
}

// Whether the slot is above the last one.
fn follows(above: Option<u32>, slot: u128) -> bool
    ensures { result ≡ follows above slot }
{
    match above {
        Some(last) => u128::from(last) < slot,
        None => true,
    }
}
