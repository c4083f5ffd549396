//! The head of a part's log, beside that of the first part's.
ghost use Rattle.std.specs.Prelude.{◌≡◌, ◌↔◌, ◌+◌, ◌-◌, ◌<◌, ◌≤◌, ◌++◌, length, IsTrue, IfOk, MatchOption, slice_get, slice_index};
ghost use Rattle.std.specs.List.{range_with_len};
ghost use Rattle.stn_model.specs.declared.plant.Plant.{Plant};
ghost use Rattle.log_lines.specs.declared.grammar.Limits.{Limits};
ghost use Rattle.valid_log.specs.Heads.{limits_behind};
ghost use Rattle.log_parts.specs.Heads.{behind_sums, items_of, lines_on};
ghost use Rattle.log_parts.specs.OtherHeads.{IsOtherHead};
ghost use Rattle.log_parts.specs.laws.Checked.{IsCompared, IsFrontKept, IsHeadCompared, head_with, no_head};

use crate::heads::{Declared, LogFront, LogHead};
use crate::sameness::{is_same_derivation, is_same_sum};
use derivation_lines::Tail;
use log_lines::{Defect, Limits};
use proof_log::Claim;
use row_kit::List;
use setup_lines::Setups;
use std::alloc::{AllocError, Global};
use sum_lines::Head;

// The kind of the defect that a log has another head than the first part's.
const OTHER_HEAD: u8 = 22;

/// What the check of the log of a part against what is declared comes to.
#[derive(Drop)]
pub enum PartCheck {
    /// The log is valid with this claim, and declares the same; its head is of this version and has so many bytes, and it is of
    /// version 2 where it has none.
    Valid {
        version: u8,
        bytes: u64,
        claim: Claim,
    },
    /// The defect for which it is refused.
    Bad(Defect),
}

/// The head of a log without one, under limits.
pub fn no_head(alloc: Global, limits: Limits) -> LogHead
    ensures { result ≡ no_head limits }
{
    LogHead {
        version: 2,
        declared: Declared {
            sums: List::new(alloc),
            units: List::new(alloc),
            derivations: List::new(alloc),
        },
        lines: List::new(alloc),
        bytes: 0,
        limits,
    }
}

/// A head with the derivations behind its setups, and the limits of the log behind it. It takes memory for the lines on which setups and
/// derivations begin.
pub fn head_with(setups: Setups, tail: Tail, limits: Limits) -> Result<LogHead, AllocError>
    requires counted { length setups.units ≤ setups.head.count }
    requires limits { limits ≡ limits_behind setups tail }
    ensures { IfOk result (λ own. own ≡ head_with setups tail) }
{
    let Setups { units, head, .. } = setups;
    let Head {
        version,
        sums,
        lines,
        count,
        ..
    } = head;
    let lines = with_unit_lines(lines, count, units.len() as u64)?;
    let lines = joined_lines(lines, tail.lines.as_slice())?;
    let derivations = tail.derivations;
    Ok(LogHead {
        version,
        declared: Declared {
            sums,
            units,
            derivations,
        },
        lines,
        bytes: tail.bytes,
        limits,
    })
}

// Numbers of lines, and behind them those of the last so many of this count of lines.
fn with_unit_lines(lines: List<u64>, count: u64, units: u64) -> Result<List<u64>, AllocError>
    requires { units ≤ count }
    ensures { IfOk result (λ all. all ≡ lines ++ range_with_len (1 + (count - units)) units) }
{
    let mut all = lines;
    for place in 0..units {
        all.push(count - (units - 1 - place))?;
    }
    Ok(all)
}

// Numbers of lines, and more behind them.
fn joined_lines(lines: List<u64>, more: &[u64]) -> Result<List<u64>, AllocError>
    ensures { IfOk result (λ all. all ≡ lines ++ more.now) }
{
    let mut all = lines;
    for line in more {
        all.push(*line)?;
    }
    Ok(all)
}

/// A log with this front, to which a check said yes with this claim, against what is declared.
pub fn compared(declared: &Declared, front: &LogFront, claim: Claim) -> PartCheck
    requires { (plant : Plant) × ((limits : Limits) × IsFrontKept plant limits front.now) }
    ensures { IsCompared declared.now front.now claim result }
{
    match front {
        LogFront::Whole(own) => with_head(declared, own, claim),
        LogFront::Bad(defect) => PartCheck::Bad(*defect),
    }
}

/// Whether a log with this head declares the same as what is given.
pub fn declares_same(declared: &Declared, own: &LogHead) -> bool
    requires { own.now.lines ≡ lines_on own.now.declared }
    ensures { IsTrue result → own.now.declared ≡ declared.now }
{
    match other_line(declared, &own.declared, own.lines.as_slice()) {
        Some(_) => false,
        None => true,
    }
}

/// The defect that a log with this head declares something else than what is given, if it does.
pub fn other_head(declared: &Declared, own: &LogHead) -> Option<Defect>
    requires { own.now.lines ≡ lines_on own.now.declared }
    ensures { MatchOption result (declared.now ≡ own.now.declared) (λ defect.
        (defect.kind ≡ 22) × IsOtherHead declared.now own.now.declared defect.line) }
{
    match other_line(declared, &own.declared, own.lines.as_slice()) {
        Some(line) => Some(Defect {
            line,
            kind: OTHER_HEAD,
        }),
        None => None,
    }
}

// The same of a log with this head.
fn with_head(declared: &Declared, own: &LogHead, claim: Claim) -> PartCheck
    requires { own.now.lines ≡ lines_on own.now.declared }
    ensures { IsHeadCompared declared.now own.now claim result }
{
    match other_line(declared, &own.declared, own.lines.as_slice()) {
        Some(line) => PartCheck::Bad(Defect {
            line,
            kind: OTHER_HEAD,
        }),
        None => PartCheck::Valid {
            version: own.version,
            bytes: own.bytes,
            claim,
        },
    }
}

// The line at which what a log declares, which begins on these lines, differs from what is given.
fn other_line(given: &Declared, own: &Declared, lines: &[u64]) -> Option<u64>
    requires { lines.now ≡ lines_on own.now }
    ensures { MatchOption result (given.now ≡ own.now) (IsOtherHead given.now own.now) }
{
    let (all, own_all) = (count_of(given), count_of(own));
    let few = if all < own_all { all } else { own_all };
    for place in 0..few {
        if !is_same_at(given, own, place) {
            return Some(line_at(lines, place));
        }
    }
    if all == own_all { None } else { Some(1) }
}

// The line at a place.
fn line_at(lines: &[u64], place: usize) -> u64
    requires { place < length lines.now }
    ensures { result ≡ slice_index lines.now place }
{
    lines[place]
}

// How many sums, setups and derivations are declared.
fn count_of(declared: &Declared) -> usize
    ensures { result ≡ length (items_of declared.now) }
{
    let sums = declared.sums.as_slice().len();
    sums + declared.units.as_slice().len() + declared.derivations.as_slice().len()
}

// Whether what is declared at a place is the same.
fn is_same_at(given: &Declared, own: &Declared, place: usize) -> bool
    requires within { place < length (items_of given.now) }
    requires within_own { place < length (items_of own.now) }
    ensures { IsTrue result
        ↔ slice_get (items_of given.now) place ≡ slice_get (items_of own.now) place }
{
    let (sums, own_sums) = (given.sums.len(), own.sums.len());
    if place < sums {
        place < own_sums && is_same_sum(given.sums.get(place), own.sums.get(place))
    } else {
        place >= own_sums && is_same_behind(given, own, place - sums, place - own_sums)
    }
}

// Whether what is declared behind the sums at these places is the same.
fn is_same_behind(given: &Declared, own: &Declared, place: usize, own_place: usize) -> bool
    requires within { place < length (behind_sums given.now) }
    requires within_own { own_place < length (behind_sums own.now) }
    ensures { IsTrue result
        ↔ slice_get (behind_sums given.now) place ≡ slice_get (behind_sums own.now) own_place }
{
    let (units, own_units) = (given.units.len(), own.units.len());
    if place < units {
        own_place < own_units && *given.units.get(place) == *own.units.get(own_place)
    } else {
        own_place >= own_units
            && is_same_derivation(
                given.derivations.get(place - units),
                own.derivations.get(own_place - own_units),
            )
    }
}
