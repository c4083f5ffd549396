//! The end of the merged log.
ghost use Rattle.std.specs.Prelude.{◌≡◌, ◌≢◌, ℕ, List as Items, All, Err, IsTrue, IfOk, IfSome};
ghost use Rattle.stn_edge.specs.Count.{Rose};
ghost use Rattle.stn_model.specs.Sound.{Sound};
ghost use Rattle.row_relax.specs.RowProofs.{RowItem};
ghost use Rattle.sum_slots.specs.Sum.{IsDeclared};
ghost use Rattle.valid_log.specs.SumTexts.{larger_claim};
ghost use Rattle.log_parts.specs.laws.Copying.{HasItems, IsFinished, name_of};
ghost use Rattle.store_frames.specs.Frames.{WritesOne};

use log_parts::{finish_log, larger_claim};
use log_stops::JoinStop;
use proof_log::{Claim, LogWriter};
use row_set::program_of;
use std::alloc::Global;
use stn_edge::Shelf;
use stn_model::Plant;
use sum_slots::{Sum, is_declared};

/// Ends the merged log with a claim; none where its point is not one of the plant, or the sums are not declared over its slots, or not
/// shown.
pub fn end_log<F: Shelf>(
    alloc: Global,
    plant: &Plant,
    files: &mut F,
    writer: LogWriter,
    sums: &[Sum],
    claim: Claim,
) -> Result<Option<Claim>, JoinStop>
    requires sound { Sound plant.now }
    requires may_write { IsTrue (F.may_write files.old (name_of writer)) }
    ensures ended { IfOk result (λ ended. IfSome ended (λ own. (own ≡ claim)
        × ((front : Items ℕ) (items : Items RowItem)
        → HasItems front writer (F.files files.old) items
        → IsFinished front (name_of writer) items (larger_claim sums.now claim)
        (F.files files.new)))) }
    ensures frame { WritesOne F.Shelf (name_of writer) files.old files.new }
    ensures write_fault { result ≡ Err JoinStop.WriteFault
        → Rose (F.write_faults files.old) (F.write_faults files.new) }
    ensures no_fault { result ≢ Err JoinStop.ReadFault }
{
    let program = program_of(alloc, plant)?;
    if !are_declared(sums, program.root.len()) {
        return Ok(None);
    }
    match larger_claim(alloc, &program, sums, &claim)? {
        Some(larger) => {
            finish_log(writer, files, &larger)?;
            Ok(Some(claim))
        }
        None => Ok(None),
    }
}

// Whether all sums are declared over so many slots.
fn are_declared(sums: &[Sum], slots: usize) -> bool
    ensures { IsTrue result → All (IsDeclared slots) sums.now }
{
    for sum in sums {
        if !is_declared(sum, slots) {
            return false;
        }
    }
    true
}
