//! The end of a log.
ghost use Rattle.std.specs.Prelude.{◌≡◌, ◌≤◌, ℕ, Err, IsTrue, IfOk};
ghost use Rattle.stn_edge.specs.Count.{Rose};
ghost use Rattle.proof_log.specs.declared.claim.Claim.{Claim};
ghost use Rattle.proof_log.specs.declared.log_reader.LogPart.TheVariants.{Claim as ClaimPart, End as EndPart};
ghost use Rattle.log_nodes.specs.Reading.{EndsClean, IsReading};

use proof_log::{LogPart, LogReader};
use stn_edge::{Shelf, Stop};

/// Reads the claim and the end of a log; whether they come, and nothing behind them.
pub fn read_end<F: Shelf>(files: &mut F, name: &str, reader: &mut LogReader) -> Result<bool, Stop>
    requires allowed { IsTrue (F.may_read files.old name.now) }
    requires reading { IsReading (F.files files.old) name.now reader.old }
    ensures end { IfOk result (λ whole. IsTrue whole
        → EndsClean (F.files files.old) name.now reader.old) }
    ensures same { F.files files.new ≡ F.files files.old }
    ensures readable { F.may_read files.new ≡ F.may_read files.old }
    ensures writable { F.may_write files.new ≡ F.may_write files.old }
    ensures later { F.read_faults files.old ≤ F.read_faults files.new }
    ensures no_write { F.write_faults files.new ≡ F.write_faults files.old }
    ensures fault { result ≡ Err Stop.Failed
        → Rose (F.read_faults files.old) (F.read_faults files.new) }
{
    let claim = reader.next(files, name)?;
    if !is_claim(&claim) {
        return Ok(false);
    }
    let end = reader.next(files, name)?;
    Ok(is_end(&end))
}

// Whether a part of a log is a claim.
fn is_claim(part: &LogPart) -> bool
    ensures { IsTrue result → (line : ℕ) × (claim : Claim) × (part.now ≡ ClaimPart line claim) }
{
    match part {
        LogPart::Claim { line: _, claim: _ } => true,
        _ => false,
    }
}

// Whether a part of a log is its end.
fn is_end(part: &LogPart) -> bool
    ensures { IsTrue result → (version : ℕ) × (part.now ≡ EndPart version) }
{
    match part {
        LogPart::End { version: _ } => true,
        _ => false,
    }
}
