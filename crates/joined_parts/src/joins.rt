//! Joining the logs of all parts of a plant.
ghost use Rattle.std.specs.Prelude.{◌≡◌, ◌≢◌, ◌≤◌, ◌<◌, ◌^◌, ℕ, Err, IsTrue, IfOk, OnErr, length};
ghost use Rattle.stn_edge.specs.Count.{Rose};
ghost use Rattle.stn_edge.specs.Files.{OthersStay};
ghost use Rattle.stn_model.specs.Sound.{Sound};
ghost use Rattle.time_grid.specs.Slots.{slots};
ghost use Rattle.proof_log.specs.LogNames.{log_name};
ghost use Rattle.log_parts.specs.PartLogs.{IsJoiningIn, JoinSays, IsNo, LeavesJoin, AllAreValid};

use crate::checking::check_parts;
use log_parts::{Checked, Joined, JoinedFront, PartLogs, joined, joined_version, write_joined};
use log_stops::JoinStop;
use std::alloc::Global;
use stn_edge::Shelf;
use stn_model::Plant;

/// Checks the logs of all parts, of any version, in their order, and joins them: LOG becomes the log of the tree of splits in
/// which the parts' trees stand, with the joined claim. It has the head of the parts' logs, which declare the same sums,
/// setups, cuts and rows in the same order: it is of version 4 where one of them is, else of version 3 where they declare sums, and else of
/// version 2. Each log is read once to be checked, its head once before, and a second time while LOG is written. At the first log
/// that is not valid or has another head than that of part 0 it stops, and no file has changed. After an error LOG is as before,
/// or holds a first part of the joined log. Over a store that does not tell its files the second reading may differ from the
/// first, and the first defect that it meets is then the answer: kind 20 at line 1 of part 0 where the sums do not suit the joined
/// claim, and no file has changed.
pub fn join<F: Shelf>(
    alloc: Global,
    plant: &Plant,
    levels: u32,
    files: &mut F,
    stem: &str,
    name: &str,
) -> Result<Joined, JoinStop>
    requires sound { Sound plant.now }
    requires least { 1 ≤ levels }
    requires most { levels ≤ 8 }
    requires slots { levels ≤ length (slots plant.now) }
    requires may_read { (part : ℕ) → part < 2 ^ levels
        → IsTrue (F.may_read files.old (log_name stem.now part)) }
    requires may_write { IsTrue (F.may_write files.old name.now) }
    requires apart { (part : ℕ) → part < 2 ^ levels → name.now ≢ log_name stem.now part }
    ensures joined { IfOk result
        (IsJoiningIn plant.now levels stem.now name.now (F.files files.old) (F.files files.new)) }

    // What the joined claim says holds of all plans, whether the files are told or not.
    ensures says { IfOk result (JoinSays plant.now) }
    ensures kept { IfOk result (λ said. IsNo said → F.files files.new ≡ F.files files.old) }
    ensures err { OnErr result (LeavesJoin plant.now levels stem.now name.now
        (F.files files.old) (F.files files.new)) }
    ensures others { OthersStay name.now (F.files files.old) (F.files files.new) }
    ensures read_fault { result ≡ Err JoinStop.ReadFault
        → Rose (F.read_faults files.old) (F.read_faults files.new) }
    ensures write_fault { result ≡ Err JoinStop.WriteFault
        → Rose (F.write_faults files.old) (F.write_faults files.new) }
    ensures written { result ≡ Err JoinStop.WriteFault
        → AllAreValid plant.now levels stem.now (F.files files.old) }
    ensures readable { F.may_read files.new ≡ F.may_read files.old }
    ensures writable { F.may_write files.new ≡ F.may_write files.old }
    ensures reads { F.read_faults files.old ≤ F.read_faults files.new }
    ensures writes { F.write_faults files.old ≤ F.write_faults files.new }
{
    match check_parts(alloc, plant, levels, files, stem)? {
        Checked::All {
            newest,
            declared,
            limits,
            heads,
            claims,
        } => {
            let claim = joined(claims);
            let version = joined_version(newest, declared.sums.as_slice());
            let front = JoinedFront {
                version,
                declared: &declared,
            };
            let logs = PartLogs {
                levels,
                limits,
                heads: heads.as_slice(),
                stem,
            };
            write_joined(alloc, plant, logs, front, files, name, claim)
        }
        Checked::Bad { part, defect } => Ok(Joined::No { part, defect }),
    }
}
