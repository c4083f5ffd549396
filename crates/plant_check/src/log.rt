//! The check of a log that is held as a proof and a claim.
ghost use Rattle.std.specs.Prelude.{◌≡◌, None, length, IfOk};
ghost use Rattle.stn_model.specs.Points.{depth_limit};
ghost use Rattle.stn_model.specs.Sound.{Sound};
ghost use Rattle.proof_tree.specs.Items.{tree_items};
ghost use Rattle.proof_tree.specs.Tree.{tree_of};
ghost use Rattle.row_set.specs.PlantProgram.{IsMadeOf, IsProgramOf};
ghost use Rattle.log_lines.specs.TextDefect.{log_text_defect};
ghost use Rattle.proof_log.specs.Log.{log_text};
ghost use Rattle.proof_log.specs.OneText.{IsLogOver};
ghost use Rattle.valid_log.specs.Verdict.{IsVerdictOn, limits_of};
ghost use Rattle.plant_check.specs.OwnLogs.{IsChecked};

use proof_log::Log;
use row_relax::Rows;
use std::alloc::{AllocError, Global};
use stn_model::{Plant, depth_limit};
use valid_log::LogVerdict;

/// Checks this log against a plant whose rows these are, so that they need not be made again. It writes the log's text and
/// checks it as `check_bytes` checks bytes, and takes memory by the text.
pub fn check_log(
    alloc: Global,
    plant: &Plant,
    rows: &Rows,
    log: &Log,
) -> Result<LogVerdict, AllocError>
    requires sound { Sound plant.now }
    requires made { IsMadeOf plant.now rows.now.program }
    requires means { IsProgramOf plant.now rows.now.program }
    requires plain { rows.now.choices ≡ None }
    ensures checked { IfOk result (IsChecked plant.now
        (log_text log.now.version (tree_items (tree_of log.now.tree)) log.now.claim)) }

    // Over the rows' slots, and without a text defect, the answer is that on this very proof and claim.
    ensures meant { IsLogOver (length rows.now.program.root) log.now.version
        (tree_of log.now.tree) log.now.claim
        → log_text_defect (limits_of rows.now (depth_limit plant.now))
        (log_text log.now.version (tree_items (tree_of log.now.tree)) log.now.claim) ≡ None
        → IfOk result (IsVerdictOn rows.now (tree_of log.now.tree) log.now.claim) }
{
    log_check::check_log(alloc, rows, depth_limit(plant), log)
}
