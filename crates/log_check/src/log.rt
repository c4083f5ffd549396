//! The check of a log that is held as a proof and a claim.
ghost use Rattle.std.specs.Prelude.{◌≡◌, None, length, IfOk};
ghost use Rattle.proof_tree.specs.Items.{tree_items};
ghost use Rattle.proof_tree.specs.Tree.{tree_of};
ghost use Rattle.log_lines.specs.TextDefect.{log_text_defect};
ghost use Rattle.proof_log.specs.Log.{log_text};
ghost use Rattle.proof_log.specs.OneText.{IsLogOver};
ghost use Rattle.row_relax.specs.Choices.{choices_of};
ghost use Rattle.valid_log.specs.Verdict.{IsVerdict, IsVerdictOn, YesHolds, limits_of};

use crate::bytes::check_bytes;
use proof_log::{Log, put_log};
use row_relax::Rows;
use std::alloc::{AllocError, Global};
use valid_log::LogVerdict;

/// Checks this log by its text, as `check_bytes` checks bytes: it writes the whole text, and takes memory by it.
pub fn check_log(
    alloc: Global,
    rows: &Rows,
    depth: u32,
    log: &Log,
) -> Result<LogVerdict, AllocError>
    ensures verdict { IfOk result (IsVerdict rows.now depth
        (log_text log.now.version (tree_items (tree_of log.now.tree)) log.now.claim)) }
    ensures holds { IfOk result (YesHolds rows.now) }

    // Over the slots of points, and without a text defect, the answer is that on this very proof and claim.
    ensures meant { IsLogOver (length (choices_of rows.now).root) log.now.version
        (tree_of log.now.tree) log.now.claim
        → log_text_defect (limits_of rows.now depth)
        (log_text log.now.version (tree_items (tree_of log.now.tree)) log.now.claim) ≡ None
        → IfOk result (IsVerdictOn rows.now (tree_of log.now.tree) log.now.claim) }
{
    let mut text = Vec::new(alloc);
    put_log(alloc, log, &mut text)?;
    check_bytes(alloc, rows, depth, text.as_slice())
}
