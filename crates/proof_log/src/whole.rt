//! The text of a whole log.
ghost use Rattle.std.specs.Prelude.{◌≡◌, ◌++◌, OnOk, OnErr};
ghost use Rattle.proof_tree.specs.Items.{tree_items};
ghost use Rattle.proof_tree.specs.Tree.{tree_of};
ghost use Rattle.proof_log.specs.Log.{log_text};

use crate::claims::append_rest;
use crate::log::Log;
use crate::nodes::append_proof;
use std::alloc::{AllocError, Global};

/// Appends the text of the log, in the lines of its version. After an error `into` is as before.
pub fn put_log(alloc: Global, log: &Log, into: &mut Vec<u8>) -> Result<(), AllocError>
    ensures ok { OnOk result (into.new.items
        ≡ into.old.items ++ log_text log.now.version (tree_items (tree_of log.now.tree))
        log.now.claim) }
    ensures err { OnErr result (into.new.items ≡ into.old.items) }
{
    let mut lines = Vec::new(alloc);
    append_proof(alloc, log.version, &log.tree, &mut lines)?;
    append_rest(alloc, &log.claim, &mut lines)?;
    into.extend_from_slice(lines.as_slice())
}
