//! The lines of a proof.

ghost use Rattle.std.specs.Prelude.{◌≡◌, ◌++◌, ◌∷◌, flat_map, map, option_to_list, OnOk, OnErr};
ghost use Rattle.proof_tree.specs.declared.item.Item.{Item};
ghost use Rattle.proof_tree.specs.Tree.{tree_of};
ghost use Rattle.log_lines.specs.declared.line.Line.{Line};
ghost use Rattle.proof_log.specs.Log.{item_lines, lines_text, tree_lines, end_lines};

use crate::parts::{put_cut, put_dual, put_found, put_pending, put_split};
use dual_bound::Cert;
use log_lines::{Line, put_line};
use proof_tree::End;
use range_prop::RowCut;
use row_kit::Found;
use row_relax::{RowPick, RowProof};
use std::alloc::{AllocError, Global};

/// Appends the first line of a log of version 2 and the lines of the proof. After an error `into` is as before.
pub fn put_proof(alloc: Global, tree: &RowProof, into: &mut Vec<u8>) -> Result<(), AllocError>
    ensures ok { OnOk result (into.new.items
        ≡ into.old.items ++ lines_text (Line.Header 2 ∷ tree_lines (tree_of tree.now))) }
    ensures err { OnErr result (into.new.items ≡ into.old.items) }
{
    let mut lines = Vec::new(alloc);
    append_proof(alloc, 2, tree, &mut lines)?;
    into.extend_from_slice(lines.as_slice())
}

/// Appends the first line of a log of this version and the lines of the proof, or a part of them and then an error.
#[tactic(auto, unfolding(crate::specs::Log::lines_text))]
pub(crate) fn append_proof(
    alloc: Global,
    version: u8,
    tree: &RowProof,
    into: &mut Vec<u8>,
) -> Result<(), AllocError>
    ensures { OnOk result (into.new.items
        ≡ into.old.items ++ lines_text (Line.Header version ∷ tree_lines (tree_of tree.now))) }
{
    put_line(alloc, &Line::Header { version }, into)?;
    append_node(alloc, tree, into)
}

// Appends the lines of a node and of all that stands below it.
#[cycle(nodes)]
#[tactic(auto, unfolding(crate::specs::Log::lines_text, crate::specs::Log::item_lines))]
fn append_node(alloc: Global, tree: &RowProof, into: &mut Vec<u8>) -> Result<(), AllocError>
    ensures { OnOk result (into.new.items
        ≡ into.old.items ++ lines_text (tree_lines (tree_of tree.now))) }
{
    put_line(alloc, &Line::Node, into)?;
    put_cuts(alloc, tree.cuts.as_slice(), into)?;
    put_found_if(alloc, &tree.found, into)?;
    append_end(alloc, &tree.end, into)
}

// Appends the lines of the end of a node and of all that stands below it.
#[cycle(nodes)]
#[tactic(auto, unfolding(crate::specs::Log::lines_text, crate::specs::Log::item_lines))]
fn append_end(
    alloc: Global,
    end: &End<RowCut, Cert, RowPick, Found>,
    into: &mut Vec<u8>,
) -> Result<(), AllocError>
    ensures { OnOk result (into.new.items ≡ into.old.items ++ lines_text (end_lines end.now)) }
{
    match end {
        End::Empty => put_line(alloc, &Line::Empty, into),
        End::Dual(cert) => put_dual(alloc, cert, into),
        End::Point => put_line(alloc, &Line::Point, into),
        End::Pending(cert) => put_pending(alloc, cert, into),
        End::Split(pick, cert, left, right) => {
            put_split(alloc, pick, cert, into)?;
            append_node(alloc, left, into)?;
            append_node(alloc, right, into)
        }
    }
}

// Appends the lines of the cuts.
#[tactic(auto, unfolding(crate::specs::Log::lines_text, crate::specs::Log::item_lines))]
fn put_cuts(alloc: Global, cuts: &[RowCut], into: &mut Vec<u8>) -> Result<(), AllocError>
    ensures { OnOk result (into.new.items
        ≡ into.old.items ++ lines_text (flat_map item_lines (map Item.Cut cuts.now))) }
{
    for cut in cuts {
        put_cut(alloc, cut, into)?;
    }
    Ok(())
}

// Appends the lines of the point that was found, if one was.
#[tactic(auto, unfolding(crate::specs::Log::lines_text, crate::specs::Log::item_lines))]
fn put_found_if(alloc: Global, found: &Option<Found>, into: &mut Vec<u8>) -> Result<(), AllocError>
    ensures { OnOk result (into.new.items
        ≡ into.old.items ++ lines_text
        (flat_map item_lines (map Item.Found (option_to_list found.now)))) }
{
    match found {
        Some(found) => put_found(alloc, found, into),
        None => Ok(()),
    }
}
