//! The lines of an item.

ghost use Rattle.std.specs.Prelude.{◌≡◌, ◌++◌, OnOk, OnErr};
ghost use Rattle.proof_log.specs.Log.{item_lines, lines_text};

use crate::parts::{put_cut, put_dual, put_found, put_pending, put_split};
use log_lines::{Line, put_line};
use proof_tree::Item;
use row_relax::Rows;
use std::alloc::{AllocError, Global};

/// Appends the lines of the item of a proof. After an error `into` is as before.
pub fn put_item(alloc: Global, item: &Item<Rows>, into: &mut Vec<u8>) -> Result<(), AllocError>
    ensures ok { OnOk result (into.new.items ≡ into.old.items ++ lines_text (item_lines item.now)) }
    ensures err { OnErr result (into.new.items ≡ into.old.items) }
{
    let mut lines = Vec::new(alloc);
    append_item(alloc, item, &mut lines)?;
    into.extend_from_slice(lines.as_slice())
}

// The same, where `into` may keep a part of the lines after an error.
#[tactic(auto, unfolding(crate::specs::Log::lines_text, crate::specs::Log::item_lines))]
fn append_item(alloc: Global, item: &Item<Rows>, into: &mut Vec<u8>) -> Result<(), AllocError>
    ensures { OnOk result (into.new.items ≡ into.old.items ++ lines_text (item_lines item.now)) }
{
    match item {
        Item::Node => put_line(alloc, &Line::Node, into),
        Item::Cut(cut) => put_cut(alloc, cut, into),
        Item::Found(found) => put_found(alloc, found, into),
        Item::Empty => put_line(alloc, &Line::Empty, into),
        Item::Dual(cert) => put_dual(alloc, cert, into),
        Item::Point => put_line(alloc, &Line::Point, into),
        Item::Pending(cert) => put_pending(alloc, cert, into),
        Item::Split(pick, cert) => put_split(alloc, pick, cert, into),
    }
}
