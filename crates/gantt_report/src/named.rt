//! The lists of names: tasks, states and utilities, each with the number that stands for it.

ghost use Rattle.std.specs.Prelude.{◌≡◌, ◌+◌, ◌<◌, ◌^◌, ◌++◌, ◌∷◌, [], ℕ, List as Items, length, map, OnOk, slice_index_or};
ghost use Rattle.gantt_report.specs.Layout.{name_line, name_lines};

use crate::layout::push_two_digits;
use crate::written::Written;
use std::alloc::Global;
use stn_model::{State, Task, Utility};

/// What has a name of the plant file.
pub trait Named {
    ghost name: { Self → Items ℕ };

    fn name(&self) -> &[u8]
        ensures { result.now ≡ name self.now };
}

impl Named for Task {
    ghost name = { λ task. task.name };

    fn name(&self) -> &[u8] {
        self.name.as_slice()
    }
}

impl Named for State {
    ghost name = { λ state. state.name };

    fn name(&self) -> &[u8] {
        self.name.as_slice()
    }
}

impl Named for Utility {
    ghost name = { λ utility. utility.name };

    fn name(&self) -> &[u8] {
        self.name.as_slice()
    }
}

/// Appends a line for each item: what it is, its number counted from 1, and its name.
#[tactic(auto, using(crate::proofs::Ranges::pieces_next))]
pub fn push_names<T: Named>(alloc: Global, text: &mut Vec<u8>, what: &str, items: &[T]) -> Written
    requires { length items.now < 2 ^ 32 }
    ensures { OnOk result (text.new.items
        ≡ text.old.items ++ name_lines what.now (map T.name items.now)) }
{
    for item in 0..items.len() {
        push_name(alloc, text, what, items, item)?;
    }
    Ok(())
}

// Appends the line of an item.
#[tactic(auto, unfolding(crate::specs::Layout::name_line))]
fn push_name<T: Named>(
    alloc: Global,
    text: &mut Vec<u8>,
    what: &str,
    items: &[T],
    item: usize,
) -> Written
    requires few { length items.now < 2 ^ 32 }
    requires there { item < length items.now }
    ensures { OnOk result (text.new.items
        ≡ text.old.items ++ name_line what.now (map T.name items.now) item) }
{
    text.extend_from_slice(what.as_bytes())?;
    push_two_digits(alloc, text, item as u64 + 1)?;
    text.push(b' ')?;
    text.extend_from_slice(items[item].name())?;
    text.push(b'\n')?;
    Ok(())
}
