//! The text of a conflict, put.
ghost use Rattle.std.specs.Prelude.{◌≡◌, ◌<◌, ◌++◌, length, flat_map, count_by, IfOk, OnOk, All};
ghost use Rattle.std.specs.List.{range_with_len};
ghost use Rattle.stn_model.specs.Sound.{Sound};
ghost use Rattle.order_text.specs.Marks.{is_left};
ghost use Rattle.order_text.specs.ConflictText.{conflict_text, head_line, line_at, order_line, order_words};

use crate::mark::Mark;
use std::alloc::{AllocError, Global};
use stn_model::{Delivery, Plant};

/// The text of a conflict among the deliveries of the plant: how many are left, and a line for each of them. An error says that no
/// memory was found.
#[tactic(auto, unfolding(crate::specs::ConflictText::conflict_text))]
pub fn conflict_text(alloc: Global, plant: &Plant, marks: &[Mark]) -> Result<Vec<u8>, AllocError>
    requires sound { Sound plant.now }
    requires each { length marks.now ≡ length plant.now.deliveries }
    ensures { IfOk result (λ text. text.items ≡ conflict_text plant.now marks.now) }
{
    let mut text = head_line(alloc, count_left(marks) as u64)?;
    push_orders(alloc, &mut text, plant, marks)?;
    Ok(text)
}

// How many deliveries are left.
fn count_left(marks: &[Mark]) -> usize
    ensures { result ≡ count_by is_left marks.now }
{
    marks.iter().filter(|mark| mark.is_left()).count()
}

#[tactic(auto, unfolding(crate::specs::ConflictText::head_line))]
fn head_line(alloc: Global, count: u64) -> Result<Vec<u8>, AllocError>
    ensures { IfOk result (λ text. text.items ≡ head_line count) }
{
    let line = format!(in alloc; "# conflict {count}\n")?;
    Vec::from_slice(alloc, line.as_bytes())
}

// Appends the lines of the deliveries that are left.
fn push_orders(
    alloc: Global,
    text: &mut Vec<u8>,
    plant: &Plant,
    marks: &[Mark],
) -> Result<(), AllocError>
    requires sound { Sound plant.now }
    requires each { length marks.now ≡ length plant.now.deliveries }
    ensures { OnOk result (text.new.items ≡ text.old.items
        ++ flat_map (line_at plant.now marks.now) (range_with_len 0 (length plant.now.deliveries))) }
{
    for place in 0..plant.deliveries.len() {
        let delivery = plant.deliveries.get(place);
        push_order(alloc, text, plant, place as u64 + 1, marks[place], delivery)?;
    }
    Ok(())
}

// Appends the line of a delivery, where it is left.
fn push_order(
    alloc: Global,
    text: &mut Vec<u8>,
    plant: &Plant,
    number: u64,
    mark: Mark,
    delivery: &Delivery,
) -> Result<(), AllocError>
    requires { delivery.now.state < length plant.now.states }
    ensures { OnOk result (text.new.items
        ≡ text.old.items ++ order_line plant.now number mark delivery.now) }
{
    match mark {
        Mark::Out => Ok(()),
        Mark::Needed => push_words(alloc, text, plant, number, delivery, "\n"),
        Mark::Open => push_words(alloc, text, plant, number, delivery, " open\n"),
    }
}

// Appends the words of a delivery, and what ends its line.
fn push_words(
    alloc: Global,
    text: &mut Vec<u8>,
    plant: &Plant,
    number: u64,
    delivery: &Delivery,
    end: &str,
) -> Result<(), AllocError>
    requires { delivery.now.state < length plant.now.states }
    ensures { OnOk result (text.new.items
        ≡ text.old.items ++ (order_words plant.now number delivery.now ++ end.now)) }
{
    let words = order_words(alloc, plant, number, delivery)?;
    text.extend_from_slice(words.as_slice())?;
    text.extend_from_slice(end.as_bytes())
}

/// The words of a delivery of this number.
#[tactic(auto, unfolding(crate::specs::ConflictText::order_words))]
pub fn order_words(
    alloc: Global,
    plant: &Plant,
    number: u64,
    delivery: &Delivery,
) -> Result<Vec<u8>, AllocError>
    requires { delivery.now.state < length plant.now.states }
    ensures { IfOk result (λ words. words.items ≡ order_words plant.now number delivery.now) }
{
    let head = format!(in alloc; "delivery {number} ")?;
    let (time, amount) = (delivery.time, delivery.amount);
    let tail = format!(in alloc; " {time} {amount}")?;
    let mut words = Vec::from_slice(alloc, head.as_bytes())?;
    words.extend_from_slice(plant.states.get(delivery.state as usize).name.as_slice())?;
    words.extend_from_slice(tail.as_bytes())?;
    Ok(words)
}
