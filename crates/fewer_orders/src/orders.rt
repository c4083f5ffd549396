//! The plant with some of its deliveries alone.
ghost use Rattle.std.specs.Prelude.{◌≡◌, length, IfOk};
ghost use Rattle.stn_model.specs.Sound.{Sound};
ghost use Rattle.fewer_orders.specs.Alone.{alone, picked};

use plant_copies::plant_copy;
use std::alloc::{AllocError, Global};
use stn_model::{Delivery, List, Plant};

/// The plant with those of its deliveries alone that are kept: the others are not delivered and not paid. There is a word on each
/// delivery, in their order. It takes memory for a whole plant; an error says that there was none.
pub fn alone(alloc: Global, plant: &Plant, kept: &[bool]) -> Result<Plant, AllocError>
    requires sound { Sound plant.now }
    requires each { length kept.now ≡ length plant.now.deliveries }
    ensures alone { IfOk result (λ fewer. fewer ≡ alone plant.now kept.now) }
    ensures still_sound { IfOk result Sound }
{
    made(alloc, plant, kept)
}

// The plant with these deliveries alone.
#[tactic(auto, unfolding(crate::specs::Alone::alone))]
fn made(alloc: Global, plant: &Plant, kept: &[bool]) -> Result<Plant, AllocError>
    requires { length kept.now ≡ length plant.now.deliveries }
    ensures { IfOk result (λ fewer. fewer ≡ alone plant.now kept.now) }
{
    let deliveries = picked(alloc, plant.deliveries.as_slice(), kept)?;
    let mut fewer = plant_copy(alloc, plant)?;
    fewer.deliveries = deliveries;
    Ok(fewer)
}

// The deliveries that are kept.
fn picked(
    alloc: Global,
    deliveries: &[Delivery],
    kept: &[bool],
) -> Result<List<Delivery>, AllocError>
    requires { length kept.now ≡ length deliveries.now }
    ensures { IfOk result (λ list. list ≡ picked kept.now deliveries.now) }
{
    let mut list = List::new(alloc);
    for (place, delivery) in deliveries.iter().enumerate() {
        if kept[place] {
            list.push(*delivery)?;
        }
    }
    Ok(list)
}
