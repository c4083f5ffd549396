//! What a band shows of something that lasts from one time to another: outages, cleaning, batches.
ghost use Rattle.std.specs.Prelude.{◌≡◌, ◌≤◌, ◌^◌, IsTrue};
ghost use Rattle.stn_model.specs.Sound.{Sound};
ghost use Rattle.plan_picture.specs.Bars.{first_place, last_place, is_seen, span};

use crate::marks::Frame;
use crate::scale::{period_width, periods_in, unit_top, x_at};
use stn_model::Plant;

// The place of a band at which something begins.
fn first_place(band: u32, from: u64) -> u64
    requires { band ≤ 7 }
    ensures { result ≡ first_place band from }
{
    from.saturating_sub(48 * band as u64)
}

// The place of a band at which something ends.
fn last_place(plant: &Plant, band: u32, to: u128) -> u64
    requires { band ≤ 7 }
    ensures value { result ≡ last_place plant.now band to }
    ensures small { result ≤ 48 }
{
    let shown = periods_in(plant, band) as u128;
    shown.min(to.saturating_sub(48 * band as u128)) as u64
}

/// Whether a band shows something of what is from one time to another.
pub fn is_seen(plant: &Plant, band: u32, from: u64, to: u128) -> bool
    requires { band ≤ 7 }
    ensures { result ≡ is_seen plant.now band from to }
{
    first_place(band, from) < last_place(plant, band, to)
}

/// What a band shows of that, in the row of a unit.
#[tactic(auto, unfolding(crate::specs::Bars::span))]
pub fn span(plant: &Plant, band: u32, unit: u32, from: u64, to: u128) -> Frame
    requires sound { Sound plant.now }
    requires there { band ≤ 7 }
    requires seen { IsTrue (is_seen plant.now band from to) }
    ensures value { result ≡ span plant.now band unit from to }
    ensures x { result.x ≤ 2 ^ 51 }
    ensures y { result.y ≤ 2 ^ 41 }
{
    let first = first_place(band, from);
    let places = last_place(plant, band, to).saturating_sub(first);
    Frame {
        x: x_at(plant, first),
        y: unit_top(unit) + 1,
        width: places * period_width(plant),
        height: 20,
    }
}
