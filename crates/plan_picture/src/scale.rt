//! How large a picture is drawn, in pixels.
ghost use Rattle.std.specs.Prelude.{◌≡◌, ◌≤◌, ◌<◌, ◌^◌, length, take, drop};
ghost use Rattle.stn_model.specs.Sound.{Sound};
ghost use Rattle.plan_picture.specs.Scale.{band_count, periods_in, band_part, period_width, letters_in, x_at, chart_width, part_rows, unit_top, stocks_top, loads_top, days_top, days_height, band_height, tasks_in_line, band_top};

use stn_model::Plant;

/// How many bands the chart has.
pub fn band_count(plant: &Plant) -> u32
    requires { Sound plant.now }
    ensures value { result ≡ band_count plant.now }
    ensures small { result ≤ 7 }
{
    (plant.periods + 47) / 48
}

/// How many periods a band shows.
pub fn periods_in(plant: &Plant, band: u32) -> u32
    requires { band ≤ 7 }
    ensures value { result ≡ periods_in plant.now band }
    ensures small { result ≤ 48 }
{
    plant.periods.saturating_sub(48 * band).min(48)
}

/// What a band shows of a list by times.
#[tactic(auto, unfolding(crate::specs::Scale::band_part))]
pub fn band_part<'a, T>(plant: &Plant, band: u32, items: &'a [T]) -> &'a [T]
    requires sound { Sound plant.now }
    requires there { band ≤ 7 }
    ensures value { result.now ≡ band_part plant.now band items.now }
    ensures short { length result.now ≤ length items.now }
{
    let rest = from_place(items, 48 * band as usize);
    if band + 1 == band_count(plant) {
        rest
    } else {
        first_of(rest, 48)
    }
}

// The items from a place on; none where the list ends before it.
fn from_place<T>(items: &[T], place: usize) -> &[T]
    ensures value { result.now ≡ drop place items.now }
    ensures short { length result.now ≤ length items.now }
{
    if place < items.len() {
        &items[place..]
    } else {
        &items[items.len()..]
    }
}

// So many items at most, the first ones.
fn first_of<T>(items: &[T], count: usize) -> &[T]
    ensures value { result.now ≡ take count items.now }
    ensures short { length result.now ≤ length items.now }
{
    if count < items.len() {
        &items[..count]
    } else {
        items
    }
}

/// How wide a period is drawn.
#[tactic(auto, unfolding(crate::specs::Scale::period_width))]
pub fn period_width(plant: &Plant) -> u64
    requires { Sound plant.now }
    ensures value { result ≡ period_width plant.now }
    ensures small { result ≤ 720 }
{
    let even = 720 / plant.periods as u64;
    even.max(54)
}

/// How many letters have room in a width.
pub fn letters_in(width: u64) -> u64
    ensures { result ≡ letters_in width }
{
    width.saturating_sub(6) / 6
}

/// Where a place of a band stands.
#[tactic(auto, unfolding(crate::specs::Scale::x_at))]
pub fn x_at(plant: &Plant, place: u64) -> u64
    requires sound { Sound plant.now }
    requires small { place ≤ 2 ^ 40 }
    ensures value { result ≡ x_at plant.now place }
    ensures small { result ≤ 2 ^ 51 }
{
    128 + place * period_width(plant)
}

/// How wide the chart is.
pub fn chart_width(plant: &Plant) -> u64
    requires { Sound plant.now }
    ensures value { result ≡ chart_width plant.now }
    ensures small { result ≤ 2 ^ 51 }
{
    x_at(plant, plant.periods.min(48) as u64 + 1)
}

// How many rows a part of a band takes.
fn part_rows(count: u64) -> u64
    requires { count < 2 ^ 32 }
    ensures value { result ≡ part_rows count }
    ensures small { result ≤ 2 ^ 32 }
{
    if count == 0 { 0 } else { count + 1 }
}

/// Where the row of a unit begins.
pub fn unit_top(unit: u32) -> u64
    ensures value { result ≡ unit_top unit }
    ensures small { result ≤ 2 ^ 40 }
{
    22 + 22 * unit as u64
}

/// Where the stocks of a band begin.
pub fn stocks_top(plant: &Plant) -> u64
    requires { Sound plant.now }
    ensures value { result ≡ stocks_top plant.now }
    ensures small { result ≤ 2 ^ 12 }
{
    22 + 22 * plant.units.len() as u64
}

/// Where the loads of a band begin, below the rows of so many states.
pub fn loads_top(plant: &Plant, states: u64) -> u64
    requires sound { Sound plant.now }
    requires few { states < 2 ^ 32 }
    ensures value { result ≡ loads_top plant.now states }
    ensures small { result ≤ 2 ^ 38 }
{
    stocks_top(plant) + 22 * part_rows(states)
}

/// Where the days and hours of a band begin.
pub fn days_top(plant: &Plant, states: u64) -> u64
    requires sound { Sound plant.now }
    requires few { states < 2 ^ 32 }
    ensures value { result ≡ days_top plant.now states }
    ensures small { result ≤ 2 ^ 39 }
{
    loads_top(plant, states) + 22 * part_rows(plant.utilities.len() as u64)
}

// How high the row of days and hours is.
fn days_height(plant: &Plant) -> u64
    ensures value { result ≡ days_height plant.now.calendar }
    ensures small { result ≤ 22 }
{
    match plant.calendar {
        Some(_) => 22,
        None => 0,
    }
}

/// Where a band ends.
pub fn band_height(plant: &Plant, states: u64) -> u64
    requires sound { Sound plant.now }
    requires few { states < 2 ^ 32 }
    ensures value { result ≡ band_height plant.now states }
    ensures small { result ≤ 2 ^ 40 }
{
    days_top(plant, states) + days_height(plant)
}

/// How many tasks stand in a line of the legend.
#[tactic(auto, unfolding(crate::specs::Scale::tasks_in_line))]
pub fn tasks_in_line(plant: &Plant) -> u64
    requires { Sound plant.now }
    ensures value { result ≡ tasks_in_line plant.now }
    ensures some { 1 ≤ result }
    ensures small { result ≤ 2 ^ 51 }
{
    let most = chart_width(plant) / 240;
    most.max(1)
}

/// Where a band begins.
#[tactic(auto, unfolding(crate::specs::Scale::band_top))]
pub fn band_top(plant: &Plant, states: u64, band: u32) -> u64
    requires sound { Sound plant.now }
    requires few { states < 2 ^ 32 }
    requires there { band ≤ 7 }
    ensures value { result ≡ band_top plant.now states band }
    ensures small { result ≤ 2 ^ 60 }
{
    let line = tasks_in_line(plant);
    let lines = (plant.tasks.len() as u64 + (line - 1)) / line;
    22 + 22 * lines + band as u64 * (band_height(plant, states) + 22)
}
