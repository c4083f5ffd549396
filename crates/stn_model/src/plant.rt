//! The records of a plant. States, utilities, units, tasks and runs are numbered from 0 in the order
//! of the file, and every number in a record names one of them.

use crate::list::List;

/// A name, as its bytes.
pub type Name = List<u8>;

/// What a picture shows in the place of a name: 1 to 64 bytes of UTF-8 without control characters; empty where it shows the name.
pub type Label = List<u8>;

/// A colour, `#` and six hexadecimal digits; empty where a picture takes one of its own.
pub type Colour = List<u8>;

/// A plant: what there is, what it can do, and what comes and goes.
#[derive(Drop)]
pub struct Plant {
    /// Whether it may have the sizes of a large plant, and rates by period: it is of version 3 of plant files.
    pub large: bool,
    /// The horizon: periods are numbered 0 to `periods - 1`, times 0 to `periods`.
    pub periods: u32,
    /// When the plan begins by the clock, and how long a period is; no plan depends on it.
    pub calendar: Option<Calendar>,
    pub states: List<State>,
    pub utilities: List<Utility>,
    pub units: List<StnUnit>,
    pub tasks: List<Task>,
    pub runs: List<Run>,
    pub gaps: List<Gap>,
    pub receipts: List<Receipt>,
    pub deliveries: List<Delivery>,
    pub outages: List<Outage>,
}

/// When the horizon begins, and how many minutes a period takes.
#[derive(Clone, Copy)]
pub struct Calendar {
    pub start: Moment,
    /// From 1 to 10,080, a week.
    pub minutes: u32,
}

/// A local date and time of day, in whole seconds.
#[derive(Clone, Copy)]
pub struct Moment {
    pub year: u16,
    /// From 1.
    pub month: u8,
    /// From 1.
    pub day: u8,
    pub hour: u8,
    pub minute: u8,
    pub second: u8,
}

/// A material: a feed, an intermediate or a product.
#[derive(Drop)]
pub struct State {
    pub name: Name,
    pub label: Label,
    /// The stock before anything moves, in mass units.
    pub initial: u64,
    /// The storage limit at each time, in mass units; empty where there is none.
    pub limits: List<u64>,
    /// What a mass unit is worth at the end of the horizon, in money.
    pub price: i64,
    /// What a mass unit costs that is in stock at a time before the horizon, in money.
    pub holding: i64,
}

/// A utility, such as steam or cooling water.
#[derive(Drop)]
pub struct Utility {
    pub name: Name,
    pub label: Label,
    /// How much is there in each period.
    pub limits: List<u64>,
    /// What one unit of it costs in a period, in money, where `rates` is empty.
    pub rate: i64,
    /// What one unit of it costs in each period, in money; empty where it costs `rate` in all of them.
    pub rates: List<i64>,
}

/// A unit of the plant: a vessel or a line that carries out one batch at a time.
#[derive(Drop)]
pub struct StnUnit {
    pub name: Name,
    pub label: Label,
    /// The batch that held the unit before all starts of a plan, if one did.
    pub last: Option<Last>,
}

/// The batch that held a unit last: of which task it was, and the time at which it ends.
#[derive(Clone, Copy)]
pub struct Last {
    pub task: u32,
    /// The time at which it ends: below 0 where it is over before the plan begins.
    pub until: i32,
}

/// A task turns its inputs into its outputs, in fixed proportions of its batch.
#[derive(Drop)]
pub struct Task {
    pub name: Name,
    pub label: Label,
    pub colour: Colour,
    /// The mass of one quantum of a batch, in mass units.
    pub quantum: u32,
    pub inputs: List<Input>,
    pub outputs: List<Output>,
    pub draws: List<Draw>,
}

/// What a task takes of a state at its start.
#[derive(Clone, Copy)]
pub struct Input {
    pub state: u32,
    /// Mass units for each quantum.
    pub amount: u64,
}

/// What a task gives to a state.
#[derive(Clone, Copy)]
pub struct Output {
    pub state: u32,
    /// Mass units for each quantum.
    pub amount: u64,
    /// How many periods after the start it is given.
    pub delay: u32,
}

/// What a task draws of a utility: in its period k `fixed[k]`, and `each[k]` for each quantum.
#[derive(Drop)]
pub struct Draw {
    pub utility: u32,
    /// For each period of the batch.
    pub fixed: List<u32>,
    pub each: List<u32>,
}

/// A task that a unit can carry out, with the least and the greatest batch.
#[derive(Clone, Copy)]
pub struct Run {
    pub task: u32,
    pub unit: u32,
    /// The least batch, in quanta.
    pub min: u32,
    /// The greatest batch, in quanta.
    pub max: u32,
    /// What a start costs, in money.
    pub cost: i64,
}

/// How many periods a unit is cleaned between a batch of one task and a next batch of another.
#[derive(Clone, Copy)]
pub struct Gap {
    pub unit: u32,
    pub from: u32,
    pub to: u32,
    /// From the end of the one batch to the start of the other.
    pub periods: u32,
    /// What the changeover costs, in money.
    pub cost: u32,
}

/// What comes into a state from outside.
#[derive(Clone, Copy)]
pub struct Receipt {
    pub state: u32,
    /// It is in stock from this time on.
    pub time: u32,
    /// In mass units.
    pub amount: u64,
}

/// What goes out of a state to a customer.
#[derive(Clone, Copy)]
pub struct Delivery {
    pub state: u32,
    /// It is out of stock from this time on.
    pub time: u32,
    /// In mass units.
    pub amount: u64,
    /// What the customer pays for it, in money.
    pub payment: i64,
}

/// Periods in which a unit is out of use: `from` to `to - 1`. No batch on it may overlap them.
#[derive(Clone, Copy)]
pub struct Outage {
    pub unit: u32,
    pub from: u32,
    pub to: u32,
}
