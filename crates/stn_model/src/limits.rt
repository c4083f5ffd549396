//! The limits within which a plant stands, so that every sum over it fits the machine's numbers.
ghost use Rattle.std.specs.Prelude.{◌≡◌, negsuc};
ghost use Rattle.stn_model.specs.Points.{slot_limit, depth_limit};

use crate::plant::Plant;

/// The longest horizon, in periods.
pub const MAX_PERIODS: u32 = 336;

/// How many states a plant has at most.
pub const MAX_STATES: usize = 160;

/// How many states a plant that is not large has at most.
pub const SMALL_STATES: usize = 40;

/// How many tasks a plant has at most.
pub const MAX_TASKS: usize = 160;

/// How many tasks a plant that is not large has at most.
pub const SMALL_TASKS: usize = 40;

/// How many units a plant has at most.
pub const MAX_UNITS: usize = 96;

/// How many units a plant that is not large has at most.
pub const SMALL_UNITS: usize = 24;

/// How many runs (tasks on units) a plant has at most.
pub const MAX_RUNS: usize = 256;

/// How many runs (tasks on units) a plant that is not large has at most.
pub const SMALL_RUNS: usize = 64;

/// How many utilities a plant has at most.
pub const MAX_UTILITIES: usize = 64;

/// How many utilities a plant that is not large has at most.
pub const SMALL_UTILITIES: usize = 8;

/// How many inputs, outputs or draws a task has at most, each.
pub const MAX_SIDE: usize = 8;

/// How many receipts or deliveries a plant has at most, each.
pub const MAX_EVENTS: usize = 900;

/// How many outages a plant has at most.
pub const MAX_OUTAGES: usize = 4096;

/// How many receipts, deliveries or outages a plant has at most that is not large, each.
pub const SMALL_EVENTS: usize = 256;

/// How many gaps are listed at most.
pub const MAX_GAPS: usize = 4096;

/// How many slots (a run and a period in which a start of it fits) there are at most.
pub const MAX_SLOTS: usize = 4096;

/// How many slots there are at most in a plant that is not large.
pub const SMALL_SLOTS: usize = 512;

/// How many pairs of slots the gaps of a plant concern at most.
pub const MAX_GAP_PAIRS: usize = 32_768;

/// How many pairs of slots the gaps of a plant that is not large concern at most.
pub const SMALL_GAP_PAIRS: usize = 8192;

/// The greatest size of a batch, in quanta.
pub const MAX_QUANTA: u32 = 255;

/// The greatest quantum, in mass units.
pub const MAX_QUANTUM: u32 = 1_000_000;

/// The greatest numerator and denominator of a part of a batch.
pub const MAX_PART: u32 = 10_000;

/// The greatest stock, storage or utility limit, receipt, delivery or payment, in absolute value.
pub const MAX_AMOUNT: u64 = 1_000_000_000;

/// The greatest price, holding cost, start cost, changeover cost, utility rate or draw, in absolute value.
pub const MAX_PRICE: u32 = 1_000_000;

/// The longest delay, in periods.
pub const MAX_DELAY: u32 = 96;

/// The longest cleaning gap, in periods.
pub const MAX_GAP: u32 = 336;

/// The longest cleaning gap of a plant that is not large, in periods.
pub const SMALL_GAP: u32 = 96;

/// The earliest time at which the batch that held a unit last ends.
pub const MIN_UNTIL: i32 = -336;

/// The longest name, in bytes.
pub const MAX_NAME: usize = 32;

/// The longest label, in bytes.
pub const MAX_LABEL: usize = 64;

/// The longest period of a plant with a calendar, in minutes.
pub const MAX_MINUTES: u32 = 10_080;

/// Does nothing: its clauses say that the limits are the numbers that a sound plant keeps.
pub fn limits_hold()
    ensures periods { MAX_PERIODS ≡ 336 }
    ensures states { MAX_STATES ≡ 160 }
    ensures tasks { MAX_TASKS ≡ 160 }
    ensures units { MAX_UNITS ≡ 96 }
    ensures runs { MAX_RUNS ≡ 256 }
    ensures utilities { MAX_UTILITIES ≡ 64 }
    ensures side { MAX_SIDE ≡ 8 }
    ensures events { MAX_EVENTS ≡ 900 }
    ensures outages { MAX_OUTAGES ≡ 4096 }
    ensures gaps { MAX_GAPS ≡ 4096 }
    ensures slots { MAX_SLOTS ≡ 4096 }
    ensures gap_pairs { MAX_GAP_PAIRS ≡ 32768 }
    ensures small_states { SMALL_STATES ≡ 40 }
    ensures small_tasks { SMALL_TASKS ≡ 40 }
    ensures small_units { SMALL_UNITS ≡ 24 }
    ensures small_runs { SMALL_RUNS ≡ 64 }
    ensures small_utilities { SMALL_UTILITIES ≡ 8 }
    ensures small_events { SMALL_EVENTS ≡ 256 }
    ensures small_slots { SMALL_SLOTS ≡ 512 }
    ensures small_gap_pairs { SMALL_GAP_PAIRS ≡ 8192 }
    ensures quanta { MAX_QUANTA ≡ 255 }
    ensures quantum { MAX_QUANTUM ≡ 1000000 }
    ensures part { MAX_PART ≡ 10000 }
    ensures amount { MAX_AMOUNT ≡ 1000000000 }
    ensures price { MAX_PRICE ≡ 1000000 }
    ensures delay { MAX_DELAY ≡ 96 }
    ensures gap { MAX_GAP ≡ 336 }
    ensures small_gap { SMALL_GAP ≡ 96 }
    ensures until { MIN_UNTIL ≡ negsuc 335 }
    ensures name { MAX_NAME ≡ 32 }
    ensures label { MAX_LABEL ≡ 64 }
    ensures minutes { MAX_MINUTES ≡ 10080 }
{}

/// How many slots a program over the plant may have, those of sums and setups among them.
pub fn slot_limit(plant: &Plant) -> u32
    ensures { result ≡ slot_limit plant.now }
{
    if plant.large { 4096 } else { 512 }
}

/// How many splits of a log over the plant may stand one below another: nine for each slot that there may be.
pub fn depth_limit(plant: &Plant) -> u32
    ensures { result ≡ depth_limit plant.now }
{
    if plant.large { 36_864 } else { 4608 }
}
