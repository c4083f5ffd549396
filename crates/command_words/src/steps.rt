//! By how much a limit is raised, and how often.
ghost use Rattle.std.specs.Prelude.{◌≤◌, unsigned_abs};

/// The most that a step may come to, up or down, in mass units.
pub const MAX_STEP: u64 = 1_000_000_000;

/// The greatest number of steps.
pub const MAX_STEPS: u32 = 50;

/// Steps by which the limits of a state are raised.
#[derive(Clone, Copy)]
pub struct Steps {
    /// What a step adds to each limit, in mass units.
    pub step: i64,
    /// How many steps there are.
    pub count: u32,
    pub ghost small: { unsigned_abs step ≤ 1000000000 },
    pub ghost some: { 1 ≤ count },
    pub ghost few: { count ≤ 50 },
}
