//! How many boxes a request may ask for.
ghost use Rattle.std.specs.Prelude.{◌≤◌};

/// The greatest number of boxes that may be asked for.
pub const MAX_BUDGET: u32 = 100_000;

/// A number of boxes that may be asked for.
#[derive(Clone, Copy)]
pub struct Budget {
    pub boxes: u32,
    pub ghost some: { 1 ≤ boxes },
    pub ghost most: { boxes ≤ 100000 },
}
