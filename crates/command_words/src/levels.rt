//! How many parts a plant is cut into, and which of them is meant.
ghost use Rattle.std.specs.Prelude.{◌≡◌, ◌≤◌, ◌<◌, ◌^◌};

/// A number of levels that may be asked for: with so many, a plant has as many parts as two to their power.
#[derive(Clone, Copy)]
pub struct Levels {
    pub number: u32,
    pub ghost some: { 1 ≤ number },
    pub ghost most: { number ≤ 8 },
}

/// One of the parts of so many levels, by its number.
#[derive(Clone, Copy)]
pub struct Part {
    pub levels: Levels,
    pub number: u32,
    pub ghost within: { number < 2 ^ levels.number },
}

/// How many parts there are.
pub fn part_count(levels: Levels) -> u32
    ensures { result ≡ 2 ^ levels.number }
{
    1 << levels.number
}
