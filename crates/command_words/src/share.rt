//! Which of the open ends of a log are meant.
ghost use Rattle.std.specs.Prelude.{◌≤◌, ◌<◌};

/// A share of the open ends of a log: those whose number, counted from 0, leaves the rest `number` when it is divided by `shares`.
#[derive(Clone, Copy)]
pub struct Share {
    pub number: u32,
    pub shares: u32,
    pub ghost within: { number < shares },
    pub ghost most: { shares ≤ 256 },
}
