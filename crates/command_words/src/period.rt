//! The period from which on a plan may change.
ghost use Rattle.std.specs.Prelude.{◌≤◌};

/// A period that may be asked for, up to the end of the longest horizon: the starts before it are kept.
#[derive(Clone, Copy)]
pub struct Period {
    pub number: u32,
    pub ghost most: { number ≤ 336 },
}
