//! What became of a delivery.
ghost use Rattle.std.specs.Prelude.{◌≡◌, IsTrue};
ghost use Rattle.order_text.specs.Marks.{is_left};

/// What became of a delivery in the search for a conflict.
#[derive(Clone, Copy, PartialEq, Eq, Debug)]
pub enum Mark {
    /// It was left out for good.
    Out,
    /// It is left, and without it the others that are left have a plan.
    Needed,
    /// It is left, and the budget was spent before the others were settled without it.
    Open,
}

impl Mark {
    /// Whether the delivery is left.
    pub fn is_left(self) -> bool
        ensures { result ≡ is_left self }
    {
        match self {
            Mark::Out => false,
            Mark::Needed => true,
            Mark::Open => true,
        }
    }
}
