//! How far the next step goes.

// How far the next step goes: the total is to fall a gap below the least that has been seen.
#[derive(Drop)]
pub struct Pace {
    least: i128,
    gap: i128,
    still: u32,
}

// Steps without a lower total, after which the gap is halved.
const PATIENCE: u32 = 8;

impl Pace {
    // The pace from a total, with an eighth of it as the gap.
    pub fn new(total: &i128) -> Pace {
        let eighth = total.saturating_abs() / 8;
        Pace {
            least: *total,
            gap: eighth.saturating_add(1),
            still: 0,
        }
    }

    // Whether steps still may lower the total.
    pub fn goes_on(&self) -> bool {
        self.gap > 0
    }

    // Notes a total; whether it is the least so far.
    pub fn notes(&mut self, total: &i128) -> bool {
        if *total < self.least {
            self.least = *total;
            self.still = 0;
            return true;
        }
        self.still = self.still.saturating_add(1);
        if self.still >= PATIENCE {
            self.still = 0;
            self.gap = self.gap / 2;
        }
        false
    }

    // What a total exceeds the number by that the next step aims at.
    pub fn excess(&self, total: &i128) -> i128 {
        total.saturating_sub(self.least).saturating_add(self.gap)
    }
}
