//! The neighbourhoods of a plan, one after the other.
use crate::hoods::{Extents, Hood};
use row_kit::Program;

/// Which neighbourhood of the best plan is searched next: windows of places, the shortest first, then pairs of lanes, kinds, and slots
/// of chance. After a stage with a gain come those of a size less, after one without gain the next. Where no stage brings anything in
/// either way of picking, windows and searches grow.
#[derive(Clone, Copy)]
pub struct Walk {
    extents: Extents,
    stage: u32,
    place: u32,
    turn: u32,
    gains: u32,
    gained: bool,
    /// Whether splits are picked by trials.
    pub tries: bool,
    /// How often windows and searches have grown.
    pub level: u32,
}

// The places of the windows of each stage.
const WIDTHS: [u32; 4] = [4, 6, 9, 13];

// The stages of windows, and all of them.
const WINDOWS: u32 = 4;

const STAGES: u32 = 7;

// The neighbourhoods of chance in a stage.
const CHANCES: u32 = 16;

// So many sizes of windows and searches a walk may begin with that goes on.
const LEVELS: u32 = 2;

// A number that looks like chance.
fn scattered(number: u32) -> u32 {
    let mixed = u64::from(number).wrapping_mul(0x9E37_79B9_7F4A_7C15);
    let mixed = (mixed ^ (mixed >> 29)).wrapping_mul(0xBF58_476D_1CE4_E5B9);
    (mixed >> 40) as u32
}

impl Walk {
    /// The first neighbourhood of the plans of a program.
    pub fn new(program: &Program) -> Walk {
        Walk {
            extents: Extents::new(program.tags.as_slice()),
            stage: 0,
            place: 0,
            turn: 0,
            gains: 0,
            gained: false,
            tries: true,
            level: 0,
        }
    }

    /// Begins anew with the shortest windows, as after a plan that was found elsewhere.
    pub fn begin_anew(&mut self) {
        self.stage = 0;
        self.place = 0;
        self.gains = 0;
        self.gained = false;
        self.tries = true;
        self.level = 0;
    }

    /// Begins at a neighbourhood of any stage that looks drawn by chance, by this number.
    pub fn begin_at(&mut self, number: u32) {
        let drawn = scattered(number);
        self.tries = drawn % 2 == 0;
        self.level = drawn / 2 % LEVELS;
        self.stage = drawn / 8 % STAGES;
        self.turn = drawn / 64;
        self.place = drawn / 64 % self.count().max(1);
    }

    /// The neighbourhood.
    pub fn hood(&self) -> Hood {
        if self.stage < WINDOWS {
            self.window()
        } else if self.stage == WINDOWS {
            self.extents.lanes_at(self.place)
        } else if self.stage == WINDOWS + 1 {
            self.extents.kinds_at(self.place)
        } else {
            Hood::Chance(self.turn.wrapping_mul(32).wrapping_add(self.place))
        }
    }

    // The window at its place; the first of all is where plan and bound differ.
    fn window(&self) -> Hood {
        if self.stage == 0 && self.place == 0 {
            return Hood::Bound;
        }
        let number = if self.stage == 0 {
            self.place.saturating_sub(1)
        } else {
            self.place
        };
        let step = self.step();
        let shift = if self.turn % 2 == 1 { step / 2 } else { 0 };
        let from = number.saturating_mul(step).saturating_add(shift);
        Hood::Places(from, from.saturating_add(self.width()))
    }

    // The places of a window.
    fn width(&self) -> u32 {
        let width = match WIDTHS.get(self.stage as usize) {
            None => 1,
            Some(width) => *width,
        };
        (width.saturating_mul(self.level.saturating_add(2)) / 2).min(self.extents.places)
    }

    // From one window to the next: half of it.
    fn step(&self) -> u32 {
        (self.width() / 2).max(1)
    }

    // The number of neighbourhoods of the stage.
    fn count(&self) -> u32 {
        if self.stage < WINDOWS {
            let rest = self.extents.places.saturating_sub(self.width());
            let windows = (rest.saturating_add(self.step().saturating_sub(1))
                / self.step().max(1)).saturating_add(1);
            windows.saturating_add(if self.stage == 0 { 1 } else { 0 })
        } else if self.stage == WINDOWS {
            self.extents.lane_pairs()
        } else if self.stage == WINDOWS + 1 {
            self.extents.kind_groups()
        } else {
            CHANCES
        }
    }

    /// Goes on to the next neighbourhood, after a search that found a better plan, or none.
    pub fn go_on(&mut self, gained: bool) {
        if gained {
            self.gained = true;
            self.gains = self.gains.saturating_add(1);
        }
        self.place = self.place.saturating_add(1);
        if self.place >= self.count() {
            self.end_stage();
        }
    }

    // Goes on to the next stage: that of a size less after a gain.
    fn end_stage(&mut self) {
        self.place = 0;
        self.turn = self.turn.wrapping_add(1);
        self.stage = if self.gained {
            self.stage.saturating_sub(1)
        } else {
            self.stage.saturating_add(1)
        };
        self.gained = false;
        if self.stage >= STAGES {
            self.end_round();
        }
    }

    // Begins with the shortest windows again: where nothing was gained by the other way of picking, and after both by longer ones.
    fn end_round(&mut self) {
        self.stage = 0;
        if self.gains > 0 {
            self.gains = 0;
            self.tries = true;
        } else if self.tries {
            self.tries = false;
        } else {
            self.tries = true;
            self.level = self.level.saturating_add(1);
        }
    }
}
