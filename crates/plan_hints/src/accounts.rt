//! How much work the search for plans may take.
use plan_repair::Extents;
use row_kit::Program;

/// The work of boxes and of the search for plans, in steps that take about a nanosecond, and what it was when the last better plan came.
#[derive(Drop)]
pub struct Accounts {
    per_box: u64,
    patience: u64,
    boxes: u64,
    is_first: bool,
    // The work for plans at the first box, once it is over.
    first: u64,
    gained: Spent,
    cap: i128,
}

// What boxes and the search for plans have taken.
#[derive(Clone, Copy)]
struct Spent {
    boxes: u64,
    plans: u64,
}

// About what a box takes beside, for each square of the slots.
const BOX: u64 = 200;

// How long a better plan is waited for at first: for each square of the slots, and for each square of the places besides.
const SQUARES: u64 = 3_000;

const PLACES: u64 = 60;

// The most that is done at first.
const MOST_FIRST: u64 = 45_000_000_000;

// The whole of it is taken where this many times what may be gained comes to the cap.
const WIDE_GAP: i128 = 50;

impl Accounts {
    /// Nothing is done. Plans are looked for in a program, and boxes are of so many slots.
    pub fn new(program: &Program, box_slots: usize) -> Accounts {
        let slots = program.root.len() as u64;
        let square = slots.saturating_mul(slots);
        let larger = box_slots as u64;
        let places = u64::from(Extents::new(program.tags.as_slice()).places);
        let patience = places
            .saturating_mul(places)
            .saturating_mul(PLACES)
            .saturating_add(SQUARES);
        Accounts {
            per_box: larger.saturating_mul(larger).saturating_mul(BOX),
            patience: square.saturating_mul(patience),
            boxes: 0,
            is_first: true,
            first: 0,
            gained: Spent { boxes: 0, plans: 0 },
            cap: i128::MAX,
        }
    }

    /// Notes that no plan is worth more than about so much.
    pub fn note_cap(&mut self, cap: i128) {
        self.cap = cap;
    }

    /// Notes that plans were looked for before: no box is a first one.
    pub fn go_on(&mut self) {
        self.is_first = false;
    }

    /// Notes that a box is looked at, after so much work for plans.
    pub fn note_box(&mut self, plans: u64) {
        if self.is_first && self.boxes > 0 {
            self.is_first = false;
            self.first = plans;
        }
        self.boxes = self.boxes.saturating_add(self.per_box);
    }

    /// Notes a better plan, after so much work for plans.
    pub fn note_gain(&mut self, plans: u64) {
        self.gained = Spent {
            boxes: self.boxes,
            plans,
        };
    }

    /// Whether more may be done for a plan that is worth more than the best one, after so much work for plans: at the first box until
    /// there was no better plan for some time; later three tenths of the work while the last one has come in its last three tenths, and
    /// else a seventh. What the first box took counts a quarter later, so that plans are looked for before as much work is done again.
    pub fn allow(&self, plans: u64, best: i128) -> bool {
        let gap = self.cap.saturating_sub(best);
        if gap <= 0 {
            return false;
        }
        let since = plans.saturating_sub(self.gained.plans);
        if self.is_first {
            let patience = self.patience_at(gap).saturating_add(self.gained.plans / 4);
            return since <= patience && plans <= MOST_FIRST;
        }
        let boxes = self.boxes.saturating_sub(self.gained.boxes);
        let plans = plans.saturating_sub(self.first / 4 * 3);
        let all = self.boxes.saturating_add(plans);
        if since.saturating_add(boxes) <= all / 10 * 3 {
            plans <= all / 10 * 3
        } else {
            plans <= all / 7
        }
    }

    /// Whether more may be done for a first plan, after so much work for plans: at the first box, and later while that is at most
    /// three tenths of all work.
    pub fn allow_first(&self, plans: u64) -> bool {
        self.is_first || plans <= self.boxes.saturating_add(plans) / 10 * 3
    }

    // How long a better plan is waited for at first: a tenth as long where little may be gained.
    fn patience_at(&self, gap: i128) -> u64 {
        if gap.saturating_mul(WIDE_GAP) >= self.cap {
            self.patience
        } else {
            self.patience / 10
        }
    }
}
