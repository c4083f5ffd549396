//! The hinter: what is looked for in a box, and what is offered.
use crate::accounts::Accounts;
use crate::bounds::NONE;
use crate::diving::{Dive, ONE};
use crate::finder::Finder;
use crate::mending::Mender;
use crate::small_search::{Effort, Picking};
use box_advice::Hinter;
use dual_simplex::Amount;
use plan_repair::{Walk, put_sums, without_sums};
use row_activity::{copy, domain_of, is_single, least_value, numbered};
use row_kit::{Area, Program};
use std::alloc::{AllocError, Global};

/// Offers plans, each once and only where it is worth more than those before: what the guide left, repaired; greatest batches;
/// dives by the bound; and what searches in the neighbourhoods of the best plan find. Its work is counted in steps. `offer` takes memory
/// for one neighbourhood after the other, and leaves those out for which there is none.
///
/// Values are chosen for the given slots alone, in the program without its sums and setups; an offered point has the values that the
/// sums have there, and says nothing of setups.
#[derive(Drop)]
pub struct PlanHinter {
    own: Option<Program>,
    given: u32,
    points: u32,
    looker: Looker,
}

// What looks for plans of a program without sums.
#[derive(Drop)]
struct Looker {
    finder: Finder,
    mender: Mender,
    walk: Walk,
    seen: Vec<Amount>,
    accounts: Accounts,
    boxes: u32,
    offered: Option<i128>,
}

// The boxes in which each one is dived in; after them each 16th is.
const FIRST_BOXES: u32 = 20;

// The boxes and the work of a search for a first plan.
const MOST_FIRST: u32 = 200;

const FIRST_WORK: u64 = 400_000_000;

// The work of mending rows in a box, and the ways to do so at the first one.
const MEND_WORK: u64 = 4_000_000_000;

const MOST_WAYS: u32 = 24;

// The slots up to which a first plan is searched for by bounds before rows are mended.
const FEW_SLOTS: usize = 512;

// The boxes of a search in a neighbourhood before searches grow, the times that they grow at most, and the work of one.
const MOST_SMALL: u32 = 40;

const MOST_LEVEL: u32 = 6;

const MOST_WORK: u64 = 1_000_000_000;

// The most neighbourhoods that are searched in a box.
const MOST_STEPS: u32 = 100_000;

impl PlanHinter {
    /// A hinter for a program, of which the slots from `given` on and before `points` are those of sums. It begins with a point at hand,
    /// a value for each slot before `points`, which is repaired where it is not lawful; or with none, where `start` is empty. It has
    /// room for all that can come.
    pub fn new(
        alloc: Global,
        program: &Program,
        given: u32,
        points: u32,
        start: &[u8],
    ) -> Result<PlanHinter, AllocError> {
        let own = without_sums(alloc, program, given)?;
        let slots = program.root.len();
        let looker = match &own {
            None => Looker::begun(alloc, program, slots, start)?,
            Some(own) => Looker::begun(alloc, own, slots, start)?,
        };
        Ok(PlanHinter {
            own,
            given,
            points,
            looker,
        })
    }

    /// A hinter for a search that goes on from an earlier one, from its best plan on: as `new`, but plans are looked for as at later
    /// boxes, and the neighbourhoods begin at one that this number draws. Where no plan is known it is as `new`.
    pub fn resumed(
        alloc: Global,
        program: &Program,
        given: u32,
        points: u32,
        start: &[u8],
        number: u32,
    ) -> Result<PlanHinter, AllocError> {
        let mut hinter = PlanHinter::new(alloc, program, given, points, start)?;
        hinter.looker.go_on(number);
        Ok(hinter)
    }
}

impl Looker {
    // Goes on as an earlier search has left it, where that has found a plan.
    fn go_on(&mut self, number: u32) {
        if self.finder.plans.kept.worth.is_some() {
            self.boxes = FIRST_BOXES;
            self.accounts.go_on();
            self.walk.begin_at(number);
        }
    }

    // What looks for plans of a program, where boxes are of so many slots.
    fn new(alloc: Global, program: &Program, box_slots: usize) -> Result<Looker, AllocError> {
        Ok(Looker {
            finder: Finder::new(alloc, program)?,
            mender: Mender::new(),
            walk: Walk::new(program),
            seen: vec![in alloc; NONE; program.root.len()]?,
            accounts: Accounts::new(program, box_slots),
            boxes: 0,
            offered: None,
        })
    }

    // What looks for plans of a program from a point on, if one is at hand.
    fn begun(
        alloc: Global,
        program: &Program,
        box_slots: usize,
        start: &[u8],
    ) -> Result<Looker, AllocError> {
        let mut looker = Looker::new(alloc, program, box_slots)?;
        if start.len() >= program.root.len() {
            looker.take_left(program, start);
        }
        Ok(looker)
    }

    // Takes a point that was left, repaired and improved.
    fn take_left(&mut self, program: &Program, point: &[u8]) {
        copy(self.finder.plans.point.as_mut_slice(), point);
        self.finder.take_point(program);
    }

    // Takes the only point of an area.
    fn take_only(&mut self, program: &Program, area: &Area) {
        put_only(area, self.finder.plans.point.as_mut_slice());
        let _ = self
            .finder
            .plans
            .kept
            .take(program, self.finder.plans.point.as_slice());
    }

    // Dives in a box: for greatest batches at the first, and by the bound, from where that of the last such box has ended.
    fn dive(&mut self, program: &Program, area: &Area) {
        self.finder.enter(program, area);
        if self.boxes == 1 {
            self.finder.dive(program, Dive::Greatest);
            self.finder.dive(program, Dive::GreatestBack);
        }
        let may_gain = self.finder.bound(program, None);
        if self.boxes == 1 {
            self.note_cap(may_gain);
        }
        if may_gain {
            self.finder.bounds.save_start();
            copy(
                self.seen.as_mut_slice(),
                self.finder.bounds.amounts.as_slice(),
            );
            self.finder.take_rounded(program);
            self.finder.dive(program, Dive::Amounts(ONE / 20));
            self.finder.dive(program, Dive::Amounts(ONE / 2));
            self.finder.dive(program, Dive::Places(ONE / 5));
        }
    }

    // Notes how much the first bound leaves to plans: nothing where it may gain nothing.
    fn note_cap(&mut self, may_gain: bool) {
        match self.finder.plans.kept.worth {
            Some(best) if !may_gain => self.accounts.note_cap(best),
            _ => self.accounts.note_cap(self.finder.bounds.workspace.worth()),
        }
    }

    // Searches the box for a first plan, where none is known and there is work left for one.
    fn find_first(&mut self, program: &Program) {
        if !self.accounts.allow_first(self.finder.work) {
            return;
        }
        for picking in [Picking::Furthest, Picking::Tried] {
            if self.finder.plans.kept.worth.is_none() {
                let mark = self.finder.field.mark();
                let effort = Effort {
                    picking,
                    boxes: MOST_FIRST,
                    work: FIRST_WORK,
                };
                self.finder.search(program, effort);
                self.finder.field.back(&self.finder.tables, mark);
            }
        }
    }

    // Looks for a first plan row by row, where none is known and there is work left for one: in many ways at the first box, and at
    // later ones in one more.
    fn mend(&mut self, program: &Program) {
        if !self.accounts.allow_first(self.finder.work) {
            return;
        }
        let limit = self.finder.work.saturating_add(MEND_WORK);
        let ways = if self.boxes <= 1 { MOST_WAYS } else { 1 };
        for _ in 0..ways {
            if self.finder.plans.kept.worth.is_none() {
                self.mender.search(&mut self.finder, program, limit);
            }
        }
    }

    // Looks for a first plan: where one bound takes all the work of a search, row by row first.
    fn look_for_first(&mut self, program: &Program) {
        if program.root.len() > FEW_SLOTS {
            self.mend(program);
            self.find_first(program);
        } else {
            self.find_first(program);
            self.mend(program);
        }
    }

    // Searches neighbourhoods of the best plan, as long as there is work left for them.
    fn search_hoods(&mut self, program: &Program) {
        if !self.may_search() {
            return;
        }
        self.finder.enter_root(program);
        for _ in 0..MOST_STEPS {
            self.search_next(program);
            if !self.may_search() {
                return;
            }
        }
    }

    // Whether there is work left for the neighbourhoods of a plan.
    fn may_search(&self) -> bool {
        match self.finder.plans.kept.worth {
            None => false,
            Some(best) => self.walk.level <= MOST_LEVEL
                && self.accounts.allow(self.finder.work, best),
        }
    }

    // Searches the next neighbourhood.
    fn search_next(&mut self, program: &Program) {
        let before = self.finder.plans.kept.worth;
        self.search_hood(program);
        let gained = self.finder.plans.kept.worth != before;
        self.walk.go_on(gained);
        if gained {
            self.accounts.note_gain(self.finder.work);
        }
    }

    // Searches the neighbourhood that the walk has come to.
    fn search_hood(&mut self, program: &Program) {
        let picking = if self.walk.tries {
            Picking::Tried
        } else {
            Picking::Furthest
        };
        let effort = Effort {
            picking,
            boxes: MOST_SMALL.saturating_mul(3u32.saturating_pow(self.walk.level.min(MOST_LEVEL))),
            work: MOST_WORK,
        };
        let seen = self.seen.as_slice();
        let hood = self.walk.hood();
        self.finder.search_hood(program, hood, seen, effort);
    }

    // Looks for plans in a box that has more than one point.
    fn look(&mut self, program: &Program, area: &Area, point: &[u8]) {
        let before = self.finder.plans.kept.worth;
        self.take_left(program, point);
        if self.boxes <= FIRST_BOXES || self.boxes % 16 == 0 {
            self.dive(program, area);
            self.look_for_first(program);
        }
        if self.finder.plans.kept.worth != before {
            self.walk.begin_anew();
            self.accounts.note_gain(self.finder.work);
        }
        self.search_hoods(program);
    }

    // Whether the best plan has not been offered; then it is.
    fn hand_out(&mut self, point: &mut [u8]) -> bool {
        let worth = self.finder.plans.kept.worth;
        if worth == self.offered {
            return false;
        }
        self.offered = worth;
        copy(point, self.finder.plans.kept.values.as_slice());
        true
    }
}

// Whether each slot of a program has one value in an area.
fn is_only(program: &Program, area: &Area) -> bool {
    for slot in 0..program.root.len() {
        if !is_single(domain_of(area, numbered(slot))) {
            return false;
        }
    }
    true
}

// Writes the least value of each slot of an area.
fn put_only(area: &Area, point: &mut [u8]) {
    for slot in 0..point.len() {
        point[slot] = least_value(domain_of(area, numbered(slot)));
    }
}

impl Hinter for PlanHinter {
    fn offer(&mut self, program: &Program, area: &Area, point: &mut [u8]) -> bool {
        let offers = match &self.own {
            None => self.looker.offer(program, area, point),
            Some(own) => self.looker.offer(own, area, point),
        };
        if offers {
            put_sums(program, self.given, self.points, point);
        }
        offers
    }
}

impl Looker {
    // Offers a plan: whether its values are in the first places of the point.
    fn offer(&mut self, program: &Program, area: &Area, point: &mut [u8]) -> bool {
        self.boxes = self.boxes.saturating_add(1);
        self.accounts.note_box(self.finder.work);
        if is_only(program, area) {
            self.take_only(program, area);
        } else {
            self.look(program, area, point);
        }
        self.hand_out(point)
    }
}
