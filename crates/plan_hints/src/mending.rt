//! First plans, row by row: what is broken where nothing more is started is mended by starts, with cuts after each.
use crate::finder::Finder;
use crate::ground::Ground;
use plan_repair::Extents;
use row_activity::{copy, counted, is_single, numbered, put_last, range_within};
use row_kit::{Domain, Entry, Program};
use std::alloc::{AllocError, Global};

// What counts where slots are chosen that mend a row: how far the bound has started them, how late they are, and chance. Where a choice
// fails its slot is not started, if `whole`, and else has a lesser value.
#[derive(Clone, Copy)]
struct Way {
    bound: i64,
    late: i64,
    chance: i64,
    seed: u32,
    whole: bool,
}

// A choice whose other part is still to be searched: a slot has a value above `max`.
#[derive(Clone, Copy)]
struct Choice {
    slot: u32,
    max: u8,
    mark: u32,
}

// What a look at a box comes to: its least values are a plan, a choice was made, or there is nothing to choose.
#[derive(Clone, Copy)]
enum Looked {
    Plan,
    Chosen,
    Dead,
}

/// Looks for first plans. It keeps in how many ways it has looked, and what it looks on as long as there is no plan.
#[derive(Drop)]
pub struct Mender {
    site: Option<Site>,
    ways: u32,
}

// What a plan is made on: the ground, its rows in the order of their last slots, and the choices that were made.
#[derive(Drop)]
struct Site {
    ground: Ground,
    rows: Vec<(i64, u32)>,
    choices: Vec<Choice>,
    places: i64,
}

// The most boxes of a search.
const MOST_BOXES: u32 = 100_000;

// The choices that may fail in a way.
const MOST_FAILS: u32 = 300;

// What a row counts that a choice mends or breaks.
const ROW: i64 = 32;

impl Mender {
    /// What looks for plans. It has not looked yet.
    pub fn new() -> Mender {
        Mender {
            site: None,
            ways: 0,
        }
    }

    /// Searches the area of a finder for a plan in the next way, up to so much work in all. It takes memory the first time; where there
    /// is none, nothing is searched.
    pub fn search(&mut self, finder: &mut Finder, program: &Program, limit: u64) {
        if self.site.is_none() {
            self.site = match Site::new(finder.alloc, program) {
                Ok(site) => site,
                Err(_) => None,
            };
        }
        let way = way_of(self.ways);
        self.ways = self.ways.saturating_add(1);
        if let Some(site) = &mut self.site {
            if site.search(finder, way, limit) {
                copy(
                    finder.plans.point.as_mut_slice(),
                    site.ground.point.as_slice(),
                );
                finder.take_point(program);
            }
        }
        if finder.plans.kept.worth.is_some() {
            self.site = None;
        }
    }
}

impl Site {
    // What plans of a program are made on; None where there is no ground.
    fn new(alloc: Global, program: &Program) -> Result<Option<Site>, AllocError> {
        let Some(ground) = Ground::new(alloc, program)? else {
            return Ok(None);
        };
        let count = ground.program.rows.len();
        let mut rows = Vec::with_capacity(alloc, count)?;
        for number in 0..count {
            let row = ground.program.rows.get(number);
            let last = last_place(&ground.program, row.entries.as_slice());
            rows.push((last, numbered(number)))?;
        }
        rows.sort_unstable();
        Ok(Some(Site {
            ground,
            rows,
            choices: Vec::with_capacity(alloc, program.root.len())?,
            places: i64::from(Extents::new(program.tags.as_slice()).places),
        }))
    }

    // Searches the area of a finder in a way; whether its point is then a plan.
    fn search(&mut self, finder: &mut Finder, way: Way, limit: u64) -> bool {
        self.choices.clear();
        let mut fails = 0u32;
        let mut goes_on = self.ground.enter(&finder.field.area);
        for _ in 0..MOST_BOXES {
            finder.work = finder.work.wrapping_add(self.ground.take_work());
            if !goes_on || finder.work >= limit {
                return false;
            }
            match self.look(finder, way) {
                Looked::Plan => return true,
                Looked::Chosen => {}
                Looked::Dead => {
                    fails = fails.saturating_add(1);
                    goes_on = fails <= MOST_FAILS && self.turn(way);
                }
            }
        }
        false
    }

    // Goes to the other part of the last choice, which has failed; false where none is left.
    fn turn(&mut self, way: Way) -> bool {
        match self.choices.pop() {
            None => false,
            Some(choice) => {
                self.ground.back(choice.mark);
                let keeps_none = way.whole && self.ground.field.domain(choice.slot).zero;
                let most = if keeps_none { 0 } else { choice.max };
                self.ground.keep_most(choice.slot, most);
                true
            }
        }
    }

    // Looks at a box, and chooses what mends the first row that is broken.
    fn look(&mut self, finder: &Finder, way: Way) -> Looked {
        if !self.ground.cut() {
            return Looked::Dead;
        }
        self.ground.read_least();
        match self.first_broken() {
            None => Looked::Plan,
            Some(row) => match self.helper(finder, row, way) {
                None => Looked::Dead,
                Some((slot, max)) => {
                    self.choose(slot, max);
                    Looked::Chosen
                }
            },
        }
    }

    // Chooses the values of a slot above `max`.
    fn choose(&mut self, slot: u32, max: u8) {
        let mark = self.ground.field.mark();
        put_last(&mut self.choices, Choice { slot, max, mark });
        self.ground.keep_above(slot, max);
    }

    // The first row that is broken.
    fn first_broken(&self) -> Option<u32> {
        for (_, row) in self.rows.as_slice() {
            if self.ground.room(*row) < 0 {
                return Some(*row);
            }
        }
        None
    }

    // The slot that helps a broken row best, with the value above which it does.
    fn helper(&mut self, finder: &Finder, row: u32, way: Way) -> Option<(u32, u8)> {
        let ground = &self.ground;
        let room = ground.room(row);
        let mut found = None;
        let mut most = i64::MIN;
        let mut looks = 0usize;
        for entry in ground.entries(row) {
            if let Some(value) = helping(ground, entry, room) {
                let gain = ground.gain(entry.slot, value).wrapping_mul(ROW);
                looks = looks.saturating_add(ground.tables.parts_of(entry.slot).len());
                let rank = gain.wrapping_add(self.rank(finder, entry.slot, way));
                if rank > most {
                    most = rank;
                    found = Some((entry.slot, value.saturating_sub(1)));
                }
            }
        }
        self.ground.count(looks);
        found
    }

    // How a slot ranks, beside what it mends and breaks.
    fn rank(&self, finder: &Finder, slot: u32, way: Way) -> i64 {
        let started = finder.bounds.amount(slot).started >> 26;
        let bound = started.wrapping_mul(way.bound);
        let chance = drawn(slot, way.seed).wrapping_mul(way.chance);
        let late = place_of(&self.ground.program, slot).wrapping_mul(way.late);
        let rest = bound.wrapping_add(chance);
        rest.wrapping_mul(self.places).wrapping_add(late)
    }
}

// The way of a number, two each: by the bound, the earliest, the latest, and by chance.
fn way_of(number: u32) -> Way {
    let turn = number / 2;
    let (bound, late, chance) = match turn {
        0 => (2, 0, 0),
        1 => (0, -64, 0),
        2 => (0, 2, 0),
        _ => (i64::from(turn % 3), 0, i64::from(turn % 4)),
    };
    Way {
        bound,
        late,
        chance,
        seed: number,
        whole: number % 2 == 0,
    }
}

// A number below 16 that looks drawn by chance for a slot.
fn drawn(slot: u32, seed: u32) -> i64 {
    let own = u64::from(slot).wrapping_mul(0x9E37_79B9_7F4A_7C15);
    let mixed = own ^ u64::from(seed).wrapping_mul(0xD1B5_4A32_D192_ED03);
    let mixed = (mixed ^ (mixed >> 29)).wrapping_mul(0xBF58_476D_1CE4_E5B9);
    i64::from((mixed >> 60) as u32)
}

// The place of a slot.
fn place_of(program: &Program, slot: u32) -> i64 {
    if (slot as usize) < program.tags.len() {
        i64::from(program.tags.get(slot as usize).place)
    } else {
        0
    }
}

// The last place of the slots of entries.
fn last_place(program: &Program, entries: &[Entry]) -> i64 {
    let mut last = 0i64;
    for entry in entries {
        last = last.max(place_of(program, entry.slot));
    }
    last
}

// The least value at which an entry's slot mends a row with so little room, or else the greatest; None where it does not help.
fn helping(ground: &Ground, entry: &Entry, room: i64) -> Option<u8> {
    let domain = ground.field.domain(entry.slot);
    if is_single(domain) || domain.lo > domain.hi {
        return None;
    }
    let own = counted(entry.fixed, entry.per, ground.plan.value(entry.slot));
    if counted(entry.fixed, entry.per, domain.hi) >= own {
        return None;
    }
    Some(mending(entry, domain, own.wrapping_add(room)))
}

// The least value of a domain at which an entry counts at most so much, or else the greatest.
fn mending(entry: &Entry, domain: Domain, most: i64) -> u8 {
    let (lo, hi) = range_within(entry.fixed, entry.per, most, (domain.lo, domain.hi));
    if lo <= hi { lo } else { domain.hi }
}
