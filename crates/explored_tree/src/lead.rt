//! The way of a loop through what was explored.
use crate::caps::exceeds;
use crate::node::{NONE, Node};
use box_advice::Advice;
use dual_bound::Cert;
use row_kit::{Area, Domain, Program};
use std::alloc::{AllocError, Global};

/// Leads a loop through explored boxes, and leaves open what was not explored. It tells how many boxes are to be counted, so that as
/// many others as the loop saves may be searched on the way.
#[derive(Drop)]
pub struct Lead {
    nodes: Vec<Node>,
    path: Vec<u32>,
    best: Option<i128>,
    budget: u32,
    counted: u32,
    // How many boxes the loop is to count after the present one.
    ahead: u32,
    // How many boxes the loop is to count in all.
    planned: u32,
}

// How often a slot can be split on the way to a box, at most.
const MOST_SPLITS: usize = 9;

impl Lead {
    /// The way through boxes of a program, of which the first is the root, where so much is the worth of the best plan, and so many may
    /// be counted.
    pub fn new(
        alloc: Global,
        program: &Program,
        nodes: Vec<Node>,
        best: Option<i128>,
        budget: u32,
    ) -> Result<Lead, AllocError> {
        let mut lead = Lead::over(alloc, program, nodes, 1, best, budget)?;
        let _ = lead.come_to(0, 0);
        Ok(lead)
    }

    /// The way through boxes of which the first, so many, are parts of no split: the loop comes to one after another.
    pub fn over(
        alloc: Global,
        program: &Program,
        nodes: Vec<Node>,
        roots: u32,
        best: Option<i128>,
        budget: u32,
    ) -> Result<Lead, AllocError> {
        let depths = program.root.len().saturating_mul(MOST_SPLITS);
        let mut lead = Lead {
            nodes,
            path: vec![in alloc; NONE; depths.saturating_add(1)]?,
            best,
            budget,
            counted: 0,
            ahead: 0,
            planned: 0,
        };
        lead.put_sizes();
        lead.put_roots(roots);
        lead.put_befores();
        Ok(lead)
    }

    /// Comes to a box that is a part of no split, and stands below so many; whether to search it. Then it is counted.
    pub fn enters(&mut self, number: u32, depth: u32) -> bool {
        !self.come_to(depth, number)
    }

    /// Comes to the next part of a split, which stands below so many; whether to leave it open. Else it is counted. A part that
    /// does not lie in the one that was explored, or has values that this had not, is one that was not.
    pub fn leaves(&mut self, area: &Area, depth: u32) -> bool {
        let part = self.part_at(depth);
        let explored = self.side(area, self.at(depth.saturating_sub(1)));
        if explored == part && self.is_within(area, part) {
            self.come_to(depth, part)
        } else {
            self.come_to(depth, NONE)
        }
    }

    // Whether an area has no values that a box had not: only then does the cap of one that was not explored count for it. Of one that
    // was explored nothing is asked.
    fn is_within(&self, area: &Area, number: u32) -> bool {
        let Some(node) = self.nodes.get(number as usize) else {
            return true;
        };
        for slot in 0..area.slot_count() {
            if let Some(domain) = node.domains.get(slot as usize) {
                if !holds_all(domain, &area.domain(slot)) {
                    return false;
                }
            }
        }
        true
    }

    // The part of a box's split in which the values of an area lie at the slot of that split; none where they lie in both.
    fn side(&self, area: &Area, number: u32) -> u32 {
        let Some(node) = self.nodes.get(number as usize) else {
            return NONE;
        };
        match (node.slot, node.max) {
            (Some(slot), Some(max)) if slot < area.slot_count() => {
                part_of(&area.domain(slot), max, node.parts)
            }
            _ => NONE,
        }
    }

    // Comes to the part of the present box's split in which an area lies; whether there is one.
    fn go_down(&mut self, area: &Area, depth: u32) -> bool {
        let part = self.side(area, self.at(depth));
        if part == NONE {
            return false;
        }
        self.enter(depth, part);
        self.look_ahead(part);
        true
    }

    // Comes to the least explored box in which an area lies, from the present one on. The answer is the last certificate on the way.
    fn go_in(&mut self, area: &Area, depth: u32) -> Option<Cert> {
        let mut cert = self.take_cert(depth);
        for _ in 0..self.path.len() {
            if !self.go_down(area, depth) {
                break;
            }
            let own = self.take_cert(depth);
            if own.is_some() {
                cert = own;
            }
        }
        cert
    }

    /// What was advised on the present box, which stands below so many splits, where it was explored: on the least explored box in
    /// which its area lies. The certificate is handed out.
    pub fn advice(&mut self, area: &Area, depth: u32) -> Option<Advice> {
        let cert = self.go_in(area, depth);
        let place = self.at(depth) as usize;
        if place >= self.nodes.len() || !self.nodes[place].explored {
            return None;
        }
        let node = &self.nodes[place];
        Some(Advice {
            cert,
            slot: node.slot,
            max: node.max,
        })
    }

    // Takes the certificate of the present box, which stands below so many splits.
    fn take_cert(&mut self, depth: u32) -> Option<Cert> {
        let place = self.at(depth) as usize;
        if place >= self.nodes.len() {
            return None;
        }
        self.nodes[place].cert.take()
    }

    // Whether the loop is to count a box.
    fn is_planned(&self, node: &Node) -> bool {
        node.explored && exceeds(node.cap, self.best)
    }

    // Notes for each box how many are to be counted from it on downward: for parts before the box that is split.
    fn put_sizes(&mut self) {
        let count = self.nodes.len();
        for turn in 0..count {
            let place = count - 1 - turn;
            let node = &self.nodes[place];
            if self.is_planned(node) {
                let first = self.size_of(node.parts);
                let second = self.size_of(node.parts.saturating_add(1));
                self.nodes[place].size = first.saturating_add(second).saturating_add(1);
            }
        }
    }

    // How many boxes are to be counted from one on downward.
    fn size_of(&self, number: u32) -> u32 {
        match self.nodes.get(number as usize) {
            None => 0,
            Some(node) => node.size,
        }
    }

    // Notes for each of the first boxes, so many, how many are to be counted before it, and how many in all.
    fn put_roots(&mut self, roots: u32) {
        for number in 0..roots {
            self.put_before(number, self.planned);
            self.planned = self.planned.saturating_add(self.size_of(number));
        }
    }

    // Notes for each box how many are to be counted before it: for parts after the box that is split.
    fn put_befores(&mut self) {
        for place in 0..self.nodes.len() {
            self.put_befores_of_parts(place);
        }
    }

    // Notes how many boxes are to be counted before the parts of the box at a place.
    fn put_befores_of_parts(&mut self, place: usize) {
        let Some(node) = self.nodes.get(place) else {
            return;
        };
        let parts = node.parts;
        let first = node.before.saturating_add(1);
        let second = first.saturating_add(self.size_of(parts));
        self.put_before(parts, first);
        self.put_before(parts.saturating_add(1), second);
    }

    // Notes how many boxes are to be counted before one.
    fn put_before(&mut self, number: u32, before: u32) {
        let place = number as usize;
        if place < self.nodes.len() {
            self.nodes[place].before = before;
        }
    }

    // Notes the box that the loop comes to below so many splits.
    fn enter(&mut self, depth: u32, number: u32) {
        let place = depth as usize;
        if place < self.path.len() {
            self.path[place] = number;
        }
    }

    // The box below so many splits on the way to the present one.
    fn at(&self, depth: u32) -> u32 {
        match self.path.get(depth as usize) {
            None => NONE,
            Some(number) => *number,
        }
    }

    // The part that the loop comes to below so many splits: the first of a split that it has come to none of, else the second.
    fn part_at(&mut self, depth: u32) -> u32 {
        let place = self.at(depth.saturating_sub(1)) as usize;
        if place >= self.nodes.len() {
            return NONE;
        }
        let node = &mut self.nodes[place];
        if node.parts == NONE {
            return NONE;
        }
        let number = node.parts.saturating_add(node.entered);
        node.entered = node.entered.saturating_add(1);
        number
    }

    // Comes to a box below so many splits; whether to leave it open. Else it is counted.
    fn come_to(&mut self, depth: u32, number: u32) -> bool {
        self.enter(depth, number);
        let leaves = self.is_left(number);
        if !leaves {
            self.counted = self.counted.saturating_add(1);
        }
        leaves
    }

    // Whether to leave a box open.
    fn is_left(&mut self, number: u32) -> bool {
        self.look_ahead(number);
        match self.nodes.get(number as usize) {
            None => self.is_spent(),
            Some(node) => {
                !self.is_planned(node) && (!exceeds(node.cap, self.best) || self.is_spent())
            }
        }
    }

    // Notes how many boxes the loop is to count after one.
    fn look_ahead(&mut self, number: u32) {
        let Some(node) = self.nodes.get(number as usize) else {
            return;
        };
        let is_planned = self.is_planned(node);
        self.ahead = self
            .planned
            .saturating_sub(node.before)
            .saturating_sub(u32::from(is_planned));
    }

    // Whether the boxes that are counted and those ahead make up the budget.
    fn is_spent(&self) -> bool {
        self.counted.saturating_add(self.ahead) >= self.budget
    }
}

// Whether a domain has all values of another.
fn holds_all(domain: &Domain, other: &Domain) -> bool {
    let has_zero = domain.zero || !other.zero;
    let has_more = other.lo > other.hi || (domain.lo <= other.lo && other.hi <= domain.hi);
    has_zero && has_more
}

// Of the parts of a split after a value, of which the first is told, the one in which a domain lies; none where it lies in both.
fn part_of(domain: &Domain, max: u8, first: u32) -> u32 {
    if domain.lo > domain.hi || domain.hi <= max {
        first
    } else if !domain.zero && domain.lo > max {
        first.saturating_add(1)
    } else {
        NONE
    }
}
