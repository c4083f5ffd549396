//! The search in memory, best first.
ghost use Rattle.std.specs.Prelude.{◌≡◌, length, OnOk, IfOk};
ghost use Rattle.std.specs.List.{All};
ghost use Rattle.row_kit.specs.Area.{present};
ghost use Rattle.row_kit.specs.Domain.{IsOpen};
ghost use Rattle.range_prop.specs.Index.{IsIndex};

use crate::aims::Aims;
use crate::starts::Starts;
use box_advice::{Advice, Hinter, Sought};
use dual_simplex::Basis;
use explored_tree::{Tree, cap_of, exceeds};
use plan_hints::PlanHinter;
use plan_repair::Kept;
use range_prop::{RowIndex, cut_by_index};
use row_activity::{domain_of, is_single, numbered};
use row_kit::{Area, Domain, Program};
use split_advice::{PlanGuide, may_split, split_value};
use std::alloc::{AllocError, Global};

/// What a search in memory has come to: the boxes, and the best plan.
#[derive(Drop)]
pub struct Explored {
    pub tree: Tree,
    pub best: Kept,
}

// A search in memory. Points are judged by `choices`.
#[derive(Drop)]
struct Explorer<'a> {
    alloc: Global,
    choices: &'a Program,
    tree: Tree,
    guide: PlanGuide,
    hinter: PlanHinter,
    best: Kept,
    counted: u32,
    // The cap of the last box, which was the greatest.
    cap: i128,
    aims: Aims,
    // Where the bounds of open ends begin that an earlier search has left.
    starts: Starts,
    // How many boxes were bounded, and how many bounds were made anew.
    bounded: u32,
    anew: u32,
}

// One bound in so many is made anew, at most.
const SELDOM: u32 = 32;

// How many boxes are explored at most for each that may be counted.
const MOST_LOOKS: u32 = 4;

/// Searches a program best first, until the tree that is left counts so many boxes, or is closed. Four times as many boxes are
/// explored at most, and none once what is held comes to some 2 GiB. Where that comes no further, trees of their own are explored
/// towards worths that no plan has yet (`Aims`).
pub fn explore(alloc: Global, sought: &Sought, budget: u32) -> Result<Explored, AllocError> {
    let tree = Tree::new(alloc, sought.program)?;
    let explorer = Explorer::new(alloc, sought, tree, 0)?;
    explorer.explored(sought.program, budget)
}

/// Searches on from the boxes of a tree that are still to be explored, in the same way. Where a point is known to look for plans from,
/// they are looked for as at later boxes alone.
pub fn explore_on(
    alloc: Global,
    sought: &Sought,
    budget: u32,
    tree: Tree,
) -> Result<Explored, AllocError> {
    let ends = numbered(tree.nodes.len());
    let explorer = Explorer::new(alloc, sought, tree, ends)?;
    explorer.explored(sought.program, budget)
}

// Lets go of a value of whatever type: so no function is proved with all parts of what it lets go.
fn let_go<T: Drop>(_value: T) {}

impl<'a> Explorer<'a> {
    // A search in memory before its first box, where so many ends are left by an earlier one. What is large is made last, so that
    // little is let go where memory is wanting.
    fn new(
        alloc: Global,
        sought: &Sought<'a>,
        tree: Tree,
        ends: u32,
    ) -> Result<Explorer<'a>, AllocError> {
        let Sought {
            program,
            choices,
            given,
            start,
        } = *sought;
        let points = numbered(choices.root.len());
        let best = Kept::new(alloc, choices)?;
        let guide = PlanGuide::new(alloc, program, given, points)?;
        let starts = Starts::new(alloc, program, ends)?;
        let hinter = if ends == 0 {
            PlanHinter::new(alloc, program, given, points, start)?
        } else {
            PlanHinter::resumed(alloc, program, given, points, start, drawn_of(&tree))?
        };
        Ok(Explorer {
            alloc,
            choices,
            tree,
            guide,
            hinter,
            best,
            counted: 0,
            cap: i128::MAX,
            aims: Aims::after(ends),
            starts,
            bounded: 0,
            anew: 0,
        })
    }

    // What the search has come to once the tree counts so many boxes, or none is left.
    fn explored(mut self, program: &Program, budget: u32) -> Result<Explored, AllocError> {
        match self.look_on(program, budget) {
            Ok(()) => Ok(self.ended()),
            Err(error) => {
                let_go(self);
                Err(error)
            }
        }
    }

    // Explores boxes until the tree counts so many, or none is left.
    fn look_on(&mut self, program: &Program, budget: u32) -> Result<(), AllocError> {
        let index = RowIndex::new(self.alloc, program)?;
        self.look_by(program, &index, budget)
    }

    fn look_by(
        &mut self,
        program: &Program,
        index: &RowIndex,
        budget: u32,
    ) -> Result<(), AllocError>
        requires index { IsIndex program.now.rows index.now }
        requires lists { length index.now ≡ length program.now.root }
    {
        for looks in 0..budget.saturating_mul(MOST_LOOKS) {
            self.look_aside(program, index, looks)?;
            if self.counted >= budget || !self.step(program, index)? {
                break;
            }
        }
        Ok(())
    }

    // Where an aim is due after so many boxes, explores as many at most in a tree of its own, for a better plan.
    fn look_aside(
        &mut self,
        program: &Program,
        index: &RowIndex,
        looks: u32,
    ) -> Result<(), AllocError>
        requires index { IsIndex program.now.rows index.now }
        requires lists { length index.now ≡ length program.now.root }
    {
        let cap = self.cap;
        if !self.aims.is_due(looks, cap) {
            return Ok(());
        }
        let Some(best) = self.best.worth else {
            return Ok(());
        };
        if !self.aims.begin(best, cap) {
            return Ok(());
        }
        let aside = Tree::new(self.alloc, program)?;
        let tree = std::mem::replace(&mut self.tree, aside);
        let ended = self.go_aside(program, index, best, looks);
        let_go(std::mem::replace(&mut self.tree, tree));
        let gained = self.is_better_than(best);
        self.aims.end(gained);
        self.counted = self.tree.count(self.best.worth);
        ended
    }

    // Explores so many boxes at most, until a better plan is found, or none is left.
    fn go_aside(
        &mut self,
        program: &Program,
        index: &RowIndex,
        best: i128,
        boxes: u32,
    ) -> Result<(), AllocError>
        requires index { IsIndex program.now.rows index.now }
        requires lists { length index.now ≡ length program.now.root }
    {
        for _ in 0..boxes {
            if self.is_better_than(best) || !self.step(program, index)? {
                break;
            }
        }
        Ok(())
    }

    // Whether the best plan is worth more than so much.
    fn is_better_than(&self, worth: i128) -> bool {
        match self.best.worth {
            None => false,
            Some(best) => best > worth,
        }
    }

    // What a box is to exceed.
    fn floor(&self) -> Option<i128> {
        self.aims.floor_over(self.best.worth)
    }

    // The cap of a box.
    fn cap_at(&self, number: u32) -> i128 {
        match self.tree.nodes.get(number as usize) {
            None => i128::MAX,
            Some(node) => node.cap,
        }
    }

    // What the search has come to.
    fn ended(self) -> Explored {
        let Explorer {
            tree,
            guide,
            hinter,
            best,
            ..
        } = self;
        let_go(guide);
        let_go(hinter);
        Explored { tree, best }
    }

    // Explores the next box; false where none is left.
    fn step(&mut self, program: &Program, index: &RowIndex) -> Result<bool, AllocError>
        requires index { IsIndex program.now.rows index.now }
        requires lists { length index.now ≡ length program.now.root }
    {
        let floor = self.floor();
        let Some(number) = self.tree.next(floor) else {
            return Ok(false);
        };
        self.cap = self.cap_at(number);
        self.counted = self.counted.saturating_add(1);
        self.open(program, index, number)?;
        Ok(true)
    }

    // Cuts a box, and looks at it where it has points left.
    fn open(&mut self, program: &Program, index: &RowIndex, number: u32) -> Result<(), AllocError>
        requires index { IsIndex program.now.rows index.now }
        requires lists { length index.now ≡ length program.now.root }
    {
        let domains = self.tree.begin(self.alloc, number);
        let mut area = Area::new(self.alloc, program)?;
        put_domains(&mut area, domains.as_slice());
        let mut cuts = Vec::new(self.alloc);
        cut_by_index(self.alloc, program, index, &mut area, &mut cuts)?;
        if !area.has_empty() {
            self.look(program, &mut area, number)?;
        }
        Ok(())
    }

    // Looks at a box that has points after its cuts. With the first plan it is advised anew, since sums are split only with a plan.
    fn look(&mut self, program: &Program, area: &mut Area, number: u32) -> Result<(), AllocError>
        requires slots { length (present area.old) ≡ length program.now.root }
        requires each_open { All IsOpen (present area.old) }
    {
        let mut point = vec![in self.alloc; 0u8; program.root.len()]?;
        if is_chosen(self.choices, area) {
            self.hint(program, area, point.as_mut_slice());
            return Ok(());
        }
        let mut basis = self.tree.start_of(self.alloc, program, number)?;
        self.starts.begin(number, &mut basis);
        let mut advice = self.advised(program, area, &mut basis, point.as_mut_slice())?;
        if self.is_idle(program, area, number, &advice) {
            basis.clear();
            advice = self.advised(program, area, &mut basis, point.as_mut_slice())?;
        }
        self.starts.note(number, &basis);
        let has_plan = self.best.worth.is_some();
        self.hint(program, area, point.as_mut_slice());
        if !has_plan && self.best.worth.is_some() {
            basis.clear();
            advice = self.advised(program, area, &mut basis, point.as_mut_slice())?;
        }
        self.settle(program, area, number, advice, basis)
    }

    // Whether the bound of a box that stays open is to be made anew, from no basis: where it says no more than that of the split above
    // it. It may have ended where its basis has gone bad, and the boxes below would begin there, too.
    fn is_idle(&mut self, program: &Program, area: &Area, number: u32, advice: &Advice) -> bool
        requires slots { length (present area.now) ≡ length program.now.root }
    {
        self.bounded = self.bounded.saturating_add(1);
        if advice.slot.is_none() || self.anew >= self.bounded / SELDOM {
            return false;
        }
        let held = self.tree.cap_above(program, area, number);
        let is_idle = cap_of(program, area, &advice.cert) >= held;
        if is_idle {
            self.anew = self.anew.saturating_add(1);
        }
        is_idle
    }

    // What the guide advises on a box whose bound begins from a basis.
    fn advised(
        &mut self,
        program: &Program,
        area: &Area,
        basis: &mut Basis,
        point: &mut [u8],
    ) -> Result<Advice, AllocError>
        requires slots { length (present area.now) ≡ length program.now.root }
        requires places { length point.old ≡ length program.now.root }
        requires each_open { All IsOpen (present area.now) }
    {
        let floor = self.floor();
        self.guide
            .advise_from(self.alloc, program, area, basis, floor, point)
    }

    // Asks the hinter at a box. Where the plan is better, the boxes are counted anew.
    fn hint(&mut self, program: &Program, area: &Area, point: &mut [u8])
        requires slots { length (present area.now) ≡ length program.now.root }
        requires places { length point.old ≡ length program.now.root }
        requires each_open { All IsOpen (present area.now) }
    {
        if self.hinter.offer(program, area, point)
            && self.best.take(self.choices, chosen(self.choices, point))
        {
            self.counted = self.tree.count(self.best.worth);
        }
    }

    // Notes what is advised on a box, and splits it where its cap leaves something above the best plan.
    fn settle(
        &mut self,
        program: &Program,
        area: &mut Area,
        number: u32,
        advice: Advice,
        basis: Basis,
    ) -> Result<(), AllocError>
        requires slots { length (present area.old) ≡ length program.now.root }
    {
        let Advice { cert, slot, max } = advice;
        let held = self.tree.cap_above(program, area, number);
        let own = cap_of(program, area, &cert);
        if own < held {
            self.tree.put_cert(number, cert);
        }
        if !exceeds(own.min(held), self.floor()) {
            return Ok(());
        }
        self.forget(program, area, number, slot, max);
        match split_of(area, slot, max) {
            Some((slot, max)) => {
                self.tree.put_split(number, slot, Some(max), basis);
                self.split(program, area, number, slot, max)
            }
            None => Ok(()),
        }
    }

    // Takes away what the certificate of a box shows to be worth no more than the best plan, where that leaves the split where it is,
    // as the loop does.
    fn forget(
        &mut self,
        program: &Program,
        area: &mut Area,
        number: u32,
        slot: Option<u32>,
        max: Option<u8>,
    )
        requires slots { length (present area.old) ≡ length program.now.root }
        ensures slots { length (present area.new) ≡ length (present area.old) }
    {
        let Some(worth) = self.floor() else {
            return;
        };
        let mark = area.mark();
        let before = split_of(area, slot, max);
        self.tree.trim(program, area, number, worth);
        if !is_same(before, split_of(area, slot, max)) {
            back_to(area, mark);
        }
    }

    // Puts the parts of a box that is split at a slot after a value.
    fn split(
        &mut self,
        program: &Program,
        area: &mut Area,
        number: u32,
        slot: u32,
        max: u8,
    ) -> Result<(), AllocError>
        requires slots { length (present area.old) ≡ length program.now.root }
    {
        if slot >= area.slot_count() {
            return Ok(());
        }
        let mark = area.mark();
        area.at_most(slot, max);
        self.tree.put_part(self.alloc, program, area, number)?;
        back_to(area, mark);
        area.above(slot, max);
        self.tree.put_part(self.alloc, program, area, number)
    }
}

// A number that the boxes of a tree draw.
fn drawn_of(tree: &Tree) -> u32 {
    let mut drawn = 0u32;
    for node in &tree.nodes {
        drawn = drawn
            .wrapping_mul(31)
            .wrapping_add(node.depth)
            .wrapping_add(low_bits(node.cap));
    }
    drawn
}

// The last 32 bits of a number.
fn low_bits(number: i128) -> u32 {
    match u32::try_from(number & 0xFFFF_FFFF) {
        Ok(bits) => bits,
        Err(_) => 0,
    }
}

// Whether each slot that points have has one value in an area.
fn is_chosen(choices: &Program, area: &Area) -> bool {
    for slot in 0..choices.root.len() {
        if !is_single(domain_of(area, numbered(slot))) {
            return false;
        }
    }
    true
}

// The values of the slots that points have: the first of all.
fn chosen<'b>(choices: &Program, values: &'b [u8]) -> &'b [u8] {
    let slots = choices.root.len();
    if slots < values.len() {
        &values[..slots]
    } else {
        values
    }
}

// Where an area is split, as it is advised: at which slot, and after which value. Nowhere where some slot has no value, or each one.
fn split_of(area: &Area, slot: Option<u32>, max: Option<u8>) -> Option<(u32, u8)> {
    if area.has_empty() {
        return None;
    }
    match slot_of(area, slot) {
        Some(slot) if slot < area.slot_count() => Some((slot, max_of(&area.domain(slot), max))),
        _ => None,
    }
}

// Whether an area is split at two times, and both times there.
fn is_same(before: Option<(u32, u8)>, after: Option<(u32, u8)>) -> bool {
    match (before, after) {
        (Some((slot, max)), Some((other, value))) => slot == other && max == value,
        _ => false,
    }
}

// The slot that is split: the advised one where its domain has two values, else the first that has.
fn slot_of(area: &Area, advised: Option<u32>) -> Option<u32> {
    if let Some(slot) = advised {
        if has_two(area, slot) {
            return advised;
        }
    }
    for slot in 0..area.slot_count() {
        if has_two(area, slot) {
            return Some(slot);
        }
    }
    None
}

// The value after which a domain is split: the advised one where it may be split there, else that of any slot.
fn max_of(domain: &Domain, advised: Option<u8>) -> u8 {
    match advised {
        Some(max) if may_split(domain, max) => max,
        _ => split_value(domain),
    }
}

// Whether a slot is there, and its domain has two values or more.
fn has_two(area: &Area, slot: u32) -> bool {
    slot < area.slot_count() && area.domain(slot).count() >= 2
}

// Keeps the values of domains, one for each slot.
fn put_domains(area: &mut Area, domains: &[Domain])
    ensures { length (present area.new) ≡ length (present area.old) }
{
    for slot in 0..area.slot_count() {
        if let Some(domain) = domains.get(slot as usize) {
            if domain.lo >= 1 {
                area.keep(slot, domain.zero, domain.lo, domain.hi);
            }
        }
    }
}

// Goes back to a mark.
fn back_to(area: &mut Area, mark: u32)
    ensures { length (present area.new) ≡ length (present area.old) }
{
    if mark <= area.mark() {
        area.back(mark);
    }
}
