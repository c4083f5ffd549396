//! A search that goes on at boxes of a proof that stands.
ghost use Rattle.std.specs.Prelude.{◌≡◌, ℕ, ◌≤◌, ◌<◌, ◌*◌, length, map, IfOk, OnOk, OnErr, IsErrOf, false};
ghost use Rattle.std.specs.List.{sum_by};
ghost use Rattle.row_kit.specs.Area.{present};
ghost use Rattle.proof_tree.specs.Taker.{Rose};
ghost use Rattle.row_relax.specs.declared.rows.Rows.{Rows};
ghost use Rattle.row_relax.specs.View.{Fits, view_of};
ghost use Rattle.branch_tree.specs.Deep.{is_deep};
ghost use Rattle.branch_tree.specs.Searched.{IsSearchable};
ghost use Rattle.branch_tree.specs.Splits.{splits_of};
ghost use Rattle.branch_tree.specs.laws.Going.{CanGoOn, HandsBox, HasLeft};
ghost use Rattle.branch_tree.specs.laws.Grounds.{program_of, rows_of, seen};
ghost use Rattle.branch_tree.specs.laws.Stops.{BoxStopped};

use crate::advisers::SearchAdvisers;
use crate::box_place::BoxPlace;
use crate::boxes::search_box;
use crate::found::{better, is_chosen, tested};
use crate::picking::splits_of;
use crate::reached::{Ground, Reached};
use box_advice::{Guide, Hinter};
use proof_tree::{Capped, NodeTaker, TakeStop};
use range_prop::RowIndex;
use row_kit::{Area, Found, worth};
use row_relax::{Rows, choices_of, put_values};
use std::alloc::{AllocError, Global};

/// A search that goes on at boxes of a proof that stands, one after another: it keeps its count and its best point from one to the next.
#[derive(Drop)]
pub struct GoingOn<'a> {
    pub(crate) ground: Ground<'a>,
    pub(crate) reached: Reached,
}

// How many splits can stand one below another in an area.
fn splits_in(area: &Area) -> u64
    ensures count { result ≡ sum_by splits_of (present area.now) }
    ensures few { result ≤ 4294967295 * 4294967295 }
{
    let mut splits = 0u64;
    for slot in 0..area.slot_count() {
        splits += u64::from(splits_of(area.domain(slot)));
    }
    splits
}

/// Whether an area stands below so many splits that with those which its domains allow there could be more than the most.
pub fn is_deep(area: &Area, depth: u32, most: u32) -> bool
    ensures { result ≡ is_deep most depth (seen area.now) }
{
    u64::from(most) < u64::from(depth) + splits_in(area)
}

// Whether a worth is above that of a point, or there is none.
fn is_more(worth: i128, best: &Option<Found>) -> bool {
    match best {
        Some(found) => found.value < worth,
        None => true,
    }
}

impl<'a> GoingOn<'a> {
    /// A search before its first box, which counts at most so many boxes and knows this point. At most `most` splits stand one below
    /// another. Slots from the number `given` on are sums; splits have floors only where `floors` says so. It takes memory for the rows
    /// of each slot.
    pub fn new(
        alloc: Global,
        rows: &'a Rows,
        most: u32,
        given: u32,
        floors: bool,
        budget: u32,
        best: Option<Found>,
    ) -> Result<GoingOn<'a>, AllocError>
        requires searchable { IsSearchable most rows.now.program }
        ensures can { IfOk result (CanGoOn most rows.now) }
    {
        let point = vec![in alloc; 0u8; rows.program.root.len()]?;
        Ok(GoingOn {
            ground: Ground {
                alloc,
                rows,
                index: RowIndex::new(alloc, &rows.program)?,
                most,
                given,
                floors,
                budget,
                may_leave: true,
            },
            reached: Reached {
                depth: 0,
                spent: 0,
                best,
                own: None,
                changed: None,
                held: None,
                point,
            },
        })
    }

    /// How many boxes may still be counted.
    pub fn left(&self) -> u32
        ensures { 0 < result → HasLeft self.now }
    {
        self.ground.budget.saturating_sub(self.reached.spent)
    }

    /// The best point so far, if one is known.
    pub fn best(&self) -> &Option<Found> {
        &self.reached.best
    }

    /// Keeps a point as the best one, where it is lawful and worth more. It takes memory for the point.
    pub fn offer(&mut self, point: &[u8]) -> Result<(), AllocError>
        ensures { OnOk result ((most : ℕ) (rows : Rows) → CanGoOn most rows self.old
            → CanGoOn most rows self.new) }
    {
        let found = tested(self.ground.alloc, choices_of(self.ground.rows), point)?;
        self.reached.best = better(self.reached.best.take(), found);
        Ok(())
    }

    /// Keeps the only point of an area as the best one, where each slot that points have has one value there, and the point is lawful
    /// and worth more. It takes memory for the point.
    pub fn settle(&mut self, area: &Area) -> Result<(), AllocError>
        requires can { (most : ℕ) × ((rows : Rows) × CanGoOn most rows self.old) }
        requires slots { length (present area.now) ≡ length (program_of self.old.ground).root }
        ensures { OnOk result ((most : ℕ) (rows : Rows) → CanGoOn most rows self.old
            → CanGoOn most rows self.new) }
    {
        if !is_chosen(&self.ground, area) {
            return Ok(());
        }
        put_values(area, area.slot_count(), &mut self.reached.point);
        let choices = choices_of(self.ground.rows);
        let point = self.ground.rows.chosen(self.reached.point.as_slice());
        if point.len() == choices.root.len() && is_more(worth(choices, point), &self.reached.best) {
            let found = tested(self.ground.alloc, choices, point)?;
            self.reached.best = better(self.reached.best.take(), found);
        }
        Ok(())
    }

    /// Allows a box more to be counted: that of an end which a proof counts already, and which is searched on.
    pub fn count_again(&mut self)
        ensures can { (most : ℕ) (rows : Rows) → CanGoOn most rows self.old
            → CanGoOn most rows self.new }
        ensures left { HasLeft self.old → HasLeft self.new }
    {
        self.ground.budget = self.ground.budget.saturating_add(1);
    }

    /// Searches a box that stands at this place, as a search does that has come to it. The area is afterwards as before, and the
    /// taker took the items of a proof of the box. After an error it is not used again.
    pub fn search<H: Hinter, G: Guide, O, T: NodeTaker<Rows, O>>(
        &mut self,
        area: &mut Area,
        place: BoxPlace,
        hinter: &mut H,
        guide: &mut G,
        taker: &mut T,
        out: &mut O,
    ) -> Result<Capped, TakeStop>
        requires can { (most : ℕ) × ((rows : Rows) × CanGoOn most rows self.old) }
        requires fits { Fits (program_of self.old.ground) (seen area.old) }
        requires deep { is_deep self.old.ground.most place.depth (seen area.old) ≡ false }
        requires room { HasLeft self.old }
        requires ready { T.ready taker.old out.old }
        ensures can { OnOk result ((most : ℕ) (rows : Rows) → CanGoOn most rows self.old
            → CanGoOn most rows self.new) }
        ensures as_before { OnOk result (map view_of area.new ≡ map view_of area.old) }
        ensures ready { OnOk result (T.ready taker.new out.new) }
        ensures handed { IfOk result (λ cap. HandsBox T.took self.old place (seen area.old) cap
            taker.old out.old self.new taker.new out.new) }
        ensures err { OnErr result (BoxStopped T.took T.broke (rows_of self.old.ground)
            self.old.ground.floors (seen area.old) taker.old out.old taker.new out.new) }
        ensures later { T.faults out.old ≤ T.faults out.new }
        ensures failed { IsErrOf result TakeStop.Failed
            → Rose (T.faults out.old) (T.faults out.new) }
    {
        let BoxPlace { depth, held } = place;
        self.reached.depth = depth;
        self.reached.held = Some(held);
        self.reached.changed = None;
        let mut advisers = SearchAdvisers { hinter, guide };
        search_box(
            &self.ground,
            area,
            &mut self.reached,
            &mut advisers,
            taker,
            out,
        )
    }
}
