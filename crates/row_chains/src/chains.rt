//! The rows of a program in chains.
use crate::differences::{given_entries, next_change, steps, walk_between};
use crate::limits::most_left;
use crate::ordering::{Order, order_of};
use crate::scales::{first, greatest_bits};
use crate::sums::SumRows;
use crate::tables::Table;
use fixed_point::{NONE, at, numbered, of_whole, place_at, put, put_place};
use row_kit::{Domain, Entry, Program, Row};
use std::alloc::{AllocError, Global};

/// The rows of a program as differences. A chain is rows that stand one after another; each but the first is told by how it differs
/// from the one before. Feature `2 j` is how far slot j is started, and `2 j + 1` its quanta.
///
/// Only rows that a point of the root may break are there, and all those of sums; and slots of sums have no parts.
#[derive(Drop)]
pub struct Chains {
    /// The rows of the sums.
    pub sums: SumRows,
    /// How many slots have features: those before the ones of sums, or where slots of setups follow all, those of sums without parts.
    pub slots: u32,
    /// For each place the program's row.
    pub rows: Vec<u32>,
    /// For each of the program's rows its place; `NONE` where it is not there.
    pub places: Vec<u32>,
    /// For each place the first one of its chain.
    pub first: Vec<u32>,
    /// For each place the end of its chain, the first place after it.
    pub end: Vec<u32>,
    /// For each place the power of two that its entries are divided by: one for a chain, so that its greatest entry comes to 1 to 2
    /// over the root.
    pub downs: Vec<u32>,
    /// For each place the most that its row may have left at the root, divided likewise.
    pub most_left: Vec<i64>,
    /// The power of two that profits are raised by: the greatest comes to 128 to 256.
    pub up: i32,
    /// For each place how it differs from the one before, by feature.
    pub by_row: Table,
    /// The same for each feature, by place.
    pub by_feature: Table,
}

impl Chains {
    /// The chains of a program, of which the slots from `given` on and before `points` are those of sums.
    pub fn new(
        alloc: Global,
        program: &Program,
        given: u32,
        points: u32,
    ) -> Result<Chains, AllocError> {
        let rows = program.rows.as_slice();
        let sums = sums_of(program, given, points);
        let root = first(program.root.as_slice(), slot_count(program, &sums));
        let order = order_of(alloc, program, &sums)?;
        let end = ends_of(alloc, order.first.as_slice())?;
        let downs = downs_of(alloc, rows, root, &order, &sums)?;
        let whole = program.root.as_slice();
        let most_left = lefts_of(alloc, rows, whole, &order, downs.as_slice())?;
        let by_row = differences_of(alloc, rows, &order, downs.as_slice(), &sums)?;
        let by_feature = by_row.turned(alloc, root.len().saturating_mul(2))?;
        let places = places_of(alloc, order.rows.as_slice(), rows.len())?;
        let bits = greatest_bits(program.profit.as_slice(), root);
        let Order { rows, first } = order;
        Ok(Chains {
            sums,
            slots: numbered(root.len()),
            rows,
            places,
            first,
            end,
            downs,
            most_left,
            up: 7 - bits as i32,
            by_row,
            by_feature,
        })
    }

    /// How many rows there are.
    pub fn count(&self) -> u32 {
        numbered(self.rows.len())
    }

    /// The program's row of a place.
    pub fn row_at(&self, place: u32) -> u32 {
        place_at(self.rows.as_slice(), place)
    }

    /// The place of a row of the program.
    pub fn place_of(&self, row: u32) -> u32 {
        place_at(self.places.as_slice(), row)
    }

    /// The first place of the chain of a place.
    pub fn first_at(&self, place: u32) -> u32 {
        place_at(self.first.as_slice(), place)
    }

    /// The end of the chain of a place.
    pub fn end_at(&self, place: u32) -> u32 {
        place_at(self.end.as_slice(), place)
    }

    /// The most that the row of a place may have left at the root.
    pub fn most_left_at(&self, place: u32) -> i64 {
        at(self.most_left.as_slice(), place)
    }

    /// The power of two that the entries of a place are divided by, turned to its opposite; 0 where there is no such place.
    pub fn shift_at(&self, place: u32) -> i32 {
        match self.downs.get(place as usize) {
            None => 0,
            Some(down) => 0i32.saturating_sub_unsigned(*down),
        }
    }
}

// The sums of a program, whose slots are there.
fn sums_of(program: &Program, given: u32, points: u32) -> SumRows {
    let slots = numbered(program.root.len());
    SumRows::new(program, given.min(slots), points.min(slots))
}

// How many slots have features.
fn slot_count(program: &Program, sums: &SumRows) -> u32 {
    let slots = numbered(program.root.len());
    if sums.points < slots {
        slots
    } else {
        sums.given
    }
}

// For each place the end of its chain.
fn ends_of(alloc: Global, first: &[u32]) -> Result<Vec<u32>, AllocError> {
    let count = first.len();
    let mut ends = vec![in alloc; numbered(count); count]?;
    let mut end = numbered(count);
    for back in 0..count {
        let place = numbered(count - 1 - back);
        put_place(ends.as_mut_slice(), place, end);
        if place_at(first, place) == place {
            end = place;
        }
    }
    Ok(ends)
}

// The places of the program's rows.
fn places_of(alloc: Global, order: &[u32], rows: usize) -> Result<Vec<u32>, AllocError> {
    let mut places = vec![in alloc; NONE; rows]?;
    for place in 0..order.len() {
        put_place(places.as_mut_slice(), order[place], numbered(place));
    }
    Ok(places)
}

// The scale of each place: the greatest of its chain.
fn downs_of(
    alloc: Global,
    rows: &[Row],
    root: &[Domain],
    order: &Order,
    sums: &SumRows,
) -> Result<Vec<u32>, AllocError> {
    let mut greatest = vec![in alloc; 0u32; order.rows.len()]?;
    for place in 0..order.rows.len() {
        let place = numbered(place);
        let bits = greatest_bits(entries_at(rows, order, place, sums), root);
        let first = place_at(order.first.as_slice(), place);
        let other = place_at(greatest.as_slice(), first);
        put_place(greatest.as_mut_slice(), first, other.max(bits));
    }
    for place in 0..order.rows.len() {
        let first = place_at(order.first.as_slice(), numbered(place));
        let own = place_at(greatest.as_slice(), first);
        put_place(greatest.as_mut_slice(), numbered(place), own);
    }
    Ok(greatest)
}

// The most that the row of each place may have left over domains.
fn lefts_of(
    alloc: Global,
    rows: &[Row],
    domains: &[Domain],
    order: &Order,
    downs: &[u32],
) -> Result<Vec<i64>, AllocError> {
    let mut lefts = vec![in alloc; 0i64; order.rows.len()]?;
    for place in 0..order.rows.len() {
        let place = numbered(place);
        if let Some(row) = rows.get(place_at(order.rows.as_slice(), place) as usize) {
            let shift = 0i32.saturating_sub_unsigned(place_at(downs, place));
            let left = of_whole(&most_left(row, domains), shift);
            put(lefts.as_mut_slice(), place, left);
        }
    }
    Ok(lefts)
}

// The entries of the row of a place.
fn entries_at<'a>(rows: &'a [Row], order: &Order, place: u32, sums: &SumRows) -> &'a [Entry] {
    given_entries(rows, place_at(order.rows.as_slice(), place), sums)
}

// How each place differs from the one before.
fn differences_of(
    alloc: Global,
    rows: &[Row],
    order: &Order,
    downs: &[u32],
    sums: &SumRows,
) -> Result<Table, AllocError> {
    let mut table = Table::new(alloc)?;
    for place in 0..order.rows.len() {
        let place = numbered(place);
        let to = entries_at(rows, order, place, sums);
        let from = if place_at(order.first.as_slice(), place) == place {
            &[]
        } else {
            entries_at(rows, order, place.saturating_sub(1), sums)
        };
        let shift = 0i32.saturating_sub_unsigned(place_at(downs, place));
        put_differences(&mut table, from, to, shift)?;
    }
    Ok(table)
}

// Puts how a row differs from the one before.
fn put_differences(
    table: &mut Table,
    from: &[Entry],
    to: &[Entry],
    shift: i32,
) -> Result<(), AllocError> {
    let mut walk = walk_between(from, to);
    for _ in 0..steps(&walk) {
        if let Some(change) = next_change(&mut walk) {
            let feature = change.slot.saturating_mul(2);
            put_part(table, feature, change.fixed, shift)?;
            put_part(table, feature.saturating_add(1), change.per, shift)?;
        }
    }
    table.close()
}

// Puts the part of a feature, unless it is 0.
fn put_part(table: &mut Table, feature: u32, part: i64, shift: i32) -> Result<(), AllocError> {
    if part == 0 {
        return Ok(());
    }
    table.put(feature, of_whole(&i128::from(part), shift))
}
