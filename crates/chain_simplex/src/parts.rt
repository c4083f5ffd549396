//! The parts of a row of the kernel.
use crate::kernel::Kernel;
use fixed_point::{NOISE, ONE, at, magnitude, put};
use row_chains::Chains;
use simplex_state::{Columns, Extra, Features, State, Variables, Work, blank};

/// The rows of the kernel with what they count: those of the chains, and the one more of a trial.
#[derive(Clone, Copy)]
pub struct KernelRows<'a> {
    pub chains: &'a Chains,
    pub kernel: &'a Kernel,
    pub extra: &'a Extra,
}

/// Writes what the multipliers of basic variables come to for each feature, and for each row of the kernel; they are 0 afterwards.
/// For features, those of rows up to `noise` count as 0.
pub fn write_sums(rows: &KernelRows, noise: i64, work: &mut Work) {
    rows.kernel.solve_back(work.multipliers.as_mut_slice());
    let multipliers = work.multipliers.as_slice();
    add_sums(rows, multipliers, noise, &mut work.sums);
    rows.kernel.write_raw(multipliers, &mut work.raw);
    blank(work.multipliers.as_mut_slice());
}

// Adds what the rows of the kernel count of each feature, times their multipliers beyond `noise`.
fn add_sums(rows: &KernelRows, multipliers: &[i64], noise: i64, sums: &mut Features) {
    let KernelRows {
        chains,
        kernel,
        extra,
    } = *rows;
    for place in 0..kernel.count() {
        let multiplier = at(multipliers, place);
        if magnitude(multiplier) > noise {
            if kernel.row(place) == chains.count() {
                sums.add_parts(extra.parts.as_slice(), multiplier);
            } else {
                let (from, to) = kernel.span(chains, place);
                sums.add_parts(chains.by_row.between(from, to), multiplier);
            }
        }
    }
}

/// Writes the parts of the row of a basic variable, by its place.
pub fn write_row(
    rows: &KernelRows,
    columns: &Columns,
    own: &Variables,
    work: &mut Work,
    place: u32,
) {
    put(work.multipliers.as_mut_slice(), place, ONE);
    write_sums(rows, NOISE, work);
    list_parts(rows.kernel, columns, own, work);
}

/// Lists the parts that sums and multipliers come to, of the variables that stand at their ends; the sums are 0 afterwards.
pub fn list_parts(kernel: &Kernel, columns: &Columns, own: &Variables, work: &mut Work) {
    work.clear_parts();
    for place in 0..work.sums.listed().len() {
        let feature = listed_at(&work.sums, place);
        if work.sums.unmark(feature) {
            list_part(columns, own, work, feature & !1);
            list_part(columns, own, work, feature | 1);
        }
    }
    work.sums.clear();
    list_rows(kernel, own, work);
}

// The feature at a place of the list of sums.
#[inline(always)]
fn listed_at(sums: &Features, place: usize) -> u32 {
    match sums.listed().get(place) {
        None => 0,
        Some(feature) => *feature,
    }
}

// Lists the part of a variable of a slot.
#[inline(always)]
fn list_part(columns: &Columns, own: &Variables, work: &mut Work, variable: u32) {
    if own.is_at_end(variable) {
        let part = columns.part(variable, &work.sums);
        if magnitude(part) > NOISE {
            work.put_part(variable, part);
        }
    }
}

// Lists the parts of the variables of rows.
fn list_rows(kernel: &Kernel, own: &Variables, work: &mut Work) {
    for place in 0..kernel.count() {
        let part = at(work.raw.as_slice(), place);
        if magnitude(part) > NOISE {
            let variable = own.of_row(kernel.row(place));
            if own.state(variable) != State::Basic {
                work.put_part(variable, part);
            }
        }
    }
}

/// Adds so many units of a variable to a column by rows of the kernel.
pub fn scatter(
    rows: &KernelRows,
    columns: &Columns,
    own: &Variables,
    variable: u32,
    by: i64,
    column: &mut [i64],
) {
    if variable >= own.rows_from {
        let row = variable.saturating_sub(own.rows_from);
        scatter_slack(rows.kernel, row, by, column);
        return;
    }
    let units = columns.column(variable);
    if units.started != 0 {
        scatter_feature(rows, variable & !1, by, column);
    }
    if units.quanta != 0 {
        let by = fixed_point::scaled(by, units.quanta);
        scatter_feature(rows, variable | 1, by, column);
    }
}

// Adds so much of what a row has left.
fn scatter_slack(kernel: &Kernel, row: u32, by: i64, column: &mut [i64]) {
    let place = kernel.place(row);
    let less = 0i64.saturating_sub(by);
    crate::kernel::add(column, place, by);
    let after = fixed_point::place_at(kernel.after.as_slice(), place);
    crate::kernel::add(column, after, less);
    for joined in kernel.factored..kernel.count() {
        if kernel.before(joined) == place {
            crate::kernel::add(column, joined, less);
        }
    }
}

// Adds so much of a feature.
fn scatter_feature(rows: &KernelRows, feature: u32, by: i64, column: &mut [i64]) {
    let KernelRows {
        chains,
        kernel,
        extra,
    } = *rows;
    let parts = chains.by_feature.list(feature);
    for part in parts {
        let next = fixed_point::place_at(kernel.next.as_slice(), part.place);
        crate::kernel::add(column, next, fixed_point::times(part.value, by));
    }
    for joined in kernel.factored..kernel.count() {
        let change = if kernel.row(joined) == chains.count() {
            fixed_point::times(extra.at(feature), by)
        } else {
            let (from, to) = kernel.span(chains, joined);
            sum_between(parts, from, to, by)
        };
        crate::kernel::add(column, joined, change);
    }
}

// What parts at places from one on up to another come to, times a number.
#[inline(always)]
fn sum_between(parts: &[fixed_point::Part], from: u32, to: u32, by: i64) -> i64 {
    let mut sum = 0i64;
    for part in parts {
        if from <= part.place && part.place < to {
            sum = sum.saturating_add(fixed_point::times(part.value, by));
        }
    }
    sum
}
