//! Rows that join the kernel.
use crate::kernel::Kernel;
use fixed_point::{NONE, ONE};
use row_chains::Chains;
use simplex_state::{Columns, Extra, Features, State, Variables, Work};

/// Brings a row into the kernel, whose variable is basic; its place.
pub fn append(
    chains: &Chains,
    kernel: &mut Kernel,
    extra: &Extra,
    columns: &Columns,
    own: &mut Variables,
    work: &mut Work,
    row: u32,
) -> u32 {
    let is_extra = row == chains.count();
    let before = if is_extra {
        NONE
    } else {
        kernel.last_before(chains, row)
    };
    let place = kernel.count();
    let variable = own.of_row(row);
    kernel.put_row(row, before, variable);
    own.set_place(variable, place);
    work.add_place();
    if is_extra {
        work.sums.add_whole(extra.parts.as_slice());
    } else {
        let (from, to) = kernel.span(chains, place);
        work.sums.add_whole(chains.by_row.between(from, to));
    }
    put_parts(kernel, columns, own, &mut work.sums);
    put_before(kernel, own, before);
    kernel.etas.close(place, true, ONE);
    place
}

// Puts the parts of the basic variables of slots; the sums are 0 afterwards.
fn put_parts(kernel: &mut Kernel, columns: &Columns, own: &Variables, sums: &mut Features) {
    for place in 0..sums.listed().len() {
        let feature = feature_at(sums, place);
        if sums.unmark(feature) {
            put_part(kernel, columns, own, sums, feature & !1);
            put_part(kernel, columns, own, sums, feature | 1);
        }
    }
    sums.clear();
}

// The feature at a place of the list of sums.
#[inline(always)]
fn feature_at(sums: &Features, place: usize) -> u32 {
    match sums.listed().get(place) {
        None => 0,
        Some(feature) => *feature,
    }
}

// Puts the part of a variable of a slot where it is basic.
fn put_part(
    kernel: &mut Kernel,
    columns: &Columns,
    own: &Variables,
    sums: &Features,
    variable: u32,
) {
    if own.state(variable) == State::Basic {
        let part = columns.part(variable, sums);
        if part != 0 {
            kernel.etas.put_part(own.place(variable), part);
        }
    }
}

// Puts the part of the variable of the row before where it is basic.
fn put_before(kernel: &mut Kernel, own: &Variables, before: u32) {
    if before != NONE {
        let variable = own.of_row(kernel.row(before));
        if own.state(variable) == State::Basic {
            kernel.etas.put_part(own.place(variable), -ONE);
        }
    }
}
