//! Numbers in fixed point, and lists that have their room before.
//!
//! Numbers have 64 bits, 30 of them for the fraction. It promises to be safe and to end, and of products and quotients their size.
#![tactic(auto)]

mod number;
mod reserved;

pub use number::{
    FEASIBLE, GROWTH, LEAST_PART, LEAST_PIVOT, NO_PROFIT, NOISE, ONE, TOP, less_times, magnitude,
    narrow, of_whole, quotient, scaled, sum, times, whole_of, wide,
};
pub use reserved::{NONE, Part, at, numbered, place_at, put, put_last, put_place, refill, span};
