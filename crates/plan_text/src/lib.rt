//! Plan text: the lines in which a plan is written, and read again.
//!
//! A plan text consists of lines that end with a line feed; the last line feed may be missing. A line
//! that begins with `#` is a comment. Every other line says the start of a batch: `PERIOD UNIT TASK
//! QUANTA` with single blanks between, the numbers in at most nine decimal digits without leading
//! zeros, and the unit and the task by name. `put_plan` appends the lines of a plan, in the order of the
//! plan, and `read_plan` gives the plan that a text says, or the first fault of the text.
#![tactic(auto)]

pub mod fault;
pub mod print;
pub mod read;

pub use fault::{
    BAD_LINE, MAX_BYTES, MAX_STARTS, NUMBER_LIMIT, PlanFault, PlanStop, SMALL_BYTES, SMALL_STARTS,
    TOO_LONG, TOO_MANY_LINES, UNKNOWN_NAME,
};
pub use print::put_plan;
pub use read::read_plan;
