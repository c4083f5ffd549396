//! Domains, sparse rows and areas: a constraint model over whole numbers from 0 to 255, which knows no plant.
//!
//! A `Program` keeps the bounds of its numbers by its type, so that no sum over it leaves 128 bits. An `Area` holds one domain
//! for each slot and remembers earlier domains at numbered marks, without memory beyond what it is made with. `value`, `worth`
//! and `is_lawful` say of a point what it is worth, and whether it lies in the root and keeps every row.
#![tactic(auto)]

mod area;
mod bounds;
mod changeover;
mod counts;
mod domain;
mod former;
mod found;
mod gather;
mod limits;
mod list;
mod point;
mod program;
mod row;
mod trail;

pub use area::Area;
pub use domain::Domain;
// A crate can name an area in a contract only if the types of its fields are exported.
pub use changeover::worth;
#[doc(hidden)]
pub use former::Former;
pub use found::Found;
pub use gather::entries_of;
pub use limits::{
    MOST_BASE, MOST_CHANGE_COST, MOST_LIMIT, MOST_OPENING, MOST_PROFIT_ENTRY, MOST_ROW_ENTRY,
    MOST_ROWS, MOST_SLOTS,
};
pub use list::List;
pub use point::{is_lawful, lies_in, value};
pub use program::Program;
pub use row::{Change, Entry, Row, Tag};
