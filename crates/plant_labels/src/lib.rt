//! What a plant says for those who look at a plan: the names of what it has, what the clock shows at each time of a plant with a
//! calendar, and the law that no plan depends on labels, colours and the calendar.
#![tactic(auto)]

mod clock;
mod law;
mod names;

pub use clock::{moment_at, push_day, push_hour, push_moment};
pub use law::{clock_law, label_law};
pub use names::{state_name, task_name, unit_name, utility_name};
