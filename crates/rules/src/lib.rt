// Judging a plan: refusals 7 to 10 by its tables; and the part of the plan that holds a path's task numbers.
#![tactic(auto)]

mod asking;
mod faults;
mod judging;
mod refusals;

pub use asking::{path_part, path_place};
pub use judging::{judge, ruled};
