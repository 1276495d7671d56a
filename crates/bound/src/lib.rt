// One task's bound by document 01: the interference of its rivals, its windows, the jobs looked at, and R+ within limits.
#![tactic(auto)]

mod jobs;
mod response;
mod rivals;
mod setting;
mod window;

pub use response::{Worked, work_out};
pub use setting::{Own, Rival};
