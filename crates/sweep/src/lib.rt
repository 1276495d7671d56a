// The sweeps of document 01: input streams along the chains, one sweep, all sweeps. Rows that a function makes are put one by one:
// one generic function for all of them would have to ask that rows of any type fit in memory. The tasks and a set of bounds are two
// parameters and no struct: each sweep has another set, of the same tasks.
#![tactic(auto)]

mod all;
mod chains;
mod once;
mod rivals;

pub use all::settle;
pub use chains::periods;
pub use once::{Figure, Left};
