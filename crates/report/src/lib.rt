// The report: numbers, records and FF into the space that a caller lends.
#![tactic(auto)]

mod figures;
mod numbers;
mod records;
mod tags;
mod whole;

pub use figures::{PathFigures, TaskFigures};
pub use numbers::fill;
pub use whole::{length_of, write};
