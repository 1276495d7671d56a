// What C and Rust call: the answer to a plan, the question about a path, and how much room is enough.
#![tactic(auto)]

mod entries;

pub use entries::{late_answer, late_path, late_report_bytes};
