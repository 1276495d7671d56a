// What the programs share: reading standard input, and the answer to a plan as one line of text.
#![tactic(auto)]

mod failing;
mod input;
mod line;
mod text;

pub use failing::Why;
pub use input::{Cut, read_up_to};
pub use line::{LINE, answer_line, answer_line_and_sweep};
