// The entry: plan bytes and report space to the answer.
#![tactic(auto)]

mod along;
mod answers;
mod entry;
mod figures;

pub use answers::{Accepted, Answer, Numbers, Refusal};
pub use entry::answer;
