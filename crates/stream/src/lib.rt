// What every later crate counts and measures with: the kinds of number, and the event models of streams.
#![tactic(auto)]

mod kinds;
mod model;

pub use kinds::{ControllerNo, Events, TaskNo, Ticks};
pub use model::EventModel;
