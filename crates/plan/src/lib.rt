// Reading a plan: any bytes to the tables, or a refusal.
#![tactic(auto)]

mod bytes;
mod fields;
mod head;
mod paths;
mod reading;
mod refusal;
mod tags;
mod tasks;
mod values;
mod walker;

pub use bytes::number_at;
pub use head::{Head, head_of};
pub use paths::{Part, Path, part_of, path_rows};
pub use reading::read;
pub use refusal::{Refusal, unless};
pub use tasks::{Source, Task, task_rows};
