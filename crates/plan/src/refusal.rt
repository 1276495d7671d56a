// What a judge refuses, and where.
ghost use Rattle.std.specs.Prelude.{◌≤◌, ◌≡◌, cond, Ok, Err};
ghost use Rattle.plan.specs.Judged.{number_of, place_of};

use stream::{ControllerNo, TaskNo};

// The refusals that reading and the tables give, each with its place: a byte of the plan, a task, a path or a controller.
#[derive(Clone, Copy, PartialEq, Eq)]
pub enum Refusal {
    // 1: the plan is too long.
    TooLong,
    // 2: the field is not all there.
    Cut { at: usize },
    // 3: the tag is another one.
    WrongTag { at: usize },
    // 4: the length is not one of the tag's.
    WrongLength { at: usize },
    // 5: "a value outside its range".
    OutOfRange { at: usize },
    // 6: bytes after the last field.
    MoreBytes { at: usize },
    // 7: "two tasks on one controller share a priority".
    SharedPriority { task: TaskNo },
    // 8: "going back from feeder to feeder never reaches a 20".
    NoStart { task: TaskNo },
    // 9: "a path's task is not fed by the one before it".
    NotFed { path: usize },
    // 10: "more than 16 tasks on a controller".
    Crowded { controller: ControllerNo },
}

// Nothing against it where a test holds, and else what refuses it, of whatever kind. (`test.then_some(()).ok_or(refusal)` is no plainer.)
pub fn unless<E: Drop>(test: bool, refusal: E) -> Result<(), E>
    ensures { result ≡ cond test (Ok tt) (Err refusal) }
{
    if test { Ok(()) } else { Err(refusal) }
}

impl Refusal {
    // The number that the document gives it.
    pub fn number(self) -> u64
        ensures { (result ≡ number_of self) × (1 ≤ result) × (result ≤ 10) }
    {
        match self {
            Refusal::TooLong => 1,
            Refusal::Cut { .. } => 2,
            Refusal::WrongTag { .. } => 3,
            Refusal::WrongLength { .. } => 4,
            Refusal::OutOfRange { .. } => 5,
            Refusal::MoreBytes { .. } => 6,
            Refusal::SharedPriority { .. } => 7,
            Refusal::NoStart { .. } => 8,
            Refusal::NotFed { .. } => 9,
            Refusal::Crowded { .. } => 10,
        }
    }

    // Its place, 0 for the one that has none.
    pub fn place(self) -> usize
        ensures { result ≡ place_of self }
    {
        match self {
            Refusal::TooLong => 0,
            Refusal::Cut { at }
            | Refusal::WrongTag { at }
            | Refusal::WrongLength { at }
            | Refusal::OutOfRange { at }
            | Refusal::MoreBytes { at } => at,
            Refusal::SharedPriority { task } | Refusal::NoStart { task } => task.0,
            Refusal::NotFed { path } => path,
            Refusal::Crowded { controller } => controller.0,
        }
    }
}
