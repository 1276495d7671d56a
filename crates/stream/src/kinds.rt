// "A count of events is never used as a tick, nor a task number as a controller number; each is a kind of its own."
ghost use Rattle.std.specs.Prelude.{◌≡◌, ◌-◌};

// A tick, or a length of time: "Time is whole ticks."
#[derive(Clone, Copy, PartialEq, Eq, PartialOrd, Ord, Default)]
pub struct Ticks(pub u64);

// A count of events, or of the jobs that events activate.
#[derive(Clone, Copy, PartialEq, Eq, PartialOrd, Ord, Default)]
pub struct Events(pub u64);

// The number of a task, counted from 0.
#[derive(Clone, Copy, PartialEq, Eq, PartialOrd, Ord, Default)]
pub struct TaskNo(pub usize);

// The number of a controller, counted from 0.
#[derive(Clone, Copy, PartialEq, Eq, PartialOrd, Ord, Default)]
pub struct ControllerNo(pub usize);

impl Ticks {
    // What is left of a length of time when another is taken from it: max(0, self - other).
    pub fn minus(self, other: Ticks) -> Ticks
        ensures { result.0 ≡ self.0 - other.0 }
    {
        Ticks(self.0.saturating_sub(other.0))
    }
}
