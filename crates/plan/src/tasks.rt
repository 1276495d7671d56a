// The tasks of a plan, a row for each.
ghost use Rattle.std.specs.Prelude.{◌≡◌};
ghost use Rattle.paper.specs.Tables as Tables;
ghost use Rattle.paper.specs.Tables.{plan_of};
ghost use Rattle.plan.specs.Tables.{source_of, task_of, task_rows};
ghost use Rattle.plan.specs.declared.tasks.Source.TheVariants.{Fed};

use crate::head::head_of;
use crate::tags::FED;
use crate::walker::{Walker, place};
use arrayvec::ArrayVec;
use limits::TASKS;
use stream::{ControllerNo, EventModel, TaskNo, Ticks};

// What activates a task: each completion of its feeder, or events of a stream from outside. (In this order a blank row is all zeros in
// memory, and a table is cleared in one go.)
#[derive(Clone, Copy, PartialEq, Eq)]
pub enum Source {
    Fed(TaskNo),
    Outside(EventModel),
}

// What the unused places of a table hold.
impl Default for Source {
    ghost is_default = { λ s. s ≡ Fed (record { 0 = 0 }) };

    // The source of a task that task 0 feeds.
    fn default() -> Self {
        Source::Fed(TaskNo(0))
    }
}

// A task: its controller, its priority (smaller is more urgent), C-, C+ and its source.
#[derive(Clone, Copy, PartialEq, Eq, Default)]
pub struct Task {
    pub controller: ControllerNo,
    pub priority: u64,
    pub least: Ticks,
    pub most: Ticks,
    pub source: Source,
}

impl Walker<'_> {
    // What feeds the task whose field is at the walker's place.
    #[tactic(auto, unfolding(paper::specs::Tables::source_at, paper::specs::Tables::stream_at))]
    fn source(self) -> Source
        ensures { source_of result ≡ Tables.source_at self.entry.plan.now self.entry.at }
    {
        if self.tag() == FED {
            return Source::Fed(TaskNo(self.number::<1>(13) as usize));
        }
        Source::Outside(EventModel {
            period: Ticks(self.number::<4>(13)),
            jitter: Ticks(self.number::<4>(17)),
        })
    }

    // The task itself.
    #[tactic(auto, unfolding(paper::specs::Tables::task_at))]
    fn task(self) -> Task
        ensures { task_of result ≡ Tables.task_at self.entry.plan.now self.entry.at }
    {
        Task {
            controller: ControllerNo(self.number::<1>(3) as usize),
            priority: self.number::<1>(4),
            least: Ticks(self.number::<4>(5)),
            most: Ticks(self.number::<4>(9)),
            source: self.source(),
        }
    }
}

// The tasks of the plan, as many as there is room for. (One generic function for these rows and those of the paths would
// have to ask that rows of any type fit in memory.)
pub fn task_rows(s: &[u8]) -> ArrayVec<Task, TASKS>
    ensures { result.items ≡ task_rows (plan_of s.now) }
{
    let count = head_of(s);
    let mut rows = ArrayVec::new();
    let mut at = place(s, 1 + count.controllers);
    for k in 0..count.tasks.min(TASKS) {
        let walker = Walker::placed(s, at);
        rows.push(walker.task());
        at = walker.next();
    }
    rows
}
