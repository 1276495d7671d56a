// Along the chains: each task's period, and its input stream.
ghost use Rattle.std.specs.Prelude.{◌≡◌, ◌<◌};
ghost use Rattle.paper.specs.Tables.{Plan};
ghost use Rattle.paper.specs.Load as Load;
ghost use Rattle.paper.specs.Sets.{inputs};
ghost use Rattle.sweep.specs.Rows.{per_task, period_of, stream_row, bounds_of};
ghost use Rattle.sweep.specs.Planned.{Planned, Bounding, Filling, Filled};

use crate::once::Figure;
use arrayvec::ArrayVec;
use limits::TASKS;
use plan::{Source, Task};
use stream::{EventModel, TaskNo, Ticks};

// A task's period: that of its events, or its feeder's. It asks for no set of bounds, as the input stream does.
fn period_of(tasks: &[Task], task: TaskNo) -> Ticks
    requires { (p : Plan) × Planned p tasks.now × (task.0 < p.tasks) }
    ensures { (p : Plan) → Planned p tasks.now → task.0 < p.tasks → result ≡ period_of p task.0 }
{
    match tasks[task.0].source {
        Source::Outside(start) => start.period,
        Source::Fed(feeder) => period_of(tasks, feeder),
    }
}

// Every task's period. (By number: a chain goes from number to number.)
pub fn periods(tasks: &[Task]) -> ArrayVec<Ticks, TASKS>
    requires { (p : Plan) × Planned p tasks.now }
    ensures { (p : Plan) → Planned p tasks.now → result.items ≡ per_task p (period_of p) }
{
    let mut periods = ArrayVec::new();
    for k in 0..tasks.len() {
        periods.push(period_of(tasks, TaskNo(k)));
    }
    periods
}

// Puts a task's input stream in its place, and its feeder's before it. (A period of 0 is that of no stream: so far none stands in that
// place. So each stream is worked out once, in whatever order the chains go.)
fn fill(tasks: &[Task], set: &[Figure], streams: &mut [EventModel], task: TaskNo)
    requires { (p : Plan) × Bounding p tasks.now set.now × Filling p (inputs p (bounds_of set.now)) streams.old × (task.0 < p.tasks) }
    ensures { (p : Plan) → Bounding p tasks.now set.now → Filling p (inputs p (bounds_of set.now)) streams.old → task.0 < p.tasks
        → Filled p (inputs p (bounds_of set.now)) task.0 streams.old streams.new }
{
    if streams[task.0].period.0 != 0 {
        return;
    }
    match tasks[task.0].source {
        Source::Outside(start) => streams[task.0] = start,
        Source::Fed(feeder) => {
            fill(tasks, set, streams, feeder);
            let delay = set[feeder.0].bound.minus(tasks[feeder.0].least);
            streams[task.0] = streams[feeder.0].delayed(delay);
        }
    }
}

// Every task's input stream under a set of bounds. (By number: a chain goes from number to number.)
pub(crate) fn inputs(tasks: &[Task], set: &[Figure]) -> ArrayVec<EventModel, TASKS>
    requires { (p : Plan) × Bounding p tasks.now set.now }
    ensures { (p : Plan) → Bounding p tasks.now set.now
        → result.items ≡ per_task p (stream_row (inputs p (bounds_of set.now))) }
{
    let mut streams = ArrayVec::new();
    for _ in tasks {
        streams.push(EventModel::default());
    }
    for k in 0..tasks.len() {
        fill(tasks, set, &mut streams, TaskNo(k));
    }
    streams
}
