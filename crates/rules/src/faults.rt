// What is wrong at a number, by the tables: refusals 7 to 10 as tests.
ghost use Rattle.std.specs.Prelude.{◌<◌, ◌≡◌, ◌&&◌, cond, eqb, length, slice_index_or};
ghost use Rattle.plan.specs.Tables.{blank, source_of};
ghost use Rattle.rules.specs.Faults as Faults;
ghost use Rattle.rules.specs.Rows as Rows;
ghost use Rattle.rules.specs.Rows.{feeder_of, controller_in, priority_in, fed_in, feeder_in, FeedersIn, StepsIn, IsPart, part_in};

use limits::SHARING;
use plan::{Path, Source, Task, part_of};
use stream::{ControllerNo, TaskNo};

// The row of a task.
fn row(tasks: &[Task], task: TaskNo) -> &Task
    requires { task.0 < length tasks.now }
    ensures { result.now ≡ slice_index_or tasks.now task.0 blank }
{
    &tasks[task.0]
}

// 7: whether a task shares its controller and its priority with a lower-numbered one.
pub(crate) fn shares(tasks: &[Task], task: TaskNo) -> bool
    requires { task.0 < length tasks.now }
    ensures { result ≡ Faults.shares (controller_in tasks.now) (priority_in tasks.now) task.0 }
{
    let own = row(tasks, task);
    tasks[..task.0].iter().any(|t| t.controller == own.controller && t.priority == own.priority)
}

// The task one step back from a task and its row: the feeder of a fed task, the task itself where it is fed from outside.
fn one_back(row: &Task, task: TaskNo) -> TaskNo
    ensures { result.0 ≡ cond (Rows.is_fed (source_of row.now.source)) (feeder_of (source_of row.now.source)) task.0 }
{
    match row.source {
        Source::Fed(feeder) => feeder,
        Source::Outside(_) => task,
    }
}

// Whether the task of a row is fed by any other.
fn is_fed(row: &Task) -> bool
    ensures { result ≡ Rows.is_fed (source_of row.now.source) }
{
    matches!(row.source, Source::Fed(_))
}

// Whether the task of a row is fed by another one.
fn fed_by(row: &Task, before: TaskNo) -> bool
    ensures { result ≡ Rows.is_fed (source_of row.now.source) && eqb (feeder_of (source_of row.now.source)) before.0 }
{
    row.source == Source::Fed(before)
}

// 8: whether as many steps back as there are tasks still end at a fed task.
pub(crate) fn endless(tasks: &[Task], task: TaskNo) -> bool
    requires { (task.0 < length tasks.now) × FeedersIn tasks.now }
    ensures { result ≡ Faults.endless (fed_in tasks.now) (feeder_in tasks.now) (length tasks.now) task.0 }
{
    let mut k = task;
    for m in 0..tasks.len() {
        let here = row(tasks, k);
        // From a task that is fed from outside all the steps that are left stay there.
        if !is_fed(here) {
            return false;
        }
        k = one_back(here, k);
    }
    let last = row(tasks, k);
    is_fed(last)
}

// Whether a task of a path, given by its numbers, is not fed by the one before it.
fn unlinked(tasks: &[Task], path: &[u8]) -> bool
    requires { StepsIn path.now (length tasks.now) }
    ensures { result ≡ Faults.broken (fed_in tasks.now) (feeder_in tasks.now) path.now }
{
    for pair in path.windows(2) {
        let before = TaskNo(usize::from(pair[0]));
        let task = TaskNo(usize::from(pair[1]));
        if !fed_by(row(tasks, task), before) {
            return true;
        }
    }
    false
}

// 9: whether a task of a path is not fed by the one before it.
pub(crate) fn broken(tasks: &[Task], s: &[u8], path: &Path) -> bool
    requires { IsPart s.now (length tasks.now) path.now }
    ensures { result ≡ Faults.broken (fed_in tasks.now) (feeder_in tasks.now) (part_in s.now path.now) }
{
    unlinked(tasks, part_of(s, path.part))
}

// 10: whether a controller has more tasks than are allowed.
pub(crate) fn crowded(tasks: &[Task], own: ControllerNo) -> bool
    ensures { result ≡ Faults.crowded (controller_in tasks.now) (length tasks.now) own.0 }
{
    SHARING < tasks.iter().filter(|t| t.controller == own).count()
}
