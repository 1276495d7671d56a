// The whole report: head, task records, path records, and FF to the end of the space.
ghost use Rattle.std.specs.Prelude.{◌≡◌, ◌++◌, ◌+◌, ◌*◌, ◌-◌, ◌≤◌, length, get_or};
ghost use Rattle.paper.specs.Report.{each};
ghost use Rattle.paper.specs.Answer.{blank};
ghost use Rattle.report.specs.Wrote.{Wrote};
ghost use Rattle.report.specs.Figured.{whole_of, long_of};
ghost use Rattle.paper.specs.Limits.{most_tasks, most_paths};

use crate::figures::{PathFigures, TaskFigures};
use crate::numbers::fill;
use crate::records::{Head, Record};

// Writes records one after the other, each into the part that begins where the last one ended.
fn records<R: Record>(rest: &mut [u8], rows: &[R])
    requires { R.LONG * length rows.now ≤ length rest.old }
    ensures { (none : R)
        → Wrote rest.old 0 (each (length rows.now) (λ k. R.record_of (get_or rows.now k none) k)) rest.new }
{
    for (k, row) in rows.iter().enumerate() {
        row.write(k, &mut rest[R::LONG * k..]);
    }
}

// "Length is 14 + 22 for each task + 29 for each path."
pub fn length_of(tasks: usize, paths: usize) -> usize
    requires { (tasks ≤ most_tasks) × (paths ≤ most_paths) }
    ensures { result ≡ 14 + 22 * tasks + 29 * paths }
{
    Head::LONG + TaskFigures::LONG * tasks + PathFigures::LONG * paths
}

// Writes the whole report of the figures, and FF after it to the end of the space.
pub fn write(out: &mut [u8], sweeps: u64, tasks: &[TaskFigures], paths: &[PathFigures])
    requires { (length tasks.now ≤ most_tasks)
        × (length paths.now ≤ most_paths)
        × (long_of tasks.now paths.now ≤ length out.old) }
    ensures { out.new ≡ whole_of sweeps tasks.now paths.now ++ blank (length out.old - long_of tasks.now paths.now) }
{
    let head = Head {
        sweeps,
        tasks: tasks.len(),
        paths: paths.len(),
    };
    head.write(out);
    records(&mut out[Head::LONG..], tasks);
    let to_paths = Head::LONG + TaskFigures::LONG * tasks.len();
    records(&mut out[to_paths..], paths);
    fill(out, length_of(tasks.len(), paths.len()));
}
