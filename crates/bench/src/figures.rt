// The figures of a report that follow from the set in which the sweeps settle.
ghost use Rattle.std.specs.Prelude.{◌≡◌, ◌+◌, ◌-◌, ◌<◌, ◌^◌};
ghost use Rattle.paper.specs.Tables.{Plan, plan_of};
ghost use Rattle.paper.specs.Report.{Figures};
ghost use Rattle.plan.specs.Tables.{tabulate};
ghost use Rattle.sweep.specs.Rows.{per_task};
ghost use Rattle.bench.specs.Rows.{task_figures, path_figures};
ghost use Rattle.bench.specs.Tabled.{Settling, Pathed};

use crate::along::figures_along;
use arrayvec::ArrayVec;
use limits::{PATHS, TASKS};
use plan::{Path, Task, part_of};
use report::{PathFigures, TaskFigures};
use sweep::Figure;

// A task's figures: its output stream is its input stream delayed by R+ - R-.
#[tactic(auto, unfolding(paper::specs::Streams::delayed))]
fn figures_of(task: &Task, settled: &Figure) -> TaskFigures
    requires { settled.now.input.jitter.0 + settled.now.bound.0 < 2 ^ 64 }
    ensures given { (result.least ≡ task.now.least) × (result.bound ≡ settled.now.bound) × (result.jobs ≡ settled.now.jobs) }
    ensures jitters { (result.input ≡ settled.now.input.jitter)
        × (result.output.0 ≡ settled.now.input.jitter.0 + (settled.now.bound.0 - task.now.least.0)) }
{
    let output = settled.input.delayed(settled.bound.minus(task.least));
    TaskFigures {
        least: task.least,
        bound: settled.bound,
        input: settled.input.jitter,
        output: output.jitter,
        jobs: settled.jobs,
    }
}

// Every task's figures.
pub(crate) fn task_figures(tasks: &[Task], settled: &[Figure]) -> ArrayVec<TaskFigures, TASKS>
    requires { (p : Plan) × (f : Figures) × Settling p f tasks.now settled.now }
    ensures { (p : Plan) (f : Figures) → Settling p f tasks.now settled.now → result.items ≡ per_task p (task_figures p f) }
{
    let mut rows = ArrayVec::new();
    for (task, figure) in tasks.iter().zip(settled) {
        rows.push(figures_of(task, figure));
    }
    rows
}

// Every path's figures.
pub(crate) fn path_figures(
    s: &[u8],
    paths: &[Path],
    tasks: &[TaskFigures],
) -> ArrayVec<PathFigures, PATHS>
    requires { (f : Figures) × Pathed s.now f paths.now tasks.now }
    ensures { (f : Figures) → Pathed s.now f paths.now tasks.now
        → result.items ≡ tabulate (plan_of s.now).paths (path_figures (plan_of s.now) f) }
{
    let mut rows = ArrayVec::new();
    for path in paths {
        let part = part_of(s, path.part);
        rows.push(figures_along(path.deadline, part, tasks));
    }
    rows
}
