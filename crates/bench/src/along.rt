// "Best and worst are the sums of R- and R+ along the path."
ghost use Rattle.std.specs.Prelude.{◌≡◌};
ghost use Rattle.paper.specs.Report.{along};
ghost use Rattle.bench.specs.Sums.{Summable, least_in, bound_in};

use report::{PathFigures, TaskFigures};
use stream::Ticks;

// The figures of a path with a deadline, along the task numbers that a part of the plan holds.
pub(crate) fn figures_along(deadline: Ticks, part: &[u8], tasks: &[TaskFigures]) -> PathFigures
    requires { Summable part.now tasks.now }
    ensures deadline { result.deadline ≡ deadline }
    ensures best { result.best.0 ≡ along part.now (least_in tasks.now) }
    ensures worst { result.worst.0 ≡ along part.now (bound_in tasks.now) }
{
    let mut best: u64 = 0;
    let mut worst: u64 = 0;
    for byte in part {
        let task = &tasks[usize::from(*byte)];
        best += task.least.0;
        worst += task.bound.0;
    }
    PathFigures {
        deadline,
        best: Ticks(best),
        worst: Ticks(worst),
    }
}
