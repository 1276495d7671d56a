// All sweeps: "Start with R+ = C+ for all", up to the first sweep that changes nothing or in which a task leaves the limits.
ghost use Rattle.std.specs.Prelude.{◌≡◌, length};
ghost use Rattle.paper.specs.Tables.{Plan};
ghost use Rattle.theory.specs.Sweeps.Climb.{Same};
ghost use Rattle.sweep.specs.Rows.{bounds_of, per_task, first_figure, Tells};
ghost use Rattle.sweep.specs.Planned.{Planned};
ghost use Rattle.sweep.specs.Ends.{Ends};

use crate::once::{Figure, Left, sweep};
use arrayvec::ArrayVec;
use limits::TASKS;
use plan::Task;

// The set to start with: "R+ = C+ for all".
fn start(tasks: &[Task]) -> ArrayVec<Figure, TASKS>
    requires { (p : Plan) × Planned p tasks.now }
    ensures { (p : Plan) → Planned p tasks.now → result.items ≡ per_task p (first_figure p) }
{
    let mut set = ArrayVec::new();
    for task in tasks {
        set.push(Figure {
            bound: task.most,
            ..Figure::default()
        });
    }
    set
}

// Whether two sets of bounds are the same.
fn same(old: &[Figure], new: &[Figure]) -> bool
    requires { length old.now ≡ length new.now }
    ensures { Tells result (Same (length old.now) (bounds_of old.now) (bounds_of new.now)) }
{
    old.iter().zip(new).all(|(a, b)| a.bound == b.bound)
}

// Sweeps over the tasks until a sweep changes nothing, and gives that sweep's number, or until a task leaves the limits. Each sweep
// before that lets a bound grow, and none grows above the limit, so the sweeps end. The figures are those of the sweep that changed
// nothing. Where a task leaves the limits there are none. (They are lent, and no part of the result: each sweep writes them where
// they stay.)
pub fn settle(tasks: &[Task], figures: &mut ArrayVec<Figure, TASKS>) -> Result<u64, Left>
    requires { (p : Plan) × Planned p tasks.now }
    ensures { (p : Plan) → Planned p tasks.now → Ends p result figures.new.items }
{
    let mut set = start(tasks);
    let mut sweeps: u64 = 0;
    loop {
        sweeps += 1;
        if let Err(left) = sweep(tasks, &set, sweeps, figures) {
            figures.clear();
            return Err(left);
        }
        if same(&set, figures) {
            return Ok(sweeps);
        }
        // The figures are the next sweep's previous set. (There is room: they are as many as the tasks.)
        set.clear();
        let _ = set.try_extend_from_slice(figures);
    }
}
