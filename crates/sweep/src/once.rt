// One sweep: "A sweep works out every R+ anew from the previous set."
ghost use Rattle.std.specs.Prelude.{◌<◌};
ghost use Rattle.paper.specs.Tables.{Plan};
ghost use Rattle.paper.specs.Windows.{Inputs};
ghost use Rattle.paper.specs.Sets.{inputs};
ghost use Rattle.sweep.specs.Rows.{bounds_of};
ghost use Rattle.sweep.specs.Planned.{Bounding, Streaming};
ghost use Rattle.sweep.specs.Works.{Finds, Works};

use crate::chains::inputs;
use crate::rivals::Streamed;
use arrayvec::ArrayVec;
use bound::{Own, Rival, Worked, work_out};
use limits::{SHARING, TASKS};
use plan::Task;
use stream::{EventModel, Events, TaskNo, Ticks};

// The figures of a task: its bound R+, its input stream, and the jobs looked at.
#[derive(Clone, Copy, PartialEq, Eq, Default)]
pub struct Figure {
    pub bound: Ticks,
    pub input: EventModel,
    pub jobs: Events,
}

// The first sweep in which a task leaves the limits, and the lowest such task.
#[derive(Clone, Copy, PartialEq, Eq)]
pub struct Left {
    pub task: TaskNo,
    pub sweep: u64,
}

impl Streamed<'_> {
    // Works out the figures of a task, or nothing: the task leaves the limits. The list of rivals is lent: one
    // made for each task cost a twelfth of all on a plan of 64 tasks.
    fn figure_of(self, k: TaskNo, rivals: &mut ArrayVec<Rival, SHARING>) -> Option<Figure>
        requires { (p : Plan) × (S : Inputs) × Streaming p S self.tasks.now self.inputs.now × (k.0 < p.tasks) }
        ensures { (p : Plan) (S : Inputs) → Streaming p S self.entry.tasks.now self.entry.inputs.now → k.0 < p.tasks
            → Finds p S k.0 result }
    {
        let task = &self.tasks[k.0];
        let input = self.inputs[k.0];
        let own = Own {
            least: task.least,
            most: task.most,
            input,
        };
        self.gather(k, rivals);
        let Worked { bound, jobs } = work_out(own, rivals)?;
        Some(Figure { bound, input, jobs })
    }

    // Works out the figures of all tasks in sweep number `number`, or tells the lowest task that leaves the limits in it. (By number: it
    // is what is told of the task that leaves.)
    fn figures_of(self, number: u64, figures: &mut ArrayVec<Figure, TASKS>) -> Result<(), Left>
        requires { (p : Plan) × (S : Inputs) × Streaming p S self.tasks.now self.inputs.now }
        ensures { (p : Plan) (S : Inputs) → Streaming p S self.entry.tasks.now self.entry.inputs.now
            → Works p S number result figures.new.items }
    {
        figures.clear();
        let mut rivals = ArrayVec::new();
        for k in 0..self.tasks.len() {
            let task = TaskNo(k);
            let left = Left {
                task,
                sweep: number,
            };
            figures.push(self.figure_of(task, &mut rivals).ok_or(left)?);
        }
        Ok(())
    }
}

// Sweep number `number`: the figures of all tasks anew from the previous set, or the lowest task that leaves the limits. The list of
// figures is lent, so that no sweep has to make one and hand it back.
pub(crate) fn sweep(
    tasks: &[Task],
    set: &[Figure],
    number: u64,
    figures: &mut ArrayVec<Figure, TASKS>,
) -> Result<(), Left>
    requires { (p : Plan) × Bounding p tasks.now set.now }
    ensures { (p : Plan) → Bounding p tasks.now set.now
        → Works p (inputs p (bounds_of set.now)) number result figures.new.items }
{
    let inputs = inputs(tasks, set);
    let streamed = Streamed {
        tasks,
        inputs: &inputs,
    };
    streamed.figures_of(number, figures)
}
