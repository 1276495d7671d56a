// A task's rivals: the more urgent tasks on its controller.
ghost use Rattle.std.specs.Prelude.{◌≡◌, ◌≤◌, ◌<◌, ◌&&◌, eqb, ltb, length};
ghost use Rattle.paper.specs.Limits.{most_sharing};
ghost use Rattle.paper.specs.Tables.{Plan};
ghost use Rattle.paper.specs.Windows as Windows;
ghost use Rattle.bound.specs.Setting.{interference_of};
ghost use Rattle.sweep.specs.Planned.{Streaming};

use arrayvec::ArrayVec;
use bound::Rival;
use limits::SHARING;
use plan::Task;
use stream::{EventModel, TaskNo};

// Whether another task is a rival of a task.
fn is_rival(task: &Task, other: &Task) -> bool
    ensures { result
        ≡ (eqb other.now.controller.0 task.now.controller.0 && ltb other.now.priority task.now.priority) }
{
    other.controller == task.controller && other.priority < task.priority
}

// The tasks of a plan, and the input stream of each. (Which plan is said by each clause: it is no part of the rows, so that no ghost
// field can name it.)
#[derive(Clone, Copy)]
pub(crate) struct Streamed<'a> {
    pub(crate) tasks: &'a [Task],
    pub(crate) inputs: &'a [EventModel],
}

impl Streamed<'_> {
    // The rivals of a task, gathered in a list that is lent.
    pub(crate) fn gather(self, task: TaskNo, rivals: &mut ArrayVec<Rival, SHARING>)
        requires { (p : Plan) × (S : Windows.Inputs) × Streaming p S self.tasks.now self.inputs.now × (task.0 < p.tasks) }
        ensures few { length rivals.new.items ≤ most_sharing }
        ensures interfere { (p : Plan) (S : Windows.Inputs) → Streaming p S self.entry.tasks.now self.entry.inputs.now → task.0 < p.tasks
            → interference_of rivals.new.items ≡ Windows.interference p S task.0 }
    {
        let own = &self.tasks[task.0];
        rivals.clear();
        // By index: with `zip` each turn takes 10 instructions in the place of 6, and docs/SPEED.md's largest plan takes more than second/.
        for j in 0..self.tasks.len() {
            let other = &self.tasks[j];
            if is_rival(own, other) {
                rivals.push(Rival {
                    input: self.inputs[j],
                    cost: other.most,
                });
            }
        }
    }
}
