// "R+ is the largest B(q) - d(q) over 1 to that q", within limits.
ghost use Rattle.std.specs.Prelude.{◌≤◌, length};
ghost use Rattle.paper.specs.Limits.{most_sharing};
ghost use Rattle.bound.specs.Setting.{setting_of};
ghost use Rattle.bound.specs.Answers.{Says};

use crate::jobs::look_at_all;
use crate::setting::{Own, Rival, Rivals};
use limits::TICKS;
use stream::{Events, Ticks};

// What is worked out of a task: its bound R+ and the jobs looked at.
#[derive(Clone, Copy, PartialEq, Eq)]
pub struct Worked {
    pub bound: Ticks,
    pub jobs: Events,
}

// Works out the bound of a task among its rivals, all within limits, or nothing: the task leaves the limits.
pub fn work_out(own: Own, rivals: &[Rival]) -> Option<Worked>
    requires { length rivals.now ≤ most_sharing }
    ensures { Says (setting_of own rivals.now) result }
{
    let input = own.input;
    if TICKS < input.jitter.0 {
        return None;
    }
    let worked = look_at_all(own, Rivals { all: rivals })?;
    let output = input.delayed(worked.bound.minus(own.least));
    (output.jitter.0 <= TICKS).then_some(worked)
}
