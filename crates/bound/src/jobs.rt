// "Jobs to look at: the least q, at least 1, with d(q+1) at least B(q)": they are looked at one after the other.
ghost use Rattle.bound.specs.Setting.{setting_of};
ghost use Rattle.bound.specs.Answers.{Comes};

use crate::response::Worked;
use crate::setting::{Own, Rivals};
use crate::window::search;
use limits::JOBS;
use stream::{Events, Ticks};

// The largest B(q) - d(q) of the jobs to look at of a task, and how many these are, or nothing: the task leaves the limits.
pub(crate) fn look_at_all(own: Own, rivals: Rivals) -> Option<Worked>
    ensures { Comes (setting_of own rivals.entry.all.now) result }
{
    let input = own.input;
    let mut largest = Ticks(0);
    for q in 1..=JOBS {
        let work = Ticks(q * own.most.0);
        let window = search(work, work, rivals)?;
        let delay = window.minus(input.least_distance(Events(q)));
        largest = largest.max(delay);
        let apart = input.least_distance(Events(q + 1));
        if window <= apart {
            return Some(Worked {
                bound: largest,
                jobs: Events(q),
            });
        }
    }
    None
}
