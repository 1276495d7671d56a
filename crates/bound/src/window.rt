// "Window for q jobs of task k: B(q) is the least t above 0 with t = q times k's C+, plus" the interference in t.
ghost use Rattle.std.specs.Prelude.{◌<◌, ◌^◌};
ghost use Rattle.theory.specs.Numbers.FixedPoints.{Rises, Reached};
ghost use Rattle.bound.specs.Setting.{demand_of};
ghost use Rattle.bound.specs.Answers.{Finds};

use crate::setting::Rivals;
use limits::TICKS;
use stream::Ticks;

// The window of jobs that take `work` ticks together, or nothing: there is none within limits. The search goes from t to what is
// demanded in t, and starts at `from`, which no window is shorter than. (Apart from the work: docs/DECISIONS.md knows a better start.)
#[tactic(auto, using(crate::proofs::Interference::interference_fits))]
pub(crate) fn search(work: Ticks, from: Ticks, rivals: Rivals) -> Option<Ticks>
    requires reached { let F = demand_of rivals.all.now work.0 in Rises F × Reached F from.0 }
    requires in_range { work.0 < 2 ^ 32 }
    ensures { Finds (demand_of rivals.entry.all.now work.0) result }
{
    let mut t = from;
    while t.0 <= TICKS {
        let demanded = Ticks(work.0 + rivals.interference(t).0);
        if demanded == t {
            return Some(t);
        }
        t = demanded;
    }
    None
}
