// The refusals that the tables give, 7 to 10, each at the lowest number where something is wrong.
ghost use Rattle.std.specs.Prelude.{ℕ, ◌<◌, ◌≡◌, Bool, length, slice_index_or};
ghost use Rattle.plan.specs.Judged.{said};
ghost use Rattle.rules.specs.Faults as Faults;
ghost use Rattle.rules.specs.Faults.{lowest, RefusesBy};
ghost use Rattle.rules.specs.Rows.{controller_in, priority_in, fed_in, feeder_in, FeedersIn, Parts, no_path, part_in};

use crate::faults::{broken, crowded, endless, shares};
use plan::{Path, Refusal, Task, unless};
use stream::{ControllerNo, TaskNo};

// The first refusal that a judge gives at the numbers below n: where it refuses by a test, that of the lowest number. (A loop:
// with `try_for_each`, tried, two goals stayed open, since the library has no law of what that gives over a range.)
fn first<F: Fn(usize) -> Result<(), Refusal>>(n: usize, judge: F) -> Result<(), Refusal>
    requires { (k : ℕ) → k < n → F.pre judge k }
    ensures { (refusal : ℕ) (wrong : ℕ → Bool) → RefusesBy refusal wrong n (F.post judge)
        → said result ≡ lowest refusal wrong n }
{
    for k in 0..n {
        judge(k)?;
    }
    Ok(())
}

// "two tasks on one controller share a priority", "lowest task sharing with a lower-numbered one".
#[tactic(auto, using(plan::proofs::Saying::said_unless))]
pub(crate) fn refusal_7(tasks: &[Task]) -> Result<(), Refusal>
    ensures { said result ≡ lowest 7 (
        Faults.shares (controller_in tasks.now) (priority_in tasks.now)) (length tasks.now) }
{
    first(tasks.len(), |k| {
        let task = TaskNo(k);
        unless(!shares(tasks, task), Refusal::SharedPriority { task })
    })
}

// "going back from feeder to feeder never reaches a 20", "lowest such task".
#[tactic(auto, using(plan::proofs::Saying::said_unless))]
pub(crate) fn refusal_8(tasks: &[Task]) -> Result<(), Refusal>
    requires { FeedersIn tasks.now }
    ensures { said result ≡ lowest 8 (
        Faults.endless (fed_in tasks.now) (feeder_in tasks.now) (length tasks.now)) (length tasks.now) }
{
    first(tasks.len(), |k| {
        let task = TaskNo(k);
        unless(!endless(tasks, task), Refusal::NoStart { task })
    })
}

// "a path's task is not fed by the one before it", "lowest such path". (By number, as the other three: the number is the place.)
#[tactic(auto, using(plan::proofs::Saying::said_unless))]
pub(crate) fn refusal_9(s: &[u8], tasks: &[Task], paths: &[Path]) -> Result<(), Refusal>
    requires { Parts s.now (length tasks.now) paths.now }
    ensures { said result ≡ lowest 9 (λ q.
        Faults.broken (fed_in tasks.now) (feeder_in tasks.now)
        (part_in s.now (slice_index_or paths.now q no_path))) (length paths.now) }
{
    first(
        paths.len(),
        |q| unless(!broken(tasks, s, &paths[q]), Refusal::NotFed { path: q }),
    )
}

// "more than 16 tasks on a controller", "lowest such controller".
#[tactic(auto, using(plan::proofs::Saying::said_unless))]
pub(crate) fn refusal_10(tasks: &[Task], controllers: usize) -> Result<(), Refusal>
    ensures { said result ≡ lowest 10 (Faults.crowded (controller_in tasks.now) (length tasks.now)) controllers }
{
    first(controllers, |c| {
        let controller = ControllerNo(c);
        unless(!crowded(tasks, controller), Refusal::Crowded { controller })
    })
}
