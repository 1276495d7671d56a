// The interference that a task meets from its rivals.
ghost use Rattle.std.specs.Prelude.{◌≡◌, ◌≤◌};
ghost use Rattle.paper.specs.Limits.{most_ticks};
ghost use Rattle.bound.specs.Setting.{work_of, interference_of};

use crate::setting::{Rival, Rivals};
use stream::Ticks;

impl Rival {
    // The work of the rival in t ticks: "its most events in t times its C+".
    #[tactic(auto, using(crate::proofs::Interference::work_small))]
    fn work(&self, t: Ticks) -> Ticks
        requires { t.0 ≤ most_ticks }
        ensures { result.0 ≡ work_of t.0 self.now }
    {
        Ticks(self.input.most_events(t).0 * self.cost.0)
    }
}

impl<'a> Rivals<'a> {
    // The work of all the rivals in t ticks: "over each more urgent task on the same controller, its most events in t times its C+".
    pub(crate) fn interference(self, t: Ticks) -> Ticks
        requires { t.0 ≤ most_ticks }
        ensures { result.0 ≡ interference_of self.entry.all.now t.0 }
    {
        Ticks(self.all.iter().map(|rival| rival.work(t).0).sum())
    }
}
