// What a report says of a task and of a path.
ghost use Rattle.std.specs.Prelude.{◌≡◌};
ghost use Rattle.paper.specs.Bytes.{bytes, difference};
ghost use Rattle.paper.specs.Report.{verdict};
ghost use Rattle.report.specs.Verdicts.{number_of};

use stream::{Events, Ticks};

// The figures of a task: R-, R+, input jitter, output jitter, jobs looked at.
#[derive(Clone, Copy, PartialEq, Eq, Default)]
pub struct TaskFigures {
    pub least: Ticks,
    pub bound: Ticks,
    pub input: Ticks,
    pub output: Ticks,
    pub jobs: Events,
}

// The figures of a path: its deadline, and the sums of R- and R+ along it.
#[derive(Clone, Copy, PartialEq, Eq, Default)]
pub struct PathFigures {
    pub deadline: Ticks,
    pub best: Ticks,
    pub worst: Ticks,
}

// "Verdict is 1 (meets: slack 0 or more) or 2 (misses)."
#[derive(Clone, Copy, PartialEq, Eq)]
pub(crate) enum Verdict {
    Meets = 1,
    Misses = 2,
}

impl Verdict {
    // The number that stands in the record.
    pub(crate) fn number(self) -> u64
        ensures { result ≡ number_of self }
    {
        self as u64
    }
}

impl PathFigures {
    // Whether the path meets its deadline.
    #[tactic(auto, unfolding(paper::specs::Report::verdict))]
    pub(crate) fn verdict(self) -> Verdict
        ensures { number_of result ≡ verdict self.deadline.0 self.worst.0 }
    {
        if self.worst <= self.deadline {
            Verdict::Meets
        } else {
            Verdict::Misses
        }
    }

    // "The slack is deadline minus worst", as the number that two's complement makes of it.
    pub(crate) fn slack(self) -> u64
        ensures { bytes 8 result ≡ difference 8 self.deadline.0 self.worst.0 }
    {
        self.deadline.0.wrapping_sub(self.worst.0)
    }
}
