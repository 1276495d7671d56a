// "A stream has period P and jitter J": least distance, most events, added delay. Each `requires` is a range of the machine.
ghost use Rattle.std.specs.Prelude.{◌≡◌, ◌+◌, ◌≤◌, ◌<◌, ◌^◌};
ghost use Rattle.paper.specs.Streams.{d, most_events, delayed};
ghost use Rattle.stream.specs.Model.{model_of};

use crate::kinds::{Events, Ticks};

// An event model: the period and the jitter of a stream.
#[derive(Clone, Copy, PartialEq, Eq, Default)]
pub struct EventModel {
    pub period: Ticks,
    pub jitter: Ticks,
}

impl EventModel {
    // "Least distance of n events, n at least 1: d(n) = max(0, (n-1)P - J)"; for no events it is 0. Both numbers are below
    // 2^32, so that their product fits.
    pub fn least_distance(self, n: Events) -> Ticks
        requires { (n.0 < 2 ^ 32) × (self.period.0 < 2 ^ 32) }
        ensures { result.0 ≡ d (model_of self) n.0 }
    {
        let span = n.0.saturating_sub(1) * self.period.0;
        Ticks(span).minus(self.jitter)
    }

    // "Most events in a half-open span of t ticks: 0 for t = 0, otherwise (t + J)/P rounded up." The period is not 0, and the
    // sum fits.
    pub fn most_events(self, t: Ticks) -> Events
        requires { (1 ≤ self.period.0) × (t.0 + self.jitter.0 + self.period.0 < 2 ^ 64) }
        ensures { result.0 ≡ most_events (model_of self) t.0 }
    {
        if t.0 == 0 {
            return Events(0);
        }
        // As the definition says it: with `div_ceil`, three instructions more, docs/SPEED.md's largest plan takes more than second/.
        Events((t.0 + self.jitter.0 + (self.period.0 - 1)) / self.period.0)
    }

    // "Adding delay to an event model gives a new model and leaves the old one in use." The new jitter fits.
    pub fn delayed(self, by: Ticks) -> EventModel
        requires { self.jitter.0 + by.0 < 2 ^ 64 }
        ensures { model_of result ≡ delayed (model_of self) by.0 }
    {
        EventModel {
            jitter: Ticks(self.jitter.0 + by.0),
            ..self
        }
    }
}
