// What one task's bound is worked out from: the task itself and its rivals, the more urgent tasks on its controller.
ghost use Rattle.std.specs.Prelude.{◌≡◌, ◌≤◌, ◌<◌, ◌^◌, length};
ghost use Rattle.paper.specs.Limits.{most_cost, most_sharing, most_ticks};

use stream::{EventModel, Ticks};

// The task itself: C-, C+ and its input stream. Its C+ is from 1 to 1,000,000 and its period at most 1,000,000,000 ticks; its jitter
// and its C- may be any numbers.
#[derive(Clone, Copy)]
pub struct Own {
    pub least: Ticks,
    pub most: Ticks,
    pub input: EventModel,
    pub ghost some_cost: { 1 ≤ most.0 },
    pub ghost most_in_range: { most.0 ≤ most_cost },
    pub ghost period_in_range: { input.period.0 ≤ most_ticks },
}

// One of its rivals: its input stream and its C+. Its period is not 0, and its numbers are small. Its jitter may be above
// 1,000,000,000, in the sweep in which that rival leaves the limits too: 2^37 is above the jitters that add up along any chain.
#[derive(Clone, Copy)]
pub struct Rival {
    pub input: EventModel,
    pub cost: Ticks,
    pub ghost recurring: { 1 ≤ input.period.0 },
    pub ghost period_in_range: { input.period.0 ≤ most_ticks },
    pub ghost jitter_in_range: { input.jitter.0 < 2 ^ 37 },
    pub ghost cost_in_range: { cost.0 ≤ most_cost },
}

// What fills a place where no rival stands: it has a period, as every rival has, and costs nothing.
impl Default for Rival {
    ghost is_default = { λ r. (r.input.period.0 ≡ 1) × (r.input.jitter.0 ≡ 0) × (r.cost.0 ≡ 0) };

    // One event each tick, and no work.
    fn default() -> Rival {
        Rival {
            input: EventModel {
                period: Ticks(1),
                jitter: Ticks(0),
            },
            cost: Ticks(0),
        }
    }
}

// The rivals of one task, as many as may share a controller or fewer.
#[derive(Clone, Copy)]
pub(crate) struct Rivals<'a> {
    pub(crate) all: &'a [Rival],
    pub(crate) ghost few: { length all.now ≤ most_sharing },
}
