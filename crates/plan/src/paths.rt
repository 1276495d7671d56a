// The paths of a plan, a row for each.
ghost use Rattle.std.specs.Prelude.{◌+◌, ◌≤◌, ◌≡◌, length, take, drop};
ghost use Rattle.plan.specs.Parts.{BeginsAt};
ghost use Rattle.plan.specs.Tables.{path_row, path_rows};

use crate::head::head_of;
use crate::walker::{Walker, place};
use arrayvec::ArrayVec;
use limits::PATHS;
use stream::Ticks;

// A part of a plan that holds task numbers: where it begins, and how many they are (a byte each).
#[derive(Clone, Copy, PartialEq, Eq, Default)]
pub struct Part {
    pub from: usize,
    pub steps: usize,
}

// A path: its deadline, and the part of the plan that holds its task numbers.
#[derive(Clone, Copy, PartialEq, Eq, Default)]
pub struct Path {
    pub deadline: Ticks,
    pub part: Part,
}

impl Walker<'_> {
    // The path whose field is at the walker's place.
    #[tactic(auto, unfolding(crate::specs::Tables::path_row))]
    fn path(self) -> Path
        ensures { result ≡ path_row self.entry.plan.now self.entry.at }
    {
        Path {
            deadline: Ticks(self.number::<4>(3)),
            part: Part {
                from: self.at + 7,
                steps: self.length().saturating_sub(4),
            },
        }
    }
}

// The paths of the plan, as many as there is room for. (Beside `task_rows` stands why the two are not one function.)
pub fn path_rows(s: &[u8]) -> ArrayVec<Path, PATHS>
    ensures { result.items ≡ path_rows s.now }
{
    let count = head_of(s);
    let mut rows = ArrayVec::new();
    let mut at = place(s, 1 + count.controllers + count.tasks);
    for q in 0..count.paths.min(PATHS) {
        let walker = Walker::placed(s, at);
        rows.push(walker.path());
        at = walker.next();
    }
    rows
}

// The bytes of the plan that a part of it is.
pub fn part_of(s: &[u8], part: Part) -> &[u8]
    requires { part.from + part.steps ≤ length s.now }
    ensures { BeginsAt s.entry part.from result × (result.now ≡ take part.steps (drop part.from s.now)) }
{
    let end = part.from + part.steps;
    &s[part.from..end]
}
