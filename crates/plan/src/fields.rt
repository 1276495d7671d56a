// The fields of a plan: a method for each row of the document's table, and which field is due where.
#![tactic(auto, using(crate::proofs::Judging::judging))]

ghost use Rattle.std.specs.Prelude.{◌+◌, ◌-◌, [], ◌≡◌};
ghost use Rattle.paper.specs.Fields as Fields;
ghost use Rattle.plan.specs.Judged.{said};

use crate::head::head_of;
use crate::refusal::Refusal;
use crate::tags::{CONTROLLER, FED, HEAD, OUTSIDE, PATH};
use crate::walker::Walker;
use limits::{CONTROLLERS, COST, PATHS, STEPS, TASKS, TICKS};
use stream::ControllerNo;

// A deadline is any number but 0 that four bytes hold.
const MOST_DEADLINE: u64 = 0xFFFF_FFFF;

impl Walker<'_> {
    // "01, 4: edition 1; controllers 1..16; tasks 1..64; paths 0..32 (a byte each)"
    fn head_field(self) -> Result<(), Refusal>
        ensures { said result ≡ Fields.head_field self.entry.plan.now self.entry.at }
    {
        self.header(HEAD, 4, 4)?;
        self.value::<1>(3, 1, 1)?;
        self.value::<1>(4, 1, CONTROLLERS as u64)?;
        self.value::<1>(5, 1, TASKS as u64)?;
        self.value::<1>(6, 0, PATHS as u64)
    }

    // "10, 2: its own number; policy 1"
    fn controller_field(self, own: ControllerNo) -> Result<(), Refusal>
        ensures { said result ≡ Fields.controller_field self.entry.plan.now self.entry.at own.0 }
    {
        self.header(CONTROLLER, 2, 2)?;
        self.value::<1>(3, own.0 as u64, own.0 as u64)?;
        self.value::<1>(4, 1, 1)
    }

    // A task's controller and priority, "C- is 1..1,000,000; C+ is C-..1,000,000".
    fn task_values(self) -> Result<(), Refusal>
        ensures { said result ≡
            Fields.in_ranges self.entry.plan.now (self.entry.at + 3) (Fields.task_values self.entry.plan.now self.entry.at []) }
    {
        let controllers = head_of(self.plan).controllers as u64;
        self.value::<1>(3, 0, controllers.saturating_sub(1))?;
        self.value::<1>(4, 0, 255)?;
        self.value::<4>(5, 1, COST)?;
        self.value::<4>(9, self.number::<4>(5), COST)
    }

    // "20, 18: controller, priority (a byte each); C-, C+, period P, jitter J (four bytes each)"
    fn outside_field(self) -> Result<(), Refusal>
        ensures { said result ≡ Fields.outside_field self.entry.plan.now self.entry.at }
    {
        self.header(OUTSIDE, 18, 18)?;
        self.task_values()?;
        self.value::<4>(13, 1, TICKS)?;
        self.value::<4>(17, 0, TICKS)
    }

    // The highest number that a task of the plan has.
    fn last_task(self) -> u64
        ensures { result ≡ Fields.tasks_of self.entry.plan.now - 1 }
    {
        (head_of(self.plan).tasks as u64).saturating_sub(1)
    }

    // "21, 11: controller, priority; C-, C+; number of the task that feeds it (a byte)"
    fn fed_field(self) -> Result<(), Refusal>
        ensures { said result ≡ Fields.fed_field self.entry.plan.now self.entry.at }
    {
        self.header(FED, 11, 11)?;
        self.task_values()?;
        self.value::<1>(13, 0, self.last_task())
    }

    // "A task is a 20 or a 21."
    #[tactic(auto, unfolding(paper::specs::Fields::task_field))]
    fn task_field(self) -> Result<(), Refusal>
        ensures { said result ≡ Fields.task_field self.entry.plan.now self.entry.at }
    {
        if self.tag() == FED {
            self.fed_field()
        } else {
            self.outside_field()
        }
    }

    // "30, 5..20: deadline (four bytes); 1 to 16 task numbers (a byte each)"; "a deadline is not 0".
    fn path_field(self) -> Result<(), Refusal>
        ensures { said result ≡ Fields.path_field self.entry.plan.now self.entry.at }
    {
        self.header(PATH, 5, 4 + STEPS)?;
        self.value::<4>(3, 1, MOST_DEADLINE)?;
        self.values(7, self.length().saturating_sub(4), self.last_task())
    }

    // Field number f, at the walker's place: first the head, then controllers, tasks, paths. (By its number, as paper's `due_field`
    // goes: so `read` is one loop over all of them, and no plainer as a loop for each kind.)
    pub(crate) fn due_field(self, f: usize) -> Result<(), Refusal>
        ensures { said result ≡ Fields.due_field self.entry.plan.now f self.entry.at }
    {
        if f == 0 {
            return self.head_field();
        }
        let after = f - 1;
        let count = head_of(self.plan);
        if after < count.controllers {
            self.controller_field(ControllerNo(after))
        } else if after < count.controllers + count.tasks {
            self.task_field()
        } else {
            self.path_field()
        }
    }
}
