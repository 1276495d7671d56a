// "The answer is a number, a place and a sweep number", case by case.
ghost use Rattle.std.specs.Prelude.{◌≡◌};
ghost use Rattle.bench.specs.Answers.{said, numbered};
ghost use Rattle.bench.specs.declared.answers.Refusal.TheVariants.{Plan, Unbounded};

use stream::ControllerNo;
use sweep::Left;

// 0: accepted; how long the report is, and the first sweep that changed nothing.
#[derive(Clone, Copy, PartialEq, Eq)]
pub struct Accepted {
    pub length: usize,
    pub sweep: u64,
}

// Why a plan is refused.
#[derive(Clone, Copy, PartialEq, Eq)]
pub enum Refusal {
    // 1 to 10: the plan is not well-formed.
    Plan(plan::Refusal),
    // 11: the report space is too short.
    Short { needed: usize },
    // 12: the exact load of a controller is above one.
    Overloaded { controller: ControllerNo },
    // 13: no bound within limits.
    Unbounded(Left),
}

// What is answered to a plan.
pub type Answer = Result<Accepted, Refusal>;

// A refusal by reading or by the tables stays what it is.
impl From<plan::Refusal> for Refusal {
    ghost from_gives = { λ r e. e ≡ Plan r };

    // Puts it among the entry's refusals.
    fn from(refusal: plan::Refusal) -> Refusal {
        Refusal::Plan(refusal)
    }
}

// A task that leaves the limits has no bound, by the sweep in which it does.
impl From<Left> for Refusal {
    ghost from_gives = { λ l e. e ≡ Unbounded l };

    // Puts the task and the sweep among them.
    fn from(left: Left) -> Refusal {
        Refusal::Unbounded(left)
    }
}

// The three numbers of an answer.
#[derive(Clone, Copy, PartialEq, Eq)]
pub struct Numbers {
    pub number: u64,
    pub place: u64,
    pub sweep: u64,
}

impl Numbers {
    // Those of an answer that tells no sweep, whatever its number and its place are.
    pub fn without_sweep(number: u64, place: usize) -> Numbers
        ensures { numbered result ≡ record { number = number; place = place; sweep = 0 } }
    {
        Numbers {
            number,
            place: place as u64,
            sweep: 0,
        }
    }
}

// An answer's number, place and sweep number.
impl From<Answer> for Numbers {
    ghost from_gives = { λ a n. numbered n ≡ said a };

    // Takes them case by case: an accepted plan's number is 0.
    fn from(answer: Answer) -> Numbers {
        match answer {
            Ok(Accepted { length, sweep }) => Numbers {
                sweep,
                ..Numbers::without_sweep(0, length)
            },
            Err(Refusal::Plan(refusal)) => Numbers::without_sweep(
                refusal.number(),
                refusal.place(),
            ),
            Err(Refusal::Short { needed }) => Numbers::without_sweep(11, needed),
            Err(Refusal::Overloaded { controller }) => Numbers::without_sweep(12, controller.0),
            Err(Refusal::Unbounded(left)) => Numbers {
                sweep: left.sweep,
                ..Numbers::without_sweep(13, left.task.0)
            },
        }
    }
}
