// A sum of costs over periods as one fraction.
ghost use Rattle.std.specs.Prelude.{◌≡◌, ◌+◌, ltb};
ghost use Rattle.load.specs.Limbs.{number};
ghost use Rattle.load.specs.Fraction.{FewLimbs, TaskRoom, TaskAdded};

use crate::limbs::{LIMBS, below, mul_add};
use stream::Ticks;

// The sum num/den of as many costs over periods as have been added: each takes a limb more. (Arrays of all limbs and a count of those
// used: there is no heap, each pass goes over the used ones alone, and the proof that there is room speaks of how many they are.)
#[derive(Drop)]
pub(crate) struct Fraction {
    num: [u64; LIMBS],
    den: [u64; LIMBS],
    added: usize,
    ghost few_limbs: { FewLimbs added num den },
}

impl Fraction {
    // The sum of none: 0/1.
    pub(crate) fn new() -> Fraction
        ensures counted { result.added ≡ 0 }
        ensures num { number result.num ≡ 0 }
        ensures den { number result.den ≡ 1 }
    {
        let mut den = [0; LIMBS];
        den[0] = 1;
        Fraction {
            num: [0; LIMBS],
            den,
            added: 0,
        }
    }

    // Adds a task's cost/period.
    pub(crate) fn add(&mut self, cost: Ticks, period: Ticks)
        requires { TaskRoom self.old.added cost.0 period.0 }
        ensures counted { self.new.added ≡ self.old.added + 1 }
        ensures sum { TaskAdded self.old.num self.old.den cost.0 period.0 self.new.num self.new.den }
    {
        self.added += 1;
        mul_add(&mut self.num, period.0, &self.den, cost.0, self.added);
        // The product alone: nothing is added to it.
        mul_add(&mut self.den, period.0, &self.num, 0, self.added);
    }

    // Whether the sum is above one.
    pub(crate) fn is_above_one(&self) -> bool
        ensures { result ≡ ltb (number self.now.den) (number self.now.num) }
    {
        below(&self.den, &self.num)
    }
}
