// What every field has: a header, then values in their ranges.
ghost use Rattle.std.specs.Prelude.{◌+◌, ◌≤◌, ◌<◌, ◌^◌, ◌≡◌, replicate};
ghost use Rattle.paper.specs.Words as Words;
ghost use Rattle.paper.specs.Bytes.{number};
ghost use Rattle.paper.specs.Fields as Fields;
ghost use Rattle.plan.specs.Judged.{said};

use crate::refusal::{Refusal, unless};
use crate::walker::Walker;

// Whether a number lies in a range, both ends counted.
fn within(least: u64, n: u64, most: u64) -> bool
    ensures { result ≡ Words.within least n most }
{
    (least..=most).contains(&n)
}

impl Walker<'_> {
    // "2 for the header, 3, 4, 2 for the value", each at the tag.
    #[tactic(auto, using(crate::proofs::Chain::chain), unfolding(paper::specs::Fields::header, paper::specs::Fields::unless))]
    pub(crate) fn header(self, tag: u64, shortest: u64, longest: u64) -> Result<(), Refusal>
        ensures { said result ≡ Fields.header self.entry.plan.now self.entry.at tag shortest longest }
    {
        let at = self.at;
        let length = self.length();
        unless(at + 3 <= self.plan.len(), Refusal::Cut { at })?;
        unless(self.tag() == tag, Refusal::WrongTag { at })?;
        unless(
            within(shortest, length as u64, longest),
            Refusal::WrongLength { at },
        )?;
        unless(at + 3 + length <= self.plan.len(), Refusal::Cut { at })
    }

    // A value of N bytes that begins so many behind the field's place, in its range.
    #[tactic(auto, using(crate::proofs::Saying::said_unless))]
    pub(crate) fn value<const N: usize>(
        self,
        behind: usize,
        least: u64,
        most: u64,
    ) -> Result<(), Refusal>
        requires { (N ≤ 8) × (behind < 2 ^ 32) }
        ensures { said result ≡
            Fields.unless (Words.within least (number self.entry.plan.now (self.entry.at + behind) N) most) 5 (self.entry.at + behind) }
    {
        let at = self.at + behind;
        unless(
            within(least, self.number::<N>(behind), most),
            Refusal::OutOfRange { at },
        )
    }

    // Values of one byte from so many behind the field's place on, n of them, all in one range.
    pub(crate) fn values(self, behind: usize, n: usize, most: u64) -> Result<(), Refusal>
        requires { behind + n < 2 ^ 32 }
        ensures { said result ≡ Fields.in_ranges self.entry.plan.now (self.entry.at + behind) (replicate n (Fields.byte 0 most)) }
    {
        for i in 0..n {
            self.value::<1>(behind + i, 0, most)?;
        }
        Ok(())
    }
}
