// A walker keeps hold of the plan and its place.
ghost use Rattle.std.specs.Prelude.{◌+◌, ◌≤◌, ◌<◌, ◌^◌, ◌≡◌};
ghost use Rattle.paper.specs.Bytes.{number};
ghost use Rattle.paper.specs.Fields as Fields;
ghost use Rattle.plan.specs.Places.{Begins};

use crate::bytes::number_at;

// The plan, and the place in it. (No field of a plan begins at 2^32 or later.)
#[derive(Clone, Copy)]
pub(crate) struct Walker<'a> {
    pub(crate) plan: &'a [u8],
    pub(crate) at: usize,
    ghost near: { at < 2 ^ 32 },
}

impl<'a> Walker<'a> {
    // A walker at a place of a plan.
    pub(crate) fn placed(plan: &'a [u8], at: usize) -> Walker<'a>
        requires { at < 2 ^ 32 }
        ensures { (result.plan ≡ plan.entry) × (result.at ≡ at) }
    {
        Walker { plan, at }
    }

    // The number in the N bytes that begin so many behind its place.
    pub(crate) fn number<const N: usize>(self, behind: usize) -> u64
        requires { (N ≤ 8) × (behind < 2 ^ 32) }
        ensures { (result ≡ number self.entry.plan.now (self.entry.at + behind) N) × (result < 256 ^ N) }
    {
        number_at::<N>(self.plan, self.at + behind)
    }

    // The tag of the field at its place.
    pub(crate) fn tag(self) -> u64
        ensures { result ≡ Fields.tag_at self.entry.plan.now self.entry.at }
    {
        number_at::<1>(self.plan, self.at)
    }

    // The length that the field says.
    pub(crate) fn length(self) -> usize
        ensures { (result ≡ Fields.length_at self.entry.plan.now self.entry.at) × (result < 2 ^ 16) }
    {
        self.number::<2>(1) as usize
    }

    // Where the walker goes next: to the end of the field.
    #[tactic(auto, unfolding(paper::specs::Fields::ending))]
    pub(crate) fn next(self) -> usize
        ensures { (result ≡ Fields.ending self.entry.plan.now self.entry.at) × (result < self.entry.at + 65_539) }
    {
        self.at + 3 + self.length()
    }
}

// Where field number f begins: each begins where the walker goes from the last one.
pub(crate) fn place(s: &[u8], f: usize) -> usize
    requires { f < 1024 }
    ensures { Begins s.now f result }
{
    let mut at: usize = 0;
    for g in 0..f {
        at = Walker::placed(s, at).next();
    }
    at
}
