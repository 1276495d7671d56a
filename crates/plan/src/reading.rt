// Reading: refusals 1 to 6.
ghost use Rattle.std.specs.Prelude.{◌≡◌};
ghost use Rattle.paper.specs.Refusals as Refusals;
ghost use Rattle.plan.specs.Judged.{said};

use crate::head::head_of;
use crate::refusal::{Refusal, unless};
use crate::walker::Walker;
use limits::PLAN_BYTES;

// "1; then field by field; then 6": a plan that is too long, the first fault of the due fields, bytes after the last one.
pub fn read(s: &[u8]) -> Result<(), Refusal>
    ensures { said result ≡ Refusals.read s.now }
{
    unless(s.len() <= PLAN_BYTES, Refusal::TooLong)?;
    let count = head_of(s);
    let due = 1 + count.controllers + count.tasks + count.paths;
    let mut at: usize = 0;
    for f in 0..due {
        let walker = Walker::placed(s, at);
        walker.due_field(f)?;
        at = walker.next();
    }
    unless(s.len() <= at, Refusal::MoreBytes { at })
}
