// "Load of a controller: the sum of C+/P over its tasks, exactly", compared with one.
#![tactic(auto)]

mod fraction;
mod limbs;

ghost use Rattle.std.specs.Prelude.{◌≡◌, ℕ, ◌≤◌, ◌<◌, length};
ghost use Rattle.paper.specs.Words.{count};
ghost use Rattle.paper.specs.Limits.{most_sharing};
ghost use Rattle.paper.specs.Tables.{Plan};
ghost use Rattle.load.specs.Shares.{on_in, is_above_one, Ranged, Shares, Says};

use fraction::Fraction;
use stream::{ControllerNo, Ticks};

// What a task adds to the load of its controller: its cost C+ over its period.
#[derive(Clone, Copy, PartialEq, Eq, Default)]
pub struct Share {
    pub controller: ControllerNo,
    pub cost: Ticks,
    pub period: Ticks,
}

// Whether the load of controller c is above one.
fn above_one(shares: &[Share], c: ControllerNo) -> bool
    requires ranged { Ranged shares.now }
    requires c_bound { count (length shares.now) (on_in shares.now c.0) ≤ most_sharing }
    ensures { result ≡ is_above_one shares.now c.0 }
{
    let mut load = Fraction::new();
    for share in shares {
        if share.controller == c {
            load.add(share.cost, share.period);
        }
    }
    load.is_above_one()
}

// The lowest controller whose load is above one, whatever else is in the plan whose tasks have these shares.
pub fn lowest_overloaded(shares: &[Share], controllers: usize) -> Option<ControllerNo>
    requires ranged { Ranged shares.now }
    requires by_index { (c : ℕ) → c < controllers → count (length shares.now) (on_in shares.now c) ≤ most_sharing }
    ensures { (p : Plan) → Shares p controllers shares.now → Says p result }
{
    (0..controllers)
        .find(|c| above_one(shares, ControllerNo(*c)))
        .map(ControllerNo)
}
