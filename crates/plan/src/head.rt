// What the head counts.
ghost use Rattle.std.specs.Prelude.{◌<◌, ◌≡◌};
ghost use Rattle.paper.specs.Fields as Fields;

use crate::bytes::number_at;

// How many controllers, tasks and paths.
#[derive(Clone, Copy, PartialEq, Eq)]
pub struct Head {
    pub controllers: usize,
    pub tasks: usize,
    pub paths: usize,
}

// The counts that stand where those of a plan's head do. (Where the head is refused they mean nothing.)
pub fn head_of(s: &[u8]) -> Head
    ensures controllers { (result.controllers ≡ Fields.controllers_of s.now) × (result.controllers < 256) }
    ensures tasks { (result.tasks ≡ Fields.tasks_of s.now) × (result.tasks < 256) }
    ensures paths { (result.paths ≡ Fields.paths_of s.now) × (result.paths < 256) }
{
    Head {
        controllers: number_at::<1>(s, 4) as usize,
        tasks: number_at::<1>(s, 5) as usize,
        paths: number_at::<1>(s, 6) as usize,
    }
}
