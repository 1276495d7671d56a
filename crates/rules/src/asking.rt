// The one question about a plan: which part of it holds a path's task numbers.
ghost use Rattle.rules.specs.Part.{Lies, PartOf};

use crate::judging::judge;
use plan::{Part, part_of, path_rows};

// Where the task numbers of a path of a well-formed plan lie; "for any other plan, or a path number the head does not count", an
// empty part at the start.
pub fn path_place(s: &[u8], path: usize) -> Part
    ensures { Lies s.now path result.from result.steps }
{
    // The document wants an empty part at the start, not nothing.
    let empty = Part { from: 0, steps: 0 };
    if judge(s).is_err() {
        return empty;
    }
    match path_rows(s).get(path) {
        Some(row) => row.part,
        None => empty,
    }
}

// "hands back the very part of the plan that holds a path's task numbers"; for any other plan, or a path number that the head
// does not count, an empty part.
pub fn path_part(s: &[u8], path: usize) -> &[u8]
    ensures { PartOf s.entry path result }
{
    part_of(s, path_place(s, path))
}
