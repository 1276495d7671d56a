// What is to be said of a plan's bytes before a report is asked for: refusals 1 to 10.
ghost use Rattle.plan.specs.Judged.{said};
ghost use Rattle.plan.specs.Tables.{ReadOff};
ghost use Rattle.rules.specs.Judges.{Judges};

use crate::refusals::{refusal_7, refusal_8, refusal_9, refusal_10};
use plan::{Path, Refusal, Task, head_of, path_rows, read, task_rows};

// Refusals 7 to 10 of a plan that reads, by its rows.
pub fn ruled(s: &[u8], tasks: &[Task], paths: &[Path]) -> Result<(), Refusal>
    requires { ReadOff s.now tasks.now paths.now }
    ensures { Judges s.now (said result) }
{
    refusal_7(tasks)?;
    refusal_8(tasks)?;
    refusal_9(s, tasks, paths)?;
    refusal_10(tasks, head_of(s).controllers)
}

// Refusals 1 to 10 of any bytes.
pub fn judge(s: &[u8]) -> Result<(), Refusal>
    ensures { Judges s.now (said result) }
{
    read(s)?;
    ruled(s, &task_rows(s), &path_rows(s))
}
