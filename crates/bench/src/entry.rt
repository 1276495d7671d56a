// The entry: any bytes as a plan, any space for a report.
ghost use Rattle.std.specs.Prelude.{◌≡◌, length};
ghost use Rattle.paper.specs.Tables.{Plan, plan_of};
ghost use Rattle.paper.specs.Fields.{passed};
ghost use Rattle.paper.specs.Refusals.{read, WellFormed};
ghost use Rattle.sweep.specs.Rows.{per_task};
ghost use Rattle.bench.specs.Answers.{Answers, Weighs, Ready};
ghost use Rattle.bench.specs.Rows.{share_row};
ghost use Rattle.bench.specs.Tabled.{Timed, Tabled};

use crate::answers::{Accepted, Answer, Refusal};
use crate::figures::{path_figures, task_figures};
use arrayvec::ArrayVec;
use limits::TASKS;
use load::{Share, lowest_overloaded};
use plan::{Path, Task, head_of, path_rows, read, task_rows};
use report::{fill, length_of, write};
use rules::ruled;
use stream::Ticks;
use sweep::{periods, settle};

// What every task adds to the load of its controller. (Another list of the same tasks stands beside them, as it was handed back.)
fn shares_of(tasks: &[Task], periods: &[Ticks]) -> ArrayVec<Share, TASKS>
    requires { (p : Plan) × Timed p tasks.now periods.now }
    ensures { (p : Plan) → Timed p tasks.now periods.now → result.items ≡ per_task p (share_row p) }
{
    let mut shares = ArrayVec::new();
    for (task, period) in tasks.iter().zip(periods) {
        shares.push(Share {
            controller: task.controller,
            cost: task.most,
            period: *period,
        });
    }
    shares
}

// Refuses the lowest controller whose load is above one.
fn weigh(s: &[u8], tasks: &[Task], periods: &[Ticks]) -> Result<(), Refusal>
    requires { WellFormed s.now × Timed (plan_of s.now) tasks.now periods.now }
    ensures { Weighs (plan_of s.now) result }
{
    match lowest_overloaded(&shares_of(tasks, periods), head_of(s).controllers) {
        Some(controller) => Err(Refusal::Overloaded { controller }),
        None => Ok(()),
    }
}

// The answer to a well-formed plan, whose rows these are.
fn report_of(s: &[u8], tasks: &[Task], paths: &[Path], report: &mut [u8]) -> Answer
    requires { Tabled s.now tasks.now paths.now }
    ensures { Ready s.now (length report.old) result report.new }
{
    let length = length_of(tasks.len(), paths.len());
    if report.len() < length {
        return Err(Refusal::Short { needed: length });
    }
    let periods = periods(tasks);
    weigh(s, tasks, &periods)?;
    let mut settled = ArrayVec::new();
    let sweep = settle(tasks, &mut settled)?;
    let figures = task_figures(tasks, &settled);
    let times = path_figures(s, paths, &figures);
    write(report, sweep, &figures, &times);
    Ok(Accepted { length, sweep })
}

// The answer to a plan that reads. (Apart from the reading, so that no table is made room for where that refuses.)
fn ruled_report(s: &[u8], report: &mut [u8]) -> Answer
    requires { read s.now ≡ passed }
    ensures { Ready s.now (length report.old) result report.new }
{
    let tasks = task_rows(s);
    let paths = path_rows(s);
    ruled(s, &tasks, &paths)?;
    report_of(s, &tasks, &paths, report)
}

// The answer to a plan, with its report where it is accepted. Where it is refused, the report space is still to be filled.
fn report_on(s: &[u8], report: &mut [u8]) -> Answer
    ensures { Ready s.now (length report.old) result report.new }
{
    read(s)?;
    ruled_report(s, report)
}

// The answer to a plan, with its report or FF in the report space.
pub fn answer(plan: &[u8], report: &mut [u8]) -> Answer
    ensures { Answers plan.now (length report.old) result report.new }
{
    let answer = report_on(plan, report);
    if answer.is_err() {
        // "Every refusal sets each byte of the report space to FF."
        fill(report, 0);
    }
    answer
}
