// The report's records: each is written at the front of the part of the report that begins where the last one ended.
ghost use Rattle.std.specs.Prelude.{◌≡◌, ◌++◌, ◌-◌, ◌≤◌, ℕ, length};
ghost use Rattle.paper.specs.Bytes.{Bytes, bytes};
ghost use Rattle.paper.specs.Report.{head_record};
ghost use Rattle.report.specs.Figured.{of_task, of_path};
ghost use Rattle.report.specs.Rows.{task_long, path_long};
ghost use Rattle.report.specs.Wrote.{Wrote};

use crate::figures::{PathFigures, TaskFigures};
use crate::numbers::put;
use crate::tags;

// Writes the tag of a record of so many bytes, and the length of its value: all but the 3 bytes of tag and length.
fn heading(rest: &mut [u8], tag: u64, long: usize)
    requires { (3 ≤ long) × (long ≤ length rest.old) }
    ensures { Wrote rest.old 0 (bytes 1 tag ++ bytes 2 (long - 3)) rest.new }
{
    put::<1>(rest, 0, tag);
    put::<2>(rest, 1, long as u64 - 3);
}

// What stands in the head: the sweeps, how many tasks, how many paths.
#[derive(Clone, Copy)]
pub(crate) struct Head {
    pub(crate) sweeps: u64,
    pub(crate) tasks: usize,
    pub(crate) paths: usize,
}

impl Head {
    // "81, 11": 3 bytes and 11.
    pub(crate) const LONG: usize = 14;

    // Writes the head: edition 1; sweeps; tasks; paths.
    pub(crate) fn write(self, rest: &mut [u8])
        requires { 14 ≤ length rest.old }
        ensures { Wrote rest.old 0 (head_record self.sweeps self.tasks self.paths) rest.new }
    {
        heading(rest, tags::HEAD, Head::LONG);
        put::<1>(rest, 3, 1);
        put::<8>(rest, 4, self.sweeps);
        put::<1>(rest, 12, self.tasks as u64);
        put::<1>(rest, 13, self.paths as u64);
    }
}

// The figures of a task or a path, which stand in a record of their own.
pub(crate) trait Record: Copy {
    // How many bytes the record is long,
    const LONG: usize;

    // which contracts name too.
    ghost LONG: { ℕ };

    // The record of the task or the path that has this number.
    ghost record_of: { Self → ℕ → Bytes };

    // Writes that record.
    fn write(&self, number: usize, rest: &mut [u8])
        requires { LONG ≤ length rest.old }
        ensures { Wrote rest.old 0 (record_of self.now number) rest.new };

    // Each record is as long as that.
    ghost all_long: { (x : Self) (number : ℕ) → length (record_of x number) ≡ LONG };
}

// A task's figures stand in the task's record.
impl Record for TaskFigures {
    // "90, 19": 3 bytes and 19.
    const LONG: usize = 22;

    ghost LONG = { 22 };

    ghost record_of = { of_task };

    ghost all_long = { task_long };

    // Writes a task's record: task; R-, R+, input jitter, output jitter; jobs looked at.
    fn write(&self, number: usize, rest: &mut [u8]) {
        heading(rest, tags::TASK, TaskFigures::LONG);
        put::<1>(rest, 3, number as u64);
        put::<4>(rest, 4, self.least.0);
        put::<4>(rest, 8, self.bound.0);
        put::<4>(rest, 12, self.input.0);
        put::<4>(rest, 16, self.output.0);
        put::<2>(rest, 20, self.jobs.0);
    }
}

// A path's figures stand in the path's record.
impl Record for PathFigures {
    // "A0, 26": 3 bytes and 26.
    const LONG: usize = 29;

    ghost LONG = { 29 };

    ghost record_of = { of_path };

    ghost all_long = { path_long };

    // Writes a path's record: path; verdict; best, worst, slack.
    fn write(&self, number: usize, rest: &mut [u8]) {
        heading(rest, tags::PATH, PathFigures::LONG);
        put::<1>(rest, 3, number as u64);
        put::<1>(rest, 4, self.verdict().number());
        put::<8>(rest, 5, self.best.0);
        put::<8>(rest, 13, self.worst.0);
        put::<8>(rest, 21, self.slack());
    }
}
