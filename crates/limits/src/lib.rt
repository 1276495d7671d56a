// Every number of document 01 that is a limit: the one home in code of what specs/Limits.antt of `paper` defines.
#![tactic(auto)]

ghost use Rattle.std.specs.Prelude.{◌≡◌};
ghost use Rattle.paper.specs.Limits.{plan_bytes, most_controllers, most_tasks, most_paths, most_sharing};
ghost use Rattle.paper.specs.Limits.{most_steps, most_cost, most_ticks, most_jobs};
ghost use Rattle.paper.specs.Report.{report_bytes};

// A plan is at most so many bytes long.
pub const PLAN_BYTES: usize = 4096;

// A plan has at most so many controllers,
pub const CONTROLLERS: usize = 16;

// so many tasks,
pub const TASKS: usize = 64;

// so many paths,
pub const PATHS: usize = 32;

// and so many tasks on one controller.
pub const SHARING: usize = 16;

// A report is at most so many bytes long: its head, a record for each task and one for each path.
pub const REPORT_BYTES: usize = 14 + 22 * TASKS + 29 * PATHS;

// A path has at most so many steps.
pub const STEPS: u64 = 16;

// A cost is at most so many ticks.
pub const COST: u64 = 1_000_000;

// A period, a jitter and a window are at most so many ticks.
pub const TICKS: u64 = 1_000_000_000;

// At most so many jobs are looked at.
pub const JOBS: u64 = 1_024;

// The limits are those of the definitions.
fn agree()
    ensures plan { PLAN_BYTES ≡ plan_bytes }
    ensures controllers { CONTROLLERS ≡ most_controllers }
    ensures tasks { TASKS ≡ most_tasks }
    ensures paths { PATHS ≡ most_paths }
    ensures sharing { SHARING ≡ most_sharing }
    ensures report { REPORT_BYTES ≡ report_bytes }
    ensures steps { STEPS ≡ most_steps }
    ensures cost { COST ≡ most_cost }
    ensures ticks { TICKS ≡ most_ticks }
    ensures jobs { JOBS ≡ most_jobs }
{}
