// The functions that a static library holds. A slice is a pointer and a length for the caller, a reference a pointer.
ghost use Rattle.std.specs.Prelude.{◌≡◌, length};
ghost use Rattle.paper.specs.Answer.{Due};
ghost use Rattle.rules.specs.Part.{Lies};
ghost use Rattle.paper.specs.Report.{report_bytes};

use limits::REPORT_BYTES;
use rules::path_place;

// The answer to a plan: hands back its number, stores its place and its sweep number, and leaves its report or FF in the
// report space.
#[unsafe(no_mangle)]
pub extern "C" fn late_answer(
    plan: &[u8],
    report: &mut [u8],
    place: &mut u64,
    sweep: &mut u64,
) -> u64
    ensures { Due plan.now (length report.old)
        (record { number = result; place = place.new; sweep = sweep.new }) report.new }
{
    let numbers = bench::Numbers::from(bench::answer(plan, report));
    *place = numbers.place;
    *sweep = numbers.sweep;
    numbers.number
}

// The part of a well-formed plan that holds a path's task numbers: hands back how many there are, and stores where they
// begin. Both are 0 for any other plan, or a path that the head does not count.
#[unsafe(no_mangle)]
pub extern "C" fn late_path(plan: &[u8], path: u64, from: &mut u64) -> u64
    ensures { Lies plan.now path from.new result }
{
    let found = path_place(plan, path as usize);
    *from = found.from as u64;
    found.steps as u64
}

// So many bytes are room enough for any report.
#[unsafe(no_mangle)]
pub extern "C" fn late_report_bytes() -> u64
    ensures { result ≡ report_bytes }
{
    REPORT_BYTES as u64
}
