// Answers the plan on standard input in one line: the report in capital hexadecimal, or the refusal's number and place.
#![tactic(auto)]

use console::{LINE, Why, answer_line, read_up_to};
use limits::PLAN_BYTES;
use std::io::Write;
use std::{fmt, io};

// One byte more than a plan may have tells that it is too long.
const ENOUGH: usize = PLAN_BYTES + 1;

// Why there is no answer: what failed, with the system's error.
#[derive(Drop)]
enum Failed {
    Input(io::Error),
    Output(io::Error),
}

// What failed and why, in the system's words.
impl fmt::Display for Failed {
    // Says what failed, and behind it why.
    fn fmt<W: fmt::Write>(&self, f: &mut fmt::Formatter<W>) -> fmt::Result {
        let (what, error) = match self {
            Failed::Input(error) => ("input", error),
            Failed::Output(error) => ("output", error),
        };
        write!(f, "standard {what}: {}", Why(*error))
    }
}

// Reads the plan and writes its line whole.
fn answer(rt: &HostRuntime) -> Result<(), Failed> {
    let mut plan = [0u8; ENOUGH];
    let bytes = read_up_to(&mut rt.stdin(), &mut plan).map_err(|cut| Failed::Input(cut.why))?;
    let mut text = [0u8; LINE];
    let end = answer_line(&plan[..bytes], &mut text);
    rt.stdout().write_all(&text[..end]).map_err(Failed::Output)
}

// The line is written whole, or a line on standard error says what failed.
fn main(rt: HostRuntime) {
    if let Err(failed) = answer(&rt) {
        let _ = eprintln!(rt; "late: {failed}");
    }
}
