// Answers many plans, each after its length in two bytes on standard input, in one line each with the sweep number at its end.
#![tactic(auto)]

use console::{LINE, answer_line_and_sweep, read_up_to};
use std::fmt;
use std::io::Write;

// The most that two bytes can count.
const LONGEST: usize = u16::MAX as usize;

// Why no more plans are answered.
#[derive(Drop)]
enum Failed {
    // The input ends inside a length or a plan, or cannot be read.
    Input,
    // The output cannot be written.
    Output,
}

// What a line on standard error says of it.
impl fmt::Display for Failed {
    // Says it in words, one line for each case.
    fn fmt<W: fmt::Write>(&self, f: &mut fmt::Formatter<W>) -> fmt::Result {
        match self {
            Failed::Input => f.write_str("the input is cut"),
            Failed::Output => f.write_str("the output cannot be written"),
        }
    }
}

// The length of the next plan, or none where the input ends before it.
fn next_length(rt: &HostRuntime) -> Result<Option<u16>, Failed> {
    let mut head = [0u8; 2];
    match read_up_to(&mut rt.stdin(), &mut head) {
        Ok(0) => Ok(None),
        Ok(2) => Ok(Some(u16::from_be_bytes(head))),
        _ => Err(Failed::Input),
    }
}

// Answers the plan that follows, so many bytes long.
fn answer_one(rt: &HostRuntime, length: u16) -> Result<(), Failed> {
    let mut space = [0u8; LONGEST];
    let plan = &mut space[..usize::from(length)];
    let bytes = read_up_to(&mut rt.stdin(), plan).map_err(|_| Failed::Input)?;
    if bytes < plan.len() {
        return Err(Failed::Input);
    }
    let mut text = [0u8; LINE];
    let end = answer_line_and_sweep(plan, &mut text);
    rt.stdout()
        .write_all(&text[..end])
        .map_err(|_| Failed::Output)
}

// Answers each plan in turn. A proved loop has to end, and nothing says that the input does: no run uses up so many turns.
fn answer_all(rt: &HostRuntime) -> Result<(), Failed> {
    for _ in 0..u64::MAX {
        let Some(length) = next_length(rt)? else {
            break;
        };
        answer_one(rt, length)?;
    }
    Ok(())
}

// Each plan is answered, or a line on standard error says why no more are.
fn main(rt: HostRuntime) {
    if let Err(failed) = answer_all(&rt) {
        let _ = eprintln!(rt; "vectors: {failed}");
    }
}
