// The answer to a plan as one line of text: the report in capital hexadecimal, or the refusal's number and place in decimal.
ghost use Rattle.std.specs.Prelude.{◌≡◌, ◌*◌, ◌≤◌, length, Err, IfOk};
ghost use Rattle.io.specs.Counts.{IsPrefixLen};
ghost use Rattle.paper.specs.Bytes.{Bytes};
ghost use Rattle.paper.specs.Line.{hex_of, words_of, line_of};
ghost use Rattle.bench.specs.Answers.{said};
ghost use Rattle.paper.specs.Report.{report_bytes};
ghost use Rattle.console.specs.Said.{Put, Says, swept_line_of};

use crate::text::{put, put_decimal};
use bench::{Accepted, Answer, Numbers, Refusal};
use limits::REPORT_BYTES;

// Room for any line: a report's digits, a space, a sweep number and the end of the line.
pub const LINE: usize = 2 * REPORT_BYTES + 22;

// Puts a report in hexadecimal.
fn put_report(report: &[u8], text: &mut [u8]) -> usize
    requires { 2 * length report.now ≤ length text.old }
    ensures { Put text.old 0 (hex_of report.now) text.new result }
{
    hexadecimal::write(report, text);
    2 * report.len()
}

// Puts a refusal's number, a space and its place.
fn put_refusal(refusal: Refusal, text: &mut [u8; LINE]) -> usize
    ensures words { (report : Bytes) → Put text.old 0 (words_of (said (Err refusal)) report) text.new result }
    ensures room { result ≤ 2 * report_bytes }
{
    let numbers = Numbers::from(Err(refusal));
    let number = put_decimal(numbers.number, text, 0);
    let space = put(b" ", text, number);
    put_decimal(numbers.place, text, space)
}

// Puts what the line says of an answer.
fn put_words(answer: Answer, report: &[u8; REPORT_BYTES], text: &mut [u8; LINE]) -> usize
    requires { IfOk answer (λ accepted. accepted.length ≤ report_bytes) }
    ensures words { Put text.old 0 (words_of (said answer) report.now) text.new result }
    ensures room { result ≤ 2 * report_bytes }
{
    match answer {
        Ok(Accepted { length, .. }) => put_report(&report[..length], text),
        Err(refusal) => put_refusal(refusal, text),
    }
}

// Puts what the line says of the answer to a plan, and hands back where that ends and the sweep number.
fn put_answer(plan: &[u8], text: &mut [u8; LINE]) -> (usize, u64)
    ensures says { (says : Says words_of plan.now text.old text.new result.0) × (result.1 ≡ says.answer.sweep) }
    ensures room { result.0 ≤ 2 * report_bytes }
{
    let mut report = [0u8; REPORT_BYTES];
    let answer = bench::answer(plan, &mut report);
    (
        put_words(answer, &report, text),
        Numbers::from(answer).sweep,
    )
}

// The line for a plan, at the front of a text: hands back how long it is. The text is lent, since `says_one` speaks of its rest too.
pub fn answer_line(plan: &[u8], text: &mut [u8; LINE]) -> usize
    ensures says { Says line_of plan.now text.old text.new result }
    ensures prefix_len { IsPrefixLen result text.new }
{
    let (words, _) = put_answer(plan, text);
    put(b"\n", text, words)
}

// The line for a plan with the sweep number at its end.
pub fn answer_line_and_sweep(plan: &[u8], text: &mut [u8; LINE]) -> usize
    ensures says { Says swept_line_of plan.now text.old text.new result }
    ensures prefix_len { IsPrefixLen result text.new }
{
    let (words, sweep) = put_answer(plan, text);
    let space = put(b" ", text, words);
    let swept = put_decimal(sweep, text, space);
    put(b"\n", text, swept)
}
