// Why a read or a write failed, in the system's words alone.
use arrayvec::ArrayString;
use std::fmt::Write;
use std::{fmt, io};

// The most bytes that an `io::Error` says: at most 256 of the system's words, and the error's number.
const SAID: usize = 320;

// An error that is said by the system's words alone, where an `io::Error` says its number behind them.
#[derive(Clone, Copy)]
pub struct Why(pub io::Error);

// What an `io::Error` says, up to its number.
impl fmt::Display for Why {
    // Says the words before the number that stands behind them in brackets.
    fn fmt<W: fmt::Write>(&self, f: &mut fmt::Formatter<W>) -> fmt::Result {
        let mut said = ArrayString::<SAID>::new();
        write!(said, "{}", self.0)?;
        match said.as_str().split_once(" (os error ") {
            Some((words, _)) => f.write_str(words),
            None => f.write_str(said.as_str()),
        }
    }
}
