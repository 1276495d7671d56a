// Standard input, up to as many bytes as there is space for.
ghost use Rattle.std.specs.Prelude.{IfOk, IfErr};
ghost use Rattle.io.specs.Counts.{IsPrefixLen};

use std::io;
use std::io::Read;

// A read that failed: so many bytes had come, at the front of the space, and why no more do.
#[derive(Clone, Copy)]
pub struct Cut {
    pub bytes: usize,
    pub why: io::Error,
}

// Reads until the space is full, the input ends or a read fails, and hands back how many bytes came, at the front of the space.
pub fn read_up_to<R: Read>(reader: &mut R, space: &mut [u8]) -> Result<usize, Cut>
    ensures came { IfOk result (λ bytes. IsPrefixLen bytes space.new) }
    ensures cut { IfErr result (λ cut. IsPrefixLen cut.bytes space.new) }
{
    let mut bytes = 0;
    // Each turn goes on by as many bytes as the reader gave.
    while bytes < space.len() {
        match reader.read(&mut space[bytes..]) {
            Ok(0) => break,
            Ok(more) => bytes += more,
            Err(why) => return Err(Cut { bytes, why }),
        }
    }
    Ok(bytes)
}
