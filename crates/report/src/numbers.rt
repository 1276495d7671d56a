// Numbers and FF into a lent space.
ghost use Rattle.std.specs.Prelude.{◌≡◌, ◌++◌, ◌+◌, ◌-◌, ◌≤◌, length, take, replicate};
ghost use Rattle.paper.specs.Bytes.{bytes};
ghost use Rattle.report.specs.Wrote.{Wrote};

// Writes a number in `WIDTH` bytes at a place, the most significant byte first.
pub(crate) fn put<const WIDTH: usize>(out: &mut [u8], at: usize, number: u64)
    requires { (WIDTH ≤ 8) × (at + WIDTH ≤ length out.old) }
    ensures { Wrote out.old at (bytes WIDTH number) out.new }
{
    out[at..at + WIDTH].copy_from_slice(&number.to_be_bytes()[8 - WIDTH..]);
}

// Writes FF from a place to the end.
pub fn fill(out: &mut [u8], from: usize)
    requires { from ≤ length out.old }
    ensures { out.new ≡ take from out.old ++ replicate (length out.old - from) 255 }
{
    out[from..].fill(255);
}
