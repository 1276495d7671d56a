// Words put into a text, one behind the other. The text and the place in it stay two parameters: the text is the
// caller's, who promises what its rest holds too.
ghost use Rattle.std.specs.Prelude.{◌+◌, ◌≤◌, length};
ghost use Rattle.paper.specs.Line.{decimal_of};
ghost use Rattle.console.specs.Said.{Put};

// The most digits that a number has.
const DIGITS: usize = 20;

// Puts bytes into a text from a place on, and hands back where they end.
pub(crate) fn put(bytes: &[u8], text: &mut [u8], at: usize) -> usize
    requires { at + length bytes.now ≤ length text.old }
    ensures { Put text.old at bytes.now text.new result }
{
    let end = at + bytes.len();
    text[at..end].copy_from_slice(bytes);
    end
}

// Puts a number in decimal.
pub(crate) fn put_decimal(n: u64, text: &mut [u8], at: usize) -> usize
    requires { at + DIGITS ≤ length text.old }
    ensures { Put text.old at (decimal_of n) text.new result × (result ≤ at + DIGITS) }
{
    let mut digits = [0u8; DIGITS];
    let count = io::decimal(n, &mut digits);
    put(&digits[..count], text, at)
}
