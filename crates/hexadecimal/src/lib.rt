// Bytes in capital hexadecimal, two digits a byte and nothing between. (The kit's `hex` writes small letters into a lent space, and capital
// ones only into a text on the heap.)
#![tactic(auto)]

ghost use Rattle.std.specs.Prelude.{◌≡◌, ◌*◌, ◌≤◌, ◌<◌, length};
ghost use Rattle.std.proofs.lemmas.List.Edits.{sets};
ghost use Rattle.paper.specs.Line.{digit_of, hex_of};

// The digit, in ASCII, of a number below 16.
#[tactic(auto, unfolding(paper::specs::Line::digit_of))]
fn digit(n: u8) -> u8
    requires { n < 16 }
    ensures { result ≡ digit_of n }
{
    if n < 10 { b'0' + n } else { b'A' - 10 + n }
}

// Writes the digits of the bytes at the front of a text that has room for them.
pub fn write(bytes: &[u8], text: &mut [u8])
    requires { 2 * length bytes.now ≤ length text.old }
    ensures { text.new ≡ sets text.old 0 (hex_of bytes.now) }
{
    for (i, byte) in bytes.iter().enumerate() {
        text[2 * i] = digit(byte / 16);
        text[2 * i + 1] = digit(byte % 16);
    }
}
