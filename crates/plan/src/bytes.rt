// Numbers of a plan. A byte past the end counts 0, so every place has a number.
ghost use Rattle.std.specs.Prelude.{◌+◌, ◌<◌, ◌≤◌, ◌^◌, ◌≡◌, get_or};
ghost use Rattle.paper.specs.Bytes.{number};

// The byte at a place.
fn byte_at(s: &[u8], at: usize) -> u8
    ensures { result ≡ get_or s.now at 0 }
{
    s.get(at).copied().unwrap_or(0)
}

// The number in the N bytes from a place on.
pub fn number_at<const N: usize>(s: &[u8], at: usize) -> u64
    requires { (N ≤ 8) × (at + N ≤ 2 ^ 64) }
    ensures { (result ≡ number s.now at N) × (result < 256 ^ N) }
{
    let mut n: u64 = 0;
    // (By index: a byte past the end counts 0, so a slice of N bytes need not be there.)
    for i in 0..N {
        n = n * 256 + u64::from(byte_at(s, at + i));
    }
    n
}
