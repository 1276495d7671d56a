// Numbers in limbs of 32 bits, the least significant limb first.
ghost use Rattle.std.specs.Prelude.{◌≡◌, ltb};
ghost use Rattle.load.specs.Limbs.{number, Limbs, HasRoom, MulAdded};

// A limb for each task that a controller may have: one more task multiplies by less than a limb counts to.
pub(crate) const LIMBS: usize = limits::SHARING;

// What a limb counts to.
const BASE: u64 = 0x1_0000_0000;

// Puts a·m + b·c into a. Only the first n limbs are used. By index: tried with a `zip` of
// `iter_mut`, after which a proof knows nothing of the limbs written.
pub(crate) fn mul_add(a: &mut [u64; LIMBS], m: u64, b: &[u64; LIMBS], c: u64, n: usize)
    requires { HasRoom n a.old m b.now c }
    ensures { MulAdded n a.old m b.now c a.new }
{
    let mut carry = 0;
    for i in 0..n {
        let sum = a[i] * m + b[i] * c + carry;
        a[i] = sum % BASE;
        carry = sum / BASE;
    }
}

// Whether a is below b.
pub(crate) fn below(a: &[u64; LIMBS], b: &[u64; LIMBS]) -> bool
    requires { Limbs a.now × Limbs b.now }
    ensures { result ≡ ltb (number a.now) (number b.now) }
{
    a.iter().rev().cmp(b.iter().rev()).is_lt()
}
