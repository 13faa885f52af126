// Loops over slices of truth values.
ghost use Rattle.std.specs.Prelude.{◌≡◌, ℕ, ◌<◌, ◌≤◌, false, length, count_by};
ghost use Rattle.s2_bits.specs.Bits.{xor, bit_at, differences, Rewritten};

/// Adds the first bits of one list to those of another, whose other bits are unchanged.
pub fn xor_first(to: &mut [bool], from: &[bool], len: usize)
    requires room { len ≤ length to.old }
    requires enough { len ≤ length from.now }
    ensures { Rewritten false len (λ k. xor (bit_at to.old k) (bit_at from.now k)) to.old to.new }
{
    for i in 0..len {
        to[i] = to[i] ^ from[i];
    }
}

pub(crate) fn copy_first(to: &mut [bool], from: &[bool], len: usize)
    requires room { len ≤ length to.old }
    requires enough { len ≤ length from.now }
    ensures { Rewritten false len (bit_at from.now) to.old to.new }
{
    for i in 0..len {
        to[i] = from[i];
    }
}

pub(crate) fn count_ones(bits: &[bool]) -> usize
    ensures { result ≡ count_by (λ b. b) bits.now }
{
    let mut ones = 0;
    for bit in bits {
        ones += usize::from(*bit);
    }
    ones
}

pub(crate) fn distance(a: &[bool], b: &[bool]) -> usize
    requires { length b.now ≡ length a.now }
    ensures { result ≡ differences (length a.now) a.now b.now }
{
    let mut apart = 0;
    for i in 0..a.len() {
        apart += usize::from(a[i] ^ b[i]);
    }
    apart
}
