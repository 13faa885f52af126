//! The parity bits of information bits, and the parity test (EN 302 307-1, 5.3.2).
ghost use Rattle.std.specs.Prelude.{◌≡◌, ◌≢◌, ℕ, ◌+◌, ◌*◌, ◌<◌, ◌≤◌, ◌==◌, ◌%◌, ◌↔◌, All, IsTrue, IfSome, MatchOption, false, length, count_by};
ghost use Rattle.s2_bits.specs.Bits.{xor, bit_at};
ghost use Rattle.s2_mode.specs.Shape.{information_bits, check_count};
ghost use Rattle.s2_mode.specs.Limits.{max_bits};
ghost use Rattle.s2_matrix.specs.Code.{code_of, ones_in, IsCodeword, IsOddCheck};
ghost use Rattle.s2_matrix.specs.Sums.{information_sum, parity_bit};
ghost use Rattle.s2_matrix.specs.Planes.{plane_place};

use crate::accumulator::accumulate;
use crate::matrix::Matrix;
use crate::planes::{add_row, part};
use s2_bits::{Bits, xor_first};
use s2_mode::{MAX_BITS, MAX_GROUP};

/// The number of checks that are tested one by one before all are tested at once. Bits that are far from a codeword
/// have an odd check among them.
const FIRST_CHECKS: usize = 64;

/// Adds up the information bits of each check, in planes that are zero.
fn add_groups(matrix: &Matrix, info: &[bool], planes: &mut [bool])
    requires info { length info.now ≡ information_bits matrix.now.shape }
    requires room { check_count matrix.now.shape ≤ length planes.old }
    requires few { length planes.old ≤ max_bits }
    requires empty { (k : ℕ) → bit_at planes.old k ≡ false }
    ensures long { length planes.new ≡ length planes.old }
    ensures are { (j : ℕ) → j < check_count matrix.now.shape → bit_at planes.new (plane_place matrix.now.shape.group matrix.now.shape.q j) ≡ information_sum (code_of matrix.now) info.now j }
{
    let shape = matrix.shape();
    let group = shape.group();
    let q = shape.q();
    let mut room = [false; 2 * MAX_GROUP];
    let (twice, _) = room.split_at_mut(2 * group);
    for g in 0..shape.groups() {
        let bits = part(info, group * g, group);
        add_row(planes, q, bits, twice, matrix.addresses(g));
    }
}

/// Whether two lists of the same length differ.
fn differ(a: &[bool], b: &[bool]) -> bool
    requires { length b.now ≡ length a.now }
    ensures { result ≡ false → (k : ℕ) → k < length a.now → bit_at a.now k ≡ bit_at b.now k }
{
    let mut apart = false;
    for k in 0..a.len() {
        apart = apart | (a[k] ^ b[k]);
    }
    apart
}

/// The first place at which two lists of the same length differ.
fn first_difference(a: &[bool], b: &[bool]) -> Option<usize>
    requires { length b.now ≡ length a.now }
    ensures { MatchOption result ((k : ℕ) → k < length a.now → bit_at a.now k ≡ bit_at b.now k) (λ j. (j < length a.now) × (bit_at a.now j ≢ bit_at b.now j) × ((k : ℕ) → k < j → bit_at a.now k ≡ bit_at b.now k)) }
{
    if differ(a, b) {
        for k in 0..a.len() {
            if a[k] != b[k] {
                return Some(k);
            }
        }
    }
    None
}

/// Writes the sum of each bit and the one before it; the first bit has none before it.
fn add_neighbours(bits: &[bool], sums: &mut [bool])
    requires some { 1 ≤ length sums.old }
    requires same { length bits.now ≡ length sums.old }
    ensures long { length sums.new ≡ length sums.old }
    ensures first { bit_at sums.new 0 ≡ bit_at bits.now 0 }
    ensures others { (k : ℕ) → k + 1 < length sums.old → bit_at sums.new (k + 1) ≡ xor (bit_at bits.now (k + 1)) (bit_at bits.now k) }
{
    sums[0] = bits[0];
    for k in 1..sums.len() {
        sums[k] = bits[k] ^ bits[k - 1];
    }
}

/// How many of these places hold a one.
fn ones_in(word: &[bool], places: &[u32]) -> usize
    requires { All (λ i. i < length word.now) places.now }
    ensures { result ≡ count_by (bit_at word.now) places.now }
{
    let mut ones = 0usize;
    for place in places {
        ones += usize::from(word[*place as usize]);
    }
    ones
}

impl Matrix {
    /// Writes the parity bits of k information bits: those that make a codeword of them. `info` has
    /// the k information bits of the shape, and `parities` n - k bits, which are all written. It
    /// allocates nothing.
    pub fn parities_into(&self, info: &[bool], parities: &mut [bool])
        requires info { length info.now ≡ information_bits self.now.shape }
        requires parities { length parities.old ≡ check_count self.now.shape }
        ensures long { length parities.new ≡ length parities.old }
        ensures are { (j : ℕ) → j < check_count self.now.shape
            → bit_at parities.new j ≡ parity_bit (code_of self.now) info.now j }
    {
        let shape = self.shape();
        let mut planes = [false; MAX_BITS];
        add_groups(self, info, &mut planes);
        accumulate(&mut planes, shape.group(), shape.q(), parities);
    }

    /// An odd check among the first few, one by one.
    fn odd_among_first(&self, codeword: &[bool]) -> Option<usize>
        requires { length codeword.now ≡ (code_of self.now).bits }
        ensures { IfSome result (IsOddCheck (code_of self.now) codeword.now) }
    {
        for check in 0..FIRST_CHECKS.min(self.check_count()) {
            if ones_in(codeword, self.members_at(check)) % 2 == 1 {
                return Some(check);
            }
        }
        None
    }

    /// The first odd check: that of the first parity bit that differs from the one computed from the information bits.
    fn odd_by_parities(&self, codeword: &[bool]) -> Option<usize>
        requires { length codeword.now ≡ (code_of self.now).bits }
        ensures { MatchOption result (IsCodeword (code_of self.now) codeword.now) (IsOddCheck (code_of self.now) codeword.now) }
    {
        let (info, parities) = codeword.split_at(self.shape().k());
        let mut made = [false; MAX_BITS];
        let (made, _) = made.split_at_mut(parities.len());
        self.parities_into(info, made);
        first_difference(parities, made)
    }

    /// Writes which checks have an odd number of ones in n bits (the syndrome). `codeword` has n bits, and `odd` n - k,
    /// which are all written. It allocates nothing. The parity bits are compared with those computed from the
    /// information bits. A check is odd if exactly one of the two differs: its parity bit, or the one before it.
    pub fn odd_into(&self, codeword: &[bool], odd: &mut [bool])
        requires codeword { length codeword.now ≡ (code_of self.now).bits }
        requires odd { length odd.old ≡ (code_of self.now).checks }
        ensures long { length odd.new ≡ length odd.old }
        ensures are { (j : ℕ) → j < (code_of self.now).checks
            → bit_at odd.new j ≡ (ones_in (code_of self.now) codeword.now j % 2 == 1) }
    {
        let (info, parities) = codeword.split_at(self.shape().k());
        let mut apart = [false; MAX_BITS];
        let (apart, _) = apart.split_at_mut(parities.len());
        self.parities_into(info, apart);
        xor_first(apart, parities, parities.len());
        add_neighbours(apart, odd);
    }

    /// The first check with an odd number of ones in n bits. `None` exactly for a codeword. It allocates
    /// nothing. If the first few checks are even, the parity bits are compared with those computed from
    /// the information bits.
    pub fn odd_check(&self, codeword: &Bits) -> Option<usize>
        requires { length codeword.now ≡ (code_of self.now).bits }
        ensures { MatchOption result (IsCodeword (code_of self.now) codeword.now)
            (IsOddCheck (code_of self.now) codeword.now) }
    {
        let codeword = codeword.truths();
        match self.odd_among_first(codeword) {
            Some(check) => Some(check),
            None => self.odd_by_parities(codeword),
        }
    }

    /// Whether n bits satisfy every check, which is to say that they are a codeword.
    pub fn satisfied(&self, codeword: &Bits) -> bool
        requires { length codeword.now ≡ (code_of self.now).bits }
        ensures { IsTrue result ↔ IsCodeword (code_of self.now) codeword.now }
    {
        self.odd_check(codeword).is_none()
    }
}
