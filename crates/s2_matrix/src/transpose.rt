//! Blocks of eight planes and eight lanes, transposed: the bits of each lane then follow one another.
ghost use Rattle.std.specs.Prelude.{◌≡◌, ℕ, ◌+◌, ◌-◌, ◌*◌, ◌<◌, ◌≤◌, Bool, length};
ghost use Rattle.s2_bits.specs.Bits.{xor, bit_at};
ghost use Rattle.s2_bits.specs.Lanes.{eight};
ghost use Rattle.s2_matrix.specs.Sums.{sum_of};
ghost use Rattle.s2_matrix.specs.Transpose.{eight_rows, carry_at, accumulated, Fills, FillsEight};

use s2_bits::eight_from;
use std::simd::prelude::*;

/// How many planes and lanes a block has.
pub(crate) const BLOCK: usize = 8;

/// The lanes of two vectors interleaved: the bits of two planes, of four and of eight, lane by lane.
const PAIRS: [usize; 16] = [0, 8, 1, 9, 2, 10, 3, 11, 4, 12, 5, 13, 6, 14, 7, 15];

const FOURS: [usize; 32] = [
    0, 16, 1, 17, 2, 18, 3, 19, 4, 20, 5, 21, 6, 22, 7, 23, 8, 24, 9, 25, 10, 26, 11, 27, 12, 28,
    13, 29, 14, 30, 15, 31,
];

const EIGHTS: [usize; 64] = [
    0, 32, 1, 33, 2, 34, 3, 35, 4, 36, 5, 37, 6, 38, 7, 39, 8, 40, 9, 41, 10, 42, 11, 43, 12, 44,
    13, 45, 14, 46, 15, 47, 16, 48, 17, 49, 18, 50, 19, 51, 20, 52, 21, 53, 22, 54, 23, 55, 24, 56,
    25, 57, 26, 58, 27, 59, 28, 60, 29, 61, 30, 62, 31, 63,
];

/// Each lane of a vector eight times.
const EACH: [usize; 64] = [
    0, 0, 0, 0, 0, 0, 0, 0, 1, 1, 1, 1, 1, 1, 1, 1, 2, 2, 2, 2, 2, 2, 2, 2, 3, 3, 3, 3, 3, 3, 3, 3,
    4, 4, 4, 4, 4, 4, 4, 4, 5, 5, 5, 5, 5, 5, 5, 5, 6, 6, 6, 6, 6, 6, 6, 6, 7, 7, 7, 7, 7, 7, 7, 7,
];

/// Writes eight bits from a place on.
#[inline(always)]
fn store(numbers: u8x8, bits: &mut [bool], at: usize)
    requires { at + 8 ≤ length bits.old }
    ensures { (f : ℕ → Bool) → numbers ≡ eight (λ k. f (at + k)) → Fills f at 8 bits.old bits.new }
{
    let [a, b, c, d, e, f, g, h] = numbers.to_array();
    bits[at] = a != 0;
    bits[at + 1] = b != 0;
    bits[at + 2] = c != 0;
    bits[at + 3] = d != 0;
    bits[at + 4] = e != 0;
    bits[at + 5] = f != 0;
    bits[at + 6] = g != 0;
    bits[at + 7] = h != 0;
}

/// What each of eight lanes adds to each of its eight bits: the sum of all lanes before it. The first lane adds
/// `first`. The lanes' own sums are in `sums`, from a place on.
#[inline(always)]
fn carries(sums: &[bool], at: usize, first: bool) -> u8x64
    requires { at + 7 ≤ length sums.now }
    ensures { result ≡ eight_rows (λ l r. xor first (sum_of (λ i. bit_at sums.now (at + i)) l)) }
{
    let second = first ^ sums[at];
    let third = second ^ sums[at + 1];
    let fourth = third ^ sums[at + 2];
    let fifth = fourth ^ sums[at + 3];
    let sixth = fifth ^ sums[at + 4];
    let seventh = sixth ^ sums[at + 5];
    let eighth = seventh ^ sums[at + 6];
    u8x8::from_array([
        u8::from(first),
        u8::from(second),
        u8::from(third),
        u8::from(fourth),
        u8::from(fifth),
        u8::from(sixth),
        u8::from(seventh),
        u8::from(eighth),
    ])
    .swizzle(EACH)
}

/// Eight bits of each of eight planes from a place on, lane by lane.
#[inline(always)]
fn transposed(planes: &[bool], group: usize, at: usize) -> u8x64
    requires { at + 7 * group + 8 ≤ length planes.now }
    ensures { result ≡ eight_rows (λ l r. bit_at planes.now (at + r * group + l)) }
{
    let first = eight_from(planes, at);
    let second = eight_from(planes, at + group);
    let third = eight_from(planes, at + 2 * group);
    let fourth = eight_from(planes, at + 3 * group);
    let fifth = eight_from(planes, at + 4 * group);
    let sixth = eight_from(planes, at + 5 * group);
    let seventh = eight_from(planes, at + 6 * group);
    let eighth = eight_from(planes, at + 7 * group);
    let odd = first
        .shuffle(fifth, PAIRS)
        .shuffle(third.shuffle(seventh, PAIRS), FOURS);
    let even = second
        .shuffle(sixth, PAIRS)
        .shuffle(fourth.shuffle(eighth, PAIRS), FOURS);
    odd.shuffle(even, EIGHTS)
}

/// Writes eight bits of each of eight lanes from a place on, each lane's q places after those of the lane before.
#[inline(always)]
fn put(lanes: u8x64, q: usize, parities: &mut [bool], at: usize)
    requires { at + 7 * q + 8 ≤ length parities.old }
    ensures { (f : ℕ → Bool) → lanes ≡ eight_rows (λ l r. f (at + l * q + r)) → FillsEight f at 8 q parities.old parities.new }
{
    store(lanes.extract::<0, 8>(), parities, at);
    store(lanes.extract::<8, 8>(), parities, at + q);
    store(lanes.extract::<16, 8>(), parities, at + 2 * q);
    store(lanes.extract::<24, 8>(), parities, at + 3 * q);
    store(lanes.extract::<32, 8>(), parities, at + 4 * q);
    store(lanes.extract::<40, 8>(), parities, at + 5 * q);
    store(lanes.extract::<48, 8>(), parities, at + 6 * q);
    store(lanes.extract::<56, 8>(), parities, at + 7 * q);
}

/// Writes the checks of eight lanes. The first lane adds `first` to the planes' sums. The last block of planes may
/// overlap the one before it.
pub(crate) fn write_eight_lanes(
    planes: &[bool],
    group: usize,
    q: usize,
    lane: usize,
    first: bool,
    parities: &mut [bool],
)
    requires lanes { lane + 8 ≤ group }
    requires planes { 8 ≤ q }
    requires size { length parities.old ≡ group * q }
    requires room { group * q ≤ length planes.now }
    requires first { first ≡ carry_at group q planes.now lane }
    ensures { FillsEight (accumulated group q planes.now) (lane * q) q q parities.old parities.new }
{
    let carries = carries(planes, (q - 1) * group + lane, first);
    for block in 0..q.div_ceil(BLOCK) {
        let plane = (BLOCK * block).min(q - BLOCK);
        let lanes = transposed(planes, group, plane * group + lane);
        put(carries ^ lanes, q, parities, lane * q + plane);
    }
}
