//! The accumulator: the sums of the checks are added up in the order of the checks (EN 302 307-1, 5.3.2).
ghost use Rattle.std.specs.Prelude.{◌≡◌, ℕ, ◌+◌, ◌-◌, ◌*◌, ◌<◌, ◌≤◌, false, length};
ghost use Rattle.s2_bits.specs.Bits.{xor, bit_at};
ghost use Rattle.s2_matrix.specs.Sums.{sum_of};
ghost use Rattle.s2_matrix.specs.Planes.{plane_place};
ghost use Rattle.s2_matrix.specs.Transpose.{carry_at, accumulated};

use crate::transpose::{BLOCK, write_eight_lanes};

/// Adds the previous plane to the plane that begins at a place.
fn add_plane_before(planes: &mut [bool], group: usize, at: usize)
    requires before { group ≤ at }
    requires room { at + group ≤ length planes.old }
    ensures long { length planes.new ≡ length planes.old }
    ensures added { (c : ℕ) → c < group → bit_at planes.new (at + c) ≡ xor (bit_at planes.old (at + c)) (bit_at planes.old (at - group + c)) }
    ensures front { (k : ℕ) → k < at → bit_at planes.new k ≡ bit_at planes.old k }
    ensures behind { (k : ℕ) → at + group ≤ k → bit_at planes.new k ≡ bit_at planes.old k }
{
    for c in 0..group {
        planes[at + c] = planes[at + c] ^ planes[at - group + c];
    }
}

/// Makes each plane the sum of the planes up to it, lane by lane.
fn add_planes_up(planes: &mut [bool], group: usize, q: usize)
    requires room { q * group ≤ length planes.old }
    ensures long { length planes.new ≡ length planes.old }
    ensures sums { (r c : ℕ) → r < q → c < group → bit_at planes.new (r * group + c) ≡ sum_of (λ i. bit_at planes.old (i * group + c)) (r + 1) }
{
    for r in 1..q {
        add_plane_before(planes, group, r * group);
    }
}

/// Writes a lane's checks, which follow one another. Each is the planes' sum plus the sum of all
/// checks before the lane.
fn write_lane(
    planes: &[bool],
    group: usize,
    q: usize,
    lane: usize,
    carry: bool,
    parities: &mut [bool],
)
    requires lane { lane < group }
    requires size { length parities.old ≡ group * q }
    requires room { q * group ≤ length planes.now }
    ensures long { length parities.new ≡ length parities.old }
    ensures written { (r : ℕ) → r < q → bit_at parities.new (lane * q + r) ≡ xor carry (bit_at planes.now (r * group + lane)) }
    ensures front { (k : ℕ) → k < lane * q → bit_at parities.new k ≡ bit_at parities.old k }
{
    for r in 0..q {
        parities[lane * q + r] = carry ^ planes[r * group + lane];
    }
}

/// Writes the checks lane by lane, for few lanes or few planes.
fn write_lanes(planes: &[bool], group: usize, q: usize, parities: &mut [bool])
    requires some { 1 ≤ q }
    requires size { length parities.old ≡ group * q }
    requires room { group * q ≤ length planes.now }
    ensures long { length parities.new ≡ length parities.old }
    ensures sums { (j : ℕ) → j < group * q → bit_at parities.new j ≡ accumulated group q planes.now j }
{
    let mut carry = false;
    for lane in 0..group {
        write_lane(planes, group, q, lane, carry, parities);
        carry = parities[lane * q + q - 1];
    }
}

/// The bit before a place, and zero before the first.
fn bit_before(bits: &[bool], at: usize) -> bool
    requires { at ≤ length bits.now }
    ensures first { at ≡ 0 → result ≡ false }
    ensures others { 0 < at → result ≡ bit_at bits.now (at - 1) }
{
    if at == 0 { false } else { bits[at - 1] }
}

/// Writes the checks by blocks of lanes. The last block may overlap the one before it.
fn write_blocks(planes: &[bool], group: usize, q: usize, parities: &mut [bool])
    requires lanes { 8 ≤ group }
    requires planes { 8 ≤ q }
    requires size { length parities.old ≡ group * q }
    requires room { group * q ≤ length planes.now }
    ensures long { length parities.new ≡ length parities.old }
    ensures sums { (j : ℕ) → j < group * q → bit_at parities.new j ≡ accumulated group q planes.now j }
{
    for block in 0..group.div_ceil(BLOCK) {
        let lane = (BLOCK * block).min(group - BLOCK);
        let carry = bit_before(parities, lane * q);
        write_eight_lanes(planes, group, q, lane, carry, parities);
    }
}

/// Adds up the checks' sums in the order of the checks: first within each lane, for all lanes at
/// once, then from lane to lane.
pub(crate) fn accumulate(planes: &mut [bool], group: usize, q: usize, parities: &mut [bool])
    requires some { 1 ≤ q }
    requires size { length parities.old ≡ group * q }
    requires room { group * q ≤ length planes.old }
    ensures long { length parities.new ≡ length parities.old }
    ensures sums { (j : ℕ) → j < group * q → bit_at parities.new j ≡ sum_of (λ i. bit_at planes.old (plane_place group q i)) (j + 1) }
{
    add_planes_up(planes, group, q);
    if group < BLOCK || q < BLOCK {
        write_lanes(planes, group, q, parities);
    } else {
        write_blocks(planes, group, q, parities);
    }
}
