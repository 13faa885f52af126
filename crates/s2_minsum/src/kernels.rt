//! The kernels of a layer, each for one row: a number in each lane.
ghost use Rattle.std.specs.Prelude.{◌≡◌, ◌≤◌, length, slice_index, EachIndex};
ghost use Rattle.s2_mode.specs.Limits.{max_group};
ghost use Rattle.s2_bits.specs.Lanes16.{minus16, plus16};
ghost use Rattle.s2_minsum.specs.Rows.{rotated, rotated_back};

use crate::lanes::{load, minus, plus};

/// A circulant of the parity-check matrix, an entry of a layer: the row of a group that its checks read, and its
/// rotation.
#[derive(Clone, Copy, Drop)]
pub struct Circulant {
    pub row: u32,
    pub shift: u32,
}

/// Writes the differences of rows that are shorter than a vector.
fn subtract_few(to: &mut [u16], a: &[u16], b: &[u16])
    requires same_a { length a.now ≡ length to.old }
    requires same_b { length b.now ≡ length to.old }
    ensures { EachIndex to.new (λ k. slice_index to.new k ≡ minus16 (slice_index a.now k) (slice_index b.now k)) }
{
    for i in 0..to.len() {
        to[i] = a[i].wrapping_sub(b[i]);
    }
}

/// Writes the differences of two rows. The last vector may lie over the one before it.
fn subtract(to: &mut [u16], a: &[u16], b: &[u16])
    requires same_a { length a.now ≡ length to.old }
    requires same_b { length b.now ≡ length to.old }
    ensures { EachIndex to.new (λ k. slice_index to.new k ≡ minus16 (slice_index a.now k) (slice_index b.now k)) }
{
    let n = to.len();
    if n < 16 {
        return subtract_few(to, a, b);
    }
    let end = n - 16;
    let last = minus(load::<16>(a, end), load(b, end));
    for block in 0..n / 16 {
        let at = 16 * block;
        minus(load::<16>(a, at), load(b, at)).copy_to_slice(&mut to[at..]);
    }
    last.copy_to_slice(&mut to[end..]);
}

/// Adds a row that is shorter than a vector to a row.
fn sum_few_into(to: &mut [u16], from: &[u16])
    requires { length from.now ≡ length to.old }
    ensures { EachIndex to.new (λ k. slice_index to.new k ≡ plus16 (slice_index to.old k) (slice_index from.now k)) }
{
    for i in 0..to.len() {
        to[i] = to[i].wrapping_add(from[i]);
    }
}

/// Adds a row to a row. The last vector may lie over the one before it, so it is summed first.
fn sum_into(to: &mut [u16], from: &[u16])
    requires { length from.now ≡ length to.old }
    ensures { EachIndex to.new (λ k. slice_index to.new k ≡ plus16 (slice_index to.old k) (slice_index from.now k)) }
{
    let n = to.len();
    if n < 16 {
        return sum_few_into(to, from);
    }
    let end = to.len() - 16;
    let last = plus(load::<16>(to, end), load(from, end));
    for block in 0..n / 16 {
        let at = 16 * block;
        plus(load::<16>(to, at), load(from, at)).copy_to_slice(&mut to[at..]);
    }
    last.copy_to_slice(&mut to[end..]);
}

/// Reads a rotated row of posteriors, and subtracts the messages.
pub(crate) fn gather(inputs: &mut [u16], row: &[u16], messages: &[u16], shift: usize)
    requires same_row { length row.now ≡ length inputs.old }
    requires same { length messages.now ≡ length inputs.old }
    requires few { length row.now ≤ max_group }
    requires rotation { shift ≤ length row.now }
    ensures { EachIndex inputs.new (λ k. slice_index inputs.new k ≡ minus16 (slice_index row.now (rotated (length row.now) shift k)) (slice_index messages.now k)) }
{
    let (low, high) = row.split_at(row.len() - shift);
    let (first, last) = inputs.split_at_mut(shift);
    let (first_messages, last_messages) = messages.split_at(shift);
    subtract(first, high, first_messages);
    subtract(last, low, last_messages);
}

/// Adds changes to a row, rotated back.
pub(crate) fn scatter_add(row: &mut [u16], changes: &[u16], shift: usize)
    requires same { length changes.now ≡ length row.old }
    requires few { length row.old ≤ max_group }
    requires rotation { shift ≤ length row.old }
    ensures { EachIndex row.new (λ k. slice_index row.new k ≡ plus16 (slice_index row.old k) (slice_index changes.now (rotated_back (length row.old) shift k))) }
{
    let (low, high) = row.split_at_mut(row.len() - shift);
    let (first, last) = changes.split_at(shift);
    sum_into(low, last);
    sum_into(high, first);
}
