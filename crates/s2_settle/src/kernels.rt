//! The kernels of a layer, each for one row: a word in each lane.
ghost use Rattle.std.specs.Prelude.{◌≡◌, ◌≤◌, length, slice_index, EachIndex};
ghost use Rattle.s2_mode.specs.Limits.{max_group};
ghost use Rattle.s2_bits.specs.Lanes16.{plus16};
ghost use Rattle.s2_bits.specs.Rotations.{rotated, rotated_back};
ghost use Rattle.s2_settle.specs.Rests.{given};

use crate::lanes::{all, given, load, plus};
use std::simd::prelude::*;

/// Reads a piece of a row that is shorter than a vector, with the checks' moves taken back.
fn gather_few(to: &mut [u16], rests: &[u16], targets: &[u16], amounts: &[u16], e: u16)
    requires same_rests { length rests.now ≡ length to.old }
    requires same_targets { length targets.now ≡ length to.old }
    requires same_amounts { length amounts.now ≡ length to.old }
    ensures { EachIndex to.new (λ k. slice_index to.new k ≡ given (slice_index rests.now k) (slice_index targets.now k) (slice_index amounts.now k) e) }
{
    for i in 0..to.len() {
        to[i] = if targets[i] == e {
            rests[i].wrapping_sub(amounts[i])
        } else {
            rests[i].wrapping_add(amounts[i])
        };
    }
}

/// Reads a piece of a row, with the checks' moves taken back. The last vector may lie over the one before it.
fn gather_piece(to: &mut [u16], rests: &[u16], targets: &[u16], amounts: &[u16], e: u16)
    requires same_rests { length rests.now ≡ length to.old }
    requires same_targets { length targets.now ≡ length to.old }
    requires same_amounts { length amounts.now ≡ length to.old }
    ensures { EachIndex to.new (λ k. slice_index to.new k ≡ given (slice_index rests.now k) (slice_index targets.now k) (slice_index amounts.now k) e) }
{
    let n = to.len();
    if n < 16 {
        return gather_few(to, rests, targets, amounts, e);
    }
    let es = all::<16>(e);
    let end = n - 16;
    let last = given(load(rests, end), load(targets, end), load(amounts, end), es);
    for block in 0..n / 16 {
        let at = 16 * block;
        given(load(rests, at), load(targets, at), load(amounts, at), es).copy_to_slice(
            &mut to[at..],
        );
    }
    last.copy_to_slice(&mut to[end..]);
}

/// Reads a rotated row of rests, with the checks' moves taken back.
pub(crate) fn gather(
    inputs: &mut [u16],
    row: &[u16],
    targets: &[u16],
    amounts: &[u16],
    shift: usize,
    e: u16,
)
    requires same_row { length row.now ≡ length inputs.old }
    requires same_targets { length targets.now ≡ length inputs.old }
    requires same_amounts { length amounts.now ≡ length inputs.old }
    requires few { length row.now ≤ max_group }
    requires rotation { shift ≤ length row.now }
    ensures { EachIndex inputs.new (λ k. slice_index inputs.new k ≡ given (slice_index row.now (rotated (length row.now) shift k)) (slice_index targets.now k) (slice_index amounts.now k) e) }
{
    let (low, high) = row.split_at(row.len() - shift);
    let (first, last) = inputs.split_at_mut(shift);
    let (first_targets, last_targets) = targets.split_at(shift);
    let (first_amounts, last_amounts) = amounts.split_at(shift);
    gather_piece(first, high, first_targets, first_amounts, e);
    gather_piece(last, low, last_targets, last_amounts, e);
}

/// Adds a row that is shorter than a vector to a row.
fn sum_few_into(to: &mut [u16], from: &[u16])
    requires { length from.now ≡ length to.old }
    ensures { EachIndex to.new (λ k. slice_index to.new k ≡ plus16 (slice_index to.old k) (slice_index from.now k)) }
{
    for i in 0..to.len() {
        to[i] = to[i].wrapping_add(from[i]);
    }
}

/// Adds a row to a row. The last vector may lie over the one before it, so it is summed first.
fn sum_into(to: &mut [u16], from: &[u16])
    requires { length from.now ≡ length to.old }
    ensures { EachIndex to.new (λ k. slice_index to.new k ≡ plus16 (slice_index to.old k) (slice_index from.now k)) }
{
    let n = to.len();
    if n < 16 {
        return sum_few_into(to, from);
    }
    let end = to.len() - 16;
    let last = plus(load::<16>(to, end), load(from, end));
    for block in 0..n / 16 {
        let at = 16 * block;
        plus(load::<16>(to, at), load(from, at)).copy_to_slice(&mut to[at..]);
    }
    last.copy_to_slice(&mut to[end..]);
}

/// Adds changes to a row, rotated back.
pub(crate) fn add_back(row: &mut [u16], changes: &[u16], shift: usize)
    requires same { length changes.now ≡ length row.old }
    requires few { length row.old ≤ max_group }
    requires rotation { shift ≤ length row.old }
    ensures { EachIndex row.new (λ k. slice_index row.new k ≡ plus16 (slice_index row.old k) (slice_index changes.now (rotated_back (length row.old) shift k))) }
{
    let (low, high) = row.split_at_mut(row.len() - shift);
    let (first, last) = changes.split_at(shift);
    sum_into(low, last);
    sum_into(high, first);
}
