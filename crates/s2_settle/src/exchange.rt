//! The exchange of a layer's checks, one check a lane. It reads all inputs of a check, then writes its target and amount.
//! The changes of its members' rests replace the inputs.
ghost use Rattle.std.specs.Prelude.{◌≡◌, ◌≤◌, ◌+◌, ◌*◌, ◌/◌, length};
ghost use Rattle.s2_mode.specs.Limits.{max_bits};
ghost use Rattle.s2_bits.specs.Lanes.{HasLanes, lane};
ghost use Rattle.s2_minsum.specs.Rows.{cell};
ghost use Rattle.s2_settle.specs.Rests.{change};
ghost use Rattle.s2_settle.specs.Nodes.{min1_of, min2_of, min3_of, least_at};
ghost use Rattle.s2_settle.specs.Exchange.{AreWritten, AreExchanged};

use crate::course::Step;
use crate::lanes::{all, change, freed, load, moved, update_least};
use std::simd::prelude::*;

/// Finds the three least inputs of `W` checks, and the places of the least.
#[inline(always)]
fn three_least_of<const W: usize>(
    inputs: &[u16],
    n: usize,
    count: usize,
    at: usize,
    min1: &mut Simd<u16, W>,
    min2: &mut Simd<u16, W>,
    min3: &mut Simd<u16, W>,
    places: &mut Simd<u16, W>,
)
    requires lanes { at + W ≤ n }
    requires many { count ≤ max_bits }
    requires long { length inputs.now ≡ count * n }
    ensures min1 { HasLanes W (λ k. min1_of (λ e. cell inputs.now n e (at + k)) count) min1.new }
    ensures min2 { HasLanes W (λ k. min2_of (λ e. cell inputs.now n e (at + k)) count) min2.new }
    ensures min3 { HasLanes W (λ k. min3_of (λ e. cell inputs.now n e (at + k)) count) min3.new }
    ensures places { HasLanes W (λ k. least_at (λ e. cell inputs.now n e (at + k)) count) places.new }
{
    *min1 = all(u16::MAX);
    *min2 = all(u16::MAX);
    *min3 = all(u16::MAX);
    *places = all(0);
    for e in 0..count {
        let es = all(e as u16);
        update_least(min1, min2, min3, places, load(inputs, e * n + at), es);
    }
}

/// Writes the changes of the rests of the members of `W` checks, entry by entry.
#[inline(always)]
fn write_changes<const W: usize>(
    inputs: &mut [u16],
    n: usize,
    count: usize,
    at: usize,
    old_target: Simd<u16, W>,
    old_amount: Simd<u16, W>,
    target: Simd<u16, W>,
    amount: Simd<u16, W>,
)
    requires lanes { at + W ≤ n }
    requires many { count ≤ max_bits }
    requires long { length inputs.old ≡ count * n }
    ensures { AreWritten n count at W (λ e k. change (lane old_target.entry k) (lane old_amount.entry k) (lane target.entry k) (lane amount.entry k) e) inputs.old inputs.new }
{
    for e in 0..count {
        change(old_target, old_amount, target, amount, all(e as u16)).copy_to_slice(
            &mut inputs[e * n + at..],
        );
    }
}

/// The exchange of `W` checks.
#[inline(always)]
fn exchange_some<const W: usize>(
    inputs: &mut [u16],
    n: usize,
    count: usize,
    at: usize,
    step: Step,
    targets: &mut [u16],
    amounts: &mut [u16],
)
    requires width { W ≤ 32 }
    requires lanes { at + W ≤ n }
    requires many { count ≤ max_bits }
    requires long { length inputs.old ≡ count * n }
    requires targets { length targets.old ≡ n }
    requires amounts { length amounts.old ≡ n }
    ensures { AreExchanged step n count at (at + W) inputs.old targets.old amounts.old inputs.new targets.new amounts.new }
{
    let mut min1 = all::<W>(0);
    let mut min2 = all::<W>(0);
    let mut min3 = all::<W>(0);
    let mut target = all::<W>(0);
    three_least_of(
        inputs,
        n,
        count,
        at,
        &mut min1,
        &mut min2,
        &mut min3,
        &mut target,
    );
    let old_target = load(targets, at);
    let old_amount = load(amounts, at);
    let free = freed(all(step.margin), min1, min2, min3);
    let amount = moved(step, old_target, old_amount, target, free);
    write_changes(inputs, n, count, at, old_target, old_amount, target, amount);
    target.copy_to_slice(&mut targets[at..]);
    amount.copy_to_slice(&mut amounts[at..]);
}

/// The exchange of the checks in whole vectors of 16 lanes, and in one of 8 lanes after them.
fn exchange_blocks(
    inputs: &mut [u16],
    n: usize,
    count: usize,
    step: Step,
    targets: &mut [u16],
    amounts: &mut [u16],
)
    requires many { count ≤ max_bits }
    requires long { length inputs.old ≡ count * n }
    requires targets { length targets.old ≡ n }
    requires amounts { length amounts.old ≡ n }
    ensures { AreExchanged step n count 0 (n / 8 * 8) inputs.old targets.old amounts.old inputs.new targets.new amounts.new }
{
    for block in 0..n / 16 {
        exchange_some::<16>(inputs, n, count, 16 * block, step, targets, amounts);
    }
    let at = n / 16 * 16;
    if at + 8 <= n {
        exchange_some::<8>(inputs, n, count, at, step, targets, amounts);
    }
}

/// The exchange of a layer's checks, one a lane.
pub(crate) fn exchange(
    inputs: &mut [u16],
    n: usize,
    count: usize,
    step: Step,
    targets: &mut [u16],
    amounts: &mut [u16],
)
    requires many { count ≤ max_bits }
    requires long { length inputs.old ≡ count * n }
    requires targets { length targets.old ≡ n }
    requires amounts { length amounts.old ≡ n }
    ensures { AreExchanged step n count 0 n inputs.old targets.old amounts.old inputs.new targets.new amounts.new }
{
    exchange_blocks(inputs, n, count, step, targets, amounts);
    for lane in n / 8 * 8..n {
        exchange_some::<1>(inputs, n, count, lane, step, targets, amounts);
    }
}
