//! Operations on `W` words of 16 bits at a time. `W` is 16 for whole vectors, and 8 and 1 for the lanes that are left.
ghost use Rattle.std.specs.Prelude.{◌+◌, ◌/◌, ◌≤◌, min, max, ◌==◌, if◌then◌else◌, length, slice_index};
ghost use Rattle.s2_bits.specs.Lanes.{HasLanes, lane};
ghost use Rattle.s2_bits.specs.Lanes16.{minus16, plus16};
ghost use Rattle.s2_settle.specs.Rests.{given, above16, freed16, further16, moved16, change, seen_at};

use crate::course::Step;
use std::simd::prelude::*;

/// The same word in all lanes.
#[inline(always)]
pub(crate) fn all<const W: usize>(x: u16) -> Simd<u16, W>
    ensures { HasLanes W (λ k. x) result }
{
    Simd::splat(x)
}

#[inline(always)]
pub(crate) fn load<const W: usize>(s: &[u16], at: usize) -> Simd<u16, W>
    requires { at + W ≤ length s.now }
    ensures { HasLanes W (λ k. slice_index s.now (at + k)) result }
{
    Simd::from_slice(&s[at..])
}

/// The lesser of two words, as unsigned numbers.
#[inline(always)]
fn least<const W: usize>(a: Simd<u16, W>, b: Simd<u16, W>) -> Simd<u16, W>
    ensures { HasLanes W (λ k. min (lane a.entry k) (lane b.entry k)) result }
{
    a.simd_min(b)
}

#[inline(always)]
fn most<const W: usize>(a: Simd<u16, W>, b: Simd<u16, W>) -> Simd<u16, W>
    ensures { HasLanes W (λ k. max (lane a.entry k) (lane b.entry k)) result }
{
    a.simd_max(b)
}

/// Sums of words, modulo 2^16.
#[inline(always)]
pub(crate) fn plus<const W: usize>(a: Simd<u16, W>, b: Simd<u16, W>) -> Simd<u16, W>
    ensures { HasLanes W (λ k. plus16 (lane a.entry k) (lane b.entry k)) result }
{
    a + b
}

/// Differences of words, modulo 2^16.
#[inline(always)]
fn minus<const W: usize>(a: Simd<u16, W>, b: Simd<u16, W>) -> Simd<u16, W>
    ensures { HasLanes W (λ k. minus16 (lane a.entry k) (lane b.entry k)) result }
{
    a - b
}

#[inline(always)]
fn half<const W: usize>(a: Simd<u16, W>) -> Simd<u16, W>
    ensures { HasLanes W (λ k. lane a.entry k / 2) result }
{
    a / Simd::splat(2)
}

/// x if a equals b, else y, lane by lane.
#[inline(always)]
fn where_same<const W: usize>(
    a: Simd<u16, W>,
    b: Simd<u16, W>,
    x: Simd<u16, W>,
    y: Simd<u16, W>,
) -> Simd<u16, W>
    ensures { HasLanes W (λ k. if lane a.entry k == lane b.entry k then lane x.entry k else lane y.entry k) result }
{
    a.simd_eq(b).select(x, y)
}

/// The inputs of members e: their rests with the checks' moves taken back.
#[inline(always)]
pub(crate) fn given<const W: usize>(
    rest: Simd<u16, W>,
    target: Simd<u16, W>,
    amount: Simd<u16, W>,
    e: Simd<u16, W>,
) -> Simd<u16, W>
    ensures { HasLanes W (λ k. given (lane rest.entry k) (lane target.entry k) (lane amount.entry k) (lane e.entry k)) result }
{
    where_same(target, e, minus(rest, amount), plus(rest, amount))
}

/// The amounts by which words exceed others; nothing if they do not.
#[inline(always)]
fn above<const W: usize>(a: Simd<u16, W>, b: Simd<u16, W>) -> Simd<u16, W>
    ensures { HasLanes W (λ k. above16 (lane a.entry k) (lane b.entry k)) result }
{
    minus(most(a, b), b)
}

/// The amounts that the three least inputs leave free.
#[inline(always)]
pub(crate) fn freed<const W: usize>(
    margin: Simd<u16, W>,
    min1: Simd<u16, W>,
    min2: Simd<u16, W>,
    min3: Simd<u16, W>,
) -> Simd<u16, W>
    ensures { HasLanes W (λ k. freed16 (lane margin.entry k) (lane min1.entry k) (lane min2.entry k) (lane min3.entry k)) result }
{
    let reserve = half(above(margin, minus(min3, min2)));
    half(above(minus(min2, min1), reserve))
}

/// Amounts half a step further on from the old ones.
#[inline(always)]
fn further<const W: usize>(old: Simd<u16, W>, amount: Simd<u16, W>) -> Simd<u16, W>
    ensures { HasLanes W (λ k. further16 (lane old.entry k) (lane amount.entry k)) result }
{
    let up = half(above(amount, old));
    let down = half(plus(above(old, amount), all(1)));
    above(plus(amount, up), down)
}

/// The amounts of a step, by the old targets and amounts, the new targets and the free amounts.
#[inline(always)]
pub(crate) fn moved<const W: usize>(
    step: Step,
    old_target: Simd<u16, W>,
    old_amount: Simd<u16, W>,
    target: Simd<u16, W>,
    amount: Simd<u16, W>,
) -> Simd<u16, W>
    requires { W ≤ 32 }
    ensures { HasLanes W (λ k. moved16 step (lane old_target.entry k) (lane old_amount.entry k) (lane target.entry k) (lane amount.entry k)) result }
{
    if !step.further {
        return amount;
    }
    let kept = where_same(target, old_target, further(old_amount, amount), amount);
    where_same(old_amount, all(0), amount, kept)
}

/// What a move to a member adds to its rest.
#[inline(always)]
fn raised<const W: usize>(
    target: Simd<u16, W>,
    amount: Simd<u16, W>,
    e: Simd<u16, W>,
) -> Simd<u16, W>
    ensures { HasLanes W (λ k. if lane target.entry k == lane e.entry k then lane amount.entry k else minus16 0 (lane amount.entry k)) result }
{
    where_same(target, e, amount, minus(all(0), amount))
}

/// The changes of the rests of members e.
#[inline(always)]
pub(crate) fn change<const W: usize>(
    old_target: Simd<u16, W>,
    old_amount: Simd<u16, W>,
    target: Simd<u16, W>,
    amount: Simd<u16, W>,
    e: Simd<u16, W>,
) -> Simd<u16, W>
    ensures { HasLanes W (λ k. change (lane old_target.entry k) (lane old_amount.entry k) (lane target.entry k) (lane amount.entry k) (lane e.entry k)) result }
{
    minus(raised(target, amount, e), raised(old_target, old_amount, e))
}

/// Updates the three least inputs of each check, and the place of the least, by the inputs of members e.
#[inline(always)]
pub(crate) fn update_least<const W: usize>(
    min1: &mut Simd<u16, W>,
    min2: &mut Simd<u16, W>,
    min3: &mut Simd<u16, W>,
    places: &mut Simd<u16, W>,
    v: Simd<u16, W>,
    e: Simd<u16, W>,
)
    ensures min1 { HasLanes W (λ k. min (lane min1.old k) (lane v.entry k)) min1.new }
    ensures min2 { HasLanes W (λ k. min (lane min2.old k) (max (lane min1.old k) (lane v.entry k))) min2.new }
    ensures min3 { HasLanes W (λ k. min (lane min3.old k) (max (lane min2.old k) (lane v.entry k))) min3.new }
    ensures places { HasLanes W (λ k. seen_at (lane places.old k) (lane min1.old k) (lane v.entry k) (lane e.entry k)) places.new }
{
    let lower = least(*min1, v);
    *places = where_same(lower, *min1, *places, e);
    *min3 = least(*min3, most(*min2, v));
    *min2 = least(*min2, most(*min1, v));
    *min1 = lower;
}
