//! Rests, and the moves that change them.
ghost use Rattle.std.specs.Prelude.{◌≡◌, ◌≢◌, ◌↔◌, IsTrue, ℕ, true, ◌<◌, ◌≤◌, ◌==◌, not, nat_lt, if◌then◌else◌, All, length, get_or, map, filter, fold, pos, neg_ℤ, ◌≤ℤ◌, ◌-ℤ◌};
ghost use Rattle.std.specs.List.{AllPairs};
ghost use Rattle.std.specs.Int.{int_min};
ghost use Rattle.s2_mode.specs.Limits.{max_soft};
ghost use Rattle.s2_split.specs.Greedy.{free_for};
ghost use Rattle.s2_split.specs.Kept.{max_rest, max_between, is_among, taken_at, evenly_at, given_back, AreWithin, AreLow};
ghost use Rattle.s2_check.specs.Moves.{max_moved};
ghost use Rattle.s2_split.specs.Spreading.{least_member, spread_amount, amount_to};

use s2_check::{MAX_MOVED, Move};

/// Adds a signed amount to the rest of the target, and takes it from the rest of every other
/// member.
pub(crate) fn shift(rests: &mut [i32], members: &[u32], target: u32, amount: i32)
    requires below { All (λ i. i < length rests.old) members.now }
    requires rising { AllPairs (λ a b. a < b) members.now }
    requires small { AreWithin max_between rests.old }
    requires low { neg_ℤ (pos max_moved) ≤ℤ amount }
    requires high { amount ≤ℤ pos max_moved }
    ensures long { length rests.new ≡ length rests.old }
    ensures moved { (k : ℕ) → get_or rests.new k (pos 0) ≡ get_or rests.old k (pos 0) -ℤ taken_at members.now target amount k }
{
    for member in members {
        let at = *member as usize;
        if *member == target {
            rests[at] += amount;
        } else {
            rests[at] -= amount;
        }
    }
}

/// The least rest of the members other than one, 2147483647 if there is none.
pub(crate) fn least_other(rests: &[i32], members: &[u32], bit: u32) -> i32
    requires { All (λ i. i < length rests.now) members.now }
    ensures { result ≡ fold int_min (pos 2147483647) (map (λ i. get_or rests.now i (pos 0)) (filter (λ i. not (i == bit)) members.now)) }
{
    let mut least = i32::MAX;
    for member in members {
        let rest = rests[*member as usize];
        if *member != bit {
            least = least.min(rest);
        }
    }
    least
}

/// What the other members of a check can give a bit: the lesser of what it lacks and of what all of
/// them have left.
pub(crate) fn free_amount(rests: &[i32], members: &[u32], bit: u32) -> u32
    requires below { All (λ i. i < length rests.now) members.now }
    requires rising { AllPairs (λ a b. a < b) members.now }
    requires among { is_among members.now bit ≡ true }
    requires small { AreWithin max_between rests.now }
    requires low { AreLow rests.now }
    ensures value { result ≡ free_for (λ i. get_or rests.now i (pos 0)) bit members.now }
    ensures few { result ≤ max_soft }
    ensures spared { (k : ℕ) → is_among members.now k ≡ true → k ≢ bit → 0 < result → pos result ≤ℤ get_or rests.now k (pos 0) }
{
    if members.len() < 2 {
        return 0;
    }
    let lacking = 0i32.min(rests[bit as usize]).unsigned_abs();
    let free = 0i32.max(least_other(rests, members, bit)).unsigned_abs();
    lacking.min(free)
}

/// The place of the member with the least rest, the first of several, that rest, and the least of the
/// others'.
#[derive(Drop)]
pub(crate) struct Least {
    pub place: usize,
    pub rest: i32,
    pub other: i32,
}

/// The least two rests of the members, once the move that their check holds is given back.
pub(crate) fn least_two(rests: &[i32], members: &[u32], held: Move) -> Least
    requires below { All (λ i. i < length rests.now) members.now }
    requires rising { AllPairs (λ a b. a < b) members.now }
    requires small { AreWithin max_rest rests.now }
    requires held_place { held.place < length members.now }
    requires held_few { held.amount ≤ max_moved }
    ensures place { result.place < length members.now }
    ensures least { get_or members.now result.place 0 ≡ least_member (given_back rests.now members.now held) members.now }
    ensures rest { result.rest ≡ given_back rests.now members.now held (get_or members.now result.place 0) }
    ensures other { result.other ≡ fold int_min (pos 2147483647) (map (given_back rests.now members.now held) (filter (λ i. not (i == get_or members.now result.place 0)) members.now)) }
{
    let mut place = 0usize;
    let mut least = i32::MAX;
    let mut other = i32::MAX;
    for at in 0..members.len() {
        let amount = held.amount as i32;
        let back = if at == usize::from(held.place) {
            -amount
        } else {
            amount
        };
        let rest = rests[members[at] as usize] + back;
        other = other.min(rest.max(least));
        if rest < least {
            least = rest;
            place = at;
        }
    }
    Least {
        place,
        rest: least,
        other,
    }
}

/// The amount moved to the least rest: half of the difference to the least other, no more than the
/// rest lacks, and no more than [`MAX_MOVED`]. A check of one member moves nothing.
fn half_gap(count: usize, rest: i32, other: i32) -> u32
    ensures { result ≡ (if nat_lt 1 count then spread_amount rest other else 0) }
{
    if count < 2 || rest >= 0 {
        0
    } else {
        rest.unsigned_abs()
            .min(other.abs_diff(rest) / 2)
            .min(MAX_MOVED)
    }
}

/// Whether every rest is at least 1.
pub(crate) fn are_some(rests: &[i32]) -> bool
    ensures { IsTrue result ↔ ((i : ℕ) → i < length rests.now → pos 1 ≤ℤ get_or rests.now i (pos 0)) }
{
    for i in 0..rests.len() {
        if rests[i] < 1 {
            return false;
        }
    }
    true
}

/// The move of an amount to the member at a place. If nothing is moved the place is 0.
pub(crate) fn move_of(place: usize, amount: u32) -> Move
    requires { place < 65536 }
    ensures amount { result.amount ≡ amount }
    ensures moved { amount ≢ 0 → result.place ≡ place }
    ensures unmoved { amount ≡ 0 → result.place ≡ 0 }
{
    if amount == 0 {
        Move { place: 0, amount }
    } else {
        Move {
            place: place as u16,
            amount,
        }
    }
}

/// The move of a check to the member with the least rest, after the held move is given back.
pub(crate) fn spread_move(rests: &[i32], members: &[u32], held: Move) -> Move
    requires below { All (λ i. i < length rests.now) members.now }
    requires rising { AllPairs (λ a b. a < b) members.now }
    requires small { AreWithin max_rest rests.now }
    requires short { length members.now ≤ 65536 }
    requires held_place { held.place < length members.now }
    requires held_few { held.amount ≤ max_moved }
    ensures amount { result.amount ≡ amount_to (given_back rests.now members.now held) members.now (least_member (given_back rests.now members.now held) members.now) }
    ensures few { result.amount ≤ max_moved }
    ensures place { result.place < length members.now }
    ensures target { result.amount ≢ 0 → get_or members.now result.place 0 ≡ least_member (given_back rests.now members.now held) members.now }
    ensures unmoved { result.amount ≡ 0 → result.place ≡ 0 }
{
    let least = least_two(rests, members, held);
    let amount = half_gap(members.len(), least.rest, least.other);
    move_of(least.place, amount)
}

/// Takes a signed amount from the rest of each member.
fn take_evenly(rests: &mut [i32], members: &[u32], amount: i32)
    requires below { All (λ i. i < length rests.old) members.now }
    requires rising { AllPairs (λ a b. a < b) members.now }
    requires small { AreWithin max_rest rests.old }
    requires low { neg_ℤ (pos max_moved) ≤ℤ amount }
    requires high { amount ≤ℤ pos max_moved }
    ensures long { length rests.new ≡ length rests.old }
    ensures taken { (k : ℕ) → get_or rests.new k (pos 0) ≡ get_or rests.old k (pos 0) -ℤ evenly_at members.now amount k }
{
    for member in members {
        rests[*member as usize] -= amount;
    }
}

/// The move that a check holds is given back, and another is made.
pub(crate) fn move_anew(rests: &mut [i32], members: &[u32], held: Move, own: Move)
    requires below { All (λ i. i < length rests.old) members.now }
    requires rising { AllPairs (λ a b. a < b) members.now }
    requires small { AreWithin max_rest rests.old }
    requires held_place { held.place < length members.now }
    requires held_few { held.amount ≤ max_moved }
    requires own_place { own.place < length members.now }
    requires own_few { own.amount ≤ max_moved }
    ensures long { length rests.new ≡ length rests.old }
    ensures moved { (k : ℕ) → get_or rests.new k (pos 0) ≡ given_back rests.old members.now held k -ℤ taken_at members.now (get_or members.now own.place 0) (pos own.amount) k }
{
    let from = members[usize::from(held.place)] as usize;
    let to = members[usize::from(own.place)] as usize;
    let back = held.amount as i32;
    let amount = own.amount as i32;
    take_evenly(rests, members, amount - back);
    rests[from] -= 2 * back;
    rests[to] += 2 * amount;
}
