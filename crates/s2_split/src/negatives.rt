//! How many members of each check have a negative rest, and moves that these counts follow.
ghost use Rattle.std.specs.Prelude.{◌≡◌, ◌≢◌, ℕ, ◌<◌, ◌≤◌, ◌==◌, if◌then◌else◌, Bool, List, All, length, get_or, set, count_by, ℤ, pos, neg_ℤ, ◌-ℤ◌, int_lt};
ghost use Rattle.std.specs.List.{AllPairs};
ghost use Rattle.s2_mode.specs.Limits.{max_bits};
ghost use Rattle.s2_matrix.specs.Code.{code_of};
ghost use Rattle.s2_split.specs.Kept.{max_rest, taken_at, given_back, AreWithin, AreCounted, TurnsSign};
ghost use Rattle.s2_check.specs.Moves.{max_moved};

use s2_check::Move;
use s2_matrix::Matrix;

/// How many of these places hold a negative rest.
fn negatives_at(rests: &[i32], places: &[u32]) -> u32
    requires below { All (λ i. i < length rests.now) places.now }
    requires short { length places.now ≤ max_bits }
    ensures { result ≡ count_by (λ i. int_lt (get_or rests.now i (pos 0)) (pos 0)) places.now }
{
    let mut count = 0u32;
    for place in places {
        count += u32::from(rests[*place as usize] < 0);
    }
    count
}

/// Counts them, check by check.
pub(crate) fn count_negatives(matrix: &Matrix, rests: &[i32], negatives: &mut [u32])
    requires rests { length rests.now ≡ (code_of matrix.now).bits }
    requires long { length negatives.old ≡ (code_of matrix.now).checks }
    ensures counted { AreCounted (code_of matrix.now) rests.now negatives.new }
{
    for check in 0..matrix.check_count() {
        negatives[check] = negatives_at(rests, matrix.members_at(check));
    }
}

/// The sign of a bit's rest changes: each of its checks counts the bit, or no longer does.
fn change_sign(matrix: &Matrix, negatives: &mut [u32], bit: usize, becomes_negative: bool)
    requires bit { bit < (code_of matrix.now).bits }
    requires turns { TurnsSign (code_of matrix.now) bit becomes_negative negatives.old }
    ensures counted { (old : TurnsSign (code_of matrix.now) bit becomes_negative negatives.old) (later : List ℤ) → ((k : ℕ) → k ≢ bit → get_or later k (pos 0) ≡ get_or old.rests k (pos 0)) → int_lt (get_or later bit (pos 0)) (pos 0) ≡ becomes_negative → AreCounted (code_of matrix.now) later negatives.new }
{
    let _bits = matrix.bits();
    let checks = matrix.checks_at(bit);
    for check in checks {
        let check = *check as usize;
        if becomes_negative {
            negatives[check] += 1;
        } else {
            negatives[check] -= 1;
        }
    }
}

/// Gives a bit another rest.
pub(crate) fn set_rest(
    matrix: &Matrix,
    rests: &mut [i32],
    negatives: &mut [u32],
    bit: usize,
    rest: i32,
)
    requires bit { bit < (code_of matrix.now).bits }
    requires rests { length rests.old ≡ (code_of matrix.now).bits }
    requires counted { AreCounted (code_of matrix.now) rests.old negatives.old }
    ensures rests { rests.new ≡ set rests.old bit rest }
    ensures counted { AreCounted (code_of matrix.now) rests.new negatives.new }
{
    let becomes_negative = rest < 0;
    if (rests[bit] < 0) != becomes_negative {
        change_sign(matrix, negatives, bit, becomes_negative);
    }
    rests[bit] = rest;
}

/// What a move adds to the rest of the member at a place.
fn gained_at(own: Move, at: usize) -> i32
    requires { own.amount ≤ max_moved }
    ensures { result ≡ (if at == own.place then pos own.amount else neg_ℤ (pos own.amount)) }
{
    let amount = own.amount as i32;
    if at == usize::from(own.place) {
        amount
    } else {
        -amount
    }
}

/// As [`move_anew`](crate::rests::move_anew), and the counts follow.
pub(crate) fn move_counted(
    matrix: &Matrix,
    rests: &mut [i32],
    negatives: &mut [u32],
    members: &[u32],
    held: Move,
    own: Move,
)
    requires rests_long { length rests.old ≡ (code_of matrix.now).bits }
    requires below { All (λ i. i < length rests.old) members.now }
    requires rising { AllPairs (λ a b. a < b) members.now }
    requires small { AreWithin max_rest rests.old }
    requires held_place { held.place < length members.now }
    requires held_few { held.amount ≤ max_moved }
    requires own_place { own.place < length members.now }
    requires own_few { own.amount ≤ max_moved }
    requires counted { AreCounted (code_of matrix.now) rests.old negatives.old }
    ensures long { length rests.new ≡ length rests.old }
    ensures moved { (k : ℕ) → get_or rests.new k (pos 0) ≡ given_back rests.old members.now held k -ℤ taken_at members.now (get_or members.now own.place 0) (pos own.amount) k }
    ensures counted { AreCounted (code_of matrix.now) rests.new negatives.new }
{
    for at in 0..members.len() {
        let bit = members[at] as usize;
        let rest = rests[bit] - gained_at(held, at) + gained_at(own, at);
        set_rest(matrix, rests, negatives, bit, rest);
    }
}
