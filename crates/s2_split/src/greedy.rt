//! The greedy amounts: each wrong bit, in rising order, takes from its checks, in rising order,
//! what it lacks and they can spare. A bit is wrong if the hard decision differs from the word
//! there.
ghost use Rattle.std.specs.Prelude.{◌≡◌, ◌≢◌, ◌↔◌, IsTrue, ℕ, ◌^◌, ◌<◌, ◌≤◌, Bool, List, true, All, length, get_or, ℤ, pos, neg_ℤ, ◌≤ℤ◌};
ghost use Rattle.s2_matrix.specs.Code.{code_of, members};
ghost use Rattle.s2_check.specs.Views.{IsSoft};
ghost use Rattle.s2_split.specs.Greedy.{Moved, none_moved, move_to, serve, greedy};
ghost use Rattle.s2_split.specs.Kept.{served, max_rest, AreWithin, AreLow, AreFew, AreKept, AreOfValues, HaveOneSign, NoneIsNegative};

use crate::rests::{free_amount, move_of, shift};
use crate::start::{differs, none_negative_between};
use s2_check::Move;
use s2_matrix::Matrix;

/// A check that holds no amount moves one to its member at this place, or none if the bit lacks
/// none.
fn take_from(
    matrix: &Matrix,
    rests: &mut [i32],
    moves: &mut [Move],
    bit: u32,
    check: usize,
    place: usize,
)
    requires bit { bit < (code_of matrix.now).bits }
    requires check { check < (code_of matrix.now).checks }
    requires has { (code_of matrix.now).has check bit ≡ true }
    requires place { place < length (members (code_of matrix.now) check) }
    requires at { get_or (members (code_of matrix.now) check) place 0 ≡ bit }
    requires rests_long { length rests.old ≡ (code_of matrix.now).bits }
    requires moves_long { length moves.old ≡ (code_of matrix.now).checks }
    requires small { AreWithin max_rest rests.old }
    requires low { AreLow rests.old }
    ensures low { AreLow rests.new }
    ensures kept { (soft : List ℤ) (word : List Bool) (m : Moved) → AreKept (code_of matrix.now) soft word 1 m rests.old moves.old → AreKept (code_of matrix.now) soft word 1 (move_to (code_of matrix.now) soft word bit m check) rests.new moves.new }
    ensures others { (k : ℕ) → k ≢ bit → HaveOneSign (get_or rests.old k (pos 0)) (get_or rests.new k (pos 0)) }
{
    if rests[bit as usize] >= 0 {
        return;
    }
    if moves[check].amount == 0 {
        let members = matrix.members_at(check);
        let amount = free_amount(rests, members, bit);
        moves[check] = move_of(place, amount);
        shift(rests, members, bit, amount as i32);
    }
}

/// Each check of a bit, rising, moves to it.
fn serve(matrix: &Matrix, rests: &mut [i32], moves: &mut [Move], bit: usize)
    requires few { AreFew (code_of matrix.now) }
    requires bit { bit < (code_of matrix.now).bits }
    requires fits { bit < 2 ^ 32 }
    requires low { AreLow rests.old }
    requires start { AreOfValues (code_of matrix.now) 1 rests.old moves.old }
    ensures low { AreLow rests.new }
    ensures kept { (soft : List ℤ) (word : List Bool) (m : Moved) → AreKept (code_of matrix.now) soft word 1 m rests.old moves.old → AreKept (code_of matrix.now) soft word 1 (serve (code_of matrix.now) soft word m bit) rests.new moves.new }
    ensures others { (k : ℕ) → k ≢ bit → HaveOneSign (get_or rests.old k (pos 0)) (get_or rests.new k (pos 0)) }
{
    let checks = matrix.checks_at(bit);
    let edges = matrix.edges_at(bit);
    for at in 0..checks.len() {
        let check = checks[at] as usize;
        let place = edges[at] as usize - matrix.first_edge(check);
        take_from(matrix, rests, moves, bit as u32, check, place);
    }
}

/// The number of bits that are tested together for a negative rest.
const BLOCK: usize = 32;

/// Each wrong bit between two places, rising, takes from its checks. Returns whether no bit between
/// them then has a negative rest.
fn serve_between(
    matrix: &Matrix,
    soft: &[i16],
    word: &[bool],
    rests: &mut [i32],
    moves: &mut [Move],
    from: usize,
    to: usize,
) -> bool
    requires soft { length soft.now ≡ (code_of matrix.now).bits }
    requires range { All IsSoft soft.now }
    requires word { length word.now ≡ (code_of matrix.now).bits }
    requires few { AreFew (code_of matrix.now) }
    requires between { from ≤ to }
    requires end { to ≤ (code_of matrix.now).bits }
    requires fits { to < 2 ^ 32 }
    requires low { AreLow rests.old }
    requires start { AreKept (code_of matrix.now) soft.now word.now 1 (served (code_of matrix.now) soft.now word.now from) rests.old moves.old }
    ensures low { AreLow rests.new }
    ensures kept { AreKept (code_of matrix.now) soft.now word.now 1 (served (code_of matrix.now) soft.now word.now to) rests.new moves.new }
    ensures before { (k : ℕ) → k < from → HaveOneSign (get_or rests.old k (pos 0)) (get_or rests.new k (pos 0)) }
    ensures test { IsTrue result ↔ NoneIsNegative from to rests.new }
{
    let mut none = true;
    for bit in from..to {
        if differs(soft, word, bit) {
            serve(matrix, rests, moves, bit);
        }
        none = none & (rests[bit] >= 0);
    }
    none
}

/// Moves the greedy amounts, from rests at scale 1 and no moves. Returns whether they leave no
/// negative rest. Most blocks of bits have none, and a rest that is not negative stays so.
pub(crate) fn greedy(
    matrix: &Matrix,
    soft: &[i16],
    word: &[bool],
    rests: &mut [i32],
    moves: &mut [Move],
) -> bool
    requires soft { length soft.now ≡ (code_of matrix.now).bits }
    requires range { All IsSoft soft.now }
    requires word { length word.now ≡ (code_of matrix.now).bits }
    requires few { AreFew (code_of matrix.now) }
    requires low { AreLow rests.old }
    requires start { AreKept (code_of matrix.now) soft.now word.now 1 none_moved rests.old moves.old }
    ensures kept { AreKept (code_of matrix.now) soft.now word.now 1 (greedy (code_of matrix.now) soft.now word.now) rests.new moves.new }
    ensures test { IsTrue result ↔ ((i : ℕ) → i < length rests.new → pos 0 ≤ℤ get_or rests.new i (pos 0)) }
{
    let mut none = true;
    let mut from = 0usize;
    for block in 0..matrix.bits().div_ceil(BLOCK) {
        let to = matrix.bits().min(from + BLOCK);
        if !none_negative_between(rests, from, to) {
            none = serve_between(matrix, soft, word, rests, moves, from, to) & none;
        }
        from = to;
    }
    none
}
