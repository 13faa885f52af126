//! Spreading: check by check, half of the difference between the least rest and the next is moved
//! to the least, as long as one is negative.
ghost use Rattle.std.specs.List.{AllPairs};
ghost use Rattle.std.specs.Prelude.{◌≡◌, ℕ, ◌<◌, ◌≤◌, IsTrue, Bool, List, All, length, get_or, ℤ, pos, ◌≤ℤ◌, ◌-ℤ◌};
ghost use Rattle.s2_matrix.specs.Code.{code_of, members};
ghost use Rattle.s2_check.specs.Moves.{no_move, AreMoves, max_moved};
ghost use Rattle.s2_split.specs.Greedy.{Moved, none_moved};
ghost use Rattle.s2_split.specs.Spreading.{spread_check, spread_pass, spread, spread_scale, max_spread_passes};
ghost use Rattle.s2_split.specs.Kept.{max_rest, taken_at, given_back, AreWithin, AreFew, AreKept, AreOfValues, AreCounted, Ends};

use crate::limits::MAX_SPREAD_PASSES;
use crate::negatives::{count_negatives, move_counted};
use crate::rests::{move_anew, spread_move};
use crate::start::none_negative;
use s2_check::Move;
use s2_matrix::Matrix;

/// Gives back the held move of a check, and makes another. The counts follow if they are kept.
fn move_rests<const BY_COUNTS: bool>(
    matrix: &Matrix,
    rests: &mut [i32],
    negatives: &mut [u32],
    members: &[u32],
    held: Move,
    own: Move,
)
    requires rests_long { length rests.old ≡ (code_of matrix.now).bits }
    requires below { All (λ i. i < length rests.old) members.now }
    requires rising { AllPairs (λ a b. a < b) members.now }
    requires small { AreWithin max_rest rests.old }
    requires held_place { held.place < length members.now }
    requires held_few { held.amount ≤ max_moved }
    requires own_place { own.place < length members.now }
    requires own_few { own.amount ≤ max_moved }
    requires counted { IsTrue BY_COUNTS → AreCounted (code_of matrix.now) rests.old negatives.old }
    ensures long { length rests.new ≡ length rests.old }
    ensures moved { (k : ℕ) → get_or rests.new k (pos 0) ≡ given_back rests.old members.now held k -ℤ taken_at members.now (get_or members.now own.place 0) (pos own.amount) k }
    ensures counts_long { length negatives.new ≡ length negatives.old }
    ensures counted { IsTrue BY_COUNTS → AreCounted (code_of matrix.now) rests.new negatives.new }
{
    if BY_COUNTS {
        move_counted(matrix, rests, negatives, members, held, own);
    } else {
        move_anew(rests, members, held, own);
    }
}

/// A check gives its amount back, and moves one to its least rest. Returns whether it moves as
/// before.
fn spread_check<const BY_COUNTS: bool>(
    matrix: &Matrix,
    rests: &mut [i32],
    negatives: &mut [u32],
    moves: &mut [Move],
    check: usize,
) -> bool
    requires check { check < (code_of matrix.now).checks }
    requires rests_long { length rests.old ≡ (code_of matrix.now).bits }
    requires moves_long { length moves.old ≡ (code_of matrix.now).checks }
    requires small { AreWithin max_rest rests.old }
    requires place { (get_or moves.old check no_move).place < length (members (code_of matrix.now) check) }
    requires held { (get_or moves.old check no_move).amount ≤ max_moved }
    requires counted { IsTrue BY_COUNTS → AreCounted (code_of matrix.now) rests.old negatives.old }
    ensures kept { (soft : List ℤ) (word : List Bool) (m : Moved) → AreKept (code_of matrix.now) soft word spread_scale m rests.old moves.old → AreKept (code_of matrix.now) soft word spread_scale (spread_check (code_of matrix.now) soft word m check) rests.new moves.new }
    ensures same { IsTrue result → (rests.new ≡ rests.old) × (moves.new ≡ moves.old) }
    ensures counts_long { length negatives.new ≡ length negatives.old }
    ensures counted { IsTrue BY_COUNTS → AreCounted (code_of matrix.now) rests.new negatives.new }
{
    let members = matrix.members_at(check);
    let held = moves[check];
    let own = spread_move(rests, members, held);
    if own == held {
        return true;
    }
    moves[check] = own;
    move_rests::<BY_COUNTS>(matrix, rests, negatives, members, held, own);
    false
}

/// Whether no rest at these places is negative.
fn none_negative_at(rests: &[i32], places: &[u32]) -> bool
    requires { All (λ i. i < length rests.now) places.now }
    ensures { IsTrue result → (k : ℕ) → k < length places.now → pos 0 ≤ℤ get_or rests.now (get_or places.now k 0) (pos 0) }
{
    let mut none = true;
    for place in places {
        none = none & (rests[*place as usize] >= 0);
    }
    none
}

/// Whether no member of a check has a negative rest, by its count if the counts are kept.
fn is_idle<const BY_COUNTS: bool>(
    matrix: &Matrix,
    rests: &[i32],
    negatives: &[u32],
    check: usize,
) -> bool
    requires check { check < (code_of matrix.now).checks }
    requires rests_long { length rests.now ≡ (code_of matrix.now).bits }
    requires counted { IsTrue BY_COUNTS → AreCounted (code_of matrix.now) rests.now negatives.now }
    ensures { IsTrue result → All (λ i. pos 0 ≤ℤ get_or rests.now i (pos 0)) (members (code_of matrix.now) check) }
{
    if BY_COUNTS {
        negatives[check] == 0
    } else {
        none_negative_at(rests, matrix.members_at(check))
    }
}

/// Visits a check, and returns whether it moves as before. A check that holds no amount, and has no
/// member with a negative rest, moves nothing: it is skipped.
fn visit<const BY_COUNTS: bool>(
    matrix: &Matrix,
    rests: &mut [i32],
    negatives: &mut [u32],
    moves: &mut [Move],
    check: usize,
) -> bool
    requires check { check < (code_of matrix.now).checks }
    requires rests_long { length rests.old ≡ (code_of matrix.now).bits }
    requires moves_long { length moves.old ≡ (code_of matrix.now).checks }
    requires small { AreWithin max_rest rests.old }
    requires place { (get_or moves.old check no_move).place < length (members (code_of matrix.now) check) }
    requires held { (get_or moves.old check no_move).amount ≤ max_moved }
    requires counted { IsTrue BY_COUNTS → AreCounted (code_of matrix.now) rests.old negatives.old }
    ensures kept { (soft : List ℤ) (word : List Bool) (m : Moved) → AreKept (code_of matrix.now) soft word spread_scale m rests.old moves.old → AreKept (code_of matrix.now) soft word spread_scale (spread_check (code_of matrix.now) soft word m check) rests.new moves.new }
    ensures same { IsTrue result → (rests.new ≡ rests.old) × (moves.new ≡ moves.old) }
    ensures counts_long { length negatives.new ≡ length negatives.old }
    ensures counted { IsTrue BY_COUNTS → AreCounted (code_of matrix.now) rests.new negatives.new }
{
    if moves[check].amount == 0 {
        if is_idle::<BY_COUNTS>(matrix, rests, negatives, check) {
            return true;
        }
    }
    spread_check::<BY_COUNTS>(matrix, rests, negatives, moves, check)
}

/// Visits all checks, rising, and returns how many of them move otherwise than before.
fn spread_pass<const BY_COUNTS: bool>(
    matrix: &Matrix,
    rests: &mut [i32],
    negatives: &mut [u32],
    moves: &mut [Move],
) -> usize
    requires few { AreFew (code_of matrix.now) }
    requires start { AreOfValues (code_of matrix.now) spread_scale rests.old moves.old }
    requires counted { IsTrue BY_COUNTS → AreCounted (code_of matrix.now) rests.old negatives.old }
    ensures kept { (soft : List ℤ) (word : List Bool) (m : Moved) → AreKept (code_of matrix.now) soft word spread_scale m rests.old moves.old → AreKept (code_of matrix.now) soft word spread_scale (spread_pass (code_of matrix.now) soft word m) rests.new moves.new }
    ensures same { result ≡ 0 → (rests.new ≡ rests.old) × (moves.new ≡ moves.old) }
    ensures counts_long { length negatives.new ≡ length negatives.old }
    ensures counted { IsTrue BY_COUNTS → AreCounted (code_of matrix.now) rests.new negatives.new }
{
    let mut changed = 0usize;
    for check in 0..matrix.check_count() {
        if !visit::<BY_COUNTS>(matrix, rests, negatives, moves, check) {
            changed += 1;
        }
    }
    changed
}

/// A pass over all checks, by counts or by a look at the members. Returns how many checks move
/// otherwise than before.
fn next_pass(
    matrix: &Matrix,
    rests: &mut [i32],
    negatives: &mut [u32],
    moves: &mut [Move],
    by_counts: bool,
) -> usize
    requires few { AreFew (code_of matrix.now) }
    requires start { AreOfValues (code_of matrix.now) spread_scale rests.old moves.old }
    requires counted { IsTrue by_counts → AreCounted (code_of matrix.now) rests.old negatives.old }
    ensures kept { (soft : List ℤ) (word : List Bool) (m : Moved) → AreKept (code_of matrix.now) soft word spread_scale m rests.old moves.old → AreKept (code_of matrix.now) soft word spread_scale (spread_pass (code_of matrix.now) soft word m) rests.new moves.new }
    ensures same { result ≡ 0 → (rests.new ≡ rests.old) × (moves.new ≡ moves.old) }
    ensures counts_long { length negatives.new ≡ length negatives.old }
    ensures counted { IsTrue by_counts → AreCounted (code_of matrix.now) rests.new negatives.new }
{
    if by_counts {
        spread_pass::<true>(matrix, rests, negatives, moves)
    } else {
        spread_pass::<false>(matrix, rests, negatives, moves)
    }
}

/// Counts anew if the next pass uses counts and the last one did not.
fn bring_counts(
    matrix: &Matrix,
    rests: &[i32],
    negatives: &mut [u32],
    are_kept: bool,
    are_wanted: bool,
)
    requires rests_long { length rests.now ≡ (code_of matrix.now).bits }
    requires counts_long { length negatives.old ≡ (code_of matrix.now).checks }
    requires counted { IsTrue are_kept → AreCounted (code_of matrix.now) rests.now negatives.old }
    ensures counts_long { length negatives.new ≡ length negatives.old }
    ensures counted { IsTrue are_wanted → AreCounted (code_of matrix.now) rests.now negatives.new }
{
    if are_wanted {
        if !are_kept {
            count_negatives(matrix, rests, negatives);
        }
    }
}

/// If fewer checks than one in this number moved otherwise than before, the next pass uses counts.
const FEW: usize = 8;

/// Runs at most [`MAX_SPREAD_PASSES`] passes over all checks, rising, until no rest is negative.
/// Returns whether none is then. A pass in which each check moves as before is the last, since all
/// later ones would be the same. While many checks move, a pass looks at the members of those that
/// hold no amount. Once few do, it counts the members of each check that have a negative rest.
pub(crate) fn spread(
    matrix: &Matrix,
    rests: &mut [i32],
    negatives: &mut [u32],
    moves: &mut [Move],
) -> bool
    requires few { AreFew (code_of matrix.now) }
    requires negatives { length negatives.old ≡ (code_of matrix.now).checks }
    requires start { AreOfValues (code_of matrix.now) spread_scale rests.old moves.old }
    ensures long { length negatives.new ≡ length negatives.old }
    ensures moves { AreMoves (code_of matrix.now) moves.new }
    ensures ends { (soft : List ℤ) (word : List Bool) → AreKept (code_of matrix.now) soft word spread_scale none_moved rests.old moves.old → Ends (code_of matrix.now) soft word (spread (code_of matrix.now) soft word max_spread_passes none_moved) result rests.new moves.new }
{
    let few = matrix.check_count() / FEW;
    let mut by_counts = false;
    let mut changed = few;
    'passes: for pass in 0..MAX_SPREAD_PASSES {
        if none_negative(rests) {
            return true;
        }
        bring_counts(matrix, rests, negatives, by_counts, changed < few);
        by_counts = changed < few;
        changed = next_pass(matrix, rests, negatives, moves, by_counts);
        if changed == 0 {
            return false;
        }
    }
    none_negative(rests)
}
