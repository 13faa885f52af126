//! The made split, on lists.
ghost use Rattle.std.specs.Prelude.{◌≡◌, ◌≢◌, ℕ, ◌≤◌, All, length, get_or};
ghost use Rattle.s2_rows.specs.Rows.{Rows};
ghost use Rattle.s2_matrix.specs.Code.{code_of};
ghost use Rattle.s2_check.specs.Views.{IsSoft};
ghost use Rattle.s2_check.specs.Moves.{no_move, placed_of, AreMoves};
ghost use Rattle.s2_split.specs.Greedy.{none_moved, greedy};
ghost use Rattle.s2_split.specs.Spreading.{has_no_negative_rest, spread_scale};
ghost use Rattle.s2_split.specs.Kept.{AreFew, AreLow, AreKept};
ghost use Rattle.s2_split.specs.Making.{shared, split_in_ways, made_of, AreLeft};

use crate::greedy::greedy;
use crate::limits::SPREAD_SCALE;
use crate::spread::spread;
use crate::start::start_rests;
use s2_check::Move;
use s2_matrix::Matrix;

/// Moves nothing in any check.
fn clear(moves: &mut [Move])
    ensures long { length moves.new ≡ length moves.old }
    ensures none { (j : ℕ) → get_or moves.new j no_move ≡ no_move }
{
    for check in 0..moves.len() {
        moves[check] = Move {
            place: 0,
            amount: 0,
        };
    }
}

/// Rests at a scale of at most [`SPREAD_SCALE`], and no moves.
fn begin(soft: &[i16], word: &[bool], scale: u16, rests: &mut [i32], moves: &mut [Move])
    requires range { All IsSoft soft.now }
    requires word { length word.now ≡ length soft.now }
    requires scale { scale ≤ spread_scale }
    requires rests { length rests.old ≡ length soft.now }
    ensures kept { (r : Rows) → length soft.now ≡ (code_of r).bits → length moves.old ≡ (code_of r).checks → AreKept (code_of r) soft.now word.now scale none_moved rests.new moves.new }
    ensures low { scale ≡ 1 → AreLow rests.new }
{
    start_rests(soft, word, scale, rests);
    clear(moves);
}

/// Moves the greedy amounts. Returns whether they leave no negative rest.
fn try_greedily(
    matrix: &Matrix,
    soft: &[i16],
    word: &[bool],
    rests: &mut [i32],
    moves: &mut [Move],
) -> bool
    requires soft { length soft.now ≡ (code_of matrix.now).bits }
    requires range { All IsSoft soft.now }
    requires word { length word.now ≡ (code_of matrix.now).bits }
    requires few { AreFew (code_of matrix.now) }
    requires rests { length rests.old ≡ (code_of matrix.now).bits }
    requires moves { length moves.old ≡ (code_of matrix.now).checks }
    ensures test { has_no_negative_rest (code_of matrix.now) soft.now word.now 1 (greedy (code_of matrix.now) soft.now word.now) ≡ result }
    ensures kept { AreKept (code_of matrix.now) soft.now word.now 1 (greedy (code_of matrix.now) soft.now word.now) rests.new moves.new }
{
    begin(soft, word, 1, rests, moves);
    greedy(matrix, soft, word, rests, moves)
}

/// In which ways a split is looked for.
#[derive(Clone, Copy, Drop)]
pub(crate) enum Ways {
    /// By the greedy amounts alone.
    Greedy,
    /// By the greedy amounts, and by spreading if they leave a negative rest.
    GreedyThenSpreading,
}

/// Makes the split of a codeword in these ways. Returns its scale, or 0 if none is found.
pub(crate) fn make_moves(
    matrix: &Matrix,
    soft: &[i16],
    word: &[bool],
    ways: Ways,
    rests: &mut [i32],
    negatives: &mut [u32],
    moves: &mut [Move],
) -> u16
    requires soft { length soft.now ≡ (code_of matrix.now).bits }
    requires range { All IsSoft soft.now }
    requires word { length word.now ≡ (code_of matrix.now).bits }
    requires few { AreFew (code_of matrix.now) }
    requires rests { length rests.old ≡ (code_of matrix.now).bits }
    requires negatives { length negatives.old ≡ (code_of matrix.now).checks }
    requires moves { length moves.old ≡ (code_of matrix.now).checks }
    ensures made { made_of result moves.new ≡ shared (code_of matrix.now) word.now (split_in_ways ways (code_of matrix.now) soft.now word.now) }
    ensures moves { AreMoves (code_of matrix.now) moves.new }
    ensures rests { result ≢ 0 → AreLeft (code_of matrix.now) soft.now word.now (placed_of (code_of matrix.now) word.now result moves.new) rests.new }
    ensures scaled { result ≤ spread_scale }
    ensures long { length rests.new ≡ length rests.old }
    ensures negatives { length negatives.new ≡ length negatives.old }
{
    if try_greedily(matrix, soft, word, rests, moves) {
        return 1;
    }
    match ways {
        Ways::Greedy => 0,
        Ways::GreedyThenSpreading => {
            begin(soft, word, SPREAD_SCALE, rests, moves);
            if spread(matrix, rests, negatives, moves) {
                SPREAD_SCALE
            } else {
                0
            }
        }
    }
}
