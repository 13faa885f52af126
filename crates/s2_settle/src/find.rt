//! The moves that passes find.
ghost use Rattle.std.specs.Prelude.{◌≡◌, ℕ, ◌≤◌, ◌<◌, ◌+◌, ◌*◌, All, length};
ghost use Rattle.s2_mode.specs.Shape.{code_bits};
ghost use Rattle.s2_matrix.specs.Code.{code_of};
ghost use Rattle.s2_check.specs.Views.{IsSoft};
ghost use Rattle.s2_minsum.specs.Decoding.{AreFit, HasRoom};
ghost use Rattle.s2_settle.specs.Layer.{AreLong};
ghost use Rattle.s2_settle.specs.Settled.{ended};
ghost use Rattle.s2_settle.specs.Placing.{Finds};
ghost use Rattle.s2_check.specs.Moves.{AreMoves};

use crate::course::Course;
use crate::held::Held;
use crate::passes::run_passes;
use s2_check::Move;
use s2_matrix::Matrix;
use s2_minsum::Layers;

/// Finds moves in at most this number of passes, and writes them check by check. Returns whether it found them.
pub(crate) fn find_moves(
    matrix: &Matrix,
    layers: &Layers<'_>,
    soft: &[i16],
    word: &[bool],
    passes: u32,
    held: &mut Held,
    scratch: &mut [u16],
    moves: &mut [Move],
) -> bool
    requires layers { layers.now ≡ matrix.now }
    requires range { All IsSoft soft.now }
    requires soft { length soft.now ≡ code_bits matrix.now.shape }
    requires word { length word.now ≡ code_bits matrix.now.shape }
    requires long { AreLong matrix.now held.old }
    requires room { HasRoom matrix.now (length scratch.old) }
    requires fit { AreFit matrix.now }
    requires moves { AreMoves (code_of matrix.now) moves.old }
    ensures found { Finds matrix.now (ended matrix.now soft.now word.now passes) result moves.new }
    ensures moves { AreMoves (code_of matrix.now) moves.new }
    ensures long { AreLong matrix.now held.new }
{
    held.start(matrix, soft, word);
    let first = Course::at_first(soft);
    if !run_passes(matrix, layers, first, passes, held, scratch) {
        return false;
    }
    held.put_moves(matrix, layers, moves);
    true
}
