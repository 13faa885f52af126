//! Passes over all layers, as long as a bit lacks.
ghost use Rattle.std.specs.Prelude.{◌≡◌, ◌≤◌, length};
ghost use Rattle.s2_mode.specs.Limits.{max_bits};
ghost use Rattle.s2_matrix.specs.Code.{code_of};
ghost use Rattle.s2_minsum.specs.Decoding.{AreFit, HasRoom};
ghost use Rattle.s2_settle.specs.Plain.{State, passes as passes_from};
ghost use Rattle.s2_settle.specs.Layer.{AreLong};
ghost use Rattle.s2_settle.specs.Passes.{pass as after_pass};
ghost use Rattle.s2_settle.specs.Shows.{IsShown, ShowsEnd};

use crate::course::{Course, Step, is_hopeless};
use crate::held::Held;
use s2_matrix::Matrix;
use s2_minsum::Layers;

/// Runs all layers, in order.
fn run_pass(matrix: &Matrix, layers: &Layers<'_>, step: Step, held: &mut Held, scratch: &mut [u16])
    requires layers { layers.now ≡ matrix.now }
    requires long { AreLong matrix.now held.old }
    requires room { HasRoom matrix.now (length scratch.old) }
    ensures is { held.new ≡ after_pass matrix.now step held.old }
    ensures long { AreLong matrix.now held.new }
{
    let q = matrix.shape().q();
    for r in 0..q {
        held.layer(matrix, layers, step, scratch, r);
    }
}

/// Runs at most this number of passes, until no bit lacks. Returns whether none lacks then.
pub(crate) fn run_passes(
    matrix: &Matrix,
    layers: &Layers<'_>,
    first: Course,
    passes: u32,
    held: &mut Held,
    scratch: &mut [u16],
) -> bool
    requires layers { layers.now ≡ matrix.now }
    requires fit { AreFit matrix.now }
    requires before { first.before ≤ max_bits }
    requires long { AreLong matrix.now held.old }
    requires room { HasRoom matrix.now (length scratch.old) }
    ensures is { (s : State) → IsShown matrix.now held.old s → ShowsEnd matrix.now (passes_from (code_of matrix.now) matrix.now.shape.q passes 0 first s) result held.new }
    ensures long { AreLong matrix.now held.new }
{
    let bits = matrix.bits();
    let mut course = first;
    for pass in 0..passes {
        let now = held.lacking();
        if now == 0 {
            return true;
        }
        if is_hopeless(bits, pass, course.before, now) {
            return false;
        }
        run_pass(matrix, layers, course.step(pass, now), held, scratch);
        course = course.after(now);
    }
    held.lacking() == 0
}
