//! One layer over an ascent's lists.
ghost use Rattle.std.specs.Prelude.{◌≡◌, ℕ, ◌≤◌, ◌<◌, ◌+◌, ◌*◌, length};
ghost use Rattle.s2_minsum.specs.Decoding.{HasRoom};
ghost use Rattle.s2_settle.specs.Layer.{held, AreLong, layer as after_layer};

use crate::course::Step;
use crate::layer::run;
use s2_matrix::Matrix;
use s2_minsum::{Layers, last_row};

/// Recomputes the moves of all checks of layer r.
pub(crate) fn run_layer(
    matrix: &Matrix,
    layers: &Layers<'_>,
    step: Step,
    rests: &mut [u16],
    targets: &mut [u16],
    amounts: &mut [u16],
    scratch: &mut [u16],
    r: usize,
)
    requires layers { layers.now ≡ matrix.now }
    requires long { AreLong matrix.now (held rests.old targets.old amounts.old) }
    requires room { HasRoom matrix.now (length scratch.old) }
    requires layer { r < matrix.now.shape.q }
    ensures { held rests.new targets.new amounts.new ≡ after_layer matrix.now step (held rests.old targets.old amounts.old) r }
{
    let shape = matrix.shape();
    let n = shape.group();
    let last = last_row(shape, r);
    let entries = layers.entries(r);
    let at = r * n;
    run(
        entries,
        n,
        last,
        step,
        rests,
        &mut targets[at..at + n],
        &mut amounts[at..at + n],
        scratch,
    );
}
