//! What an ascent holds while it settles.
ghost use Rattle.std.specs.Prelude.{◌≡◌, ◌*◌, ◌<◌, ◌≤◌, All, IfOk, length};
ghost use Rattle.s2_mode.specs.Limits.{max_bits};
ghost use Rattle.s2_mode.specs.Shape.{code_bits};
ghost use Rattle.s2_matrix.specs.Code.{code_of};
ghost use Rattle.s2_check.specs.Views.{IsSoft};
ghost use Rattle.s2_minsum.specs.Decoding.{HasRoom};
ghost use Rattle.s2_settle.specs.Layer.{AreLong, layer as after_layer};
ghost use Rattle.s2_settle.specs.Rests.{lacking};
ghost use Rattle.s2_settle.specs.Start.{start as started};
ghost use Rattle.s2_settle.specs.Placing.{moves_of};
ghost use Rattle.s2_check.specs.Moves.{AreMoves};

use crate::course::Step;
use crate::lacking::count_lacking;
use crate::moves::put_moves;
use crate::one_layer::run_layer;
use crate::start::put_rests;
use s2_check::Move;
use s2_matrix::Matrix;
use s2_minsum::Layers;
use std::alloc::{AllocError, Global};
use std::marker::Model;

/// The rest of each place; and of each check, layer by layer, the entry of its target and its amount. To contracts it
/// is these three lists.
pub(crate) struct Held {
    rests: Vec<u16>,
    targets: Vec<u16>,
    amounts: Vec<u16>,
}

impl Drop for Held {
    fn drop(self) {
        let Held {
            rests: _,
            targets: _,
            amounts: _,
        } = self;
    }
}

impl Model for Held {
    ghost use Rattle.s2_settle.specs.Layer.{Held as HeldValue};

    ghost Value = { HeldValue };

    ghost view = { λ h. record { rests = h.rests.items; targets = h.targets.items; amounts = h.amounts.items } };
}

impl Held {
    /// Room for the rests and moves of a matrix.
    pub(crate) fn of(alloc: Global, matrix: &Matrix) -> Result<Held, AllocError>
        ensures { IfOk result (λ h. AreLong matrix.now h) }
    {
        let places = matrix.shape().q() * matrix.shape().group();
        let rests = vec![in alloc; 0u16; matrix.bits()]?;
        let targets = vec![in alloc; 0u16; places]?;
        let amounts = vec![in alloc; 0u16; places]?;
        Ok(Held {
            rests,
            targets,
            amounts,
        })
    }

    /// Begins with these values in favour of a word, and without a move.
    pub(crate) fn start(&mut self, matrix: &Matrix, soft: &[i16], word: &[bool])
        requires range { All IsSoft soft.now }
        requires soft { length soft.now ≡ code_bits matrix.now.shape }
        requires word { length word.now ≡ code_bits matrix.now.shape }
        requires long { AreLong matrix.now self.old }
        ensures is { self.new ≡ started matrix.now soft.now word.now }
        ensures long { AreLong matrix.now self.new }
    {
        put_rests(matrix, soft, word, &mut self.rests);
        self.targets.fill(0);
        self.amounts.fill(0);
    }

    /// Recomputes the moves of all checks of layer r.
    pub(crate) fn layer(
        &mut self,
        matrix: &Matrix,
        layers: &Layers<'_>,
        step: Step,
        scratch: &mut [u16],
        r: usize,
    )
        requires layers { layers.now ≡ matrix.now }
        requires long { AreLong matrix.now self.old }
        requires room { HasRoom matrix.now (length scratch.old) }
        requires layer { r < matrix.now.shape.q }
        ensures is { self.new ≡ after_layer matrix.now step self.old r }
        ensures long { AreLong matrix.now self.new }
    {
        run_layer(
            matrix,
            layers,
            step,
            &mut self.rests,
            &mut self.targets,
            &mut self.amounts,
            scratch,
            r,
        );
    }

    /// How many bits lack.
    pub(crate) fn lacking(&self) -> usize
        requires { length self.now.rests ≤ max_bits }
        ensures is { result ≡ lacking self.now.rests }
        ensures few { result ≤ length self.now.rests }
    {
        count_lacking(&self.rests)
    }

    /// Writes the moves check by check.
    pub(crate) fn put_moves(&self, matrix: &Matrix, layers: &Layers<'_>, moves: &mut [Move])
        requires layers { layers.now ≡ matrix.now }
        requires long { AreLong matrix.now self.now }
        requires moves { length moves.old ≡ (code_of matrix.now).checks }
        ensures are { moves.new ≡ moves_of matrix.now self.now.targets self.now.amounts }
        ensures moves { AreMoves (code_of matrix.now) moves.new }
    {
        put_moves(matrix, layers, &self.targets, &self.amounts, moves);
    }
}
