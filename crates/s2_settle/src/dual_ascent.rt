//! The ascent.
ghost use Rattle.std.specs.Prelude.{◌≡◌, IsTrue, IfOk, All, Some, None, if◌then◌else◌, length};
ghost use Rattle.s2_matrix.specs.Code.{code_of, IsCodeword};
ghost use Rattle.s2_check.specs.Strict.{IsStrict};
ghost use Rattle.s2_check.specs.Views.{IsSoft};
ghost use Rattle.s2_settle.specs.Settled.{settled};
ghost use Rattle.s2_settle.specs.Holding.{view_by};

use crate::find::find_moves;
use crate::held::Held;
use crate::limits::SETTLING_SCALE;
use s2_bits::Bits;
use s2_check::{CertView, Move, examine};
use s2_matrix::Matrix;
use s2_minsum::{Layers, scratch_len};
use std::alloc::{AllocError, Global};
use std::marker::Model;

/// A maker of certificates by passes over all layers. To contracts it is the address rows, and the moves that it made last.
pub struct DualAscent<'a> {
    matrix: &'a Matrix,
    layers: Layers<'a>,
    held: Held,
    scratch: Vec<u16>,
    moves: Vec<Move>,
}

impl<'a> Drop for DualAscent<'a> {
    fn drop(self) {
        let DualAscent {
            matrix: _,
            layers: _,
            held: _,
            scratch: _,
            moves: _,
        } = self;
    }
}

impl<'a> Model for DualAscent<'a> {
    ghost use Rattle.std.specs.Prelude.{length};
    ghost use Rattle.s2_settle.specs.Holding.{Settling, IsDualAscent};

    ghost Value = { Settling };

    ghost view = { λ s. record { rows = s.matrix.now; moves = s.moves.items } };

    ghost invariant = { λ s. IsDualAscent s.matrix.now s.layers s.held s.moves.items (length s.scratch.items) };
}

impl<'a> DualAscent<'a> {
    /// An ascent for the words of this matrix. It takes all its memory here. Returns `AllocError` only if memory is
    /// refused.
    pub fn new(alloc: Global, matrix: &'a Matrix) -> Result<DualAscent<'a>, AllocError>
        ensures { IfOk result (λ s. s.rows ≡ matrix.now) }
    {
        let checks = matrix.check_count();
        let layers = Layers::of(alloc, matrix)?;
        let none = Move {
            place: 0,
            amount: 0,
        };
        let held = Held::of(alloc, matrix)?;
        let scratch = vec![in alloc; 0u16; scratch_len(matrix)]?;
        let moves = vec![in alloc; none; checks]?;
        Ok(DualAscent {
            matrix,
            layers,
            held,
            scratch,
            moves,
        })
    }

    /// Returns whether at most this number of passes find a certificate for a codeword, which is strict. The held moves
    /// are then its moves.
    pub fn certify(&mut self, soft: &[i16], word: &Bits, passes: u32) -> bool
        requires soft { length soft.now ≡ (code_of self.old.rows).bits }
        requires range { All IsSoft soft.now }
        requires codeword { IsCodeword (code_of self.old.rows) word.now }
        ensures rows { self.new.rows ≡ self.old.rows }
        ensures is { settled self.old.rows soft.now word.now passes
            ≡ (if result then Some (view_by self.new soft.now word.now) else None) }
        ensures strict { IsTrue result → IsStrict self.old.rows (view_by self.new soft.now word.now) }
    {
        if !find_moves(
            self.matrix,
            &self.layers,
            soft,
            word.truths(),
            passes,
            &mut self.held,
            &mut self.scratch,
            &mut self.moves,
        ) {
            return false;
        }
        examine(self.matrix, &self.held(soft, word)).strict
    }

    /// The certificate of these values and this word by the moves that were made last.
    pub fn held<'s>(&'s self, soft: &'s [i16], word: &'s Bits) -> CertView<'s>
        requires soft { length soft.now ≡ (code_of self.now.rows).bits }
        requires range { All IsSoft soft.now }
        requires word { length word.now ≡ (code_of self.now.rows).bits }
        ensures { result ≡ view_by self.now soft.now word.now }
    {
        CertView::placed(self.matrix, SETTLING_SCALE, soft, word, &self.moves)
    }
}
