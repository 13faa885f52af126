//! A decided frame, lent.

use crate::decider::Decided;
use s2_bits::Bits;
use s2_check::CertView;
use std::marker::Model;

/// A decided frame, lent to sinks.
///
/// In contracts it is the decision on the frame's symbols.
pub struct Frame<'a> {
    /// The soft values of its codeword.
    pub soft: &'a [i16],
    /// The decided bits of its codeword.
    pub word: &'a Bits,
    /// The certificate of these bits, if their verdict has one.
    pub certificate: Option<CertView<'a>>,
    /// The message that BCH decoding left, still scrambled.
    pub message: &'a [bool],
    /// The verdict, the outcome, the header of a delivered message, the figures, the energy of the PLHEADER, and
    /// the number of quarters by which the symbols arrived rotated.
    pub decided: Decided,
    /// The data field of a delivered message. If the frame was not delivered, it says nothing.
    pub field: &'a [u8],
}

impl<'a> Drop for Frame<'a> {
    fn drop(self) {
        let Frame {
            soft: _,
            word: _,
            certificate: _,
            message: _,
            decided: _,
            field: _,
        } = self;
    }
}

impl<'a> Model for Frame<'a> {
    ghost use Rattle.s2_receive.specs.Decider.{delivered_of};
    ghost use Rattle.s2_receive.specs.Receiving.{Decision};

    ghost Value = { Decision };

    ghost view = { λ f. record {
      soft = f.soft.now;
      bits = f.word.now;
      verdict = f.decided.verdict;
      certificate = f.certificate;
      message = f.message.now;
      outcome = f.decided.outcome;
      delivered = delivered_of f.decided.header f.field.now;
      figures = f.decided.figures;
      energy = f.decided.energy;
      turn = f.decided.turn;
    } };
}
