//! A frame that a record decided.
ghost use Rattle.std.specs.Prelude.{◌≡◌, IfSome};
ghost use Rattle.s2_check.specs.CertificateFiles.{Suits};
ghost use Rattle.s2_receive.specs.Decider.{HasPlace, delivered_of};
ghost use Rattle.s2_stitch.specs.Frames.{certificate_of};
ghost use Rattle.s2_stitch.specs.Recalling.{are_same};

use crate::same::are_same;
use s2_bits::Bits;
use s2_check::{CertView, Certificate};
use s2_matrix::Matrix;
use s2_mode::Symbol;
use s2_receive::{Decided, Frame};
use std::marker::Model;

/// A frame that a record decided. It is lent as a decided frame.
///
/// In contracts, it is its position in the recording, its symbols, the decision on it, and the data field that is lent with it.
#[derive(Drop)]
pub struct RecordedFrame<'a> {
    pub(crate) matrix: &'a Matrix,
    pub(crate) at: u64,
    pub(crate) symbols: Vec<Symbol>,
    pub(crate) soft: Vec<i16>,
    pub(crate) word: Bits,
    pub(crate) certificate: Option<Certificate>,
    pub(crate) message: Vec<bool>,
    pub(crate) decided: Decided,
    pub(crate) field: Vec<u8>,
}

impl<'a> Model for RecordedFrame<'a> {
    ghost use Rattle.s2_stitch.specs.Frames.{IsRecordedFrame, RecordedFrame as RecordedFrameValue, certificate_of, shown_decision};

    ghost Value = { RecordedFrameValue };

    ghost view = { λ f. record {
      at = f.at;
      symbols = f.symbols.items;
      decision = shown_decision f.soft.items f.word (certificate_of f.matrix.now f.certificate) f.message.items f.decided f.field.items;
      field = f.field.items;
    } };

    ghost invariant = { λ f. IsRecordedFrame f.matrix.now f.certificate f.decided f.field.items };
}

/// A certificate, if there is one, lent for a matrix that it suits.
fn lend<'a>(matrix: &'a Matrix, certificate: &'a Option<Certificate>) -> Option<CertView<'a>>
    requires { IfSome certificate.now (Suits matrix.now) }
    ensures { result ≡ certificate_of matrix.now certificate.now }
{
    match certificate {
        Some(certificate) => certificate.view(matrix),
        None => None,
    }
}

impl<'a> RecordedFrame<'a> {
    /// The symbol of the recording at which it begins.
    pub fn at(&self) -> u64
        ensures { result ≡ self.now.at }
    {
        self.at
    }

    /// Whether these are its symbols.
    pub fn has_symbols(&self, symbols: &[Symbol]) -> bool
        ensures { result ≡ are_same self.now.symbols symbols.now }
    {
        are_same(&self.symbols, symbols)
    }

    /// The results of the decision on it.
    pub fn decided(&self) -> Decided
        ensures verdict { result.verdict ≡ self.now.decision.verdict }
        ensures outcome { result.outcome ≡ self.now.decision.outcome }
        ensures figures { result.figures ≡ self.now.decision.figures }
        ensures energy { result.energy ≡ self.now.decision.energy }
        ensures turn { result.turn ≡ self.now.decision.turn }
        ensures delivered { delivered_of result.header self.now.field ≡ self.now.decision.delivered }
        ensures place { IfSome result.header (HasPlace self.now.field) }
    {
        self.decided
    }

    /// The data field of its message. If nothing of it is delivered, it says nothing.
    pub fn field(&self) -> &[u8]
        ensures { result.now ≡ self.now.field }
    {
        &self.field
    }

    /// It as a decided frame.
    pub fn frame(&self) -> Frame<'_>
        ensures { result ≡ self.now.decision }
    {
        Frame {
            soft: &self.soft,
            word: &self.word,
            certificate: lend(self.matrix, &self.certificate),
            message: &self.message,
            decided: self.decided,
            field: &self.field,
        }
    }
}
