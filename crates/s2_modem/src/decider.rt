//! From a frame's symbols to the message that it carries.
ghost use Rattle.std.specs.Prelude.{◌≡◌, IfOk};
ghost use Rattle.s2_modem.specs.Reports.{IsUndecided, options_of};

use s2_bits::Bits;
use s2_check::{CertView, Verdict};
use s2_judge::Judge;
use s2_link::{Link, RollOff};
use s2_message::{FrameOptions, FrameReader};
use s2_mode::Symbol;
use s2_receive::{Decide, Decided, Frame};
use s2_report::Outcome;
use s2_tuning::Tuning;
use std::alloc::{AllocError, Global};
use std::marker::Model;

/// How frames are read by a tuning.
pub fn options_of(tuning: Tuning) -> FrameOptions
    ensures { result ≡ options_of tuning }
{
    FrameOptions {
        divisor: tuning.divisor(),
        turns: tuning.has_turns(),
        equalize: tuning.has_equalizer(),
        figures: tuning.has_figures(),
    }
}

/// Decides the frames of a link, in its own buffers. It finds figures, equalizes frames, and rotates them back, only if
/// the tuning says so.
pub struct Decider<'a> {
    roll_off: RollOff,
    judge: Judge<'a>,
    reader: FrameReader,
    last: Decided,
}

impl<'a> Drop for Decider<'a> {
    fn drop(self) {
        let Decider {
            roll_off: _,
            judge: _,
            reader: _,
            last: _,
        } = self;
    }
}

impl<'a> Model for Decider<'a> {
    ghost use Rattle.s2_message.specs.Reading.{decision_held};
    ghost use Rattle.s2_modem.specs.DeciderState.{DeciderState, IsDeciderState};

    ghost Value = { DeciderState };

    ghost view = { λ d. record {
      link = record { setup = record { mode = d.reader.mode; number = d.reader.number; roll_off = d.roll_off }; rows = d.judge.rows };
      tuning = d.judge.tuning;
      last = decision_held d.reader.mode d.judge.soft d.judge.bits d.judge.certificate d.reader.word d.last d.reader.field;
      field = d.reader.field;
    } };

    ghost invariant = { λ d. IsDeciderState d.judge.rows d.judge.tuning d.reader d.last };
}

impl<'a> Decider<'a> {
    /// A decider with all the memory that it needs.
    pub fn new(alloc: Global, link: &Link<'a>, tuning: Tuning) -> Result<Decider<'a>, AllocError>
        ensures link { IfOk result (λ d. d.link ≡ link.now) }
        ensures tuning { IfOk result (λ d. d.tuning ≡ tuning) }
        ensures undecided { IfOk result (λ d. IsUndecided link.now.setup.mode d.last) }
    {
        let mode = link.mode();
        // the clauses of the mode are a part of these clauses
        let _k = mode.k();
        let last = Decided {
            verdict: Verdict::Broken,
            outcome: Outcome::NoWord,
            header: None,
            figures: None,
            energy: 0,
            turn: 0,
        };
        let reader = FrameReader::new(alloc, mode, link.number(), options_of(tuning))?;
        Ok(Decider {
            roll_off: link.roll_off(),
            judge: Judge::new(alloc, link.matrix(), tuning)?,
            reader,
            last,
        })
    }

    /// The soft values of the last frame.
    pub(crate) fn soft(&self) -> &[i16]
        ensures { result.now ≡ self.now.last.soft }
    {
        self.judge.soft()
    }

    /// The decided bits of the last frame.
    pub(crate) fn word(&self) -> &Bits
        ensures { result.now ≡ self.now.last.bits }
    {
        self.judge.word()
    }

    /// The certificate of the last frame's decided bits, if its verdict has one.
    pub(crate) fn certificate(&self) -> Option<CertView<'_>>
        ensures { result ≡ self.now.last.certificate }
    {
        self.judge.certificate()
    }

    /// The message that BCH decoding left of the last frame, before it was descrambled.
    pub(crate) fn message(&self) -> &[bool]
        ensures { result.now ≡ self.now.last.message }
    {
        self.reader.message()
    }
}

impl<'a> Decide for Decider<'a> {
    ghost use Rattle.s2_mode.specs.Mode.{symbols_in};
    ghost use Rattle.s2_modem.specs.DeciderState.{decides};

    ghost size = { λ d. symbols_in d.link.setup.mode };

    ghost decide = { decides };

    ghost unaided = { decides };

    ghost field = { λ d. d.field };

    ghost last = { λ d. d.last };

    /// Decides a frame, exactly as the definition says for its symbols, after rotating them back and equalizing them if the
    /// tuning says so. The figures are those of the symbols that are decided.
    fn decide(&mut self, symbols: &[Symbol]) {
        self.reader.find_soft(symbols, self.judge.soft_mut());
        let verdict = self.judge.decide();
        self.last = self.reader.read(
            symbols,
            self.judge.soft(),
            self.judge.word(),
            verdict,
            self.judge.rounds(),
        );
    }

    fn decided(&self) -> Decided {
        self.last
    }

    fn field(&self) -> &[u8] {
        self.reader.field()
    }

    fn frame(&self) -> Frame<'_> {
        Frame {
            soft: self.soft(),
            word: self.word(),
            certificate: self.certificate(),
            message: self.message(),
            decided: self.decided(),
            field: self.field(),
        }
    }
}
