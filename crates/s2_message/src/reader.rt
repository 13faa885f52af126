//! From a frame's symbols to soft values, and from its decided bits to the message.
ghost use Rattle.std.specs.Prelude.{◌≡◌, All, IfOk, IfSome, length, replicate, false};
ghost use Rattle.s2_mode.specs.Mode.{k_of, n_of, symbols_in};
ghost use Rattle.s2_check.specs.Views.{IsSoft};
ghost use Rattle.s2_receive.specs.Decider.{HasPlace};
ghost use Rattle.s2_message.specs.Decisions.{message_of, soft_frame};
ghost use Rattle.s2_message.specs.Reading.{DecidesBy, HasFrame, IsSameReader};

use crate::corrector::Corrector;
use crate::demodulator::Demodulator;
use crate::derotator::Derotator;
use crate::figures::{find_figures, meter_for};
use crate::header::header_energy;
use crate::message::MessageReader;
use crate::meter::FigureMeter;
use crate::options::FrameOptions;
use s2_bits::Bits;
use s2_check::Verdict;
use s2_equalize::FrameEqualizer;
use s2_mode::{Mode, Symbol};
use s2_receive::Decided;
use s2_scramble::ScramblingNumber;
use std::alloc::{AllocError, Global};
use std::marker::Model;

/// Reads the frames of a mode, in its own buffers: [`FrameReader::find_soft`] finds the soft values of a frame's codeword,
/// and [`FrameReader::read`] the message of its decided bits. Which bits are decided is not its business.
pub struct FrameReader {
    mode: Mode,
    options: FrameOptions,
    derotator: Derotator,
    equalizer: FrameEqualizer,
    demodulator: Demodulator,
    corrector: Corrector,
    messages: MessageReader,
    meter: Option<FigureMeter>,
    turn: u8,
}

impl Drop for FrameReader {
    fn drop(self) {
        let FrameReader {
            mode: _,
            options: _,
            derotator: _,
            equalizer: _,
            demodulator: _,
            corrector: _,
            messages: _,
            meter: _,
            turn: _,
        } = self;
    }
}

impl Model for FrameReader {
    ghost use Rattle.s2_message.specs.Reading.{FrameReader as FrameReaderValue, IsFrameReader};

    ghost Value = { FrameReaderValue };

    ghost view = { λ r. record {
      mode = r.mode;
      number = r.demodulator.number;
      options = r.options;
      derotator = r.derotator;
      equalizer = r.equalizer;
      turn = r.turn;
      word = r.corrector.word;
      field = r.messages.field;
    } };

    ghost invariant = { λ r. IsFrameReader r.mode r.options r.demodulator r.corrector.mode r.messages.mode r.derotator r.equalizer r.meter };
}

impl FrameReader {
    /// A reader of the frames of a mode and a scrambling number, with all the memory that it needs. `AllocError` only if
    /// memory does not suffice.
    pub fn new(
        alloc: Global,
        mode: Mode,
        number: ScramblingNumber,
        options: FrameOptions,
    ) -> Result<FrameReader, AllocError>
        ensures mode { IfOk result (λ r. r.mode ≡ mode) }
        ensures number { IfOk result (λ r. r.number ≡ number) }
        ensures options { IfOk result (λ r. r.options ≡ options) }
        ensures zeros { IfOk result (λ r. r.word ≡ replicate (k_of mode) false) }
    {
        // the clauses of the mode are a part of these clauses
        let _k = mode.k();
        Ok(FrameReader {
            mode,
            options,
            derotator: Derotator::new(alloc, mode, options.turns)?,
            equalizer: FrameEqualizer::new(alloc, mode, number, options.equalize)?,
            demodulator: Demodulator::new(alloc, mode, number, options.divisor)?,
            corrector: Corrector::new(alloc, mode)?,
            messages: MessageReader::new(alloc, mode)?,
            meter: meter_for(alloc, mode, number, options.figures)?,
            turn: 0,
        })
    }

    /// Writes the soft values of a frame's codeword (EN 302 307-1, 5.4 and 5.5): `mode.n()` values, by the frame's
    /// `mode.symbols()` symbols. They are rotated back and equalized before, if the options say so.
    pub fn find_soft(&mut self, symbols: &[Symbol], soft: &mut [i16])
        requires frame { length symbols.now ≡ symbols_in self.old.mode }
        requires soft { length soft.old ≡ n_of self.old.mode }
        ensures is { soft.new ≡ soft_frame self.old.mode self.old.number self.old.options symbols.now }
        ensures range { All IsSoft soft.new }
        ensures frame { HasFrame self.new symbols.now }
        ensures same { IsSameReader self.old self.new }
    {
        self.turn = self.derotator.derotate(symbols);
        let upright = self.derotator.upright(symbols);
        self.equalizer.equalize(upright);
        let levelled = self.equalizer.levelled(upright);
        self.demodulator.find_soft(levelled, soft);
    }

    /// The decision on the frame whose soft values were found last, by decided bits and their verdict. BCH decoding
    /// corrects the first of the bits (5.3.1), and the header of the message is read (5.1 and 5.2). `rounds` is a
    /// figure: how many rounds of min-sum were run.
    pub fn read(
        &mut self,
        symbols: &[Symbol],
        soft: &[i16],
        word: &Bits,
        verdict: Verdict,
        rounds: u32,
    ) -> Decided
        requires frame { length symbols.now ≡ symbols_in self.old.mode }
        requires soft { length soft.now ≡ n_of self.old.mode }
        requires word { length word.now ≡ n_of self.old.mode }
        requires found { HasFrame self.old symbols.now }
        ensures decides { DecidesBy self.old self.new symbols.now soft.now verdict word.now rounds result }
        ensures place { IfSome result.header (HasPlace self.new.field) }
        ensures same { IsSameReader self.old self.new }
    {
        let found = self.corrector.correct(word);
        let (outcome, header) = self.messages.read_outcome(found, self.corrector.word());
        let upright = self.derotator.upright(symbols);
        let levelled = self.equalizer.levelled(upright);
        let removed = self.equalizer.removed();
        let figures = find_figures(&mut self.meter, levelled, removed, soft, word, rounds);
        Decided {
            verdict,
            outcome,
            header,
            figures,
            energy: header_energy(symbols),
            turn: self.turn,
        }
    }

    /// The message that BCH decoding left last, of Kbch bits, before it was descrambled.
    pub fn message(&self) -> &[bool]
        ensures { result.now ≡ message_of self.now.mode self.now.word }
    {
        &self.corrector.word().truths()[..self.mode.kbch()]
    }

    /// The data field that was taken out of a message last.
    pub fn field(&self) -> &[u8]
        ensures { result.now ≡ self.now.field }
    {
        self.messages.field()
    }
}
