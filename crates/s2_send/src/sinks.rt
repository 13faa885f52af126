//! Sinks: they take the codeword of each frame before the frame is written.
ghost use Rattle.std.specs.Prelude.{◌≡◌, ℕ, ◌+◌, Bool, List, OnOk, OnErr};
ghost use Rattle.s2_mode.specs.Counts.{CanCount, CountsFault};
ghost use Rattle.s2_send.specs.Sinks.{BothTake, OneFails, WantedFails, WantedTakes, wanted_count};

use s2_bits::Bits;
use s2_mode::WriteFault;

/// A sink: it takes the codeword (FECFRAME) of each frame that a transmitter sends, before the frame's symbols are
/// written. It is not given dummy frames.
///
/// `()` is a sink that does nothing. A pair of sinks gives each codeword to the first one, and then to the second. An
/// `Option` without a sink does nothing.
pub trait SendSink {
    /// The sink after it took a codeword.
    ghost takes: { Self → Self → List Bool → Type 0 };

    /// The sink after it failed to take a codeword.
    ghost fails: { Self → Self → List Bool → Type 0 };

    /// The number of its failed calls.
    ghost count: { Self → ℕ };

    /// Takes a codeword: its n bits. `WriteFault` means that a write failed; a part of what the codeword gives may be
    /// written.
    fn take(&mut self, codeword: &Bits) -> Result<(), WriteFault>
        requires { CanCount (count self.old) }
        ensures takes { OnOk result (takes self.old self.new codeword.now) }
        ensures fails { OnErr result (fails self.old self.new codeword.now) }
        ensures cause { CountsFault (count self.old) (count self.new) result };
}

impl SendSink for () {
    ghost takes = { λ old new codeword. new ≡ old };

    ghost fails = { λ old new codeword. ⊥ };

    ghost count = { λ sink. 0 };

    fn take(&mut self, _codeword: &Bits) -> Result<(), WriteFault> {
        Ok(())
    }
}

impl<A: SendSink, B: SendSink> SendSink for (A, B) {
    ghost takes = { BothTake A.takes B.takes };

    ghost fails = { OneFails A.takes A.fails B.fails };

    ghost count = { λ sinks. A.count sinks.0 + B.count sinks.1 };

    fn take(&mut self, codeword: &Bits) -> Result<(), WriteFault> {
        self.0.take(codeword)?;
        self.1.take(codeword)
    }
}

impl<A: SendSink> SendSink for Option<A> {
    ghost takes = { WantedTakes A.takes };

    ghost fails = { WantedFails A.fails };

    ghost count = { wanted_count A.count };

    fn take(&mut self, codeword: &Bits) -> Result<(), WriteFault> {
        match self {
            None => Ok(()),
            Some(sink) => sink.take(codeword),
        }
    }
}
