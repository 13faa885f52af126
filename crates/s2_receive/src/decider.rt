//! The interface of a decider of frames.
ghost use Rattle.std.specs.Prelude.{◌≡◌, ◌/◌, ◌<◌, ◌≤◌, ◌⊎◌, ℕ, List, IfSome, length};
ghost use Rattle.s2_mode.specs.declared.symbols.Symbol.{Symbol as SymbolValue};
ghost use Rattle.s2_receive.specs.Receiving.{Decision};

use crate::frame::Frame;
use s2_bbframe::Header;
use s2_check::Verdict;
use s2_mode::Symbol;
use s2_report::{Figures, Outcome};

/// The decision on a frame: the result of a decider.
#[derive(Clone, Copy)]
pub struct Decided {
    pub verdict: Verdict,
    pub outcome: Outcome,
    /// The header of a delivered message, whose data field [`Decide::field`] lends.
    pub header: Option<Header>,
    /// The figures of the frame, if the decider was asked for them.
    pub figures: Option<Figures>,
    /// The energy of the frame's header: the sum of I*I + Q*Q over its 90 symbols.
    pub energy: u64,
    /// The number of quarters by which the frame's symbols are rotated.
    pub turn: u8,
}

/// Decides frames, in its own buffers. Its decision is a function of a frame's symbols alone.
///
/// It is a trait, although only the modem implements it. So the receiver's loop is proved independently of decoder
/// and judge.
pub trait Decide {
    ghost use Rattle.s2_receive.specs.Decider.{delivered_of, HasPlace};

    /// How many symbols a frame has.
    ghost size: { Self → ℕ };

    /// The decision on a frame's symbols.
    ghost decide: { Self → List SymbolValue → Decision };

    /// The decision that it makes on a frame's symbols by itself. `decide` may take a frame's decision from elsewhere, such
    /// as from a record of an earlier run.
    ghost unaided: { Self → List SymbolValue → Decision };

    /// The data field that it lends.
    ghost field: { Self → List ℕ };

    /// The last decision.
    ghost last: { Self → Decision };

    /// Decides a frame of its size.
    fn decide(&mut self, symbols: &[Symbol])
        requires { length symbols.now ≡ size self.old }
        ensures last { last self.new ≡ decide self.old symbols.now }
        ensures same { decide self.new ≡ decide self.old }
        ensures unaided { unaided self.new ≡ unaided self.old }
        ensures size { size self.new ≡ size self.old };

    /// The last decision.
    fn decided(&self) -> Decided
        ensures verdict { result.verdict ≡ (last self.now).verdict }
        ensures outcome { result.outcome ≡ (last self.now).outcome }
        ensures figures { result.figures ≡ (last self.now).figures }
        ensures energy { result.energy ≡ (last self.now).energy }
        ensures turn { result.turn ≡ (last self.now).turn }
        ensures delivered { delivered_of result.header (field self.now) ≡ (last self.now).delivered }
        ensures place { IfSome result.header (HasPlace (field self.now)) };

    /// The data field of the message that was delivered last.
    fn field(&self) -> &[u8]
        ensures { result.now ≡ field self.now };

    /// The frame that was decided last, for a sink.
    fn frame(&self) -> Frame<'_>
        ensures { result ≡ last self.now };
}
