//! The results of a receiver, its faults, and the report of a frame.
ghost use Rattle.std.specs.Prelude.{◌≡◌, ◌≢◌};
ghost use Rattle.s2_receive.specs.Faults.{fault_of};
ghost use Rattle.s2_receive.specs.Sums.{nothing_received, received_sum};

use crate::decider::Decided;
use s2_mode::StreamFault;
use s2_report::{Report, Totals};
use thiserror::Error;

/// The report of a decided frame.
pub(crate) fn frame_report(number: u64, at: u64, decided: Decided) -> Report
    ensures place { (result.number ≡ number) × (result.at ≡ at) }
    ensures decided { (result.verdict ≡ decided.verdict) × (result.outcome ≡ decided.outcome) }
    ensures figures { result.figures ≡ decided.figures }
    ensures turn { result.turn ≡ decided.turn }
{
    Report {
        number,
        at,
        verdict: decided.verdict,
        outcome: decided.outcome,
        figures: decided.figures,
        turn: decided.turn,
    }
}

/// The result of a run to the end: its totals, whether all is certified, and the number of symbols.
#[derive(Clone, Copy, Debug, PartialEq, Eq)]
pub struct Received {
    pub totals: Totals,
    /// Whether each frame was delivered with bits that are sole or most likely, and none was cut.
    pub all_certified: bool,
    /// The number of symbols taken in all.
    pub symbols: u64,
}

impl Received {
    /// No reception.
    pub fn none() -> Received
        ensures { result ≡ nothing_received }
    {
        Received {
            totals: Totals::none(),
            all_certified: true,
            symbols: 0,
        }
    }

    /// Two receptions in one. Each number stops at 2^64 - 1.
    pub fn plus(self, later: Received) -> Received
        ensures { result ≡ received_sum self later }
    {
        Received {
            totals: self.totals.plus(later.totals),
            all_certified: self.all_certified && later.all_certified,
            symbols: self.symbols.saturating_add(later.symbols),
        }
    }
}

/// Why a receiver stopped. After a fault, every call returns `Failed`.
#[derive(Clone, Copy, Debug, PartialEq, Eq, Error)]
pub enum Fault {
    /// A read failed, or the limit of symbols was reached.
    #[error("cannot read")]
    Read,
    /// A packet or a line of the report could not be written.
    #[error("cannot write")]
    Write,
    /// An earlier call had a fault.
    #[error("stopped by an earlier fault")]
    Failed,
}

impl Fault {
    /// The same, as a fault of a stream. It must not be `Failed`, which only a receiver returns that has failed before.
    pub fn of_stream(self) -> StreamFault
        requires { self ≢ Fault.Failed }
        ensures { fault_of result ≡ self }
    {
        match self {
            Fault::Read => StreamFault::Read,
            Fault::Write => StreamFault::Write,
            Fault::Failed => unreachable!(),
        }
    }
}

/// The phase of a receiver: what it does next.
#[derive(Clone, Copy, PartialEq, Eq)]
pub enum Phase {
    Searching,
    /// A cut frame came, and the end is still to be reported.
    Closing,
    Ended,
    Failed,
}
