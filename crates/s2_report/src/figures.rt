//! Figures of the link: of a frame, and summed over frames.
ghost use Rattle.std.specs.Prelude.{◌≡◌};
ghost use Rattle.s2_report.specs.Figures.{saturated, sums_after, sums_of, sums_of_both, sums_plus, tally_sum};

use s2_equalize::Removed;

/// A sum, and over how many bits or symbols it goes.
#[derive(Clone, Copy, Debug, PartialEq, Eq)]
pub struct Tally {
    pub sum: u64,
    pub of: u64,
}

impl Tally {
    /// Two sums in one. Each number stops at 2^64 - 1.
    pub fn plus(self, other: Tally) -> Tally
        ensures { result ≡ tally_sum self other }
    {
        Tally {
            sum: self.sum.saturating_add(other.sum),
            of: self.of.saturating_add(other.of),
        }
    }
}

/// The power of received symbols, and their correlation with those that were sent. From it a link's complex gain and its
/// noise are computed, whatever the amplitude is.
#[derive(Clone, Copy, Debug, PartialEq, Eq)]
pub struct Correlation {
    /// The sum of I*I + Q*Q over the received symbols.
    pub power: u64,
    /// Each received symbol is multiplied by the conjugate of the one that was sent: the real parts, summed.
    pub along: i64,
    /// The imaginary parts, summed.
    pub across: i64,
}

/// The figures of a decided frame. A frame has them only if its decider was asked for them.
///
/// A distance is between a received symbol and what was sent there, in the units of [`s2_mode::Symbol`], squared. If frames are
/// equalized, the symbols of all figures are those after the equalizer.
#[derive(Clone, Copy, Debug, PartialEq, Eq)]
pub struct Figures {
    /// How many of the 90 symbols of the PLHEADER were decided wrongly. They are compared with the header of the mode
    /// (EN 302 307-1, 5.5.2).
    pub header: u32,
    /// The number of rounds of min-sum that were run.
    pub rounds: u32,
    /// The number of positions in which the decided word differs from the hard decision, of n bits.
    pub changed: Tally,
    /// The sum of the squared distances of the known symbols: those of the header and of the pilot blocks (5.5.3).
    pub known: Tally,
    /// The same of the payload's symbols, to the points of the decided word.
    pub payload: Tally,
    /// The power and the correlation of the known symbols.
    pub known_correlation: Correlation,
    /// The same of the payload's symbols.
    pub payload_correlation: Correlation,
    /// The gain and the rotation that the equalizer removed, if it was used.
    pub removed: Option<Removed>,
}

/// The sums of figures over the frames that have them. Each number stops at 2^64 - 1.
#[derive(Clone, Copy, Debug, PartialEq, Eq)]
pub struct Sums {
    /// The number of positions in which decided words differ from hard decisions.
    pub changed: Tally,
    /// The squared distances of known symbols.
    pub known: Tally,
    /// The squared distances of the payloads' symbols.
    pub payload: Tally,
    /// The power of the known symbols.
    pub known_power: u64,
    /// The power of the payloads' symbols.
    pub payload_power: u64,
}

impl Sums {
    /// The sums over one frame.
    fn of(figures: Figures) -> Sums
        ensures { result ≡ sums_of figures }
    {
        Sums {
            changed: figures.changed,
            known: figures.known,
            payload: figures.payload,
            known_power: figures.known_correlation.power,
            payload_power: figures.payload_correlation.power,
        }
    }

    /// Two sums in one. Each number stops at 2^64 - 1.
    fn plus(self, other: Sums) -> Sums
        ensures { result ≡ sums_plus self other }
    {
        Sums {
            changed: self.changed.plus(other.changed),
            known: self.known.plus(other.known),
            payload: self.payload.plus(other.payload),
            known_power: self.known_power.saturating_add(other.known_power),
            payload_power: self.payload_power.saturating_add(other.payload_power),
        }
    }
}

/// The sums of both, if any has them.
pub(crate) fn sums_of_both(first: Option<Sums>, later: Option<Sums>) -> Option<Sums>
    ensures { result ≡ sums_of_both first later }
{
    match (first, later) {
        (None, later) => later,
        (Some(first), None) => Some(first),
        (Some(first), Some(later)) => Some(first.plus(later)),
    }
}

/// The sums after a frame, which has figures or not.
pub fn sums_after(sums: Option<Sums>, figures: Option<Figures>) -> Option<Sums>
    ensures { result ≡ sums_after sums figures }
{
    match (sums, figures) {
        (sums, None) => sums,
        (None, Some(figures)) => Some(Sums::of(figures)),
        (Some(sums), Some(figures)) => Some(sums.plus(Sums::of(figures))),
    }
}
