//! Notes on the frames of a received stream: refused headers, and headers that are too strong or too weak.
ghost use Rattle.std.specs.Prelude.{◌≡◌, ◌<◌, [], ◌++◌, OnOk, decimal, drop, not, nat_eq};
ghost use Rattle.std.specs.Io.KnownBytes.{Appends};
ghost use Rattle.s2_mode.specs.Counts.{CanCount, CountsFault};
ghost use Rattle.s2_commands.specs.Losses.{amplitude_note, amplitude_notes, amplitude_start, frame_notes, gained_note, header_amplitude, note_if, odd_amplitude, refused_note};

use crate::losses::push_counted;
use itoa::Buffer;
use s2_io::Line;
use s2_mode::{CountedWrite, HEADER_SYMBOLS, WriteFault, write_full};
use s2_report::Totals;
use s2_scan::{amplitude_by, gain_of, is_usual};

/// The note of lost frames with a BCH word whose header is refused.
#[tactic(auto, unfolding(crate::specs::Losses::refused_note))]
fn refused_note(totals: Totals) -> Line
    ensures { result ≡ refused_note totals }
{
    let lost = totals.frames.saturating_sub(totals.delivered);
    let mut line = Line::new();
    push_counted(&mut line, "s2: note: of ", lost, " lost frame");
    line.push_number(" ", totals.refused);
    line.push(" had a BCH word whose header is refused\n");
    line
}

/// Writes the note of refused headers, if there are any.
#[tactic(auto, unfolding(crate::specs::Losses::refused_note))]
fn write_refused<W: CountedWrite>(totals: Totals, out: &mut W) -> Result<(), WriteFault>
    requires { CanCount (W.count out.old) }
    ensures bytes { OnOk result (Appends (W.contents out.old) (W.contents out.new) (note_if (not (nat_eq totals.refused 0)) (refused_note totals))) }
    ensures none { note_if (not (nat_eq totals.refused 0)) (refused_note totals) ≡ [] → out.new ≡ out.old }
    ensures cause { CountsFault (W.count out.old) (W.count out.new) result }
{
    if totals.refused == 0 {
        return Ok(());
    }
    write_full(out, refused_note(totals).as_bytes())
}

/// The amplitude of all headers.
pub(crate) fn header_amplitude(totals: Totals) -> u64
    requires { 0 < totals.frames }
    ensures { result ≡ header_amplitude totals }
{
    let symbols = HEADER_SYMBOLS as u128 * u128::from(totals.frames);
    amplitude_by(u128::from(totals.energy), symbols)
}

/// The amplitude of the headers, if frames came without an equalizer, none was delivered, and symbols of this amplitude
/// need a gain.
fn odd_amplitude(equalize: bool, totals: Totals) -> Option<u64>
    ensures { result ≡ odd_amplitude equalize totals }
{
    if equalize
        || totals.frames == 0
        || totals.delivered != 0
        || is_usual(header_amplitude(totals))
    {
        None
    } else {
        Some(header_amplitude(totals))
    }
}

/// The note's part before the fraction of the gain.
#[tactic(auto, unfolding(crate::specs::Losses::amplitude_start))]
fn amplitude_start(amplitude: u64, whole: u64) -> Line
    ensures { result ≡ amplitude_start amplitude whole }
{
    let mut line = Line::new();
    line.push_number(
        "s2: note: the headers' amplitude, noise included, is ",
        amplitude,
    );
    line.push_number(", not 990: use --gain ", whole);
    line.push(".");
    line
}

/// Writes the digits of a number after its first one.
fn write_fraction<W: CountedWrite>(number: u64, out: &mut W) -> Result<(), WriteFault>
    requires { CanCount (W.count out.old) }
    ensures bytes { OnOk result (Appends (W.contents out.old) (W.contents out.new) (drop 1 (decimal number))) }
    ensures cause { CountsFault (W.count out.old) (W.count out.new) result }
{
    let mut digits = Buffer::new();
    let shown = digits.format(number).as_bytes();
    match shown {
        [_, rest @ ..] => write_full(out, rest),
        [] => write_full(out, shown),
    }
}

/// Writes the note of an amplitude, with a gain in ten-thousandths.
fn write_gained<W: CountedWrite>(amplitude: u64, gain: u64, out: &mut W) -> Result<(), WriteFault>
    requires { CanCount (W.count out.old) }
    ensures bytes { OnOk result (Appends (W.contents out.old) (W.contents out.new) (gained_note amplitude gain)) }
    ensures cause { CountsFault (W.count out.old) (W.count out.new) result }
{
    write_full(out, amplitude_start(amplitude, gain / 10_000).as_bytes())?;
    write_fraction(10_000 + gain % 10_000, out)?;
    write_full(out, " of tools/convert, or --equalize\n".as_bytes())
}

/// Writes the note of an amplitude, and the gain to use.
fn write_amplitude<W: CountedWrite>(amplitude: u64, out: &mut W) -> Result<(), WriteFault>
    requires { CanCount (W.count out.old) }
    ensures bytes { OnOk result (Appends (W.contents out.old) (W.contents out.new) (amplitude_note amplitude)) }
    ensures cause { CountsFault (W.count out.old) (W.count out.new) result }
{
    write_gained(amplitude, gain_of(amplitude), out)
}

/// Writes the note of an amplitude, if there is one.
#[tactic(auto, unfolding(crate::specs::Losses::amplitude_start))]
fn write_if_odd<W: CountedWrite>(amplitude: Option<u64>, out: &mut W) -> Result<(), WriteFault>
    requires { CanCount (W.count out.old) }
    ensures bytes { OnOk result (Appends (W.contents out.old) (W.contents out.new) (amplitude_notes amplitude)) }
    ensures none { amplitude_notes amplitude ≡ [] → out.new ≡ out.old }
    ensures cause { CountsFault (W.count out.old) (W.count out.new) result }
{
    match amplitude {
        Some(amplitude) => write_amplitude(amplitude, out),
        None => Ok(()),
    }
}

/// Writes the notes on the frames of a stream.
#[tactic(auto, using(crate::proofs::NoteLemmas::both_empty))]
pub(crate) fn write_frame_notes<W: CountedWrite>(
    equalize: bool,
    totals: Totals,
    out: &mut W,
) -> Result<(), WriteFault>
    requires { CanCount (W.count out.old) }
    ensures bytes { OnOk result (Appends (W.contents out.old) (W.contents out.new) (frame_notes equalize totals)) }
    ensures none { frame_notes equalize totals ≡ [] → out.new ≡ out.old }
    ensures cause { CountsFault (W.count out.old) (W.count out.new) result }
{
    write_refused(totals, out)?;
    write_if_odd(odd_amplitude(equalize, totals), out)
}
