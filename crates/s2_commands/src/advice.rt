//! The note on what to try after frames were lost.
ghost use Rattle.std.specs.Prelude.{◌≡◌, ◌-◌, [], OnOk};
ghost use Rattle.std.specs.Io.KnownBytes.{Appends};
ghost use Rattle.s2_mode.specs.Counts.{CanCount, CountsFault};
ghost use Rattle.s2_commands.specs.Losses.{advice, has_lost, headers_note, is_proposed, is_slipped, is_undecoded, note_if, slip_note, tuned_note};

use crate::frame_notes::header_amplitude;
use s2_io::Line;
use s2_mode::{CountedWrite, Mode, WriteFault, write_full};
use s2_report::Totals;
use s2_scan::is_usual;

/// The number of frames that were not delivered.
fn lost(totals: Totals) -> u64
    ensures { result ≡ totals.frames - totals.delivered }
{
    totals.frames.saturating_sub(totals.delivered)
}

/// Whether some frame was lost for which no BCH word was found.
fn has_lost(totals: Totals) -> bool
    ensures { result ≡ has_lost totals }
{
    lost(totals) != totals.refused
}

/// Whether the best settings are proposed. `tuned` says whether they were tried already.
fn is_proposed(tuned: bool, totals: Totals) -> bool
    ensures { result ≡ is_proposed tuned totals }
{
    !tuned && has_lost(totals)
}

/// Whether headers of the usual amplitude came, and no BCH word was found.
fn is_undecoded(totals: Totals) -> bool
    ensures { result ≡ is_undecoded totals }
{
    totals.frames != 0
        && totals.delivered == 0
        && totals.refused == 0
        && is_usual(header_amplitude(totals))
}

/// The note of lost frames that proposes the best settings.
#[tactic(auto, unfolding(crate::specs::Losses::tuned_note))]
fn tuned_note(totals: Totals) -> Line
    ensures { result ≡ tuned_note totals }
{
    let mut line = Line::new();
    line.push_number("s2: note: ", lost(totals));
    line.push_number(" of ", totals.frames);
    line.push(" frames lost: try --tuned\n");
    line
}

/// Writes the note that proposes the best settings, if they are proposed.
#[tactic(auto, unfolding(crate::specs::Losses::tuned_note))]
fn write_proposal<W: CountedWrite>(
    tuned: bool,
    totals: Totals,
    out: &mut W,
) -> Result<(), WriteFault>
    requires { CanCount (W.count out.old) }
    ensures bytes { OnOk result (Appends (W.contents out.old) (W.contents out.new) (note_if (is_proposed tuned totals) (tuned_note totals))) }
    ensures none { note_if (is_proposed tuned totals) (tuned_note totals) ≡ [] → out.new ≡ out.old }
    ensures cause { CountsFault (W.count out.old) (W.count out.new) result }
{
    if !is_proposed(tuned, totals) {
        return Ok(());
    }
    write_full(out, tuned_note(totals).as_bytes())
}

/// The note of headers without a decoded frame. `equalize` says whether an equalizer was tried already.
#[tactic(auto, unfolding(crate::specs::Losses::headers_note))]
fn headers_note(equalize: bool) -> Line
    ensures { result ≡ headers_note equalize }
{
    let mut line = Line::new();
    line.push("s2: note: headers are right but no frame is decoded: another scrambling number");
    line.push(if equalize {
        " or other rows? try s2 scan\n"
    } else {
        ", other rows, or a phase or carrier error: try --equalize, or s2 scan\n"
    });
    line
}

/// Writes the note on what to try, if frames were lost.
#[tactic(auto, unfolding(crate::specs::Losses::headers_note))]
pub(crate) fn write_advice<W: CountedWrite>(
    equalize: bool,
    tuned: bool,
    totals: Totals,
    out: &mut W,
) -> Result<(), WriteFault>
    requires { CanCount (W.count out.old) }
    ensures bytes { OnOk result (Appends (W.contents out.old) (W.contents out.new) (advice equalize tuned totals)) }
    ensures none { advice equalize tuned totals ≡ [] → out.new ≡ out.old }
    ensures cause { CountsFault (W.count out.old) (W.count out.new) result }
{
    if is_undecoded(totals) {
        return write_full(out, headers_note(equalize).as_bytes());
    }
    write_proposal(tuned, totals, out)
}

/// Whether the carrier may have slipped: a frame's length or more was skipped, and not all of it before the first frame.
fn is_slipped(slips: bool, mode: &Mode, totals: Totals) -> bool
    ensures { result ≡ is_slipped slips mode.now totals }
{
    slips
        && totals.frames != 0
        && totals.skipped >= mode.symbols() as u64
        && (totals.first != 0 || totals.places >= 2)
}

/// Writes the note that proposes to seek all rotations.
fn write_slip_note<W: CountedWrite>(out: &mut W) -> Result<(), WriteFault>
    requires { CanCount (W.count out.old) }
    ensures bytes { OnOk result (Appends (W.contents out.old) (W.contents out.new) slip_note) }
    ensures cause { CountsFault (W.count out.old) (W.count out.new) result }
{
    let note =
        "s2: note: a frame's length was skipped after a frame: try --turns, the carrier may have slipped\n";
    write_full(out, note.as_bytes())
}

/// Writes the note that proposes to seek all rotations, if the carrier may have slipped.
pub(crate) fn write_if_slipped<W: CountedWrite>(
    slips: bool,
    mode: &Mode,
    totals: Totals,
    out: &mut W,
) -> Result<(), WriteFault>
    requires { CanCount (W.count out.old) }
    ensures bytes { OnOk result (Appends (W.contents out.old) (W.contents out.new) (note_if (is_slipped slips mode.now totals) slip_note)) }
    ensures none { note_if (is_slipped slips mode.now totals) slip_note ≡ [] → out.new ≡ out.old }
    ensures cause { CountsFault (W.count out.old) (W.count out.new) result }
{
    if !is_slipped(slips, mode, totals) {
        return Ok(());
    }
    write_slip_note(out)
}
