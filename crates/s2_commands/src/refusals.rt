//! Refusals of the transmitter: how they end a command, and the note on a refused packet.
ghost use Rattle.std.specs.Prelude.{◌≡◌, ◌+◌, ◌≤◌, ◌++◌, [], if◌then◌else◌, Err, length};
ghost use Rattle.std.specs.Io.KnownBytes.{Appends};
ghost use Rattle.s2_mode.specs.Counts.{CanCount};
ghost use Rattle.s2_io.specs.Notes.{Remarks};
ghost use Rattle.s2_commands.specs.Refusals.{colon_before, packet_note, packet_place, refusal_fault, refusal_note, refused_by, sent_by};

use s2_bbframe::PACKET_BYTES;
use s2_io::{Console, Exit, Fault, Line};
use s2_mode::{CountedWrite, write_full};
use s2_send::SendFault;

/// How a command on packets ends: what it made of them, or the refusal of a packet. A fault is of its rows, its memory
/// or its streams.
pub(crate) type Ended<T> = Result<Result<T, SendFault>, Fault<'static>>;

/// The fault of a refusal.
fn fault_of(refusal: SendFault) -> Fault<'static>
    ensures { result ≡ refusal_fault refusal }
{
    match refusal {
        SendFault::Read => Fault::Read,
        SendFault::Write => Fault::Write,
        SendFault::NotWholePacket | SendFault::NoSync { .. } => {
            Fault::about("packets: ", refusal.text())
        }
    }
}

/// How a command ends whose packets are all sent.
pub(crate) fn sent_by<T: Drop>(ended: Result<T, Fault<'static>>) -> Ended<T>
    ensures { result ≡ sent_by ended.entry }
{
    match ended {
        Ok(made) => Ok(Ok(made)),
        Err(fault) => Err(fault),
    }
}

/// How a refusal ends a command: a stream that failed is a fault.
pub(crate) fn refused_by<T: Drop>(refusal: SendFault) -> Ended<T>
    ensures { result ≡ refused_by refusal }
{
    match refusal {
        SendFault::Read => Err(Fault::Read),
        SendFault::Write => Err(Fault::Write),
        SendFault::NotWholePacket | SendFault::NoSync { .. } => Ok(Err(refusal)),
    }
}

/// The position of packet I, counted from 1, if packets have 188 bytes.
fn packet_place(packet: u64) -> u128
    ensures { result ≡ packet_place packet }
{
    PACKET_BYTES as u128 * u128::from(packet.saturating_sub(1))
}

/// The colon before a hint, if there is a hint.
fn colon_before(hint: &str) -> &'static str
    ensures is { result.now ≡ colon_before hint.now }
    ensures short { length result.now ≤ 2 }
{
    if hint.is_empty() { "" } else { ": " }
}

/// The note on a refused packet: where it begins in packets of 188 bytes, and what to do, if anything.
#[tactic(auto, unfolding(crate::specs::Refusals::packet_note))]
fn packet_note(packet: u64, hint: &str) -> Line
    requires { length hint.now ≤ 58 }
    ensures { result ≡ packet_note packet hint.now }
{
    let mut line = Line::new();
    line.push_number("s2: note: packet ", packet);
    line.push_number(" begins at byte ", packet_place(packet));
    line.push(colon_before(hint));
    line.push(hint);
    line.push("\n");
    line
}

/// Writes the note on a refusal, unless notes are suppressed. One that cannot be written is lost.
#[tactic(auto, unfolding(crate::specs::Refusals::packet_note))]
fn note_refusal<W: CountedWrite>(quiet: bool, refusal: SendFault, out: &mut W)
    requires { CanCount (W.count out.old) }
    ensures bytes { W.count out.new ≡ W.count out.old → Appends (W.contents out.old) (W.contents out.new) (if quiet then [] else refusal_note refusal) }
    ensures none { (if quiet then [] else refusal_note refusal) ≡ [] → out.new ≡ out.old }
    ensures count { (W.count out.old ≤ W.count out.new) × (W.count out.new ≤ W.count out.old + 1) }
{
    if quiet {
        return;
    }
    if let SendFault::NoSync { packet, .. } = refusal {
        let _ = write_full(out, packet_note(packet, refusal.hint()).as_bytes());
    }
}

/// Reports a refusal, and before it its note, unless notes are suppressed.
pub(crate) fn report_refusal<O: CountedWrite, E: CountedWrite>(
    quiet: bool,
    refusal: SendFault,
    console: &mut Console<O, E>,
) -> Exit
    requires { CanCount (console.old.errors_failed + 1) }
    ensures exit { result ≡ Exit.Fault }
    ensures output { (console.new.output ≡ console.old.output) × (console.new.output_failed ≡ console.old.output_failed) }
    ensures reported { Remarks (if quiet then [] else refusal_note refusal) (Err (refusal_fault refusal)) console.old console.new }
{
    note_refusal(quiet, refusal, &mut console.errors);
    console.report_fault(fault_of(refusal))
}
