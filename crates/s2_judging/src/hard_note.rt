//! The note on soft values that look like hard decisions.
ghost use Rattle.std.specs.Prelude.{◌≡◌, ◌≢◌, ◌+◌, IsOk, OnOk};
ghost use Rattle.std.specs.Io.KnownBytes.{Appends};
ghost use Rattle.std.specs.List.{list_all};
ghost use Rattle.s2_mode.specs.Counts.{CanCount, CountsFault};
ghost use Rattle.s2_judging.specs.HardNotes.{is_bit, is_noted, the_note, Concludes};

use s2_io::{Console, Exit, Fault};
use s2_mode::{CountedWrite, WriteFault, write_full};

/// The exit of judged frames, and whether all their values are 0 or 1.
#[derive(Clone, Copy)]
pub(crate) struct Ran {
    pub(crate) exit: Exit,
    pub(crate) looks_hard: bool,
}

/// Whether a value is 0 or 1.
fn is_bit(value: i16) -> bool
    ensures { result ≡ is_bit value }
{
    !(value < 0) && !(1 < value)
}

/// Whether all values are 0 or 1.
pub(crate) fn are_bits(values: &[i16]) -> bool
    ensures { result ≡ list_all is_bit values.now }
{
    for value in values {
        if !is_bit(*value) {
            return false;
        }
    }
    true
}

/// Whether a run gets the note.
fn is_noted(hard: bool, quiet: bool, ran: Ran) -> bool
    ensures { result ≡ is_noted hard quiet ran }
{
    ran.looks_hard && !hard && !quiet
}

/// Writes the note.
fn write_hard_note<E: CountedWrite>(errors: &mut E) -> Result<(), WriteFault>
    requires { CanCount (E.count errors.old) }
    ensures line { OnOk result (Appends (E.contents errors.old) (E.contents errors.new) the_note) }
    ensures cause { CountsFault (E.count errors.old) (E.count errors.new) result }
{
    let note = "s2: note: these look like hard decisions: use --hard\n";
    write_full(errors, note.as_bytes())
}

/// The exit of a run. If its soft values look like hard decisions, that is noted, unless notes are suppressed.
/// A fault is reported. If the note
/// cannot be written, that is the fault.
pub(crate) fn finish_judged<O: CountedWrite, E: CountedWrite>(
    hard: bool,
    quiet: bool,
    ran: Result<Ran, Fault<'_>>,
    console: &mut Console<O, E>,
) -> Exit
    requires { CanCount (console.old.errors_failed + 1) }
    ensures fine { result ≢ Exit.Fault → IsOk ran.entry }
    ensures quiet { result ≢ Exit.Fault → console.new.errors_failed ≡ console.old.errors_failed }
    ensures output { (console.new.output ≡ console.old.output) × (console.new.output_failed ≡ console.old.output_failed) }
    ensures concludes { Concludes hard quiet ran.entry result console.old console.new }
{
    match ran {
        Ok(ran) if is_noted(hard, quiet, ran) => match write_hard_note(&mut console.errors) {
            Ok(()) => ran.exit,
            Err(_) => console.report_fault(Fault::Write),
        },
        Ok(ran) => ran.exit,
        Err(fault) => console.report_fault(fault),
    }
}
