//! The note after rows were refused: which rows the mode needs.
ghost use Rattle.std.specs.Prelude.{◌≡◌, ◌≢◌, ◌≤◌, ◌+◌, [], if◌then◌else◌, Err, IsOk, OnOk};
ghost use Rattle.std.specs.Io.KnownBytes.{Appends};
ghost use Rattle.s2_mode.specs.Counts.{CanCount, CountsFault};
ghost use Rattle.s2_mode.specs.Mode.{shape_in};
ghost use Rattle.s2_io.specs.Exits.{exit_of};
ghost use Rattle.s2_io.specs.Notes.{Remarks};
ghost use Rattle.s2_table.specs.Wanted.{wanted_end, wanted_note, fault_note, notes_on};

use crate::note::write_note;
use s2_io::{Console, Exit, Fault, Line};
use s2_mode::{CountedWrite, Mode, WriteFault};

/// The end of the note: the number of rows, and the limit of their addresses.
#[tactic(auto, unfolding(crate::specs::Wanted::wanted_end))]
fn wanted_end(rows: u64, checks: u64) -> Line
    ensures { result ≡ wanted_end rows checks }
{
    let mut line = Line::new();
    line.push_number(" needs ", rows);
    line.push_number(" rows of addresses below ", checks);
    line.push("\n");
    line
}

/// Writes which rows a mode needs.
fn write_wanted<W: CountedWrite>(mode: &Mode, out: &mut W) -> Result<(), WriteFault>
    requires { CanCount (W.count out.old) }
    ensures bytes { OnOk result (Appends (W.contents out.old) (W.contents out.new) (wanted_note mode.now (shape_in mode.now))) }
    ensures cause { CountsFault (W.count out.old) (W.count out.new) result }
{
    let shape = mode.shape();
    let ending = wanted_end(shape.groups() as u64, shape.checks() as u64);
    write_note(out, "s2: note: ", mode, ending.as_bytes())
}

/// Writes the note of a fault, unless notes are suppressed. One that cannot be written is lost.
fn note_fault<W: CountedWrite>(quiet: bool, mode: &Mode, fault: &Fault<'_>, out: &mut W)
    requires { CanCount (W.count out.old) }
    ensures bytes { W.count out.new ≡ W.count out.old → Appends (W.contents out.old) (W.contents out.new) (if quiet then [] else fault_note mode.now fault.now) }
    ensures none { (if quiet then [] else fault_note mode.now fault.now) ≡ [] → out.new ≡ out.old }
    ensures count { (W.count out.old ≤ W.count out.new) × (W.count out.new ≤ W.count out.old + 1) }
{
    if quiet {
        return;
    }
    if let Fault::Rows(_) = fault {
        let _ = write_wanted(mode, out);
    }
}

/// Reports a fault, and before it the note on refused rows, unless notes are suppressed.
pub fn report_noted<O: CountedWrite, E: CountedWrite>(
    quiet: bool,
    mode: &Mode,
    fault: Fault<'_>,
    console: &mut Console<O, E>,
) -> Exit
    requires { CanCount (console.old.errors_failed + 1) }
    ensures exit { result ≡ Exit.Fault }
    ensures output { (console.new.output ≡ console.old.output)
        × (console.new.output_failed ≡ console.old.output_failed) }
    ensures reported { Remarks (if quiet then [] else fault_note mode.now fault.entry)
        (Err fault.entry) console.old console.new }
{
    note_fault(quiet, mode, &fault, &mut console.errors);
    console.report_fault(fault)
}

/// The exit of a command that ended so. A fault is reported after its note.
pub fn finish_noted<O: CountedWrite, E: CountedWrite>(
    quiet: bool,
    mode: &Mode,
    ended: Result<Exit, Fault<'_>>,
    console: &mut Console<O, E>,
) -> Exit
    requires { CanCount (console.old.errors_failed + 1) }
    ensures exit { result ≡ exit_of ended.entry }
    ensures fine { result ≢ Exit.Fault → IsOk ended.entry }
    ensures quiet { result ≢ Exit.Fault → console.new.errors_failed ≡ console.old.errors_failed }
    ensures output { (console.new.output ≡ console.old.output)
        × (console.new.output_failed ≡ console.old.output_failed) }
    ensures reported { Remarks (notes_on quiet mode.now ended.entry) ended.entry console.old console.new }
{
    match ended {
        Ok(exit) => exit,
        Err(fault) => report_noted(quiet, mode, fault, console),
    }
}
