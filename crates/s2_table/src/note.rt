//! Reads rows for a command, and notes if they are not the standard's.
ghost use Rattle.std.specs.Prelude.{◌≡◌, ◌≢◌, ◌+◌, ◌≤◌, ◌++◌, Err, IfOk, IfSome, OnOk};
ghost use Rattle.std.specs.Io.KnownBytes.{Appends};
ghost use Rattle.s2_mode.specs.Counts.{CanCount, CountsFault};
ghost use Rattle.s2_mode.specs.Mode.{shape_in};
ghost use Rattle.s2_io.specs.Exits.{Follows};
ghost use Rattle.s2_inputs.specs.Inputs.{rows_in};
ghost use Rattle.s2_names.specs.Names.{mode_words};
ghost use Rattle.s2_table.specs.Tables.{note_line, Notes, IsNoted, NotesRows};

use crate::standard::is_standard;
use s2_inputs::read_matrix;
use s2_io::Fault;
use s2_matrix::Matrix;
use s2_mode::{CountedRead, CountedWrite, Mode, WriteFault, write_full};
use s2_names::write_code;
use std::alloc::Global;

/// Writes a note that names the code of a mode: the text before the mode's words, the words, and the text after them.
pub fn write_note<E: CountedWrite>(
    errors: &mut E,
    front: &str,
    mode: &Mode,
    ending: &[u8],
) -> Result<(), WriteFault>
    requires { CanCount (E.count errors.old) }
    ensures line { OnOk result
        (Appends (E.contents errors.old) (E.contents errors.new) (front.now ++ (mode_words mode.now ++ ending.now))) }
    ensures cause { CountsFault (E.count errors.old) (E.count errors.new) result }
{
    write_full(errors, front.as_bytes())?;
    write_code(errors, mode)?;
    write_full(errors, ending)
}

/// Writes the note of rows that are not the standard's.
fn write_other<E: CountedWrite>(errors: &mut E, mode: &Mode) -> Result<(), WriteFault>
    requires { CanCount (E.count errors.old) }
    ensures line { OnOk result (Appends (E.contents errors.old) (E.contents errors.new) (note_line mode.now)) }
    ensures cause { CountsFault (E.count errors.old) (E.count errors.new) result }
{
    let front = "s2: note: these rows are not the standard's for ";
    write_note(errors, front, mode, "\n".as_bytes())
}

/// The note of rows that are not the standard's, given whether they are.
fn note_answer<E: CountedWrite>(errors: &mut E, mode: &Mode, standard: bool)
    requires { CanCount (E.count errors.old) }
    ensures noted { E.count errors.new ≡ E.count errors.old → Notes mode.now standard (E.contents errors.old) (E.contents errors.new) }
    ensures few { E.count errors.new ≤ E.count errors.old + 1 }
{
    if !standard {
        let _ = write_other(errors, mode);
    }
}

/// Notes that rows are not the standard's for the code of a mode, if so. If the note cannot be written, the command
/// goes on without it.
fn note_rows<E: CountedWrite>(errors: &mut E, mode: &Mode, matrix: &Matrix)
    requires { CanCount (E.count errors.old) }
    ensures noted { E.count errors.new ≡ E.count errors.old
        → IsNoted mode.now matrix.now (E.contents errors.old) (E.contents errors.new) }
    ensures few { E.count errors.new ≤ E.count errors.old + 1 }
{
    note_answer(errors, mode, is_standard(mode, matrix));
}

/// The matrix of the rows of a mode's row file, which is read to its end. If they are not the standard's, that is
/// noted, unless notes are suppressed. If the file is refused, the fault says why, and nothing is noted.
pub fn read_noted<R: CountedRead, E: CountedWrite>(
    alloc: Global,
    mode: &Mode,
    reader: &mut R,
    quiet: bool,
    errors: &mut E,
) -> Result<Matrix, Fault<'static>>
    requires rows { CanCount (R.count reader.old) }
    requires errors { CanCount (E.count errors.old) }
    ensures rows { IfSome (R.remaining reader.old) (λ xs. Follows (λ m. m) result (rows_in (shape_in mode.now) xs)) }
    ensures shape { IfOk result (λ m. m.shape ≡ shape_in mode.now) }
    ensures read { result ≡ Err Fault.Read → R.count reader.new ≡ R.count reader.old + 1 }
    ensures no_other { result ≢ Err Fault.Read → R.count reader.new ≡ R.count reader.old }
    ensures write { result ≢ Err Fault.Write }
    ensures noted { NotesRows quiet mode.now (E.count errors.old) (E.count errors.new)
        (E.contents errors.old) (E.contents errors.new) result }
{
    let matrix = read_matrix(alloc, reader, mode.shape())?;
    if !quiet {
        note_rows(errors, mode, &matrix);
    }
    Ok(matrix)
}
