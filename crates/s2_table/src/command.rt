//! `table`: whether rows are the standard's.
ghost use Rattle.std.specs.Prelude.{◌≡◌, ◌≢◌, ◌+◌, false, Result, Err, IsOk};
ghost use Rattle.s2_mode.specs.Counts.{CanCount};
ghost use Rattle.s2_mode.specs.Mode.{shape_in};
ghost use Rattle.s2_io.specs.Exits.{CommandAnswers, CommandRuns, CommandCounts};
ghost use Rattle.s2_io.specs.Screens.{CanNote};
ghost use Rattle.s2_table.specs.Wanted.{TableExits};
ghost use Rattle.s2_table.specs.Tables.{AreRowsIn, SaysStandard, answer_line, answer_exit};

use crate::first::first_other_row;
use crate::standard::is_standard;
use crate::wanted::finish_noted;
use s2_inputs::read_matrix;
use s2_io::{Console, Exit, Fault, Line, Printed};
use s2_matrix::Matrix;
use s2_mode::{CountedRead, CountedWrite, Mode};
use std::alloc::Global;

/// Exit 0 for the standard's rows, else 2.
fn exit_of_answer(answer: bool) -> Exit
    ensures { result ≡ answer_exit answer }
{
    if answer { Exit::Fine } else { Exit::No }
}

/// `other`, and the line of the first other row.
fn line_of_other(first: Option<u64>) -> Line
    ensures { result ≡ answer_line false first }
{
    let mut line = Line::new();
    match first {
        Some(first) => {
            line.push_number("other: line ", first);
            line.push("\n");
        }
        None => line.push("other\n"),
    }
    line
}

/// `standard` or `other`, and after it the line of the first other row, with LF.
fn line_of_answer(answer: bool, first: Option<u64>) -> Line
    ensures { result ≡ answer_line answer first }
{
    if answer {
        let mut line = Line::new();
        line.push("standard\n");
        line
    } else {
        line_of_other(first)
    }
}

/// Whether rows are the standard's for the code of a mode, and else the first that is not.
fn answered(mode: &Mode, matrix: &Matrix) -> Printed
    ensures { SaysStandard mode.now matrix.now result.exit result.text }
{
    let answer = is_standard(mode, matrix);
    Printed {
        exit: exit_of_answer(answer),
        text: line_of_answer(answer, first_other_row(mode, matrix)),
    }
}

/// Reads rows, and tests whether they are the standard's.
fn table_read<R: CountedRead>(
    alloc: Global,
    mode: &Mode,
    rows: &mut R,
) -> Result<Printed, Fault<'static>>
    requires { CanCount (R.count rows.old) }
    ensures answers { CommandAnswers (SaysStandard mode.now) (AreRowsIn (shape_in mode.now) (R.remaining rows.old)) result }
    ensures read { result ≡ Err Fault.Read → R.count rows.new ≡ R.count rows.old + 1 }
    ensures no_read { result ≢ Err Fault.Read → R.count rows.new ≡ R.count rows.old }
    ensures write { result ≢ Err Fault.Write }
{
    let matrix = read_matrix(alloc, rows, mode.shape())?;
    Ok(answered(mode, &matrix))
}

/// Reads rows, and prints whether they are the standard's.
fn print_table<R: CountedRead, O: CountedWrite>(
    alloc: Global,
    mode: &Mode,
    rows: &mut R,
    out: &mut O,
) -> Result<Exit, Fault<'static>>
    requires rows { CanCount (R.count rows.old) }
    requires out { CanCount (O.count out.old) }
    ensures whole { IsOk result → O.count out.new ≡ O.count out.old }
    ensures run { CommandRuns (SaysStandard mode.now) (AreRowsIn (shape_in mode.now) (R.remaining rows.old)) result (O.contents out.old) (O.contents out.new) }
    ensures causes { CommandCounts result (R.count rows.old) (R.count rows.new) (O.count out.old) (O.count out.new) }
{
    table_read(alloc, mode, rows)?.print(out)
}

/// `table`: whether the rows of a file are the standard's for the code of a mode, whatever the order within each row.
/// If not, the first line that differs is printed, if the digest of a single row shows it.
/// If the rows are refused, a note says which rows the mode needs, unless notes are suppressed.
pub fn table_command<R: CountedRead, O: CountedWrite, E: CountedWrite>(
    alloc: Global,
    mode: &Mode,
    quiet: bool,
    rows: &mut R,
    console: &mut Console<O, E>,
) -> Exit
    requires rows { CanCount (R.count rows.old) }
    requires console { CanNote console.old }
    ensures quiet { result ≢ Exit.Fault → console.new.errors_failed ≡ console.old.errors_failed }
    ensures whole { result ≢ Exit.Fault → console.new.output_failed ≡ console.old.output_failed }
    ensures run { TableExits mode.now quiet (R.remaining rows.old)
        (R.count rows.old) (R.count rows.new) console.old console.new result }
{
    let ended = print_table(alloc, mode, rows, &mut console.output);
    finish_noted(quiet, mode, ended, console)
}
