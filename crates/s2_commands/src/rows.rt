//! `rows`: makes rows.
ghost use Rattle.std.specs.Prelude.{◌≡◌, ◌≢◌, Err, IfOk, IsOk, IsOkUnless};
ghost use Rattle.s2_mode.specs.Counts.{CanCount};
ghost use Rattle.s2_rows.specs.RowTexts.{rows_text};
ghost use Rattle.s2_io.specs.Exits.{Follows, CommandRuns, CommandCounts};
ghost use Rattle.s2_io.specs.Screens.{CanShow};
ghost use Rattle.s2_commands.specs.Making.{rows_made, AreMadeRows, IsRowFile, RowsExits};

use s2_io::{Console, Exit, Fault, print};
use s2_mode::{CountedWrite, Counting, Shape};
use s2_rows::{MakeFault, Rows, make_rows, write_rows};
use std::alloc::Global;

/// The row file of made rows.
fn row_file(alloc: Global, rows: &Rows) -> Result<Vec<u8>, Fault<'static>>
    ensures text { IfOk result (λ text. text.items ≡ rows_text rows.now.rows) }
    ensures memory { IsOkUnless result Fault.NoMemory }
{
    let mut text = Counting::new(Vec::new(alloc));
    match write_rows(rows, &mut text) {
        Ok(()) => Ok(text.into_inner()),
        Err(_) => Err(Fault::NoMemory),
    }
}

/// Makes rows.
fn made_rows(alloc: Global, shape: Shape, weight: usize, seed: u64) -> Result<Rows, Fault<'static>>
    ensures made { Follows (λ rows. rows.rows) result (rows_made shape weight seed) }
    ensures read { result ≢ Err Fault.Read }
    ensures write { result ≢ Err Fault.Write }
{
    match make_rows(alloc, shape, weight, seed) {
        Ok(rows) => Ok(rows),
        Err(MakeFault::NoMemory) => Err(Fault::NoMemory),
        Err(fault) => Err(Fault::refused(fault.text())),
    }
}

/// Makes rows, and prints their row file, whole and at once.
fn print_rows<O: CountedWrite>(
    alloc: Global,
    shape: Shape,
    weight: usize,
    seed: u64,
    out: &mut O,
) -> Result<Exit, Fault<'static>>
    requires { CanCount (O.count out.old) }
    ensures whole { IsOk result → O.count out.new ≡ O.count out.old }
    ensures run { CommandRuns IsRowFile (AreMadeRows shape weight seed) result (O.contents out.old) (O.contents out.new) }
    ensures causes { CommandCounts result 0 0 (O.count out.old) (O.count out.new) }
{
    let rows = made_rows(alloc, shape, weight, seed)?;
    let text = row_file(alloc, &rows)?;
    print(out, Exit::Fine, &text)
}

/// `rows`: prints the row file that a shape, a weight and a seed determine.
pub fn rows_command<O: CountedWrite, E: CountedWrite>(
    alloc: Global,
    shape: Shape,
    weight: usize,
    seed: u64,
    console: &mut Console<O, E>,
) -> Exit
    requires console { CanShow console.old }
    ensures quiet { result ≢ Exit.Fault → console.new.errors_failed ≡ console.old.errors_failed }
    ensures whole { result ≢ Exit.Fault → console.new.output_failed ≡ console.old.output_failed }
    ensures run { RowsExits shape weight seed console.old console.new result }
{
    let ended = print_rows(alloc, shape, weight, seed, &mut console.output);
    console.finish(ended)
}
