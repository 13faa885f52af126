//! The program without arguments.
ghost use Rattle.std.specs.Prelude.{◌≡◌, ◌≢◌, ◌+◌, All, IsOk, Result, Err, codes, Some, length};
ghost use Rattle.s2_mode.specs.Counts.{CanCount};
ghost use Rattle.s2_mode.specs.Shape.{shape_of};
ghost use Rattle.s2_matrix.specs.Code.{code_of};
ghost use Rattle.s2_check.specs.Views.{IsSoft};
ghost use Rattle.s2_tuning.specs.Limits.{default_rounds};
ghost use Rattle.s2_tuning.specs.Tuning.{tuning_of};
ghost use Rattle.s2_io.specs.Screens.{CanShow};
ghost use Rattle.s2_io.specs.Exits.{CommandAnswers, CommandRuns, CommandCounts};
ghost use Rattle.s2_judging.specs.Inputs.{AreInputs, IsOnly};
ghost use Rattle.s2_judging.specs.Judging.{IsOwn, OwnExits};

use crate::decision::own_decision;
use crate::reading::{Judged, read_judged};
use s2_io::{Console, Exit, Fault, Printed};
use s2_judge::Judge;
use s2_mode::{CountedRead, CountedWrite, InMemory, Shape};
use s2_tuning::{DEFAULT_ROUNDS, Tuning};
use std::alloc::Global;

/// The row file of the toy shape.
pub const TOY_ROWS: &[u8] = b"0 4 8\n0 1 2\n";

/// The tuning without options: the default rounds, and no passes.
fn default_tuning() -> Tuning
    ensures { result ≡ tuning_of default_rounds 0 }
{
    Tuning::new(DEFAULT_ROUNDS, 0).unwrap()
}

/// Decides on soft values.
fn judge_own(alloc: Global, judged: &Judged) -> Result<Printed, Fault<'static>>
    requires long { length judged.now.soft.items ≡ (code_of judged.now.matrix).bits }
    requires range { All IsSoft judged.now.soft.items }
    ensures answers { CommandAnswers IsOwn (IsOnly (judged.now.matrix, judged.now.soft.items)) result }
    ensures read { result ≢ Err Fault.Read }
    ensures write { result ≢ Err Fault.Write }
{
    let Ok(mut judge) = Judge::new(alloc, &judged.matrix, default_tuning()) else {
        return Err(Fault::NoMemory);
    };
    Ok(own_decision(&judged.matrix, &mut judge, &judged.soft))
}

/// Reads rows and soft values, and decides.
fn own_read<R: CountedRead, S: CountedRead>(
    alloc: Global,
    shape: Shape,
    rows: &mut R,
    soft: &mut S,
) -> Result<Printed, Fault<'static>>
    requires rows { CanCount (R.count rows.old) }
    requires soft { CanCount (S.count soft.old) }
    ensures answers { CommandAnswers IsOwn (AreInputs shape (R.remaining rows.old) (S.remaining soft.old)) result }
    ensures read { result ≡ Err Fault.Read → R.count rows.new + S.count soft.new ≡ R.count rows.old + S.count soft.old + 1 }
    ensures no_read { result ≢ Err Fault.Read → R.count rows.new + S.count soft.new ≡ R.count rows.old + S.count soft.old }
    ensures write { result ≢ Err Fault.Write }
{
    let judged = read_judged(alloc, rows, soft, shape, false)?;
    judge_own(alloc, &judged)
}

/// Decides on soft values under the toy rows, and prints the verdict.
fn print_own<S: CountedRead, O: CountedWrite>(
    alloc: Global,
    soft: &mut S,
    out: &mut O,
) -> Result<Exit, Fault<'static>>
    requires soft { CanCount (S.count soft.old) }
    requires out { CanCount (O.count out.old) }
    ensures whole { IsOk result → O.count out.new ≡ O.count out.old }
    ensures run { CommandRuns IsOwn (AreInputs (shape_of 4 2 3) (Some (codes "0 4 8\n0 1 2\n")) (S.remaining soft.old)) result (O.contents out.old) (O.contents out.new) }
    ensures causes { CommandCounts result (S.count soft.old) (S.count soft.new) (O.count out.old) (O.count out.new) }
{
    let shape = Shape::of(4, 2, 3);
    let mut rows = InMemory::new(TOY_ROWS);
    own_read(alloc, shape, &mut rows, soft)?.print(out)
}

/// The program without arguments: `judge` of its input under the toy rows. Bits that are sole are called most likely,
/// which they also are.
pub fn self_command<S: CountedRead, O: CountedWrite, E: CountedWrite>(
    alloc: Global,
    soft: &mut S,
    console: &mut Console<O, E>,
) -> Exit
    requires soft { CanCount (S.count soft.old) }
    requires console { CanShow console.old }
    ensures quiet { result ≢ Exit.Fault → console.new.errors_failed ≡ console.old.errors_failed }
    ensures whole { result ≢ Exit.Fault → console.new.output_failed ≡ console.old.output_failed }
    ensures run { OwnExits (S.remaining soft.old) (S.count soft.old) (S.count soft.new) console.old console.new result }
{
    let ended = print_own(alloc, soft, &mut console.output);
    console.finish(ended)
}
