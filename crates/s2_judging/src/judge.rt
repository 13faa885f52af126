//! `judge`: decides on soft values.
ghost use Rattle.std.specs.Prelude.{◌≡◌, ◌≢◌, ◌+◌, All, IfOk, IsOk, Result, Err, length};
ghost use Rattle.s2_mode.specs.Counts.{CanCount};
ghost use Rattle.s2_matrix.specs.Code.{code_of};
ghost use Rattle.s2_check.specs.Views.{IsSoft};
ghost use Rattle.s2_io.specs.Screens.{CanNote};
ghost use Rattle.s2_io.specs.Exits.{CommandAnswers, CommandRuns, CommandCounts};
ghost use Rattle.s2_judging.specs.Files.{written, CanJudge};
ghost use Rattle.s2_judging.specs.HardNotes.{exit_in, LooksHard};
ghost use Rattle.s2_judging.specs.Inputs.{AreInputsBy, IsOnly};
ghost use Rattle.s2_judging.specs.Certifying.{IsJudgedAndCertified, LeavesCertificate, JudgeExits};

use crate::decision::decide_by;
use crate::files::JudgeFiles;
use crate::hard_note::{Ran, are_bits, finish_judged};
use crate::reading::{Judged, read_judged};
use s2_io::{Console, Destination, Exit, Fault, Output, Printed};
use s2_judge::Judge;
use s2_mode::{CountedRead, CountedWrite, Shape};
use s2_tuning::Tuning;
use std::alloc::Global;

/// Decides on soft values. The certificate, if there is one, is written to the file, if there is one.
fn judge_soft<C: Output>(
    alloc: Global,
    tuning: Tuning,
    hard: bool,
    judged: &Judged,
    certificate: &mut Option<Destination<C>>,
) -> Result<Printed, Fault<'static>>
    requires long { length judged.now.soft.items ≡ (code_of judged.now.matrix).bits }
    requires range { All IsSoft judged.now.soft.items }
    requires certificate { CanCount (written C.contents C.count certificate.old).failed }
    ensures answers { CommandAnswers (IsJudgedAndCertified hard tuning (written C.contents C.count certificate.old) (written C.contents C.count certificate.new))
        (IsOnly (judged.now.matrix, judged.now.soft.items)) result }
    ensures leaves { LeavesCertificate tuning (IsOnly (judged.now.matrix, judged.now.soft.items)) result
        (written C.contents C.count certificate.old) (written C.contents C.count certificate.new) }
    ensures read { result ≢ Err Fault.Read }
    ensures write { result ≡ Err Fault.Write → (written C.contents C.count certificate.new).failed ≡ (written C.contents C.count certificate.old).failed + 1 }
    ensures no_write { result ≢ Err Fault.Write → (written C.contents C.count certificate.new).failed ≡ (written C.contents C.count certificate.old).failed }
{
    let Ok(mut judge) = Judge::new(alloc, &judged.matrix, tuning) else {
        return Err(Fault::NoMemory);
    };
    match decide_by(&judged.matrix, &mut judge, &judged.soft, hard, certificate) {
        Ok(printed) => Ok(printed),
        Err(_) => Err(Fault::Write),
    }
}

/// Decides on soft values, writes the certificate, and then prints the verdict.
fn print_soft<C: Output, O: CountedWrite>(
    alloc: Global,
    tuning: Tuning,
    hard: bool,
    judged: &Judged,
    certificate: &mut Option<Destination<C>>,
    out: &mut O,
) -> Result<Exit, Fault<'static>>
    requires long { length judged.now.soft.items ≡ (code_of judged.now.matrix).bits }
    requires range { All IsSoft judged.now.soft.items }
    requires certificate { CanCount (written C.contents C.count certificate.old).failed }
    requires out { CanCount (O.count out.old) }
    ensures run { CommandRuns (IsJudgedAndCertified hard tuning (written C.contents C.count certificate.old) (written C.contents C.count certificate.new))
        (IsOnly (judged.now.matrix, judged.now.soft.items)) result (O.contents out.old) (O.contents out.new) }
    ensures leaves { LeavesCertificate tuning (IsOnly (judged.now.matrix, judged.now.soft.items)) result
        (written C.contents C.count certificate.old) (written C.contents C.count certificate.new) }
    ensures causes { CommandCounts result 0 0 ((written C.contents C.count certificate.old).failed + O.count out.old)
        ((written C.contents C.count certificate.new).failed + O.count out.new) }
    ensures read { result ≢ Err Fault.Read }
{
    judge_soft(alloc, tuning, hard, judged, certificate)?.print(out)
}

/// Reads rows and soft values, decides, and prints the verdict.
fn print_judgement<R: CountedRead, C: Output, O: CountedWrite>(
    alloc: Global,
    shape: Shape,
    hard: bool,
    tuning: Tuning,
    files: &mut JudgeFiles<R, C>,
    out: &mut O,
) -> Result<Ran, Fault<'static>>
    requires files { CanJudge files.old }
    requires out { CanCount (O.count out.old) }
    ensures whole { IsOk result → O.count out.new ≡ O.count out.old }
    ensures run { CommandRuns (IsJudgedAndCertified hard tuning files.old.certificate files.new.certificate) (AreInputsBy hard shape files.old.rows files.old.soft) (exit_in result)
        (O.contents out.old) (O.contents out.new) }
    ensures looks { IfOk result (LooksHard (AreInputsBy hard shape files.old.rows files.old.soft)) }
    ensures leaves { LeavesCertificate tuning (AreInputsBy hard shape files.old.rows files.old.soft) (exit_in result) files.old.certificate files.new.certificate }
    ensures causes { CommandCounts (exit_in result) (files.old.rows_failed + files.old.soft_failed) (files.new.rows_failed + files.new.soft_failed)
        (files.old.certificate.failed + O.count out.old) (files.new.certificate.failed + O.count out.new) }
{
    let judged = read_judged(alloc, &mut files.rows, &mut files.soft, shape, hard)?;
    let exit = print_soft(alloc, tuning, hard, &judged, &mut files.certificate, out)?;
    Ok(Ran {
        exit,
        looks_hard: are_bits(&judged.soft),
    })
}

/// `judge`: prints the verdict of a receiver with this tuning on the soft values of a file, under the code of a row
/// file. If `hard`, the file has decided bits, tokens 0 and 1, which are read as soft values 1 and -1, and the line ends with the number of
/// bits in which the decided ones differ from them. If there is a
/// file for the certificate, and the decided bits are sole or most likely, their certificate is written before the
/// verdict is printed. If its writer fails, a part of it was written. The file is begun exactly if the input is
/// accepted and there is memory to judge it. If all values are 0 or 1, and it is not `hard`, a note on the errors says
/// so after the report, unless notes are suppressed.
pub fn judge_command<R: CountedRead, C: Output, O: CountedWrite, E: CountedWrite>(
    alloc: Global,
    shape: Shape,
    hard: bool,
    quiet: bool,
    tuning: Tuning,
    files: &mut JudgeFiles<R, C>,
    console: &mut Console<O, E>,
) -> Exit
    requires files { CanJudge files.old }
    requires console { CanNote console.old }
    ensures quiet { result ≢ Exit.Fault → console.new.errors_failed ≡ console.old.errors_failed }
    ensures whole { result ≢ Exit.Fault → console.new.output_failed ≡ console.old.output_failed }
    ensures run { JudgeExits hard quiet tuning shape files.old files.new console.old console.new result }
{
    let ran = print_judgement(alloc, shape, hard, tuning, files, &mut console.output);
    finish_judged(hard, quiet, ran, console)
}
