//! `judge --each`: decides on the frames of a value file, one after another.
ghost use Rattle.std.specs.Prelude.{◌≡◌, ◌≢◌, ◌+◌, ◌&&◌, All, List, ℕ, Option, Err, IfOk, IsOk, OnOk, length};
ghost use Rattle.std.specs.List.{list_all};
ghost use Rattle.s2_mode.specs.Counts.{CanCount};
ghost use Rattle.s2_matrix.specs.Code.{code_of};
ghost use Rattle.s2_check.specs.Views.{IsSoft};
ghost use Rattle.s2_io.specs.Exits.{CommandCounts, Prints};
ghost use Rattle.s2_io.specs.Screens.{CanNote};
ghost use Rattle.s2_judging.specs.Bytewise.{pending_in, IsFrames, Spends};
ghost use Rattle.s2_judging.specs.Files.{written, CanBegin, CanJudge};
ghost use Rattle.s2_judging.specs.Frames.{words_in, max_text};
ghost use Rattle.s2_judging.specs.HardNotes.{is_bit, exit_in};
ghost use Rattle.s2_judging.specs.JudgingEach.{JudgesOne, JudgesNext, Finishes, JudgesUnder, JudgesEach, JudgeEachExits};

use crate::decision::{certify, decide_by};
use crate::files::JudgeFiles;
use crate::frames::Frames;
use crate::hard_note::{Ran, are_bits, finish_judged};
use s2_evidence::worse;
use s2_inputs::read_matrix;
use s2_io::{Console, Destination, Exit, Fault, Output, Printed};
use s2_judge::Judge;
use s2_matrix::Matrix;
use s2_mode::{CountedRead, CountedWrite, Shape};
use s2_tuning::Tuning;
use std::alloc::Global;

/// Prints the verdict on a frame.
fn print_ran<O: CountedWrite>(
    printed: Printed,
    frame: &[i16],
    out: &mut O,
) -> Result<Ran, Fault<'static>>
    requires { CanCount (O.count out.old) }
    ensures prints { Prints printed.exit printed.text (exit_in result) (O.contents out.old) (O.contents out.new) }
    ensures looks { IfOk result (λ ran. ran.looks_hard ≡ list_all is_bit frame.now) }
    ensures write { result ≡ Err Fault.Write → O.count out.new ≡ O.count out.old + 1 }
    ensures no_write { IsOk result → O.count out.new ≡ O.count out.old }
{
    let exit = printed.print(out)?;
    Ok(Ran {
        exit,
        looks_hard: are_bits(frame),
    })
}

/// Decides on a frame, writes its certificate, and then prints its verdict.
fn judge_frame<C: Output, O: CountedWrite>(
    matrix: &Matrix,
    judge: &mut Judge<'_>,
    frame: &[i16],
    hard: bool,
    certificates: &mut Option<Destination<C>>,
    out: &mut O,
) -> Result<Ran, Fault<'static>>
    requires rows { judge.old.rows ≡ matrix.now }
    requires long { length frame.now ≡ (code_of matrix.now).bits }
    requires range { All IsSoft frame.now }
    requires certificates { CanCount (written C.contents C.count certificates.old).failed }
    requires out { CanCount (O.count out.old) }
    ensures same { (judge.new.rows ≡ judge.old.rows) × (judge.new.tuning ≡ judge.old.tuning) }
    ensures judges { JudgesOne hard matrix.now judge.old.tuning frame.now (written C.contents C.count certificates.old) (written C.contents C.count certificates.new)
        (O.contents out.old) (O.contents out.new) result }
    ensures write { result ≡ Err Fault.Write → (written C.contents C.count certificates.new).failed + O.count out.new ≡ (written C.contents C.count certificates.old).failed + O.count out.old + 1 }
    ensures no_write { IsOk result → ((written C.contents C.count certificates.new).failed ≡ (written C.contents C.count certificates.old).failed) × (O.count out.new ≡ O.count out.old) }
{
    match decide_by(matrix, judge, frame, hard, certificates) {
        Ok(printed) => print_ran(printed, frame, out),
        Err(_) => Err(Fault::Write),
    }
}

/// Reads the next frame, and judges it. `None` if there is no more frame.
fn judge_next<R: CountedRead, C: Output, O: CountedWrite>(
    matrix: &Matrix,
    judge: &mut Judge<'_>,
    hard: bool,
    frames: &mut Frames,
    soft: &mut R,
    certificates: &mut Option<Destination<C>>,
    out: &mut O,
) -> Result<Option<Ran>, Fault<'static>>
    requires rows { judge.old.rows ≡ matrix.now }
    requires is { IsFrames frames.old }
    requires count { frames.old.count ≡ (code_of matrix.now).bits }
    requires soft { CanCount (R.count soft.old) }
    requires certificates { CanCount (written C.contents C.count certificates.old).failed }
    requires out { CanCount (O.count out.old) }
    ensures judges { JudgesNext hard matrix.now judge.old.tuning (pending_in frames.old (R.remaining soft.old)) (pending_in frames.new (R.remaining soft.new))
        (R.remaining soft.old) frames.old.reading.left (written C.contents C.count certificates.old) (written C.contents C.count certificates.new)
        (O.contents out.old) (O.contents out.new) result }
    ensures same { (judge.new.rows ≡ judge.old.rows) × (judge.new.tuning ≡ judge.old.tuning) }
    ensures is { OnOk result (IsFrames frames.new) }
    ensures count { frames.new.count ≡ frames.old.count }
    ensures spends { OnOk result (Spends (R.remaining soft.old) frames.old.reading.left (R.remaining soft.new) frames.new.reading.left) }
    ensures read { result ≡ Err Fault.Read → R.count soft.new ≡ R.count soft.old + 1 }
    ensures no_read { result ≢ Err Fault.Read → R.count soft.new ≡ R.count soft.old }
    ensures write { result ≡ Err Fault.Write → (written C.contents C.count certificates.new).failed + O.count out.new ≡ (written C.contents C.count certificates.old).failed + O.count out.old + 1 }
    ensures no_write { result ≢ Err Fault.Write → ((written C.contents C.count certificates.new).failed ≡ (written C.contents C.count certificates.old).failed) × (O.count out.new ≡ O.count out.old) }
{
    let found = frames.read(soft)?;
    if !found {
        return Ok(None);
    }
    let ran = judge_frame(matrix, judge, frames.values(), hard, certificates, out)?;
    Ok(Some(ran))
}

fn both(first: bool, second: bool) -> bool
    ensures { result ≡ (first && second) }
{
    first && second
}

/// Ends a run. The certificates' file is begun, if it is not.
fn finish<C: Output>(
    ran: Ran,
    certificates: &mut Option<Destination<C>>,
) -> Result<Ran, Fault<'static>>
    requires { CanCount (written C.contents C.count certificates.old).failed }
    ensures begun { Finishes ran (written C.contents C.count certificates.old) (written C.contents C.count certificates.new) result }
{
    match certify(None, certificates) {
        Ok(()) => Ok(ran),
        Err(_) => Err(Fault::Write),
    }
}

/// Judges the frames of a value file.
fn judge_frames<R: CountedRead, C: Output, O: CountedWrite>(
    matrix: &Matrix,
    judge: &mut Judge<'_>,
    hard: bool,
    frames: &mut Frames,
    soft: &mut R,
    certificates: &mut Option<Destination<C>>,
    out: &mut O,
) -> Result<Ran, Fault<'static>>
    requires rows { judge.old.rows ≡ matrix.now }
    requires is { IsFrames frames.old }
    requires count { frames.old.count ≡ (code_of matrix.now).bits }
    requires soft { CanCount (R.count soft.old) }
    requires certificates { CanBegin (written C.contents C.count certificates.old) }
    requires out { CanCount (O.count out.old) }
    ensures judges { (known : Option (List ℕ)) → Spends known max_text (R.remaining soft.old) frames.old.reading.left
        → JudgesUnder hard matrix.now judge.old.tuning known (pending_in frames.old (R.remaining soft.old)) (written C.contents C.count certificates.old) (written C.contents C.count certificates.new)
        result (O.contents out.old) (O.contents out.new) }
    ensures read { result ≡ Err Fault.Read → R.count soft.new ≡ R.count soft.old + 1 }
    ensures no_read { result ≢ Err Fault.Read → R.count soft.new ≡ R.count soft.old }
    ensures write { result ≡ Err Fault.Write → (written C.contents C.count certificates.new).failed + O.count out.new ≡ (written C.contents C.count certificates.old).failed + O.count out.old + 1 }
    ensures no_write { result ≢ Err Fault.Write → ((written C.contents C.count certificates.new).failed ≡ (written C.contents C.count certificates.old).failed) × (O.count out.new ≡ O.count out.old) }
{
    let mut exit = Exit::Fine;
    let mut bits = true;
    'frames: for judged in 0..u32::MAX {
        let next = judge_next(matrix, judge, hard, frames, soft, certificates, out)?;
        match next {
            None => {
                let looks_hard = both(bits, judged > 0);
                return finish(Ran { exit, looks_hard }, certificates);
            }
            Some(ran) => {
                exit = worse(exit, ran.exit);
                bits = both(bits, ran.looks_hard);
            }
        }
    }
    Err(Fault::TooLong)
}

/// The same, with memory for a frame.
fn judge_with<R: CountedRead, C: Output, O: CountedWrite>(
    alloc: Global,
    matrix: &Matrix,
    judge: &mut Judge<'_>,
    hard: bool,
    soft: &mut R,
    certificates: &mut Option<Destination<C>>,
    out: &mut O,
) -> Result<Ran, Fault<'static>>
    requires rows { judge.old.rows ≡ matrix.now }
    requires soft { CanCount (R.count soft.old) }
    requires certificates { CanBegin (written C.contents C.count certificates.old) }
    requires out { CanCount (O.count out.old) }
    ensures judges { JudgesUnder hard matrix.now judge.old.tuning (R.remaining soft.old) (words_in hard (R.remaining soft.old))
        (written C.contents C.count certificates.old) (written C.contents C.count certificates.new) result (O.contents out.old) (O.contents out.new) }
    ensures read { result ≡ Err Fault.Read → R.count soft.new ≡ R.count soft.old + 1 }
    ensures no_read { result ≢ Err Fault.Read → R.count soft.new ≡ R.count soft.old }
    ensures write { result ≡ Err Fault.Write → (written C.contents C.count certificates.new).failed + O.count out.new ≡ (written C.contents C.count certificates.old).failed + O.count out.old + 1 }
    ensures no_write { result ≢ Err Fault.Write → ((written C.contents C.count certificates.new).failed ≡ (written C.contents C.count certificates.old).failed) × (O.count out.new ≡ O.count out.old) }
{
    let Ok(mut frames) = Frames::new(alloc, hard, matrix.bits()) else {
        return Err(Fault::NoMemory);
    };
    judge_frames(matrix, judge, hard, &mut frames, soft, certificates, out)
}

/// The same, with a judge.
fn judge_under<R: CountedRead, C: Output, O: CountedWrite>(
    alloc: Global,
    matrix: &Matrix,
    tuning: Tuning,
    hard: bool,
    soft: &mut R,
    certificates: &mut Option<Destination<C>>,
    out: &mut O,
) -> Result<Ran, Fault<'static>>
    requires soft { CanCount (R.count soft.old) }
    requires certificates { CanBegin (written C.contents C.count certificates.old) }
    requires out { CanCount (O.count out.old) }
    ensures judges { JudgesUnder hard matrix.now tuning (R.remaining soft.old) (words_in hard (R.remaining soft.old))
        (written C.contents C.count certificates.old) (written C.contents C.count certificates.new) result (O.contents out.old) (O.contents out.new) }
    ensures read { result ≡ Err Fault.Read → R.count soft.new ≡ R.count soft.old + 1 }
    ensures no_read { result ≢ Err Fault.Read → R.count soft.new ≡ R.count soft.old }
    ensures write { result ≡ Err Fault.Write → (written C.contents C.count certificates.new).failed + O.count out.new ≡ (written C.contents C.count certificates.old).failed + O.count out.old + 1 }
    ensures no_write { result ≢ Err Fault.Write → ((written C.contents C.count certificates.new).failed ≡ (written C.contents C.count certificates.old).failed) × (O.count out.new ≡ O.count out.old) }
{
    let Ok(mut judge) = Judge::new(alloc, matrix, tuning) else {
        return Err(Fault::NoMemory);
    };
    judge_with(alloc, matrix, &mut judge, hard, soft, certificates, out)
}

/// Reads rows, and judges the frames of a value file.
fn print_judgements<R: CountedRead, C: Output, O: CountedWrite>(
    alloc: Global,
    shape: Shape,
    hard: bool,
    tuning: Tuning,
    files: &mut JudgeFiles<R, C>,
    out: &mut O,
) -> Result<Ran, Fault<'static>>
    requires files { CanJudge files.old }
    requires out { CanCount (O.count out.old) }
    ensures whole { IsOk result → O.count out.new ≡ O.count out.old }
    ensures run { JudgesEach hard tuning shape files.old files.new result (O.contents out.old) (O.contents out.new) }
    ensures causes { CommandCounts (exit_in result) (files.old.rows_failed + files.old.soft_failed) (files.new.rows_failed + files.new.soft_failed)
        (files.old.certificate.failed + O.count out.old) (files.new.certificate.failed + O.count out.new) }
{
    let matrix = read_matrix(alloc, &mut files.rows, shape)?;
    judge_under(
        alloc,
        &matrix,
        tuning,
        hard,
        &mut files.soft,
        &mut files.certificate,
        out,
    )
}

/// `judge --each`: prints the verdict of a receiver with this tuning on each frame of a value file, under the code of a
/// row file. A frame is n values, one for each bit of a codeword; lines mean nothing to it. If `hard`, the file has
/// decided bits, and each line ends with the number of changed ones. Frames are read one after another, in the memory of one. If there is a file for certificates, those of
/// frames that are sole or most likely are written to it, one after another. A frame's certificate is written before
/// its verdict is printed.
///
/// The exit is 0 if all frames are sole or most likely, also if there is none. If a word is refused, or the file ends
/// in a frame, that is the fault; the lines and certificates of the frames before it remain. The certificates' file is
/// begun when the first frame is accepted, or at the end of a file without frames. More than 2^48 bytes, or
/// 4,294,967,295 frames, are too long. If all values of the file are 0 or 1, and it is not `hard`, a note on the errors
/// says so after the report, unless notes are suppressed.
pub fn judge_each_command<R: CountedRead, C: Output, O: CountedWrite, E: CountedWrite>(
    alloc: Global,
    shape: Shape,
    hard: bool,
    quiet: bool,
    tuning: Tuning,
    files: &mut JudgeFiles<R, C>,
    console: &mut Console<O, E>,
) -> Exit
    requires files { CanJudge files.old }
    requires console { CanNote console.old }
    ensures quiet { result ≢ Exit.Fault → console.new.errors_failed ≡ console.old.errors_failed }
    ensures whole { result ≢ Exit.Fault → console.new.output_failed ≡ console.old.output_failed }
    ensures run { JudgeEachExits hard quiet tuning shape files.old files.new console.old console.new result }
{
    let ran = print_judgements(alloc, shape, hard, tuning, files, &mut console.output);
    finish_judged(hard, quiet, ran, console)
}
