//! `check`: checks a certificate.
ghost use Rattle.std.specs.Prelude.{◌≡◌, ◌≢◌, ◌+◌, Result, Err, IsOk};
ghost use Rattle.s2_mode.specs.Counts.{CanCount};
ghost use Rattle.s2_mode.specs.FaultTexts.{said};
ghost use Rattle.s2_certfile.specs.Format.{file_of_bytes};
ghost use Rattle.s2_io.specs.Screens.{CanShow};
ghost use Rattle.s2_io.specs.Exits.{Follows, CommandAnswers, CommandRuns, CommandCounts};
ghost use Rattle.s2_evidence.specs.Checking.{certificate_said, refusal_text, ArePartsIn, AreCheckInputs, answer_exit, SaysAnswer, IsAnswered, CheckExits};

use crate::lines::{answer_line, examined_line};
use s2_check::{Answer, CertFault, CertView, Certificate, Refusal, examine};
use s2_inputs::{matrix_of, read_bytes};
use s2_io::{Console, Exit, Fault, Printed};
use s2_matrix::Matrix;
use s2_mode::{CountedRead, CountedWrite, FaultText};
use std::alloc::Global;

/// The exit of an answer.
fn exit_of_answer(answer: Answer) -> Exit
    ensures { result ≡ answer_exit answer }
{
    match answer {
        Answer::Yes => Exit::Fine,
        Answer::No(_) => Exit::No,
    }
}

/// Checks a certificate that has the matrix's shape.
fn examined(matrix: &Matrix, view: &CertView<'_>) -> Printed
    ensures { SaysAnswer matrix.now view.now result.exit result.text }
{
    let found = examine(matrix, view);
    Printed {
        exit: exit_of_answer(found.answer),
        text: examined_line(view.cost(), found),
    }
}

/// Checks a certificate.
pub(crate) fn answered(matrix: &Matrix, certificate: &Certificate) -> Printed
    ensures { IsAnswered (matrix.now, certificate.now) result.exit result.text }
{
    match certificate.view(matrix) {
        Some(view) => examined(matrix, &view),
        None => Printed {
            exit: Exit::No,
            text: answer_line(0, Answer::No(Refusal::OtherShape)),
        },
    }
}

/// The words for a refused certificate. If bytes follow one, they name the option for several.
fn refusal_text(fault: CertFault) -> FaultText
    ensures { said result ≡ refusal_text fault }
{
    match fault {
        CertFault::Extra => FaultText::of("extra: several certificates need --each"),
        _ => fault.text(),
    }
}

/// The certificate of a file in memory.
pub(crate) fn certificate_of(alloc: Global, bytes: &[u8]) -> Result<Certificate, Fault<'static>>
    ensures says { Follows (λ c. c) result (certificate_said (file_of_bytes bytes.now)) }
    ensures read { result ≢ Err Fault.Read }
    ensures write { result ≢ Err Fault.Write }
{
    match Certificate::read(alloc, bytes) {
        Ok(certificate) => Ok(certificate),
        Err(CertFault::NoMemory) => Err(Fault::NoMemory),
        Err(fault) => Err(Fault::about("certificate: ", refusal_text(fault))),
    }
}

/// Parses two files in memory, the certificate first, and checks.
fn check_parts(alloc: Global, rows: &[u8], certificate: &[u8]) -> Result<Printed, Fault<'static>>
    ensures answers { CommandAnswers IsAnswered (ArePartsIn rows.now certificate.now) result }
    ensures read { result ≢ Err Fault.Read }
    ensures write { result ≢ Err Fault.Write }
{
    let certificate = certificate_of(alloc, certificate)?;
    let matrix = matrix_of(alloc, rows, certificate.shape())?;
    Ok(answered(&matrix, &certificate))
}

/// Reads rows and a certificate, and checks.
fn check_read<R: CountedRead>(
    alloc: Global,
    rows: &mut R,
    certificate: &mut R,
) -> Result<Printed, Fault<'static>>
    requires rows { CanCount (R.count rows.old) }
    requires certificate { CanCount (R.count certificate.old) }
    ensures answers { CommandAnswers IsAnswered (AreCheckInputs (R.remaining rows.old) (R.remaining certificate.old)) result }
    ensures read { result ≡ Err Fault.Read → R.count rows.new + R.count certificate.new ≡ R.count rows.old + R.count certificate.old + 1 }
    ensures no_read { result ≢ Err Fault.Read → R.count rows.new + R.count certificate.new ≡ R.count rows.old + R.count certificate.old }
    ensures write { result ≢ Err Fault.Write }
{
    let text = read_bytes(alloc, rows)?;
    let file = read_bytes(alloc, certificate)?;
    check_parts(alloc, &text, &file)
}

/// Reads rows and a certificate, checks, and prints the answer.
fn print_check<R: CountedRead, O: CountedWrite>(
    alloc: Global,
    rows: &mut R,
    certificate: &mut R,
    out: &mut O,
) -> Result<Exit, Fault<'static>>
    requires rows { CanCount (R.count rows.old) }
    requires certificate { CanCount (R.count certificate.old) }
    requires out { CanCount (O.count out.old) }
    ensures whole { IsOk result → O.count out.new ≡ O.count out.old }
    ensures run { CommandRuns IsAnswered (AreCheckInputs (R.remaining rows.old) (R.remaining certificate.old)) result (O.contents out.old) (O.contents out.new) }
    ensures causes { CommandCounts result (R.count rows.old + R.count certificate.old) (R.count rows.new + R.count certificate.new)
        (O.count out.old) (O.count out.new) }
{
    check_read(alloc, rows, certificate)?.print(out)
}

/// `check`: whether a certificate shows that its bits are sole, or most likely, under the code of a row file.
pub fn check_command<R: CountedRead, O: CountedWrite, E: CountedWrite>(
    alloc: Global,
    rows: &mut R,
    certificate: &mut R,
    console: &mut Console<O, E>,
) -> Exit
    requires rows { CanCount (R.count rows.old) }
    requires certificate { CanCount (R.count certificate.old) }
    requires console { CanShow console.old }
    ensures quiet { result ≢ Exit.Fault → console.new.errors_failed ≡ console.old.errors_failed }
    ensures whole { result ≢ Exit.Fault → console.new.output_failed ≡ console.old.output_failed }
    ensures run { CheckExits (R.remaining rows.old) (R.remaining certificate.old) console.old console.new result
        (R.count rows.old + R.count certificate.old) (R.count rows.new + R.count certificate.new) }
{
    let ended = print_check(alloc, rows, certificate, &mut console.output);
    console.finish(ended)
}
