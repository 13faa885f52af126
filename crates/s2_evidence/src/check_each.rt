//! `check --each`: checks the certificates of a file, one after another.
ghost use Rattle.std.specs.Prelude.{◌≡◌, ◌≢◌, ◌+◌, [], ◌∷◌, Ok, Err, IfSome, IsOk, List, ℕ, Option, length};
ghost use Rattle.s2_mode.specs.Counts.{CanCount};
ghost use Rattle.s2_certfile.specs.File.{File};
ghost use Rattle.s2_io.specs.Screens.{CanShow};
ghost use Rattle.s2_io.specs.Exits.{CommandCounts};
ghost use Rattle.s2_evidence.specs.CheckingEach.{AnsweredSoFar, AreRowsFor, ChecksEach, ChecksNext, CheckEachExits};
ghost use Rattle.s2_evidence.specs.Each.{worse};
ghost use Rattle.s2_inputs.specs.Inputs.{taken};
ghost use Rattle.s2_evidence.specs.Pieces.{max_piece};

use crate::check::answered;
use crate::next::{next_certificate, piece_room};
use s2_inputs::{matrix_of, read_bytes};
use s2_io::{Console, Exit, Fault};
use s2_matrix::Matrix;
use s2_mode::{CountedRead, CountedWrite};
use std::alloc::Global;

/// The exit of one line and then others: 0 only if it is 0 of each.
pub fn worse(first: Exit, others: Exit) -> Exit
    ensures { result ≡ worse first others }
{
    match first {
        Exit::Fine => others,
        Exit::Fault => Exit::Fault,
        Exit::No => Exit::No,
    }
}

/// Reads the next certificate, and prints its line. `None` if there is no more certificate.
fn check_next<R: CountedRead, O: CountedWrite>(
    alloc: Global,
    matrix: &Matrix,
    certificates: &mut R,
    buffer: &mut [u8],
    out: &mut O,
) -> Result<Option<Exit>, Fault<'static>>
    requires certificates { CanCount (R.count certificates.old) }
    requires out { CanCount (O.count out.old) }
    requires room { length buffer.old ≡ max_piece }
    ensures room { length buffer.new ≡ length buffer.old }
    ensures checks { ChecksNext (R.remaining certificates.old) (R.remaining certificates.new) matrix.now (O.contents out.old) (O.contents out.new) result }
    ensures read { result ≡ Err Fault.Read → R.count certificates.new ≡ R.count certificates.old + 1 }
    ensures no_read { result ≢ Err Fault.Read → R.count certificates.new ≡ R.count certificates.old }
    ensures write { result ≡ Err Fault.Write → O.count out.new ≡ O.count out.old + 1 }
    ensures no_write { result ≢ Err Fault.Write → O.count out.new ≡ O.count out.old }
{
    match next_certificate(alloc, certificates, buffer)? {
        None => Ok(None),
        Some(certificate) => {
            let exit = answered(matrix, &certificate).print(out)?;
            Ok(Some(exit))
        }
    }
}

/// Checks the certificates after the first one, whose exit was `first`.
fn check_others<R: CountedRead, O: CountedWrite>(
    alloc: Global,
    matrix: &Matrix,
    first: Exit,
    certificates: &mut R,
    buffer: &mut [u8],
    out: &mut O,
) -> Result<Exit, Fault<'static>>
    requires certificates { CanCount (R.count certificates.old) }
    requires out { CanCount (O.count out.old) }
    requires room { length buffer.old ≡ max_piece }
    ensures checks { (known before start : Option (List ℕ)) (file : File) → AreRowsFor known (file ∷ []) matrix.now
        → AnsweredSoFar before (R.remaining certificates.old) matrix.now (file ∷ []) first start (O.contents out.old)
        → ChecksEach known before (R.remaining certificates.new) result start (O.contents out.new) }
    ensures read { result ≡ Err Fault.Read → R.count certificates.new ≡ R.count certificates.old + 1 }
    ensures no_read { result ≢ Err Fault.Read → R.count certificates.new ≡ R.count certificates.old }
    ensures write { result ≡ Err Fault.Write → O.count out.new ≡ O.count out.old + 1 }
    ensures no_write { result ≢ Err Fault.Write → O.count out.new ≡ O.count out.old }
{
    let mut exit = first;
    'others: for _checked in 0..u32::MAX {
        match check_next(alloc, matrix, certificates, buffer, out)? {
            None => return Ok(exit),
            Some(next) => exit = worse(exit, next),
        }
    }
    Err(Fault::TooLong)
}

/// Checks all certificates under the rows of a text, by the first certificate's shape.
fn check_under<R: CountedRead, O: CountedWrite>(
    alloc: Global,
    rows: &[u8],
    certificates: &mut R,
    out: &mut O,
) -> Result<Exit, Fault<'static>>
    requires certificates { CanCount (R.count certificates.old) }
    requires out { CanCount (O.count out.old) }
    ensures checks { (known : Option (List ℕ)) → IfSome known (λ xs. taken xs ≡ Ok rows.now)
        → ChecksEach known (R.remaining certificates.old) (R.remaining certificates.new) result (O.contents out.old) (O.contents out.new) }
    ensures read { result ≡ Err Fault.Read → R.count certificates.new ≡ R.count certificates.old + 1 }
    ensures no_read { result ≢ Err Fault.Read → R.count certificates.new ≡ R.count certificates.old }
    ensures write { result ≡ Err Fault.Write → O.count out.new ≡ O.count out.old + 1 }
    ensures no_write { result ≢ Err Fault.Write → O.count out.new ≡ O.count out.old }
{
    let mut buffer = piece_room(alloc)?;
    let Some(certificate) = next_certificate(alloc, certificates, &mut buffer)? else {
        return Ok(Exit::Fine);
    };
    let matrix = matrix_of(alloc, rows, certificate.shape())?;
    let first = answered(&matrix, &certificate).print(out)?;
    check_others(alloc, &matrix, first, certificates, &mut buffer, out)
}

/// Reads rows, and checks all certificates.
fn print_checks<R: CountedRead, O: CountedWrite>(
    alloc: Global,
    rows: &mut R,
    certificates: &mut R,
    out: &mut O,
) -> Result<Exit, Fault<'static>>
    requires rows { CanCount (R.count rows.old) }
    requires certificates { CanCount (R.count certificates.old) }
    requires out { CanCount (O.count out.old) }
    ensures whole { IsOk result → O.count out.new ≡ O.count out.old }
    ensures run { ChecksEach (R.remaining rows.old) (R.remaining certificates.old) (R.remaining certificates.new) result (O.contents out.old) (O.contents out.new) }
    ensures causes { CommandCounts result (R.count rows.old + R.count certificates.old) (R.count rows.new + R.count certificates.new)
        (O.count out.old) (O.count out.new) }
{
    let text = read_bytes(alloc, rows)?;
    check_under(alloc, &text, certificates, out)
}

/// `check --each`: whether each certificate of a file shows that its bits are sole, or most likely, under the code of a
/// row file. The certificates follow each other. The rows have the shape of the first one. Each line is printed before
/// the next certificate is read. The exit is 0 if all certificates are accepted, also if there is none.
pub fn check_each_command<R: CountedRead, O: CountedWrite, E: CountedWrite>(
    alloc: Global,
    rows: &mut R,
    certificates: &mut R,
    console: &mut Console<O, E>,
) -> Exit
    requires rows { CanCount (R.count rows.old) }
    requires certificates { CanCount (R.count certificates.old) }
    requires console { CanShow console.old }
    ensures quiet { result ≢ Exit.Fault → console.new.errors_failed ≡ console.old.errors_failed }
    ensures whole { result ≢ Exit.Fault → console.new.output_failed ≡ console.old.output_failed }
    ensures run { CheckEachExits (R.remaining rows.old) (R.remaining certificates.old) (R.remaining certificates.new) console.old console.new result
        (R.count rows.old + R.count certificates.old) (R.count rows.new + R.count certificates.new) }
{
    let ended = print_checks(alloc, rows, certificates, &mut console.output);
    console.finish(ended)
}
