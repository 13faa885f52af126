//! `compare`: compares a device's words with those of certificates, one after another.
ghost use Rattle.std.specs.Prelude.{◌≡◌, ◌≢◌, ◌+◌, Err, IsOk};
ghost use Rattle.s2_mode.specs.Counts.{CanCount};
ghost use Rattle.s2_io.specs.Screens.{CanShow};
ghost use Rattle.s2_io.specs.Exits.{CommandCounts};
ghost use Rattle.s2_compare.specs.ComparingEach.{CompareExits, ComparesEach, ComparesUnder, IsUnder, read_by};
ghost use Rattle.s2_compare.specs.Devices.{shape_for};
ghost use Rattle.s2_compare.specs.Feeding.{feeds};

use crate::counts::Counts;
use crate::form::Form;
use crate::lines::counts_line;
use crate::step::{Comparer, compare_next, print_line};
use s2_inputs::read_matrix;
use s2_io::{Console, Exit, Fault};
use s2_matrix::Matrix;
use s2_mode::{CountedRead, CountedWrite};
use std::alloc::Global;

/// Compares all frames, and prints their lines and the counts.
fn compare_all<R: CountedRead, O: CountedWrite>(
    alloc: Global,
    comparer: &mut Comparer<'_>,
    certificates: &mut R,
    words: &mut R,
    out: &mut O,
) -> Result<Exit, Fault<'static>>
    requires certificates { CanCount (R.count certificates.old) }
    requires words { CanCount (R.count words.old) }
    requires out { CanCount (O.count out.old) }
    ensures compares { ComparesUnder comparer.old.form comparer.old.rows
        (feeds (R.remaining certificates.old) (R.remaining words.old)) (feeds (R.remaining certificates.new) (R.remaining words.new))
        result (O.contents out.old) (O.contents out.new) }
    ensures read { result ≡ Err Fault.Read → R.count certificates.new + R.count words.new ≡ R.count certificates.old + R.count words.old + 1 }
    ensures no_read { result ≢ Err Fault.Read → R.count certificates.new + R.count words.new ≡ R.count certificates.old + R.count words.old }
    ensures write { result ≡ Err Fault.Write → O.count out.new ≡ O.count out.old + 1 }
    ensures no_write { result ≢ Err Fault.Write → O.count out.new ≡ O.count out.old }
{
    let mut counts = Counts::none();
    'frames: for _compared in 0..u32::MAX {
        let number = counts.frames + 1;
        match compare_next(alloc, comparer, number, certificates, words, out)? {
            None => {
                print_line(out, &counts_line(counts))?;
                return Ok(counts.exit());
            }
            Some(answer) => counts = counts.with(answer),
        }
    }
    Err(Fault::TooLong)
}

/// Compares all frames under the rows of a matrix.
fn compare_under<R: CountedRead, O: CountedWrite>(
    alloc: Global,
    matrix: &Matrix,
    form: &Form,
    certificates: &mut R,
    words: &mut R,
    out: &mut O,
) -> Result<Exit, Fault<'static>>
    requires shape { matrix.now.shape ≡ shape_for form.now }
    requires certificates { CanCount (R.count certificates.old) }
    requires words { CanCount (R.count words.old) }
    requires out { CanCount (O.count out.old) }
    ensures compares { IsUnder form.now matrix.now
        (feeds (R.remaining certificates.old) (R.remaining words.old)) (feeds (R.remaining certificates.new) (R.remaining words.new))
        result (O.contents out.old) (O.contents out.new) }
    ensures read { result ≡ Err Fault.Read → R.count certificates.new + R.count words.new ≡ R.count certificates.old + R.count words.old + 1 }
    ensures no_read { result ≢ Err Fault.Read → R.count certificates.new + R.count words.new ≡ R.count certificates.old + R.count words.old }
    ensures write { result ≡ Err Fault.Write → O.count out.new ≡ O.count out.old + 1 }
    ensures no_write { result ≢ Err Fault.Write → O.count out.new ≡ O.count out.old }
{
    let mut comparer = Comparer::new(alloc, matrix, form)?;
    compare_all(alloc, &mut comparer, certificates, words, out)
}

/// Reads rows, and compares all frames.
fn print_comparison<R: CountedRead, O: CountedWrite>(
    alloc: Global,
    form: &Form,
    rows: &mut R,
    certificates: &mut R,
    words: &mut R,
    out: &mut O,
) -> Result<Exit, Fault<'static>>
    requires rows { CanCount (R.count rows.old) }
    requires certificates { CanCount (R.count certificates.old) }
    requires words { CanCount (R.count words.old) }
    requires out { CanCount (O.count out.old) }
    ensures whole { IsOk result → O.count out.new ≡ O.count out.old }
    ensures run { ComparesEach form.now (R.remaining rows.old)
        (feeds (R.remaining certificates.old) (R.remaining words.old)) (feeds (R.remaining certificates.new) (R.remaining words.new))
        result (O.contents out.old) (O.contents out.new) }
    ensures causes { CommandCounts result (R.count rows.old + (R.count certificates.old + R.count words.old))
        (R.count rows.new + (R.count certificates.new + R.count words.new)) (O.count out.old) (O.count out.new) }
{
    let matrix = read_matrix(alloc, rows, form.shape())?;
    compare_under(alloc, &matrix, form, certificates, words, out)
}

/// `compare`: whether a device decided on the words of these certificates, under the code of a row file. The certificates
/// follow each other, and so do the device's words, one for each certificate, in this form. Each line is printed before
/// the next certificate is read, and the counts at the end. The exit is 0 if all words are the certified ones, also if
/// there is none. A certificate that is not accepted is refused in its line. It is a fault if there are more or fewer
/// words than certificates, if a word is cut, or if a line has other digits than 0 and 1.
pub fn compare_command<R: CountedRead, O: CountedWrite, E: CountedWrite>(
    alloc: Global,
    form: Form,
    rows: &mut R,
    certificates: &mut R,
    words: &mut R,
    console: &mut Console<O, E>,
) -> Exit
    requires rows { CanCount (R.count rows.old) }
    requires certificates { CanCount (R.count certificates.old) }
    requires words { CanCount (R.count words.old) }
    requires console { CanShow console.old }
    ensures quiet { result ≢ Exit.Fault → console.new.errors_failed ≡ console.old.errors_failed }
    ensures whole { result ≢ Exit.Fault → console.new.output_failed ≡ console.old.output_failed }
    ensures run { CompareExits form (read_by R.remaining R.count rows.old certificates.old words.old)
        (read_by R.remaining R.count rows.new certificates.new words.new) console.old console.new result }
{
    let ended = print_comparison(alloc, &form, rows, certificates, words, &mut console.output);
    console.finish(ended)
}
