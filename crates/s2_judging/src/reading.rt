//! Value files, and the input of a judge.
ghost use Rattle.std.specs.Prelude.{◌≡◌, ◌≢◌, ◌+◌, All, Err, IfOk, IfSome, length};
ghost use Rattle.s2_check.specs.Views.{IsSoft};
ghost use Rattle.s2_mode.specs.Counts.{CanCount};
ghost use Rattle.s2_mode.specs.Shape.{code_bits};
ghost use Rattle.s2_matrix.specs.Code.{code_of};
ghost use Rattle.s2_io.specs.Exits.{Follows};
ghost use Rattle.s2_judging.specs.Hard.{text_by};
ghost use Rattle.s2_judging.specs.Inputs.{values_said, values_by, inputs_by};

use crate::hard::read_text;
use s2_inputs::{read_bytes, read_matrix};
use s2_io::Fault;
use s2_matrix::Matrix;
use s2_mode::{CountedRead, Shape};
use s2_rows::ValueFault;
use std::alloc::Global;

/// The values of a value file in memory, one for each bit of a codeword.
fn values_of(
    alloc: Global,
    text: &[u8],
    shape: Shape,
    hard: bool,
) -> Result<Vec<i16>, Fault<'static>>
    ensures says { Follows (λ v. v.items) result (values_said (text_by hard text.now (code_bits shape))) }
    ensures long { IfOk result (λ v. length v.items ≡ code_bits shape) }
    ensures range { IfOk result (λ v. All IsSoft v.items) }
    ensures read { result ≢ Err Fault.Read }
    ensures write { result ≢ Err Fault.Write }
{
    match read_text(alloc, text, shape.n(), hard) {
        Ok(values) => Ok(values),
        Err(ValueFault::NoMemory) => Err(Fault::NoMemory),
        Err(fault) => Err(Fault::about("values: ", fault.text())),
    }
}

/// The values of a value file.
fn read_value_file<R: CountedRead>(
    alloc: Global,
    reader: &mut R,
    shape: Shape,
    hard: bool,
) -> Result<Vec<i16>, Fault<'static>>
    requires { CanCount (R.count reader.old) }
    ensures values { IfSome (R.remaining reader.old) (λ xs. Follows (λ v. v.items) result (values_by hard shape xs)) }
    ensures long { IfOk result (λ v. length v.items ≡ code_bits shape) }
    ensures range { IfOk result (λ v. All IsSoft v.items) }
    ensures read { result ≡ Err Fault.Read → R.count reader.new ≡ R.count reader.old + 1 }
    ensures no_other { result ≢ Err Fault.Read → R.count reader.new ≡ R.count reader.old }
    ensures write { result ≢ Err Fault.Write }
{
    let text = read_bytes(alloc, reader)?;
    values_of(alloc, &text, shape, hard)
}

/// The input of a judge: the matrix of rows, and a soft value for each of its bits.
pub(crate) struct Judged {
    pub(crate) matrix: Matrix,
    pub(crate) soft: Vec<i16>,
}

impl Drop for Judged {
    fn drop(self) {
        let Judged { matrix: _, soft: _ } = self;
    }
}

/// The rows of a row file and the values of a value file.
pub(crate) fn read_judged<R: CountedRead, S: CountedRead>(
    alloc: Global,
    rows: &mut R,
    soft: &mut S,
    shape: Shape,
    hard: bool,
) -> Result<Judged, Fault<'static>>
    requires rows { CanCount (R.count rows.old) }
    requires soft { CanCount (S.count soft.old) }
    ensures says { IfSome (R.remaining rows.old) (λ xs. IfSome (S.remaining soft.old) (λ ys. Follows (λ j. (j.matrix, j.soft.items)) result (inputs_by hard shape xs ys))) }
    ensures long { IfOk result (λ j. length j.soft.items ≡ (code_of j.matrix).bits) }
    ensures range { IfOk result (λ j. All IsSoft j.soft.items) }
    ensures read { result ≡ Err Fault.Read → R.count rows.new + S.count soft.new ≡ R.count rows.old + S.count soft.old + 1 }
    ensures no_read { result ≢ Err Fault.Read → R.count rows.new + S.count soft.new ≡ R.count rows.old + S.count soft.old }
    ensures write { result ≢ Err Fault.Write }
{
    let matrix = read_matrix(alloc, rows, shape)?;
    let soft = read_value_file(alloc, soft, shape, hard)?;
    Ok(Judged { matrix, soft })
}
