//! The bytes of files, and the matrices of row files.
ghost use Rattle.std.specs.Prelude.{◌≡◌, ◌≢◌, ◌+◌, ◌≤◌, Err, IfOk, IfSome, IsOkUnless, vec_len, vec_capacity};
ghost use Rattle.s2_mode.specs.Counts.{CanCount};
ghost use Rattle.s2_rows.specs.RowFiles as row_files;
ghost use Rattle.s2_io.specs.Exits.{Follows};
ghost use Rattle.s2_inputs.specs.Inputs.{taken, fault_of_file, rows_said, rows_in, max_bytes};

use s2_io::Fault;
use s2_matrix::Matrix;
use s2_mode::{CountedRead, FileFault, Shape, read_into};
use s2_rows::{RowFault, Rows, read_rows};
use std::alloc::Global;

/// The maximum length in bytes of a file that is read into memory.
pub const MAX_BYTES: usize = 16_777_216;

/// Room for the bytes of any file.
fn room(alloc: Global) -> Result<Vec<u8>, Fault<'static>>
    ensures empty { IfOk result (λ v. vec_len v ≡ 0) }
    ensures room { IfOk result (λ v. max_bytes ≤ vec_capacity v) }
    ensures told { IsOkUnless result Fault.NoMemory }
{
    Vec::with_capacity(alloc, MAX_BYTES).map_err(|_| Fault::NoMemory)
}

/// The command's fault for a fault of a file.
fn file_fault(fault: FileFault) -> Fault<'static>
    ensures { result ≡ fault_of_file fault }
{
    match fault {
        FileFault::Read => Fault::Read,
        FileFault::TooLong => Fault::TooLong,
        FileFault::NoMemory => Fault::NoMemory,
    }
}

/// Reads the bytes of a file into a buffer with room for them. It takes no memory.
fn fill<R: CountedRead>(reader: &mut R, bytes: &mut Vec<u8>) -> Result<(), Fault<'static>>
    requires count { CanCount (R.count reader.old) }
    requires empty { vec_len bytes.old ≡ 0 }
    requires room { max_bytes ≤ vec_capacity bytes.old }
    ensures bytes { IfSome (R.remaining reader.old) (λ xs. Follows (λ _. bytes.new.items) result (taken xs)) }
    ensures read { result ≡ Err Fault.Read → R.count reader.new ≡ R.count reader.old + 1 }
    ensures no_other { result ≢ Err Fault.Read → R.count reader.new ≡ R.count reader.old }
    ensures memory { result ≢ Err Fault.NoMemory }
    ensures write { result ≢ Err Fault.Write }
{
    read_into(reader, bytes, MAX_BYTES).map_err(file_fault)
}

/// The bytes of a file. Room for them is taken before the first one is read.
pub fn read_bytes<R: CountedRead>(alloc: Global, reader: &mut R) -> Result<Vec<u8>, Fault<'static>>
    requires { CanCount (R.count reader.old) }
    ensures bytes { IfSome (R.remaining reader.old) (λ xs. Follows (λ v. v.items) result (taken xs)) }
    ensures read { result ≡ Err Fault.Read → R.count reader.new ≡ R.count reader.old + 1 }
    ensures no_other { result ≢ Err Fault.Read → R.count reader.new ≡ R.count reader.old }
    ensures write { result ≢ Err Fault.Write }
{
    let mut bytes = room(alloc)?;
    fill(reader, &mut bytes)?;
    Ok(bytes)
}

/// The rows of a row file in memory.
fn rows_of(alloc: Global, text: &[u8], shape: Shape) -> Result<Rows, Fault<'static>>
    ensures says { Follows (λ r. r) result (rows_said shape (row_files.rows_of_text text.now shape)) }
    ensures shape { IfOk result (λ r. r.shape ≡ shape) }
    ensures read { result ≢ Err Fault.Read }
    ensures write { result ≢ Err Fault.Write }
{
    match read_rows(alloc, text, shape) {
        Ok(rows) => Ok(rows),
        Err(RowFault::NoMemory) => Err(Fault::NoMemory),
        Err(fault) => Err(Fault::of_rows(fault.text())),
    }
}

/// The matrix of the rows of a row file in memory.
pub fn matrix_of(alloc: Global, text: &[u8], shape: Shape) -> Result<Matrix, Fault<'static>>
    ensures says { Follows (λ m. m) result (rows_said shape (row_files.rows_of_text text.now shape)) }
    ensures shape { IfOk result (λ m. m.shape ≡ shape) }
    ensures read { result ≢ Err Fault.Read }
    ensures write { result ≢ Err Fault.Write }
{
    let rows = rows_of(alloc, text, shape)?;
    match Matrix::build(alloc, &rows) {
        Ok(matrix) => Ok(matrix),
        Err(_) => Err(Fault::NoMemory),
    }
}

/// The matrix of the rows of a row file, which is read to its end.
pub fn read_matrix<R: CountedRead>(
    alloc: Global,
    reader: &mut R,
    shape: Shape,
) -> Result<Matrix, Fault<'static>>
    requires { CanCount (R.count reader.old) }
    ensures rows { IfSome (R.remaining reader.old) (λ xs. Follows (λ m. m) result (rows_in shape xs)) }
    ensures shape { IfOk result (λ m. m.shape ≡ shape) }
    ensures read { result ≡ Err Fault.Read → R.count reader.new ≡ R.count reader.old + 1 }
    ensures no_other { result ≢ Err Fault.Read → R.count reader.new ≡ R.count reader.old }
    ensures write { result ≢ Err Fault.Write }
{
    let text = read_bytes(alloc, reader)?;
    matrix_of(alloc, &text, shape)
}
