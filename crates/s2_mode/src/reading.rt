//! Whole files.
ghost use Rattle.std.specs.Prelude.{◌≡◌, ◌≢◌, ◌+◌, ◌^◌, ◌<◌, ◌≤◌, length, vec_len, vec_capacity, Err, IfOk, OnOk, IfSome, IsErrOf};
ghost use Rattle.s2_mode.specs.Counts.{CanCount};

use crate::counts::CountedRead;
use std::alloc::Global;
use thiserror::Error;

/// Why a file could not be read into memory.
#[derive(Clone, Copy, Debug, PartialEq, Eq, Error)]
pub enum FileFault {
    #[error("cannot read")]
    Read,
    #[error("file too long")]
    TooLong,
    #[error("no memory")]
    NoMemory,
}

const CHUNK: usize = 4096;

/// Reads all unread bytes, at most `most`, into `bytes`, which has room for them. It allocates nothing. `TooLong` if
/// there are more. After a fault the contents of `bytes` are not specified.
pub fn read_into<R: CountedRead>(
    reader: &mut R,
    bytes: &mut Vec<u8>,
    most: usize,
) -> Result<(), FileFault>
    requires count { CanCount (R.count reader.old) }
    requires most { most < 2 ^ 32 }
    requires empty { vec_len bytes.old ≡ 0 }
    requires room { most ≤ vec_capacity bytes.old }

    ensures bytes { IfSome (R.remaining reader.old) (λ xs. OnOk result (bytes.new.items ≡ xs)) }
    ensures short { OnOk result (length bytes.new.items ≤ most) }

    ensures read { IsErrOf result FileFault.Read → R.count reader.new ≡ R.count reader.old + 1 }
    ensures no_other { result ≢ Err FileFault.Read → R.count reader.new ≡ R.count reader.old }
    ensures too_long { IsErrOf result FileFault.TooLong → IfSome (R.remaining reader.old) (λ xs. most < length xs) }
    ensures memory { result ≢ Err FileFault.NoMemory }
{
    let mut chunk = [0u8; CHUNK];
    'fill: loop {
        let n = reader.read(&mut chunk).map_err(|_| FileFault::Read)?;
        if n == 0 {
            return Ok(());
        }
        if n > most - bytes.len() {
            return Err(FileFault::TooLong);
        }
        bytes.extend_from_slice(&chunk[..n]).unwrap();
    }
}

/// All unread bytes, at most `most`, or `TooLong` if there are more. Memory for `most` bytes is allocated before the
/// first byte is read; only that can return `NoMemory`.
pub fn read_all<R: CountedRead>(
    alloc: Global,
    reader: &mut R,
    most: usize,
) -> Result<Vec<u8>, FileFault>
    requires count { CanCount (R.count reader.old) }
    requires most { most < 2 ^ 32 }

    ensures bytes { IfSome (R.remaining reader.old) (λ xs. IfOk result (λ v. v.items ≡ xs)) }
    ensures short { IfOk result (λ v. length v.items ≤ most) }

    ensures read { IsErrOf result FileFault.Read → R.count reader.new ≡ R.count reader.old + 1 }
    ensures no_other { result ≢ Err FileFault.Read → R.count reader.new ≡ R.count reader.old }
    ensures no_memory { IsErrOf result FileFault.NoMemory → reader.new ≡ reader.old }
    ensures too_long { IsErrOf result FileFault.TooLong → IfSome (R.remaining reader.old) (λ xs. most < length xs) }
{
    let mut bytes = Vec::with_capacity(alloc, most).map_err(|_| FileFault::NoMemory)?;
    read_into(reader, &mut bytes, most)?;
    Ok(bytes)
}
