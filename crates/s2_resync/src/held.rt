//! Bytes that were read and are still to be used.
ghost use Rattle.std.specs.Prelude.{◌≡◌, ◌<◌, ◌≤◌, ◌++◌, IfOk, OnOk, length, drop, take, min, vec_len, vec_capacity};
ghost use Rattle.std.specs.Io.KnownBytes.{IsAtEnd, Keeps, prepend_known};
ghost use Rattle.s2_mode.specs.Counts.{CanCount, CountsFault};

use s2_mode::{CountedRead, ReadFault};

/// The most bytes that are held: from the first of five sync bytes to the last.
pub(crate) const MOST_HELD: usize = 753;

/// Removes the first bytes.
pub(crate) fn remove_front(bytes: &mut Vec<u8>, count: usize)
    requires { count ≤ vec_len bytes.old }
    ensures rest { bytes.new.items ≡ drop count bytes.old.items }
    ensures fewer { vec_len bytes.new ≤ vec_len bytes.old }
    ensures room { vec_capacity bytes.new ≡ vec_capacity bytes.old }
{
    let left = bytes.len() - count;
    bytes.copy_within(count.., 0);
    bytes.truncate(left);
}

/// Moves bytes from the front into a buffer, until one is empty or the other is full. Returns their number.
pub(crate) fn give(bytes: &mut Vec<u8>, buf: &mut [u8]) -> usize
    ensures count { result ≡ min (vec_len bytes.old) (length buf.old) }
    ensures moved { bytes.old.items ≡ take result buf.new ++ bytes.new.items }
    ensures long { length buf.new ≡ length buf.old }
    ensures room { vec_capacity bytes.new ≡ vec_capacity bytes.old }
{
    let count = bytes.len().min(buf.len());
    buf[..count].copy_from_slice(&bytes[..count]);
    remove_front(bytes, count);
    count
}

/// Reads until `wanted` bytes are held, or the reader is at its end.
pub(crate) fn hold<R: CountedRead>(
    reader: &mut R,
    held: &mut Vec<u8>,
    wanted: usize,
) -> Result<(), ReadFault>
    requires count { CanCount (R.count reader.old) }
    requires wanted { wanted ≤ 753 }
    requires held { vec_len held.old ≤ 753 }
    requires room { 753 ≤ vec_capacity held.old }
    ensures bytes { Keeps (prepend_known held.old.items (R.remaining reader.old)) (prepend_known held.new.items (R.remaining reader.new)) }
    ensures end { OnOk result (vec_len held.new < wanted → IsAtEnd (R.remaining reader.new)) }
    ensures few { vec_len held.new ≤ 753 }
    ensures room { 753 ≤ vec_capacity held.new }
    ensures cause { CountsFault (R.count reader.old) (R.count reader.new) result }
{
    let mut chunk = [0u8; MOST_HELD];
    'hold: while held.len() < wanted {
        let room = wanted - held.len();
        let count = reader.read(&mut chunk[..room])?;
        if count == 0 {
            return Ok(());
        }
        held.extend_from_slice(&chunk[..count]).unwrap();
    }
    Ok(())
}
