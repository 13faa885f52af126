//! A block: bytes before a writer, in memory that was allocated once. A record that fits takes one write.
ghost use Rattle.std.specs.Prelude.{◌≡◌, ◌≤◌, ◌+◌, [], List, OnOk, OnErr, length, vec_len, vec_capacity};
ghost use Rattle.std.specs.Io.KnownBytes.{Appends};
ghost use Rattle.s2_mode.specs.Counts.{CanCount, CountsFault};
ghost use Rattle.s2_mode.specs.Pieces.{AppendsPart};
ghost use Rattle.s2_certfile.specs.Pages.{PutsThrough};

use s2_mode::{CountedWrite, WriteFault, write_full};

/// Writes the block, and empties it.
pub(crate) fn flush<W: CountedWrite>(out: &mut W, block: &mut Vec<u8>) -> Result<(), WriteFault>
    requires { CanCount (W.count out.old) }
    ensures bytes { OnOk result (Appends (W.contents out.old) (W.contents out.new) block.old.items) }
    ensures empty { OnOk result (block.new.items ≡ []) }
    ensures part { OnErr result (AppendsPart block.old.items (W.contents out.old) (W.contents out.new)) }
    ensures cause { CountsFault (W.count out.old) (W.count out.new) result }
{
    write_full(out, block.as_slice())?;
    block.clear();
    Ok(())
}

/// Puts bytes into an empty block, or writes them if they do not fit.
fn put_first<W: CountedWrite>(
    out: &mut W,
    block: &mut Vec<u8>,
    bytes: &[u8],
) -> Result<(), WriteFault>
    requires count { CanCount (W.count out.old) }
    requires empty { block.old.items ≡ [] }
    ensures bytes { PutsThrough bytes.now (W.contents out.old) (W.contents out.new) block.old.items block.new.items result }
    ensures cause { CountsFault (W.count out.old) (W.count out.new) result }
{
    if bytes.len() > block.capacity() - block.len() {
        return write_full(out, bytes);
    }
    block.extend_from_slice(bytes).unwrap();
    Ok(())
}

/// Puts bytes into the block. If they do not fit, the block is written before them.
pub(crate) fn put<W: CountedWrite>(
    out: &mut W,
    block: &mut Vec<u8>,
    bytes: &[u8],
) -> Result<(), WriteFault>
    requires { CanCount (W.count out.old) }
    ensures bytes { PutsThrough bytes.now (W.contents out.old) (W.contents out.new) block.old.items block.new.items result }
    ensures cause { CountsFault (W.count out.old) (W.count out.new) result }
{
    if bytes.len() <= block.capacity() - block.len() {
        block.extend_from_slice(bytes).unwrap();
        return Ok(());
    }
    flush(out, block)?;
    put_first(out, block, bytes)
}
