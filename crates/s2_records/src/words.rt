//! The bytes of bits, written through a block.
ghost use Rattle.std.specs.Prelude.{OnOk, OnErr};
ghost use Rattle.std.specs.Io.KnownBytes.{Appends};
ghost use Rattle.s2_mode.specs.Counts.{CanCount, CountsFault};
ghost use Rattle.s2_mode.specs.Pieces.{AppendsPart};
ghost use Rattle.s2_certfile.specs.Field.{bytes_of_bits};
ghost use Rattle.s2_certfile.specs.Pages.{PutsThrough};

use crate::block::{flush, put};
use s2_bits::Bits;
use s2_mode::{CountedWrite, WriteFault};

/// Puts the bytes of bits into the block, byte by byte.
fn put_bits<W: CountedWrite>(
    out: &mut W,
    block: &mut Vec<u8>,
    bits: &Bits,
) -> Result<(), WriteFault>
    requires { CanCount (W.count out.old) }
    ensures bytes { PutsThrough (bytes_of_bits bits.now) (W.contents out.old) (W.contents out.new) block.old.items block.new.items result }
    ensures cause { CountsFault (W.count out.old) (W.count out.new) result }
{
    for k in 0..bits.len().div_ceil(8) {
        put(out, block, &[bits.byte(k)])?;
    }
    Ok(())
}

/// Writes the bytes of bits, with zeros after the last bit of a last byte that is not full. It is one write if the
/// block has room for them.
pub(crate) fn write_bits<W: CountedWrite>(
    out: &mut W,
    block: &mut Vec<u8>,
    bits: &Bits,
) -> Result<(), WriteFault>
    requires { CanCount (W.count out.old) }
    ensures bytes { OnOk result (Appends (W.contents out.old) (W.contents out.new) (bytes_of_bits bits.now)) }
    ensures part { OnErr result (AppendsPart (bytes_of_bits bits.now) (W.contents out.old) (W.contents out.new)) }
    ensures cause { CountsFault (W.count out.old) (W.count out.new) result }
{
    block.clear();
    put_bits(out, block, bits)?;
    flush(out, block)
}
