//! Noise on a whole stream of symbols, by blocks.
ghost use Rattle.std.specs.Prelude.{◌≡◌, ◌≢◌, ◌+◌, ◌-◌, ◌*◌, ◌%◌, ◌<◌, ◌≤◌, ◌++◌, min, OnOk, OnErr, IfOk, IfSome, Err, IsErrOf, Some, length, take, drop};
ghost use Rattle.std.specs.Io.KnownBytes.{Appends, Consumes, IsAtEnd, Keeps};
ghost use Rattle.s2_mode.specs.Counts.{CanCount, CountsFault};
ghost use Rattle.s2_mode.specs.Limits.{max_symbols};
ghost use Rattle.s2_mode.specs.Pieces.{AppendsPart};
ghost use Rattle.s2_mode.specs.Symbols.{symbols_of};
ghost use Rattle.s2_channel.specs.Noise.{block_bytes, drawn_for, noisy, PassesOnBy, PassesPart};

use crate::noise::Noise;
use s2_mode::{
    CountedRead, CountedWrite, MAX_SYMBOLS, ReadFault, StreamFault, Symbol, WriteFault, bytes_into,
    symbols_into, write_full,
};

/// The bytes of a block.
const BLOCK: usize = 4096;

/// The symbols of a block.
const SYMBOLS: usize = 1024;

/// The most bytes of a stream.
const MAX_BYTES: usize = 4 * MAX_SYMBOLS as usize;

/// Adds the noise that is drawn next to the bytes of whole symbols.
fn add_to_bytes(noise: &mut Noise, bytes: &mut [u8])
    requires whole { length bytes.old % 4 ≡ 0 }
    requires few { length bytes.old ≤ block_bytes }
    ensures bytes { bytes.new ≡ noisy noise.old.strength noise.old.generator (symbols_of bytes.old) }
    ensures drawn { noise.new.generator ≡ drawn_for noise.old.strength (length (symbols_of bytes.old)) noise.old.generator }
    ensures strength { noise.new.strength ≡ noise.old.strength }
{
    let mut room = [Symbol { i: 0, q: 0 }; SYMBOLS];
    let (symbols, _) = room.split_at_mut(bytes.len() / 4);
    symbols_into(bytes, symbols);
    noise.add_to(symbols);
    bytes_into(symbols, bytes);
}

/// Reads once into a block, after the bytes that it has held, and at most `most` bytes.
fn read_behind<R: CountedRead>(
    reader: &mut R,
    block: &mut [u8],
    held: usize,
    most: usize,
) -> Result<usize, ReadFault>
    requires count { CanCount (R.count reader.old) }
    requires held { held ≤ length block.old }
    ensures size { length block.new ≡ length block.old }
    ensures bound { IfOk result (λ n. n ≤ min most (length block.old - held)) }
    ensures kept { take held block.new ≡ take held block.old }
    ensures bytes { IfOk result (λ n. Consumes (R.remaining reader.old) (R.remaining reader.new) (take n (drop held block.new))) }
    ensures end { IfOk result (λ n. n ≡ 0 → 0 < most → held < length block.old → IsAtEnd (R.remaining reader.new)) }
    ensures none { OnErr result (Keeps (R.remaining reader.old) (R.remaining reader.new)) }
    ensures cause { CountsFault (R.count reader.old) (R.count reader.new) result }
{
    let (_, behind) = block.split_at_mut(held);
    let room = most.min(behind.len());
    let (room, _) = behind.split_at_mut(room);
    reader.read(room)
}

/// Writes the whole symbols of a block, filled up to a place, with noise, and moves the bytes after them to its front. Returns the
/// number of these.
fn pass_symbols<W: CountedWrite>(
    noise: &mut Noise,
    writer: &mut W,
    block: &mut [u8],
    filled: usize,
) -> Result<usize, WriteFault>
    requires count { CanCount (W.count writer.old) }
    requires size { length block.old ≡ block_bytes }
    requires filled { filled ≤ block_bytes }
    ensures size { length block.new ≡ block_bytes }
    ensures held { IfOk result (λ n. n ≡ filled % 4) }
    ensures rest { IfOk result (λ n. take n block.new ≡ drop (filled - n) (take filled block.old)) }
    ensures written { OnOk result (Appends (W.contents writer.old) (W.contents writer.new)
        (noisy noise.old.strength noise.old.generator (symbols_of (take filled block.old)))) }
    ensures drawn { noise.new.generator ≡ drawn_for noise.old.strength (length (symbols_of (take filled block.old))) noise.old.generator }
    ensures strength { noise.new.strength ≡ noise.old.strength }
    ensures part { OnErr result (AppendsPart (noisy noise.old.strength noise.old.generator (symbols_of (take filled block.old)))
        (W.contents writer.old) (W.contents writer.new)) }
    ensures cause { CountsFault (W.count writer.old) (W.count writer.new) result }
{
    let held = filled % 4;
    let (whole, _) = block.split_at_mut(filled - held);
    add_to_bytes(noise, whole);
    write_full(writer, whole)?;
    block.copy_within(filled - held..filled, 0);
    Ok(held)
}

/// Writes each symbol of a stream with its noise, up to the reader's end; one to three bytes at the end are
/// dropped. `Read` if a read failed or [`MAX_SYMBOLS`] symbols came: then the writer has gained exactly the
/// symbols whose four bytes were read, each whole and with its noise. `Write` if a write failed: then the writer
/// has gained the symbols before the bytes that were read last, at most a block of 4096, in the same way. It has gained a
/// part of the symbols among these, and not all. The noise continues after the last symbol's.
pub fn add_to_all<R: CountedRead, W: CountedWrite>(
    noise: &mut Noise,
    reader: &mut R,
    writer: &mut W,
) -> Result<(), StreamFault>
    requires reader { CanCount (R.count reader.old) }
    requires writer { CanCount (W.count writer.old) }
    ensures written { OnOk result (IfSome (R.remaining reader.old) (λ xs. Appends (W.contents writer.old)
        (W.contents writer.new) (noisy noise.old.strength noise.old.generator (symbols_of xs)))) }
    ensures drawn { OnOk result (IfSome (R.remaining reader.old) (λ xs.
        noise.new.generator ≡ drawn_for noise.old.strength (length (symbols_of xs)) noise.old.generator)) }
    ensures write { IsErrOf result StreamFault.Write → W.count writer.new ≡ W.count writer.old + 1 }
    ensures wrote { result ≢ Err StreamFault.Write → W.count writer.new ≡ W.count writer.old }
    ensures read { IsErrOf result StreamFault.Read → R.count reader.new ≡ R.count reader.old
        → IfSome (R.remaining reader.old) (λ xs. max_symbols ≤ length (symbols_of xs)) }
    ensures no_read { result ≢ Err StreamFault.Read → R.count reader.new ≡ R.count reader.old }
    ensures front { IsErrOf result StreamFault.Read → PassesOnBy R.remaining R.count W.contents
        noise.old.strength noise.old.generator reader.old reader.new writer.old writer.new }
    ensures part { IsErrOf result StreamFault.Write → PassesPart noise.old.strength noise.old.generator
        (R.remaining reader.old) (R.remaining reader.new) (W.contents writer.old) (W.contents writer.new) }
    ensures strength { noise.new.strength ≡ noise.old.strength }
{
    let mut block = [0u8; BLOCK];
    let mut held = 0;
    let mut left = MAX_BYTES;
    'all: while left > 0 {
        let count = read_behind(reader, &mut block, held, left).map_err(|_| StreamFault::Read)?;
        if count == 0 {
            return Ok(());
        }
        left -= count;
        held = pass_symbols(noise, writer, &mut block, held + count).map_err(
            |_| StreamFault::Write,
        )?;
    }
    Err(StreamFault::Read)
}
