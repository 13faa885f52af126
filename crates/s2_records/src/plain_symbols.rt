//! The payload symbols of codewords, before pilots and scrambling (EN 302 307-1, 5.4).
ghost use Rattle.std.specs.Prelude.{◌≡◌, ◌*◌, IfOk, OnOk, OnErr, length};
ghost use Rattle.std.specs.Io.KnownBytes.{Appends};
ghost use Rattle.s2_mode.specs.Counts.{CanCount, CountsFault};
ghost use Rattle.s2_mode.specs.Mode.{slots_of};
ghost use Rattle.s2_mode.specs.Pieces.{AppendsPart};
ghost use Rattle.s2_records.specs.Sent.{GainsOf, GainsPartOf};
ghost use Rattle.s2_records.specs.Vectors.{sent_symbols};

use s2_bits::Bits;
use s2_map::map_into;
use s2_mode::{CountedWrite, Mode, Symbol, WriteFault, bytes_into, write_full};
use s2_send::SendSink;
use std::alloc::{AllocError, Global};
use std::marker::Model;

/// Writes the payload symbols of a codeword of the mode, four bytes each. The buffers have room for these symbols and
/// for their bytes.
fn write_symbols<W: CountedWrite>(
    out: &mut W,
    mode: Mode,
    payload: &mut [Symbol],
    bytes: &mut [u8],
    codeword: &Bits,
) -> Result<(), WriteFault>
    requires count { CanCount (W.count out.old) }
    requires room { length payload.old ≡ 90 * slots_of mode }
    requires size { length bytes.old ≡ 4 * length payload.old }
    ensures bytes { OnOk result (Appends (W.contents out.old) (W.contents out.new) (sent_symbols mode codeword.now)) }
    ensures part { OnErr result (AppendsPart (sent_symbols mode codeword.now) (W.contents out.old) (W.contents out.new)) }
    ensures cause { CountsFault (W.count out.old) (W.count out.new) result }
{
    if codeword.len() != mode.n() {
        return Ok(());
    }
    map_into(mode, codeword, payload);
    bytes_into(payload, bytes);
    write_full(out, bytes)
}

/// A sink of payload symbols (XFECFRAMEs). It writes the constellation points of a frame's labels, four bytes each,
/// without header and pilots and before scrambling. In contracts, it is its mode and its writer.
pub struct PlainSymbols<W> {
    mode: Mode,
    to: W,
    payload: Vec<Symbol>,
    bytes: Vec<u8>,
}

impl<W: Drop> Drop for PlainSymbols<W> {
    fn drop(self) {
        let PlainSymbols {
            mode: _,
            to: _,
            payload: _,
            bytes: _,
        } = self;
    }
}

impl<W> Model for PlainSymbols<W> {
    ghost use Rattle.std.specs.Prelude.{◌≡◌, ◌*◌, length};
    ghost use Rattle.s2_mode.specs.Mode.{slots_of};
    ghost use Rattle.s2_records.specs.Records.{Framing};

    ghost Value = { Framing W };

    ghost view = { λ p. record { mode = p.mode; to = p.to } };

    ghost invariant = { λ p. (length p.payload.items ≡ 90 * slots_of p.mode) × (length p.bytes.items ≡ 4 * (90 * slots_of p.mode)) };
}

impl<W: CountedWrite> PlainSymbols<W> {
    /// It writes to this writer, the symbols of a codeword of this mode with one write. `AllocError` only if an
    /// allocation was refused.
    pub fn new(alloc: Global, mode: Mode, to: W) -> Result<PlainSymbols<W>, AllocError>
    where
        W: Drop,
        ensures { IfOk result (λ p. p ≡ record { mode = mode; to = to }) }
    {
        let count = 90 * mode.slots();
        let payload = vec![in alloc; Symbol { i: 0, q: 0 }; count]?;
        let bytes = vec![in alloc; 0u8; 4 * count]?;
        Ok(PlainSymbols {
            mode,
            to,
            payload,
            bytes,
        })
    }

    /// Its writer.
    pub fn into_inner(self) -> W
        ensures { result ≡ self.to }
    {
        let PlainSymbols {
            mode: _,
            to,
            payload: _,
            bytes: _,
        } = self;
        to
    }
}

impl<W: CountedWrite> SendSink for PlainSymbols<W> {
    ghost takes = { GainsOf W.contents sent_symbols };

    ghost fails = { GainsPartOf W.contents sent_symbols };

    ghost count = { λ p. W.count p.to };

    fn take(&mut self, codeword: &Bits) -> Result<(), WriteFault> {
        write_symbols(
            &mut self.to,
            self.mode,
            &mut self.payload,
            &mut self.bytes,
            codeword,
        )
    }
}
