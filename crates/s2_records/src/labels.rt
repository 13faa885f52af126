//! The interleaved labels of codewords (EN 302 307-1, 5.3.3 and 5.4).
ghost use Rattle.std.specs.Prelude.{◌≡◌, ◌+◌, ◌*◌, ◌<◌, ◌≤◌, IfOk, OnOk, OnErr, length};
ghost use Rattle.std.specs.Io.KnownBytes.{Appends};
ghost use Rattle.s2_mode.specs.Counts.{CanCount, CountsFault};
ghost use Rattle.s2_mode.specs.Mode.{n_of, slots_of};
ghost use Rattle.s2_mode.specs.Pieces.{AppendsPart};
ghost use Rattle.s2_bits.specs.Bits.{bit_at, number};
ghost use Rattle.s2_map.specs.Mapping.{place_of};
ghost use Rattle.s2_records.specs.Sent.{GainsOf, GainsPartOf};
ghost use Rattle.s2_records.specs.Vectors.{label_at, labels_of, sent_labels};

use s2_bits::Bits;
use s2_map::place;
use s2_mode::{CountedWrite, Mode, WriteFault, write_full};
use s2_send::SendSink;
use std::alloc::{AllocError, Global};
use std::marker::Model;

/// Bit i of the interleaved codeword.
fn interleaved(mode: Mode, codeword: &Bits, i: usize) -> u8
    requires codeword { length codeword.now ≡ n_of mode }
    requires within { i < n_of mode }
    ensures is { result ≡ number (bit_at codeword.now (place_of mode i)) }
    ensures few { result ≤ 1 }
{
    u8::from(codeword.get(place(mode, i)))
}

/// Two bits of the interleaved codeword from bit i on, the first the higher.
fn two_from(mode: Mode, codeword: &Bits, i: usize) -> u8
    requires codeword { length codeword.now ≡ n_of mode }
    requires within { i + 1 < n_of mode }
    ensures is { result ≡ 2 * number (bit_at codeword.now (place_of mode i)) + number (bit_at codeword.now (place_of mode (i + 1))) }
    ensures few { result ≤ 3 }
{
    2 * interleaved(mode, codeword, i) + interleaved(mode, codeword, i + 1)
}

/// The label of symbol s of a codeword: its two or three interleaved bits, the first the highest.
fn label_at(mode: Mode, codeword: &Bits, s: usize) -> u8
    requires codeword { length codeword.now ≡ n_of mode }
    requires symbol { s < 90 * slots_of mode }
    ensures { result ≡ label_at mode codeword.now s }
{
    if mode.is_qpsk() {
        two_from(mode, codeword, 2 * s)
    } else {
        2 * two_from(mode, codeword, 3 * s) + interleaved(mode, codeword, 3 * s + 2)
    }
}

/// Writes the label of each symbol of a codeword, in the order of the symbols.
fn labels_into(mode: Mode, codeword: &Bits, labels: &mut [u8])
    requires codeword { length codeword.now ≡ n_of mode }
    requires room { length labels.old ≡ 90 * slots_of mode }
    ensures { labels.new ≡ labels_of mode codeword.now }
{
    for s in 0..labels.len() {
        labels[s] = label_at(mode, codeword, s);
    }
}

/// Writes the labels of a codeword of the mode. The buffer has a byte for each symbol of the payload.
fn write_labels<W: CountedWrite>(
    out: &mut W,
    mode: Mode,
    labels: &mut [u8],
    codeword: &Bits,
) -> Result<(), WriteFault>
    requires count { CanCount (W.count out.old) }
    requires room { length labels.old ≡ 90 * slots_of mode }
    ensures bytes { OnOk result (Appends (W.contents out.old) (W.contents out.new) (sent_labels mode codeword.now)) }
    ensures part { OnErr result (AppendsPart (sent_labels mode codeword.now) (W.contents out.old) (W.contents out.new)) }
    ensures cause { CountsFault (W.count out.old) (W.count out.new) result }
{
    if codeword.len() != mode.n() {
        return Ok(());
    }
    labels_into(mode, codeword, labels);
    write_full(out, labels)
}

/// A sink of labels. It writes a byte for each payload symbol of a frame: the label of its constellation point, the two
/// or three bits of the interleaved codeword. In contracts, it is its mode and its writer.
pub struct Labels<W> {
    mode: Mode,
    to: W,
    labels: Vec<u8>,
}

impl<W: Drop> Drop for Labels<W> {
    fn drop(self) {
        let Labels {
            mode: _,
            to: _,
            labels: _,
        } = self;
    }
}

impl<W> Model for Labels<W> {
    ghost use Rattle.std.specs.Prelude.{◌≡◌, ◌*◌, length};
    ghost use Rattle.s2_mode.specs.Mode.{slots_of};
    ghost use Rattle.s2_records.specs.Records.{Framing};

    ghost Value = { Framing W };

    ghost view = { λ l. record { mode = l.mode; to = l.to } };

    ghost invariant = { λ l. length l.labels.items ≡ 90 * slots_of l.mode };
}

impl<W: CountedWrite> Labels<W> {
    /// It writes to this writer, the labels of a codeword of this mode with one write. `AllocError` only if an
    /// allocation was refused.
    pub fn new(alloc: Global, mode: Mode, to: W) -> Result<Labels<W>, AllocError>
    where
        W: Drop,
        ensures { IfOk result (λ l. l ≡ record { mode = mode; to = to }) }
    {
        let labels = vec![in alloc; 0u8; 90 * mode.slots()]?;
        Ok(Labels { mode, to, labels })
    }

    /// Its writer.
    pub fn into_inner(self) -> W
        ensures { result ≡ self.to }
    {
        let Labels {
            mode: _,
            to,
            labels: _,
        } = self;
        to
    }
}

impl<W: CountedWrite> SendSink for Labels<W> {
    ghost takes = { GainsOf W.contents sent_labels };

    ghost fails = { GainsPartOf W.contents sent_labels };

    ghost count = { λ l. W.count l.to };

    fn take(&mut self, codeword: &Bits) -> Result<(), WriteFault> {
        write_labels(&mut self.to, self.mode, &mut self.labels, codeword)
    }
}
