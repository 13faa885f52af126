//! From a BCH word to the BBHEADER and the data field of its message (a BBFRAME): the inverse of EN 302 307-1, 5.1 and
//! 5.2.
ghost use Rattle.std.specs.Prelude.{◌≡◌, ◌/◌, ◌≤◌, length, take, IfOk, IfSome, true};
ghost use Rattle.s2_mode.specs.Mode.{kbch_of, k_of};
ghost use Rattle.s2_bbframe.specs.DataStream.{field_bytes};
ghost use Rattle.s2_bbframe.specs.Headers.{header_of_bytes, has_valid_lengths};
ghost use Rattle.s2_scramble.specs.Baseband.{scrambled};
ghost use Rattle.s2_receive.specs.Decider.{delivered_of, HasPlace};
ghost use Rattle.s2_message.specs.Decisions.{message_of, header_in, field_in};
ghost use Rattle.s2_message.specs.Reading.{Reads};

use s2_bbframe::{Header, HeaderFault, field_bytes};
use s2_bits::{Bits, bytes_from};
use s2_mode::Mode;
use s2_report::Outcome;
use s2_scramble::bb_xor_in_place;
use std::alloc::{AllocError, Global};
use std::marker::Model;

/// Descrambles the message of a BCH word, reads its header, and takes out its data field.
fn read_message(
    mode: Mode,
    bch_word: &Bits,
    frame: &mut Bits,
    field: &mut [u8],
) -> Result<Header, HeaderFault>
    requires bch_word { length bch_word.now ≡ k_of mode }
    requires frame { length frame.old ≡ kbch_of mode }
    requires field { length field.old ≡ field_bytes mode }
    ensures header { result ≡ header_of_bytes mode (header_in (scrambled (message_of mode bch_word.now))) }
    ensures field { IfOk result (λ h. take (h.dfl / 8) field.new ≡ field_in h (scrambled (message_of mode bch_word.now))) }
    ensures valid { IfOk result (λ h. has_valid_lengths mode h ≡ true) }
    ensures room { IfOk result (λ h. h.dfl / 8 ≤ length field.new) }
    ensures frame { length frame.new ≡ kbch_of mode }
{
    frame.copy_prefix(bch_word, mode.kbch());
    bb_xor_in_place(frame);
    let bits = frame.truths();
    let mut bytes = [0u8; 10];
    bytes_from(bits, 0, 10, &mut bytes);
    match Header::read(&bytes, mode) {
        Ok(header) => {
            let filled = usize::from(header.dfl / 8);
            bytes_from(bits, 10, filled, field);
            Ok(header)
        }
        Err(fault) => Err(fault),
    }
}

/// The same. It also sets the number of bytes of the data field.
fn read_into(
    mode: Mode,
    bch_word: &Bits,
    frame: &mut Bits,
    field: &mut [u8],
    filled: &mut usize,
) -> Result<Header, HeaderFault>
    requires bch_word { length bch_word.now ≡ k_of mode }
    requires frame { length frame.old ≡ kbch_of mode }
    requires field { length field.old ≡ field_bytes mode }
    requires filled { filled.old ≤ length field.old }
    ensures header { result ≡ header_of_bytes mode (header_in (scrambled (message_of mode bch_word.now))) }
    ensures field { IfOk result (λ h. take filled.new field.new ≡ field_in h (scrambled (message_of mode bch_word.now))) }
    ensures place { IfOk result (HasPlace (take filled.new field.new)) }
    ensures frame { length frame.new ≡ kbch_of mode }
    ensures filled { filled.new ≤ length field.new }
{
    match read_message(mode, bch_word, frame, field) {
        Ok(header) => {
            *filled = usize::from(header.dfl / 8);
            Ok(header)
        }
        Err(fault) => Err(fault),
    }
}

/// Reads the messages of BCH words. In contracts, it is its mode, and the data field that it took out last.
pub(crate) struct MessageReader {
    mode: Mode,
    frame: Bits,
    field: Vec<u8>,
    filled: usize,
}

impl Drop for MessageReader {
    fn drop(self) {
        let MessageReader {
            mode: _,
            frame: _,
            field: _,
            filled: _,
        } = self;
    }
}

impl Model for MessageReader {
    ghost use Rattle.std.specs.Prelude.{◌≡◌, ◌≤◌, length, take};
    ghost use Rattle.s2_mode.specs.Mode.{kbch_of};
    ghost use Rattle.s2_bbframe.specs.DataStream.{field_bytes};
    ghost use Rattle.s2_message.specs.Reading.{Reading};

    ghost Value = { Reading };

    ghost view = { λ r. record { mode = r.mode; field = take r.filled r.field.items } };

    ghost invariant = { λ r. (length r.frame ≡ kbch_of r.mode) × (length r.field.items ≡ field_bytes r.mode) × (r.filled ≤ length r.field.items) };
}

impl MessageReader {
    /// The reader of a mode's messages.
    pub(crate) fn new(alloc: Global, mode: Mode) -> Result<MessageReader, AllocError>
        ensures { IfOk result (λ r. r.mode ≡ mode) }
    {
        Ok(MessageReader {
            mode,
            frame: Bits::zeroed(alloc, mode.kbch())?,
            field: vec![in alloc; 0u8; field_bytes(mode)]?,
            filled: 0,
        })
    }

    /// The header of a BCH word's message, or why it is refused. The data field of a header that is accepted is
    /// taken out.
    fn read(&mut self, bch_word: &Bits) -> Result<Header, HeaderFault>
        requires bch_word { length bch_word.now ≡ k_of self.old.mode }
        ensures mode { self.new.mode ≡ self.old.mode }
        ensures header { result ≡ header_of_bytes self.old.mode (header_in (scrambled (message_of self.old.mode bch_word.now))) }
        ensures field { IfOk result (λ h. self.new.field ≡ field_in h (scrambled (message_of self.old.mode bch_word.now))) }
        ensures place { IfOk result (HasPlace self.new.field) }
    {
        read_into(
            self.mode,
            bch_word,
            &mut self.frame,
            &mut self.field,
            &mut self.filled,
        )
    }

    /// The outcome of decided bits after BCH decoding left this word, and the header if it is accepted.
    pub(crate) fn read_outcome(
        &mut self,
        found: Option<u32>,
        bch_word: &Bits,
    ) -> (Outcome, Option<Header>)
        requires bch_word { length bch_word.now ≡ k_of self.old.mode }
        ensures mode { self.new.mode ≡ self.old.mode }
        ensures reads { Reads self.old.mode bch_word.now found result.0 (delivered_of result.1 self.new.field) }
        ensures place { IfSome result.1 (HasPlace self.new.field) }
    {
        let Some(fixed) = found else {
            return (Outcome::NoWord, None);
        };
        match self.read(bch_word) {
            Ok(header) => (Outcome::Delivered { fixed }, Some(header)),
            Err(fault) => (Outcome::BadHeader(fault), None),
        }
    }

    /// The data field that was taken out last.
    pub(crate) fn field(&self) -> &[u8]
        ensures { result.now ≡ self.now.field }
    {
        &self.field[..self.filled]
    }
}
