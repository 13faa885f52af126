//! The soft values of frames.
ghost use Rattle.std.specs.Prelude.{◌≡◌, ◌++◌, ℕ, List, IfOk, OnOk, OnErr};
ghost use Rattle.std.specs.Fmt.{signed_decimal};
ghost use Rattle.std.specs.Io.KnownBytes.{Appends};
ghost use Rattle.s2_mode.specs.Counts.{CanCount, CountsFault};
ghost use Rattle.s2_mode.specs.Pieces.{AppendsPart};
ghost use Rattle.s2_certfile.specs.Pages.{PutsThrough};
ghost use Rattle.s2_records.specs.Records.{Gains, GainsPart, values_record};
ghost use Rattle.s2_records.specs.Values.{after_value, values_line};

use crate::block::{flush, put};
use itoa::Buffer;
use s2_mode::{CountedWrite, Mode, WriteFault};
use s2_receive::{Frame, FrameStart, Sink};
use std::alloc::{AllocError, Global};
use std::marker::Model;

/// The maximum length of a soft value with its separator, in bytes: a minus, three digits and a separator.
const VALUE_BYTES: usize = 5;

/// What follows a value, before these others.
fn after_value(others: &[i16]) -> &'static [u8]
    ensures { result.now ≡ after_value others.now }
{
    if others.is_empty() { b"\n" } else { b" " }
}

/// Puts a value into the block, and what follows it.
fn put_value<W: CountedWrite>(
    out: &mut W,
    block: &mut Vec<u8>,
    value: i16,
    after: &[u8],
) -> Result<(), WriteFault>
    requires { CanCount (W.count out.old) }
    ensures bytes { PutsThrough (signed_decimal value ++ after.now) (W.contents out.old) (W.contents out.new) block.old.items block.new.items result }
    ensures cause { CountsFault (W.count out.old) (W.count out.new) result }
{
    let mut digits = Buffer::new();
    put(out, block, digits.format(value).as_bytes())?;
    put(out, block, after)
}

/// Puts the line of values into the block, value by value.
fn put_values<W: CountedWrite>(
    out: &mut W,
    block: &mut Vec<u8>,
    values: &[i16],
) -> Result<(), WriteFault>
    requires { CanCount (W.count out.old) }
    ensures bytes { PutsThrough (values_line values.now) (W.contents out.old) (W.contents out.new) block.old.items block.new.items result }
    ensures cause { CountsFault (W.count out.old) (W.count out.new) result }
{
    for (at, value) in values.iter().enumerate() {
        put_value(out, block, *value, after_value(&values[at + 1..]))?;
    }
    Ok(())
}

/// Writes the line of values. It is one write if the block has room for it.
fn write_values<W: CountedWrite>(
    out: &mut W,
    block: &mut Vec<u8>,
    values: &[i16],
) -> Result<(), WriteFault>
    requires { CanCount (W.count out.old) }
    ensures bytes { OnOk result (Appends (W.contents out.old) (W.contents out.new) (values_line values.now)) }
    ensures part { OnErr result (AppendsPart (values_line values.now) (W.contents out.old) (W.contents out.new)) }
    ensures cause { CountsFault (W.count out.old) (W.count out.new) result }
{
    block.clear();
    put_values(out, block, values)?;
    flush(out, block)
}

/// A sink of soft values. It writes the soft values of each frame on a line, as a value file has them. In contracts, it
/// is its writer.
pub struct Values<W> {
    to: W,
    block: Vec<u8>,
}

impl<W: Drop> Drop for Values<W> {
    fn drop(self) {
        let Values { to: _, block: _ } = self;
    }
}

impl<W> Model for Values<W> {
    ghost Value = { W };

    ghost view = { λ v. v.to };
}

impl<W: CountedWrite> Values<W> {
    /// It writes to this writer, the line of a frame of this mode with one write. `AllocError` only if an allocation
    /// was refused.
    pub fn new(alloc: Global, mode: Mode, to: W) -> Result<Values<W>, AllocError>
    where
        W: Drop,
        ensures { IfOk result (λ v. v ≡ to) }
    {
        let block = Vec::with_capacity(alloc, VALUE_BYTES * mode.n())?;
        Ok(Values { to, block })
    }

    /// Its writer.
    pub fn into_inner(self) -> W
        ensures { result ≡ self }
    {
        let Values { to, block: _ } = self;
        to
    }
}

impl<W: CountedWrite> Sink for Values<W> {
    ghost takes = { Gains W.contents values_record };

    ghost fails = { GainsPart W.contents values_record };

    ghost count = { W.count };

    fn take(&mut self, _start: FrameStart, frame: &Frame<'_>) -> Result<(), WriteFault> {
        write_values(&mut self.to, &mut self.block, frame.soft)
    }
}
