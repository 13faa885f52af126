//! The frames of a value file, one after another, in the memory of one.
ghost use Rattle.std.specs.Prelude.{◌≡◌, ◌≢◌, ◌+◌, ◌<◌, ◌≤◌, ◌++◌, All, Ok, Err, true, codes, IfOk, OnOk, length, vec_len, vec_capacity};
ghost use Rattle.s2_mode.specs.Counts.{CanCount};
ghost use Rattle.s2_rows.specs.FaultTexts.{value_fault_text};
ghost use Rattle.s2_check.specs.Views.{IsSoft};
ghost use Rattle.s2_judging.specs.Bytewise.{at_start, pending, pending_in, whole_of, IsReading, IsFrames, Spends, ReadsMore, AddsBuffered, EndsFrame, TakesFrame};

use crate::words::{Place, Position, add_word, add_words};
use s2_io::Fault;
use s2_mode::CountedRead;
use s2_rows::ValueFault;
use std::alloc::{AllocError, Global};

/// The bytes of the buffer.
const CHUNK: usize = 4096;

/// The maximum length in bytes of a value file that is read frame by frame.
const MAX_TEXT: u64 = 281_474_976_710_656;

/// The state of reading a value file: the position in its text, the unread bytes of the buffer, and how many more
/// may follow these.
#[derive(Clone, Copy)]
pub(crate) struct Reading {
    position: Position,
    at: usize,
    end: usize,
    left: u64,
}

/// The start of a value file.
fn start() -> Reading
    ensures { result ≡ at_start }
{
    Reading {
        position: Position {
            line: 1,
            place: Place::Start,
        },
        at: 0,
        end: 0,
        left: MAX_TEXT,
    }
}

/// The command's fault for a refused word.
fn value_fault(fault: ValueFault) -> Fault<'static>
    ensures { result ≡ Fault.Refused (codes "values: " ++ value_fault_text fault) }
{
    Fault::about("values: ", fault.text())
}

/// Fills the buffer, which is read. `None` at the end of the file.
fn read_more<R: CountedRead>(
    reader: &mut R,
    reading: Reading,
    buffer: &mut [u8],
) -> Result<Option<Reading>, Fault<'static>>
    requires count { CanCount (R.count reader.old) }
    requires reading { IsReading reading buffer.old }
    requires used { reading.at ≡ reading.end }
    ensures room { length buffer.new ≡ length buffer.old }
    ensures more { ReadsMore reading buffer.old buffer.new (R.remaining reader.old) (R.remaining reader.new) result }
    ensures read { result ≡ Err Fault.Read → R.count reader.new ≡ R.count reader.old + 1 }
    ensures no_other { result ≢ Err Fault.Read → R.count reader.new ≡ R.count reader.old }
{
    let Ok(count) = reader.read(buffer) else {
        return Err(Fault::Read);
    };
    if count == 0 {
        return Ok(None);
    }
    if count as u64 > reading.left {
        return Err(Fault::TooLong);
    }
    Ok(Some(Reading {
        position: reading.position,
        at: 0,
        end: count,
        left: reading.left - count as u64,
    }))
}

/// Adds the values of the words in the buffer, until there are `count`.
fn add_buffered(
    values: &mut Vec<i16>,
    count: usize,
    hard: bool,
    reading: Reading,
    buffer: &[u8],
) -> Result<Reading, Fault<'static>>
    requires room { count ≤ vec_capacity values.old }
    requires most { vec_len values.old ≤ count }
    requires range { All IsSoft values.old.items }
    requires reading { IsReading reading buffer.now }
    ensures added { AddsBuffered hard count reading buffer.now values.old.items values.new.items result }
    ensures reading { IfOk result (λ next. IsReading next buffer.now) }
    ensures left { IfOk result (λ next. next.left ≡ reading.left) }
    ensures all { IfOk result (λ next. vec_len values.new ≢ count → next.at ≡ next.end) }
    ensures room { count ≤ vec_capacity values.new }
    ensures most { vec_len values.new ≤ count }
    ensures range { All IsSoft values.new.items }
{
    let bytes = &buffer[..reading.end];
    match add_words(values, count, hard, reading.position, &bytes[reading.at..]) {
        Ok((used, position)) => Ok(Reading {
            position,
            at: reading.at + used,
            end: reading.end,
            left: reading.left,
        }),
        Err(fault) => Err(value_fault(fault)),
    }
}

/// Whether there are all values of a frame, at the end of a file. `false` if there is none.
fn is_whole(values: &[i16], count: usize) -> Result<bool, Fault<'static>>
    ensures { result ≡ whole_of count (length values.now) }
{
    if values.len() == count {
        Ok(true)
    } else if values.len() == 0 {
        Ok(false)
    } else {
        Err(value_fault(ValueFault::TooFew))
    }
}

/// Ends the last word of a file. Returns whether it ends with a whole frame.
fn end_frame(
    values: &mut Vec<i16>,
    count: usize,
    hard: bool,
    position: Position,
) -> Result<bool, Fault<'static>>
    requires room { count ≤ vec_capacity values.old }
    requires most { vec_len values.old < count }
    requires range { All IsSoft values.old.items }
    ensures ends { EndsFrame hard count position values.old.items values.new.items result }
    ensures room { count ≤ vec_capacity values.new }
    ensures range { All IsSoft values.new.items }
{
    match add_word(values, hard, position.line, position.place.word()) {
        Ok(()) => is_whole(values, count),
        Err(fault) => Err(value_fault(fault)),
    }
}

/// The position after the last word of a file.
fn ended(reading: Reading) -> Reading
    ensures { result ≡ record reading { position = record { line = reading.position.line; place = Place.Start } } }
{
    Reading {
        position: Position {
            line: reading.position.line,
            place: Place::Start,
        },
        at: reading.at,
        end: reading.end,
        left: reading.left,
    }
}

/// Reads the values of the next frame. `false` if there is none.
fn read_frame<R: CountedRead>(
    reader: &mut R,
    values: &mut Vec<i16>,
    count: usize,
    hard: bool,
    reading: &mut Reading,
    buffer: &mut [u8],
) -> Result<bool, Fault<'static>>
    requires count { CanCount (R.count reader.old) }
    requires room { count ≤ vec_capacity values.old }
    requires reading { IsReading reading.old buffer.old }
    ensures takes { TakesFrame count (pending hard reading.old buffer.old (R.remaining reader.old)) (pending hard reading.new buffer.new (R.remaining reader.new))
        values.new.items (R.remaining reader.old) reading.old.left result }
    ensures long { result ≡ Ok true → length values.new.items ≡ count }
    ensures reading { OnOk result (IsReading reading.new buffer.new) }
    ensures spends { OnOk result (Spends (R.remaining reader.old) reading.old.left (R.remaining reader.new) reading.new.left) }
    ensures room { count ≤ vec_capacity values.new }
    ensures range { All IsSoft values.new.items }
    ensures buffer { length buffer.new ≡ length buffer.old }
    ensures read { result ≡ Err Fault.Read → R.count reader.new ≡ R.count reader.old + 1 }
    ensures no_other { result ≢ Err Fault.Read → R.count reader.new ≡ R.count reader.old }
{
    values.clear();
    'chunks: loop {
        let here = add_buffered(values, count, hard, *reading, buffer)?;
        if values.len() == count {
            *reading = here;
            return Ok(true);
        }
        let more = read_more(reader, here, buffer)?;
        match more {
            Some(next) => *reading = next,
            None => {
                *reading = ended(here);
                return end_frame(values, count, hard, here.position);
            }
        }
    }
}

/// Memory for a frame of a value file, and the state of reading the file.
pub(crate) struct Frames {
    hard: bool,
    count: usize,
    values: Vec<i16>,
    reading: Reading,
    buffer: Vec<u8>,
}

impl Drop for Frames {
    fn drop(self) {
        let Frames {
            hard: _,
            count: _,
            values: _,
            reading: _,
            buffer: _,
        } = self;
    }
}

impl Frames {
    /// At the start of a file, with frames of `count` values.
    pub(crate) fn new(alloc: Global, hard: bool, count: usize) -> Result<Frames, AllocError>
        ensures is { IfOk result IsFrames }
        ensures parts { IfOk result (λ f. (f.hard ≡ hard) × (f.count ≡ count)) }
        ensures start { IfOk result (λ f. f.reading ≡ at_start) }
    {
        let values = Vec::with_capacity(alloc, count)?;
        let buffer = vec![in alloc; 0u8; CHUNK]?;
        Ok(Frames {
            hard,
            count,
            values,
            reading: start(),
            buffer,
        })
    }

    /// Reads the next frame. `false` if there is none.
    pub(crate) fn read<R: CountedRead>(&mut self, reader: &mut R) -> Result<bool, Fault<'static>>
        requires count { CanCount (R.count reader.old) }
        requires is { IsFrames self.old }
        ensures takes { TakesFrame self.old.count (pending_in self.old (R.remaining reader.old)) (pending_in self.new (R.remaining reader.new))
            self.new.values.items (R.remaining reader.old) self.old.reading.left result }
        ensures long { result ≡ Ok true → length self.new.values.items ≡ self.old.count }
        ensures range { All IsSoft self.new.values.items }
        ensures is { OnOk result (IsFrames self.new) }
        ensures same { (self.new.hard ≡ self.old.hard) × (self.new.count ≡ self.old.count) }
        ensures spends { OnOk result (Spends (R.remaining reader.old) self.old.reading.left (R.remaining reader.new) self.new.reading.left) }
        ensures read { result ≡ Err Fault.Read → R.count reader.new ≡ R.count reader.old + 1 }
        ensures no_other { result ≢ Err Fault.Read → R.count reader.new ≡ R.count reader.old }
    {
        read_frame(
            reader,
            &mut self.values,
            self.count,
            self.hard,
            &mut self.reading,
            &mut self.buffer,
        )
    }

    /// The values of the frame that was read.
    pub(crate) fn values(&self) -> &[i16]
        ensures { result.now ≡ self.now.values.items }
    {
        &self.values
    }
}
