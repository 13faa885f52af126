//! The words of a value file, byte by byte.
ghost use Rattle.std.specs.Prelude.{◌≡◌, ◌+◌, ◌-◌, ◌*◌, ◌^◌, ◌<◌, ◌≤◌, min, true, false, All, length, vec_len, vec_capacity, IfOk};
ghost use Rattle.std.specs.Option.{option_map};
ghost use Rattle.s2_rows.specs.Numbers.{is_digit};
ghost use Rattle.s2_rows.specs.Text.{is_space};
ghost use Rattle.s2_rows.specs.Values.{signed, in_range};
ghost use Rattle.s2_check.specs.Views.{IsSoft};
ghost use Rattle.s2_judging.specs.Bytewise.{first_byte, then_byte, no_digits, more_digits, bit_at, word_said, after_space, after_letter, after_byte, word_in, word_ended, said_by, AddsWord, AddsWords};

use s2_mode::MAX_SOFT;
use s2_rows::ValueFault;

/// Larger than any soft value. Still larger numbers are read as this one.
const TOO_LARGE: u32 = 1_000_000;

/// A word so far: whether it begins with a minus, the number of bytes after that, at most 2, and the value of these if
/// they are digits.
#[derive(Clone, Copy)]
pub(crate) struct Word {
    minus: bool,
    digits: u8,
    number: Option<u32>,
}

fn is_digit(b: u8) -> bool
    ensures { result ≡ is_digit b }
{
    b >= b'0' && b <= b'9'
}

/// A number with one more digit.
fn with_digit(n: u32, digit: u8) -> u32
    requires { is_digit digit ≡ true }
    ensures { result ≡ min 1000000 (n * 10 + (digit - 48)) }
{
    if n >= TOO_LARGE {
        return TOO_LARGE;
    }
    (n * 10 + u32::from(digit - b'0')).min(TOO_LARGE)
}

/// The number so far, with one more byte.
fn more_digits(number: Option<u32>, b: u8) -> Option<u32>
    ensures { result ≡ more_digits number b }
{
    match number {
        Some(n) if is_digit(b) => Some(with_digit(n, b)),
        _ => None,
    }
}

/// The decided bit of a number of one digit, as a soft value.
fn bit_at(line: u64, number: Option<u32>) -> Result<i16, ValueFault>
    ensures is { result ≡ bit_at line number }
    ensures range { IfOk result IsSoft }
{
    match number {
        Some(0) => Ok(1),
        Some(1) => Ok(-1),
        _ => Err(ValueFault::OutOfRange { line }),
    }
}

/// The value of a number with this sign.
fn in_range(line: u64, minus: bool, number: Option<u32>) -> Result<i16, ValueFault>
    ensures is { result ≡ in_range line (option_map (signed minus) number) }
    ensures range { IfOk result IsSoft }
{
    match number {
        None => Err(ValueFault::NotNumber { line }),
        Some(n) if n > u32::from(MAX_SOFT) => Err(ValueFault::OutOfRange { line }),
        Some(n) if minus => Ok(-(n as i16)),
        Some(n) => Ok(n as i16),
    }
}

impl Word {
    /// A word without digits.
    fn empty(minus: bool) -> Word
        ensures { result ≡ no_digits minus }
    {
        Word {
            minus,
            digits: 0,
            number: Some(0),
        }
    }

    /// A word that begins with this byte.
    fn first(b: u8) -> Word
        ensures { result ≡ first_byte b }
    {
        if b == b'-' {
            Word::empty(true)
        } else {
            Word::empty(false).then(b)
        }
    }

    /// The word with one more byte.
    fn then(self, b: u8) -> Word
        ensures { result ≡ then_byte self b }
    {
        Word {
            minus: self.minus,
            digits: if self.digits < 2 { self.digits + 1 } else { 2 },
            number: more_digits(self.number, b),
        }
    }

    /// What a word of this line says, as a decided bit.
    fn bit(self, line: u64) -> Result<i16, ValueFault>
        ensures is { result ≡ word_said true line self }
        ensures range { IfOk result IsSoft }
    {
        if self.minus || self.digits != 1 {
            return Err(ValueFault::OutOfRange { line });
        }
        bit_at(line, self.number)
    }

    /// What a word of this line says, as a soft value.
    fn value(self, line: u64) -> Result<i16, ValueFault>
        ensures is { result ≡ word_said false line self }
        ensures range { IfOk result IsSoft }
    {
        let number = if self.digits == 0 { None } else { self.number };
        in_range(line, self.minus, number)
    }

    /// What a word of this line says.
    fn said(self, hard: bool, line: u64) -> Result<i16, ValueFault>
        ensures is { result ≡ word_said hard line self }
        ensures range { IfOk result IsSoft }
    {
        if hard {
            self.bit(line)
        } else {
            self.value(line)
        }
    }
}

/// How a text continues.
#[derive(Clone, Copy)]
pub(crate) enum Place {
    /// Before the first word of a line.
    Start,
    /// In a line that is ignored.
    Comment,
    /// After a word of a line.
    Between,
    /// In a word.
    Inside(Word),
}

impl Place {
    /// The place after a separator.
    fn after_space(self) -> Place
        ensures { result ≡ after_space self }
    {
        match self {
            Place::Inside(_) => Place::Between,
            other => other,
        }
    }

    /// The place after any other byte of a line.
    fn after_letter(self, b: u8) -> Place
        ensures { result ≡ after_letter self b }
    {
        match self {
            Place::Start if b == b'#' => Place::Comment,
            Place::Start | Place::Between => Place::Inside(Word::first(b)),
            Place::Comment => Place::Comment,
            Place::Inside(word) => Place::Inside(word.then(b)),
        }
    }

    /// The word at this place.
    pub(crate) fn word(self) -> Option<Word>
        ensures { result ≡ word_in self }
    {
        match self {
            Place::Inside(word) => Some(word),
            _ => None,
        }
    }
}

/// A place in a text, and its line. Lines count from 1.
#[derive(Clone, Copy)]
pub(crate) struct Position {
    pub(crate) line: u64,
    pub(crate) place: Place,
}

/// Whether words end at this byte, which is no LF.
fn is_space(b: u8) -> bool
    ensures { result ≡ is_space b }
{
    b == b' ' || b == b'\t' || b == b'\r'
}

impl Position {
    /// The position after a byte.
    fn after(self, b: u8) -> Position
        requires { self.line + 1 < 2 ^ 64 }
        ensures { result ≡ after_byte self b }
    {
        if b == b'\n' {
            return Position {
                line: self.line + 1,
                place: Place::Start,
            };
        }
        let place = if is_space(b) {
            self.place.after_space()
        } else {
            self.place.after_letter(b)
        };
        Position {
            line: self.line,
            place,
        }
    }

    /// The word that ends at this byte.
    fn ended(self, b: u8) -> Option<Word>
        ensures { result ≡ word_ended self.place b }
    {
        if b == b'\n' || is_space(b) {
            self.place.word()
        } else {
            None
        }
    }
}

/// Adds the value of a word, if there is one.
pub(crate) fn add_word(
    values: &mut Vec<i16>,
    hard: bool,
    line: u64,
    word: Option<Word>,
) -> Result<(), ValueFault>
    requires room { vec_len values.old < vec_capacity values.old }
    requires range { All IsSoft values.old.items }
    ensures added { AddsWord (said_by hard line word) values.old.items values.new.items result }
    ensures few { vec_len values.new ≤ vec_len values.old + 1 }
    ensures room { vec_capacity values.old ≤ vec_capacity values.new }
    ensures range { All IsSoft values.new.items }
{
    if let Some(word) = word {
        let value = word.said(hard, line)?;
        values.push(value).unwrap();
    }
    Ok(())
}

/// Reads on in bytes, and adds the values of their words, until there are `count` values or no more bytes. Returns how
/// many bytes were read, and the position after them.
pub(crate) fn add_words(
    values: &mut Vec<i16>,
    count: usize,
    hard: bool,
    from: Position,
    bytes: &[u8],
) -> Result<(usize, Position), ValueFault>
    requires room { count ≤ vec_capacity values.old }
    requires most { vec_len values.old ≤ count }
    requires range { All IsSoft values.old.items }
    requires lines { from.line + length bytes.now < 2 ^ 64 }
    ensures added { AddsWords hard count from bytes.now values.old.items values.new.items result }
    ensures used { IfOk result (λ r. r.0 ≤ length bytes.now) }
    ensures all { IfOk result (λ r. r.0 < length bytes.now → vec_len values.new ≡ count) }
    ensures lines { IfOk result (λ r. r.1.line ≤ from.line + r.0) }
    ensures room { count ≤ vec_capacity values.new }
    ensures most { vec_len values.new ≤ count }
    ensures range { All IsSoft values.new.items }
{
    let mut position = from;
    for (at, b) in bytes.iter().enumerate() {
        if values.len() >= count {
            return Ok((at, position));
        }
        add_word(values, hard, position.line, position.ended(*b))?;
        position = position.after(*b);
    }
    Ok((bytes.len(), position))
}
