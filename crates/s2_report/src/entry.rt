//! What a line of a report says to a reader.
ghost use Rattle.std.specs.Prelude.{◌≡◌, ◌<◌, ◌∷◌, [], IfSome, IfNone, length};
ghost use Rattle.s2_rows.specs.Text.{pieces_of};
ghost use Rattle.s2_report.specs.Entries.{entry_in, entry_of, first_number, frame_of, frame_with, is_blank, is_text, number_in, rounds_in, verdict_in, words_of, IsSmall, IsSmallEntry};

use crate::limits::MAX_LINE_BYTES;
use crate::number::read_number;
use s2_check::Verdict;

/// A frame of a report: its number, the symbol at which it begins, and its verdict.
#[derive(Clone, Copy)]
pub struct Frame {
    pub number: u64,
    pub at: u64,
    pub verdict: Verdict,
}

/// The content of a report line.
#[derive(Clone, Copy)]
pub enum Entry {
    Frame(Frame),
    /// The line of a cut frame, or the last line.
    Other,
}

/// The first word of a line that is not empty, and what follows it.
fn cut_word(line: &[u8]) -> (&[u8], &[u8])
    requires { 0 < length line.now }
    ensures { pieces_of is_blank line.now ≡ result.0.now ∷ pieces_of is_blank result.1.now }
{
    'bytes: for (at, b) in line.iter().enumerate() {
        if *b == b' ' {
            return (&line[..at], &line[at + 1..]);
        }
    }
    (line, &[])
}

/// The first word of a line, and what follows it. `None` if the line is empty.
fn first_word(line: &[u8]) -> Option<(&[u8], &[u8])>
    ensures none { IfNone result (words_of line.now ≡ []) }
    ensures some { IfSome result (λ cut. words_of line.now ≡ cut.0.now ∷ words_of cut.1.now) }
{
    if line.is_empty() {
        return None;
    }
    Some(cut_word(line))
}

/// Whether a word is this text.
fn is_text(word: &[u8], text: &str) -> bool
    ensures { result ≡ is_text word.now text.now }
{
    word == text.as_bytes()
}

/// The verdict that a word names.
fn read_verdict(word: &[u8]) -> Option<Verdict>
    ensures { result ≡ verdict_in word.now }
{
    if is_text(word, Verdict::Sole.word()) {
        Some(Verdict::Sole)
    } else if is_text(word, Verdict::MostLikely.word()) {
        Some(Verdict::MostLikely)
    } else if is_text(word, Verdict::Parity.word()) {
        Some(Verdict::Parity)
    } else if is_text(word, Verdict::Broken.word()) {
        Some(Verdict::Broken)
    } else {
        None
    }
}

/// The frame of a number, a symbol and a verdict, if each is one.
fn frame_with(number: &[u8], symbol: &[u8], verdict: &[u8]) -> Option<Frame>
    ensures is { result ≡ frame_with (number_in number.now) (number_in symbol.now) (verdict_in verdict.now) }
    ensures small { IfSome result IsSmall }
{
    let Some(number) = read_number(number) else {
        return None;
    };
    let Some(at) = read_number(symbol) else {
        return None;
    };
    let Some(verdict) = read_verdict(verdict) else {
        return None;
    };
    Some(Frame {
        number,
        at,
        verdict,
    })
}

/// The frame of the words after `frame`.
fn frame_of(line: &[u8]) -> Option<Frame>
    ensures is { result ≡ frame_of (words_of line.now) }
    ensures small { IfSome result IsSmall }
{
    let Some((number, rest)) = first_word(line) else {
        return None;
    };
    let Some((at, rest)) = first_word(rest) else {
        return None;
    };
    let Some((symbol, rest)) = first_word(rest) else {
        return None;
    };
    let Some((verdict, _)) = first_word(rest) else {
        return None;
    };
    if !is_text(at, "at") {
        return None;
    }
    frame_with(number, symbol, verdict)
}

/// Parses a line.
fn entry_of(line: &[u8]) -> Option<Entry>
    ensures is { result ≡ entry_of (words_of line.now) }
    ensures small { IfSome result IsSmallEntry }
{
    let Some((word, rest)) = first_word(line) else {
        return None;
    };
    if is_text(word, "frame") {
        return match frame_of(rest) {
            Some(frame) => Some(Entry::Frame(frame)),
            None => None,
        };
    }
    if is_text(word, "cut") || is_text(word, "end") {
        return Some(Entry::Other);
    }
    None
}

/// What a line says, without its LF. `None` if it is unreadable: it is longer than [`crate::MAX_LINE_BYTES`], its first word is
/// none of `frame`, `cut` and `end`, or `frame` is not followed by a number, `at`, a number and a verdict. The numbers must be
/// below 2^40. Words after these are not read.
pub fn read_entry(line: &[u8]) -> Option<Entry>
    ensures is { result ≡ entry_in line.now }
    ensures small { IfSome result IsSmallEntry }
{
    if line.len() > MAX_LINE_BYTES {
        return None;
    }
    entry_of(line)
}

/// The number that the first word of a line says, if it is below 2^32; else 0.
fn first_number(line: &[u8]) -> u32
    ensures { result ≡ first_number (words_of line.now) }
{
    let Some((word, _)) = first_word(line) else {
        return 0;
    };
    match read_number(word) {
        Some(number) if number <= u64::from(u32::MAX) => number as u32,
        _ => 0,
    }
}

/// The number of rounds of min-sum that the line of a frame with figures says: the number after the word `rounds`. 0 if there is none
/// below 2^32.
pub fn read_rounds(line: &[u8]) -> u32
    ensures { result ≡ rounds_in (words_of line.now) }
{
    let mut rest = line;
    'words: while let Some((word, more)) = first_word(rest) {
        if is_text(word, "rounds") {
            return first_number(more);
        }
        rest = more;
    }
    0
}
