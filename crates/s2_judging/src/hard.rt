//! Value files of hard decisions.
ghost use Rattle.std.specs.Prelude.{◌≡◌, ◌-◌, ◌+◌, ◌<◌, ◌≤◌, ◌∷◌, ◌++◌, ℕ, List, length, vec_len, vec_capacity, IfOk};
ghost use Rattle.s2_rows.specs.Readings.{after, GoesOn};
ghost use Rattle.s2_rows.specs.Text.{is_space, is_line_feed, pieces_of, tokens_of, is_ignored};
ghost use Rattle.s2_rows.specs.Values.{tokens_at, ValuesAnswer};
ghost use Rattle.s2_judging.specs.Hard.{bit_of, bits_of, bits_of_text, text_by};

use s2_rows::{ValueFault, read_values};
use std::alloc::Allocator;

/// A decided bit as a soft value: 1 for the token 0, -1 for the token 1.
fn bit(line: u64, token: &[u8]) -> Result<i16, ValueFault>
    ensures { result ≡ bit_of line token.now }
{
    match token {
        [] => Err(ValueFault::OutOfRange { line }),
        [b] => {
            if *b == b'0' {
                Ok(1)
            } else if *b == b'1' {
                Ok(-1)
            } else {
                Err(ValueFault::OutOfRange { line })
            }
        }
        [_, _, ..] => Err(ValueFault::OutOfRange { line }),
    }
}

/// The first line, and what follows it.
fn cut_line(text: &[u8]) -> (&[u8], &[u8])
    requires { 0 < length text.now }
    ensures pieces { pieces_of is_line_feed text.now ≡ result.0.now ∷ pieces_of is_line_feed result.1.now }
    ensures shorter { length result.1.now < length text.now }
{
    for (at, b) in text.iter().enumerate() {
        if *b == b'\n' {
            return (&text[..at], &text[at + 1..]);
        }
    }
    (text, &[])
}

/// Whether tokens end at this byte.
fn separates(b: u8) -> bool
    ensures { result ≡ is_space b }
{
    b == b' ' || b == b'\t' || b == b'\r'
}

/// The first piece between separators, which may be empty, and what follows it.
fn cut_token(line: &[u8]) -> (&[u8], &[u8])
    requires { 0 < length line.now }
    ensures pieces { pieces_of is_space line.now ≡ result.0.now ∷ pieces_of is_space result.1.now }
    ensures shorter { length result.1.now < length line.now }
{
    for (at, b) in line.iter().enumerate() {
        if separates(*b) {
            return (&line[..at], &line[at + 1..]);
        }
    }
    (line, &[])
}

/// Whether a line is ignored: it has no tokens, or its first token begins with #.
fn is_ignored(line: &[u8]) -> bool
    ensures { result ≡ is_ignored (tokens_of line.now) }
{
    let mut rest = line;
    while !rest.is_empty() {
        let (token, after) = cut_token(rest);
        if !token.is_empty() {
            return token[0] == b'#';
        }
        rest = after;
    }
    true
}

/// Reads the tokens of a line, and adds their values to those before them.
fn read_bit_line<A: Allocator>(
    values: &mut Vec<i16, A>,
    count: usize,
    number: u64,
    line: &[u8],
) -> Result<(), ValueFault>
    requires room { count ≤ vec_capacity values.old }
    requires most { vec_len values.old ≤ count }
    ensures read { (more : List (ℕ × List ℕ)) → GoesOn result
        (after values.old.items (bits_of (count - vec_len values.old) (tokens_at number (tokens_of line.now) ++ more)))
        (after values.new.items (bits_of (count - vec_len values.new) more)) }
    ensures room { count ≤ vec_capacity values.new }
    ensures most { vec_len values.new ≤ count }
{
    if is_ignored(line) {
        return Ok(());
    }
    let mut rest = line;
    while !rest.is_empty() {
        let (token, after) = cut_token(rest);
        if !token.is_empty() {
            if values.len() >= count {
                return Err(ValueFault::TooMany);
            }
            let value = bit(number, token)?;
            values.push(value).unwrap();
        }
        rest = after;
    }
    Ok(())
}

/// The `count` decided bits of a text as soft values, or its first fault in reading order. They are tokens 0 and 1. All
/// else is as in a text of soft values.
pub(crate) fn read_bits<A: Allocator>(
    alloc: A,
    text: &[u8],
    count: usize,
) -> Result<Vec<i16, A>, ValueFault>
    ensures values { ValuesAnswer (λ v. v.items) result (bits_of_text text.now count) }
    ensures long { IfOk result (λ v. length v.items ≡ count) }
{
    let mut values = Vec::with_capacity(alloc, count).map_err(|_| ValueFault::NoMemory)?;
    let mut rest = text;
    let mut number = 1u64;
    while !rest.is_empty() {
        let (line, after) = cut_line(rest);
        read_bit_line(&mut values, count, number, line)?;
        rest = after;
        number += 1;
    }
    if values.len() < count {
        return Err(ValueFault::TooFew);
    }
    Ok(values)
}

/// The values of a text, which has decided bits or soft values.
pub(crate) fn read_text<A: Allocator>(
    alloc: A,
    text: &[u8],
    count: usize,
    hard: bool,
) -> Result<Vec<i16, A>, ValueFault>
    ensures values { ValuesAnswer (λ v. v.items) result (text_by hard text.now count) }
    ensures long { IfOk result (λ v. length v.items ≡ count) }
{
    if hard {
        read_bits(alloc, text, count)
    } else {
        read_values(alloc, text, count)
    }
}
