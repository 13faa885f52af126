//! Texts, piece by piece.
ghost use Rattle.std.specs.Prelude.{◌≡◌, ◌++◌, drop, decimal, OnOk};

use itoa::Buffer;
use std::alloc::AllocError;

/// Appends words to a text.
pub(crate) fn push(text: &mut Vec<u8>, words: &str) -> Result<(), AllocError>
    ensures { OnOk result (text.new.items ≡ text.old.items ++ words.now) }
{
    text.extend_from_slice(words.as_bytes())
}

/// Appends words and a number to a text.
pub(crate) fn push_number(text: &mut Vec<u8>, words: &str, number: u64) -> Result<(), AllocError>
    ensures { OnOk result (text.new.items ≡ text.old.items ++ (words.now ++ decimal number)) }
{
    push(text, words)?;
    let mut digits = Buffer::new();
    push(text, digits.format(number))
}

/// Appends words, and the digits of a number after its first one, to a text.
pub(crate) fn push_fraction(text: &mut Vec<u8>, words: &str, number: u64) -> Result<(), AllocError>
    ensures { OnOk result (text.new.items ≡ text.old.items ++ (words.now ++ drop 1 (decimal number))) }
{
    push(text, words)?;
    let mut digits = Buffer::new();
    let shown = digits.format(number).as_bytes();
    if shown.is_empty() {
        return Ok(());
    }
    text.extend_from_slice(&shown[1..])
}
