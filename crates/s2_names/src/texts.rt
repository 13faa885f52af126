//! Texts, piece by piece.
ghost use Rattle.std.specs.Prelude.{◌≡◌, ◌++◌, drop, decimal, OnOk};
ghost use Rattle.s2_names.specs.Ideal.{hundredths_text};
ghost use Rattle.s2_names.specs.ModeLines.{millionths_text};

use itoa::Buffer;
use std::alloc::AllocError;

/// Appends words to a text.
pub(crate) fn push(text: &mut Vec<u8>, words: &str) -> Result<(), AllocError>
    ensures { OnOk result (text.new.items ≡ text.old.items ++ words.now) }
{
    text.extend_from_slice(words.as_bytes())
}

/// Appends words and a number to a text.
pub(crate) fn push_number(text: &mut Vec<u8>, words: &str, number: usize) -> Result<(), AllocError>
    ensures { OnOk result (text.new.items ≡ text.old.items ++ (words.now ++ decimal number)) }
{
    push(text, words)?;
    let mut digits = Buffer::new();
    push(text, digits.format(number))
}

/// Appends the digits of a number, except the first one, to a text.
fn push_fraction(text: &mut Vec<u8>, number: usize) -> Result<(), AllocError>
    ensures { OnOk result (text.new.items ≡ text.old.items ++ drop 1 (decimal number)) }
{
    let mut digits = Buffer::new();
    let shown = digits.format(number).as_bytes();
    if shown.is_empty() {
        return Ok(());
    }
    text.extend_from_slice(&shown[1..])
}

/// Appends words and a number of millionths to a text, with six digits after the point.
pub(crate) fn push_millionths(
    text: &mut Vec<u8>,
    words: &str,
    number: usize,
) -> Result<(), AllocError>
    ensures { OnOk result (text.new.items ≡ text.old.items ++ (words.now ++ millionths_text number)) }
{
    push_number(text, words, number / 1_000_000)?;
    push(text, ".")?;
    push_fraction(text, 1_000_000 + number % 1_000_000)
}

/// Appends a number of hundredths to a text, with two digits after the point.
pub(crate) fn push_hundredths(text: &mut Vec<u8>, number: i16) -> Result<(), AllocError>
    ensures { OnOk result (text.new.items ≡ text.old.items ++ hundredths_text number) }
{
    let size = number.unsigned_abs();
    push_number(
        text,
        if number < 0 { "-" } else { "" },
        usize::from(size / 100),
    )?;
    push(text, ".")?;
    push_fraction(text, usize::from(100 + size % 100))
}
