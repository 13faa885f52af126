//! Names as words of a shell.
ghost use Rattle.std.specs.Prelude.{◌≡◌, ◌++◌, OnOk};
ghost use Rattle.s2_scan.specs.Lines as lines;

use crate::texts::push;
use std::alloc::AllocError;

/// Whether a byte is between two others, or one of them.
fn is_between(least: u8, most: u8, byte: u8) -> bool
    ensures { result ≡ lines.is_between least most byte }
{
    least <= byte && byte <= most
}

/// Whether a byte of a name needs no quotes: a letter, a digit, or one of `%+,-./:=@_`.
fn is_plain(byte: u8) -> bool
    ensures { result ≡ lines.is_plain byte }
{
    is_between(b'+', b':', byte)
        || is_between(b'@', b'Z', byte)
        || is_between(b'a', b'z', byte)
        || byte == b'%'
        || byte == b'='
        || byte == b'_'
}

/// Whether a name needs no quotes.
fn are_plain(name: &[u8]) -> bool
    ensures { result ≡ lines.are_plain name.now }
{
    for k in 0..name.len() {
        if !is_plain(name[k]) {
            return false;
        }
    }
    true
}

/// Appends a byte between quotes to a text.
fn push_byte(text: &mut Vec<u8>, byte: u8) -> Result<(), AllocError>
    ensures { OnOk result (text.new.items ≡ text.old.items ++ lines.quoted_byte byte) }
{
    if byte == b'\'' {
        push(text, "'\\''")
    } else {
        text.extend_from_slice(&[byte])
    }
}

/// Appends bytes between quotes to a text.
fn push_bytes(text: &mut Vec<u8>, name: &[u8]) -> Result<(), AllocError>
    ensures { OnOk result (text.new.items ≡ text.old.items ++ lines.quoted_bytes name.now) }
{
    for k in 0..name.len() {
        push_byte(text, name[k])?;
    }
    Ok(())
}

/// Appends a name to a text, between single quotes if it needs them.
#[tactic(auto, unfolding(crate::specs::Lines::shell_word))]
pub fn push_name(text: &mut Vec<u8>, name: &str) -> Result<(), AllocError>
    ensures { OnOk result (text.new.items ≡ text.old.items ++ lines.shell_word name.now) }
{
    if are_plain(name.as_bytes()) {
        return push(text, name);
    }
    push(text, "'")?;
    push_bytes(text, name.as_bytes())?;
    push(text, "'")
}

/// Appends words, a name as a word of a shell, and more words to a text.
pub(crate) fn push_word(
    text: &mut Vec<u8>,
    before: &str,
    name: &str,
    after: &str,
) -> Result<(), AllocError>
    ensures { OnOk result (text.new.items ≡ text.old.items ++ (before.now ++ (lines.shell_word name.now ++ after.now))) }
{
    push(text, before)?;
    push_name(text, name)?;
    push(text, after)
}
