//! Names of files as they are shown. This is plain code.
use std::alloc::{AllocError, Global};

/// Whether this is a control character, which a terminal may obey.
fn is_control(character: char) -> bool {
    character.is_control()
}

/// Whether a name has a control character.
pub fn has_control(name: &str) -> bool {
    name.chars().any(is_control)
}

/// Appends a character. A control character is escaped.
fn push_shown(text: &mut String, character: char) -> Result<(), AllocError> {
    if !is_control(character) {
        return text.push(character);
    }
    for escaped in character.escape_default() {
        text.push(escaped)?;
    }
    Ok(())
}

/// A name with its control characters escaped.
pub fn shown(alloc: Global, name: &str) -> Result<String, AllocError> {
    let mut text = String::new(alloc);
    for character in name.chars() {
        push_shown(&mut text, character)?;
    }
    Ok(text)
}
