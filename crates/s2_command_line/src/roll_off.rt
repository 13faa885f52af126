//! Reads a roll-off from the command line.
use s2_words::limits::MAX_ROLL_OFF;

/// The number of a roll-off, or None if there is no such roll-off.
pub(crate) fn read_roll_off(text: &str) -> Option<u8> {
    match text.parse::<u8>() {
        Ok(number) if number <= MAX_ROLL_OFF => Some(number),
        _ => None,
    }
}
