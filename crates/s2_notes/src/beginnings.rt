//! The note on a packet file that does not begin with packets. This is plain code.
ghost use Rattle.std.specs.Prelude.{◌≤◌, IfOk, length};

use crate::errors::write_note;
use crate::names::has_control;
use s2_bbframe::{PACKET_BYTES, SYNC};
use s2_io::{Disk, Role, Terminal, is_standard};
use s2_mode::{Counting, read_full};
use s2_resync::{Syncs, first_syncs};
use s2_scan::push_name;
use std::alloc::{AllocError, Global};
use std::fs;

/// The first bytes of a file, which are searched.
const SEARCHED: usize = 65_536;

/// Whether a file can be read again by its name: a regular file can.
fn is_again<R: Disk>(rt: &R, name: &str) -> bool {
    match fs::metadata(rt, name) {
        Ok(metadata) => metadata.is_file() && !is_standard(Role::Input, name),
        Err(_) => false,
    }
}

/// Fills a buffer from the beginning of a file, and returns the number of bytes read. It is 0 if the file cannot be read.
fn read_start<R: Disk>(rt: &R, name: &str, bytes: &mut [u8]) -> usize {
    match fs::open(rt, name) {
        Ok(file) => read_full(&mut Counting::new(file), bytes).unwrap_or(0),
        Err(_) => 0,
    }
}

/// The first bytes of a file, at most this many.
fn first_bytes<R: Disk + AllocGlobal>(
    rt: &R,
    name: &str,
    most: usize,
) -> Result<Vec<u8>, AllocError>
    ensures { IfOk result (λ bytes. length bytes.items ≤ most) }
{
    let mut bytes = vec![in rt.alloc(); 0u8; most]?;
    let count = read_start(rt, name, &mut bytes);
    bytes.truncate(count);
    Ok(bytes)
}

/// Whether the place of a packet has no sync byte.
fn lacks_sync(bytes: &[u8], place: usize) -> bool {
    match bytes.get(place) {
        Some(byte) => *byte != SYNC,
        None => false,
    }
}

/// Whether the first or the second packet of 188 bytes has no sync byte.
fn is_refused(bytes: &[u8]) -> bool {
    lacks_sync(bytes, 0) || lacks_sync(bytes, PACKET_BYTES)
}

/// A name as a word of a shell. Control characters are not shown: in place of a name with some there is FILE.
fn push_word(text: &mut Vec<u8>, name: &str) -> Result<(), AllocError> {
    push_name(text, if has_control(name) { "FILE" } else { name })
}

/// Appends the command that makes packets of a file with these sync bytes, without the file's name.
fn push_remedy(text: &mut String, syncs: Syncs) -> Result<(), AllocError> {
    if syncs.distance != PACKET_BYTES {
        return text.push_str("tools/strip ");
    }
    let first = syncs.place.saturating_add(1);
    write!(text, "tail -c +{first} ")
}

/// Appends the place of sync bytes, and a command.
fn push_found(text: &mut String, syncs: Syncs) -> Result<(), AllocError> {
    let (place, distance) = (syncs.place, syncs.distance);
    write!(
        text,
        "s2: note: five sync bytes at distance {distance} begin at byte {place}: try "
    )?;
    push_remedy(text, syncs)
}

/// The note on the first sync bytes of a file, without the file's name.
fn found_text(alloc: Global, syncs: Syncs) -> Result<String, AllocError> {
    let mut text = String::new(alloc);
    push_found(&mut text, syncs)?;
    Ok(text)
}

/// Appends a name as the last word of a line.
fn push_last(line: &mut Vec<u8>, name: &str) -> Result<(), AllocError> {
    push_word(line, name)?;
    line.push(b'\n')?;
    Ok(())
}

/// The note on the first sync bytes of a file of this name.
fn note_of(alloc: Global, syncs: Syncs, name: &str) -> Result<Vec<u8>, AllocError> {
    let mut note = found_text(alloc, syncs)?.into_bytes();
    push_last(&mut note, name)?;
    Ok(note)
}

/// The first sync bytes of packets whose first or second one is refused.
fn syncs_of(bytes: &[u8]) -> Option<Syncs>
    requires { length bytes.now ≤ 65536 }
{
    if is_refused(bytes) {
        first_syncs(bytes)
    } else {
        None
    }
}

/// The first sync bytes of a packet file whose first or second packet is refused.
fn syncs_in<R: Disk + AllocGlobal>(rt: &R, name: &str) -> Result<Option<Syncs>, AllocError> {
    let bytes = first_bytes(rt, name, SEARCHED)?;
    Ok(syncs_of(&bytes))
}

/// Notes the position at which packets begin in a packet file whose first or second packet is refused. The file is read
/// again. There is no note on one that cannot be read again, nor without memory for it.
pub fn note_beginning<R: Disk + AllocGlobal>(terminal: &Terminal<'_, R>, name: &str) {
    let rt = terminal.host();
    if !is_again(rt, name) {
        return;
    }
    let Ok(Some(syncs)) = syncs_in(rt, name) else {
        return;
    };
    if let Ok(note) = note_of(rt.alloc(), syncs, name) {
        write_note(terminal, &note);
    }
}
