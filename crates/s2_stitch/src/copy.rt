//! The symbols of a frame, from a copy of the recording.
ghost use Rattle.std.specs.Prelude.{◌≡◌, ◌+◌, ◌*◌, ◌^◌, ◌<◌, ◌≤◌, IfOk, IfSome, length, option_map};
ghost use Rattle.s2_mode.specs.Counts.{CanCount};
ghost use Rattle.s2_receive.specs.Limits.{max_symbols};
ghost use Rattle.s2_stitch.specs.Copies.{CopiesFrame, CopiesTo, CountsCopy, ReadsSymbols, SkipsSymbols};

use crate::fault::SourceFault;
use crate::room::Room;
use s2_mode::{CountedRead, Symbol, read_full, read_symbol, symbols_into};
use std::alloc::Global;

/// Skips this number of symbols. `false` if the copy ends before.
fn skip<C: CountedRead>(copy: &mut C, symbols: u64) -> Result<bool, SourceFault>
    requires { CanCount (C.count copy.old) }
    ensures skips { IfOk result (SkipsSymbols symbols (C.remaining copy.old) (C.remaining copy.new)) }
    ensures counts { CountsCopy (C.count copy.old) (C.count copy.new) result }
{
    'symbols: for _skipped in 0..symbols {
        let Some(_symbol) = read_symbol(copy).map_err(|_| SourceFault::Recording)? else {
            return Ok(false);
        };
    }
    Ok(true)
}

/// Reads this number of symbols. `None` if the copy ends before.
fn read_symbols<C: CountedRead>(
    alloc: Global,
    room: &mut Room,
    copy: &mut C,
    size: usize,
) -> Result<Option<Vec<Symbol>>, SourceFault>
    requires count { CanCount (C.count copy.old) }
    requires size { size < 2 ^ 32 }
    ensures reads { IfOk result (λ o. ReadsSymbols size (C.remaining copy.old) (C.remaining copy.new) (option_map (λ v. v.items) o)) }
    ensures long { IfOk result (λ o. IfSome o (λ v. length v.items ≡ size)) }
    ensures counts { CountsCopy (C.count copy.old) (C.count copy.new) result }
{
    let mut bytes = room
        .take_bytes(alloc, 4 * size)
        .map_err(|_| SourceFault::NoMemory)?;
    let mut symbols = room
        .take_symbols(alloc, size)
        .map_err(|_| SourceFault::NoMemory)?;
    let count = read_full(copy, &mut bytes).map_err(|_| SourceFault::Recording)?;
    if count < 4 * size {
        return Ok(None);
    }
    symbols_into(&bytes, &mut symbols);
    room.bytes = Some(bytes);
    Ok(Some(symbols))
}

/// Skips the symbols up to a position. `place` is the copy's position, before it and after it. `false` if the copy ends before.
pub(crate) fn copy_to<C: CountedRead>(
    copy: &mut C,
    place: &mut u64,
    at: u64,
) -> Result<bool, SourceFault>
    requires count { CanCount (C.count copy.old) }
    requires place { place.old ≤ at }
    ensures copies { IfOk result (CopiesTo at place.old place.new (C.remaining copy.old) (C.remaining copy.new)) }
    ensures counts { CountsCopy (C.count copy.old) (C.count copy.new) result }
{
    if !skip(copy, at - *place)? {
        return Ok(false);
    }
    *place = at;
    Ok(true)
}

/// Reads the frame of this number of symbols that begins at a position. `place` is the copy's position, before it and after it.
/// `None` if the copy ends before the frame is whole.
pub(crate) fn copy_frame<C: CountedRead>(
    alloc: Global,
    room: &mut Room,
    copy: &mut C,
    place: &mut u64,
    at: u64,
    size: usize,
) -> Result<Option<Vec<Symbol>>, SourceFault>
    requires count { CanCount (C.count copy.old) }
    requires place { place.old ≤ at }
    requires at { at ≤ max_symbols }
    requires size { (0 < size) × (size < 2 ^ 32) }
    ensures copies { IfOk result (λ o. CopiesFrame size at place.old place.new (C.remaining copy.old) (C.remaining copy.new) (option_map (λ v. v.items) o)) }
    ensures long { IfOk result (λ o. IfSome o (λ v. length v.items ≡ size)) }
    ensures counts { CountsCopy (C.count copy.old) (C.count copy.new) result }
{
    if !copy_to(copy, place, at)? {
        return Ok(None);
    }
    match read_symbols(alloc, room, copy, size)? {
        Some(symbols) => {
            *place = at + size as u64;
            Ok(Some(symbols))
        }
        None => Ok(None),
    }
}
