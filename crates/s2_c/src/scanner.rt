//! The exports of scanners.
ghost use Rattle.std.specs.Prelude.{◌≡◌, ◌↔◌, None, Some, Err, nat_eq};
ghost use Rattle.s2_library.specs.declared.slot.Slot.{Slot};
ghost use Rattle.s2_library.specs.Fields.{seen_fields};
ghost use Rattle.s2_library.specs.Results.{answer_of, number_of};
ghost use Rattle.s2_library.specs.Slots.{FindsOf, GivesFieldsIf, IsNewScanner, KeepsBytesOf, scanner_in, seen_in};
ghost use Rattle.s2_c.specs.Handles.{Fills, Makes};

use crate::handle::{Handle, fill};
use s2_library::{Refusal, SeenFields, new_scanner, result_number, scan_at, scan_feed, scan_find};
use std::alloc::Global;

/// Makes a scanner.
#[unsafe(no_mangle)]
pub extern "C" fn s2_scan_new(alloc: Global, scanner: &mut Handle) -> i32
    ensures answer { Fills (Makes IsNewScanner) scanner.old.cell.value scanner.new.cell.value (answer_of result) }
    ensures number { result ≡ number_of (answer_of result) }
{
    if scanner.live != 0 {
        return Refusal::InUse.number();
    }
    fill(alloc, Ok(new_scanner(alloc)), scanner)
}

/// Takes bytes of symbols.
#[unsafe(no_mangle)]
pub extern "C" fn s2_scan_feed(alloc: Global, scanner: &mut Handle, symbols: &[u8]) -> i32
    ensures empty { scanner.old.cell.value ≡ None → answer_of result ≡ Err Refusal.Empty }
    ensures full { (s t : Slot) → scanner.old.cell.value ≡ Some s → scanner.new.cell.value ≡ Some t → KeepsBytesOf s t symbols.now (answer_of result) }
    ensures kept { (scanner.new.cell.value ≡ None) ↔ (scanner.old.cell.value ≡ None) }
    ensures number { result ≡ number_of (answer_of result) }
{
    let Some(mut slot) = scanner.open(alloc) else {
        return Refusal::Empty.number();
    };
    let answer = scan_feed(&mut slot, symbols);
    scanner.close(slot);
    result_number(answer)
}

/// Searches the bytes so far.
#[unsafe(no_mangle)]
pub extern "C" fn s2_scan_find(alloc: Global, scanner: &mut Handle, count: &mut usize) -> i32
    ensures empty { scanner.old.cell.value ≡ None → (answer_of result ≡ Err Refusal.Empty) × (count.new ≡ count.old) }
    ensures full { (s t : Slot) → scanner.old.cell.value ≡ Some s → scanner.new.cell.value ≡ Some t → FindsOf s t count.old count.new (answer_of result) }
    ensures kept { (scanner.new.cell.value ≡ None) ↔ (scanner.old.cell.value ≡ None) }
    ensures number { result ≡ number_of (answer_of result) }
{
    let Some(mut slot) = scanner.open(alloc) else {
        return Refusal::Empty.number();
    };
    let answer = scan_find(alloc, &mut slot, count);
    scanner.close(slot);
    result_number(answer)
}

/// Gives what the last search found at a place.
#[unsafe(no_mangle)]
pub extern "C" fn s2_scan_at(
    alloc: Global,
    scanner: &mut Handle,
    place: usize,
    seen: &mut SeenFields,
) -> i32
    ensures empty { scanner.old.cell.value ≡ None → (answer_of result ≡ Err Refusal.Empty) × (seen.new ≡ seen.old) }
    ensures full { (s : Slot) → scanner.old.cell.value ≡ Some s → GivesFieldsIf seen_fields (seen_in (scanner_in s) place) (nat_eq seen.old.size 96) seen.old seen.new (answer_of result) }
    ensures kept { scanner.new.cell.value ≡ scanner.old.cell.value }
    ensures number { result ≡ number_of (answer_of result) }
{
    let Some(slot) = scanner.open(alloc) else {
        return Refusal::Empty.number();
    };
    let answer = scan_at(&slot, place, seen);
    scanner.close(slot);
    result_number(answer)
}
