//! The exports of codes and modes, and those without a handle.
ghost use Rattle.std.specs.Prelude.{◌≡◌, ◌≢◌, ◌↔◌, None, Some, Err};
ghost use Rattle.s2_mode.specs.Shape.{shape_of};
ghost use Rattle.s2_library.specs.declared.slot.Slot.{Slot};
ghost use Rattle.s2_library.specs.Codes.{GivesFacts, code_in};
ghost use Rattle.s2_library.specs.Copying.{Copies};
ghost use Rattle.s2_library.specs.Refusals.{GivesMode, MakesCode, MakesShapeCode};
ghost use Rattle.s2_library.specs.Results.{answer_of, number_of};
ghost use Rattle.s2_library.specs.Shelves.{IsNewShelf, ShelvesOf};
ghost use Rattle.s2_library.specs.Texts.{result_text};
ghost use Rattle.s2_c.specs.Handles.{Fills, Makes};

use crate::handle::{Handle, fill};
use s2_library::{
    ModeFields, Refusal, code_facts, error_text, mode_fields, new_code, new_shelf, result_number,
    shape_code, shelf_code,
};
use std::alloc::Global;

/// The version of the library.
#[unsafe(no_mangle)]
pub extern "C" fn s2_version() -> u32
    ensures { result ≡ 2 }
{
    2
}

/// Copies the text of a result.
#[unsafe(no_mangle)]
pub extern "C" fn s2_error_text(number: i32, out: &mut [u8], count: &mut usize) -> i32
    ensures answer { Copies (result_text number) out.old out.new count.new (answer_of result) }
    ensures number { result ≡ number_of (answer_of result) }
{
    result_number(error_text(number, out, count))
}

/// Gives the numbers of a mode.
#[unsafe(no_mangle)]
pub extern "C" fn s2_mode_of(
    modcod: u32,
    is_short: u32,
    has_pilots: u32,
    mode: &mut ModeFields,
) -> i32
    ensures answer { GivesMode modcod is_short has_pilots mode.old mode.new (answer_of result) }
    ensures number { result ≡ number_of (answer_of result) }
{
    result_number(mode_fields(modcod, is_short, has_pilots, mode))
}

/// Makes the code of a mode from the text of a row file.
#[unsafe(no_mangle)]
pub extern "C" fn s2_code_new(
    alloc: Global,
    text: &[u8],
    modcod: u32,
    is_short: u32,
    code: &mut Handle,
) -> i32
    ensures answer { Fills (MakesCode text.now modcod is_short) code.old.cell.value code.new.cell.value (answer_of result) }
    ensures number { result ≡ number_of (answer_of result) }
{
    if code.live != 0 {
        return Refusal::InUse.number();
    }
    fill(alloc, new_code(alloc, text, modcod, is_short), code)
}

/// Makes the code of a shape from the text of a row file.
#[unsafe(no_mangle)]
pub extern "C" fn s2_code_of_shape(
    alloc: Global,
    text: &[u8],
    group: u32,
    groups: u32,
    q: u32,
    code: &mut Handle,
) -> i32
    ensures answer { Fills (MakesShapeCode text.now (shape_of group groups q)) code.old.cell.value code.new.cell.value (answer_of result) }
    ensures number { result ≡ number_of (answer_of result) }
{
    if code.live != 0 {
        return Refusal::InUse.number();
    }
    fill(alloc, shape_code(alloc, text, group, groups, q), code)
}

/// Gives n and k of a code, and whether its rows are the standard's.
#[unsafe(no_mangle)]
pub extern "C" fn s2_code_facts(
    alloc: Global,
    code: &mut Handle,
    n: &mut u32,
    k: &mut u32,
    is_standard: &mut u32,
) -> i32
    ensures empty { code.old.cell.value ≡ None → (answer_of result ≡ Err Refusal.Empty) × (n.new ≡ n.old) × (k.new ≡ k.old) × (is_standard.new ≡ is_standard.old) }
    ensures full { (s : Slot) → code.old.cell.value ≡ Some s → GivesFacts (code_in s) n.old n.new k.old k.new is_standard.old is_standard.new (answer_of result) }
    ensures kept { code.new.cell.value ≡ code.old.cell.value }
    ensures number { result ≡ number_of (answer_of result) }
{
    let Some(slot) = code.open(alloc) else {
        return Refusal::Empty.number();
    };
    let answer = code_facts(&slot, n, k, is_standard);
    code.close(slot);
    result_number(answer)
}

/// Makes an empty shelf.
#[unsafe(no_mangle)]
pub extern "C" fn s2_shelf_new(alloc: Global, shelf: &mut Handle) -> i32
    ensures answer { Fills (Makes IsNewShelf) shelf.old.cell.value shelf.new.cell.value (answer_of result) }
    ensures number { result ≡ number_of (answer_of result) }
{
    if shelf.live != 0 {
        return Refusal::InUse.number();
    }
    fill(alloc, Ok(new_shelf(alloc)), shelf)
}

/// Finds the code of a mode on a shelf by its rows, or makes it and puts it there.
#[unsafe(no_mangle)]
pub extern "C" fn s2_shelf_code(
    alloc: Global,
    shelf: &mut Handle,
    text: &[u8],
    modcod: u32,
    is_short: u32,
    code: &mut Handle,
) -> i32
    ensures empty { shelf.old.cell.value ≡ None → code.old.cell.value ≡ None → (answer_of result ≡ Err Refusal.Empty) × (code.new.cell.value ≡ None) }
    ensures made { (s t : Slot) → shelf.old.cell.value ≡ Some s → shelf.new.cell.value ≡ Some t → Fills (ShelvesOf text.now modcod is_short s t) code.old.cell.value code.new.cell.value (answer_of result) }
    ensures in_use { code.old.cell.value ≢ None → (answer_of result ≡ Err Refusal.InUse) × (code.new.cell.value ≡ code.old.cell.value) × (shelf.new.cell.value ≡ shelf.old.cell.value) }
    ensures kept { (shelf.new.cell.value ≡ None) ↔ (shelf.old.cell.value ≡ None) }
    ensures number { result ≡ number_of (answer_of result) }
{
    if code.live != 0 {
        return Refusal::InUse.number();
    }
    let Some(mut slot) = shelf.open(alloc) else {
        return Refusal::Empty.number();
    };
    let made = shelf_code(alloc, &mut slot, text, modcod, is_short);
    shelf.close(slot);
    fill(alloc, made, code)
}
