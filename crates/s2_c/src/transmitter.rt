//! The exports of transmitters.
ghost use Rattle.std.specs.Prelude.{◌≡◌, ◌↔◌, None, Some, Err};
ghost use Rattle.s2_library.specs.declared.slot.Slot.{Slot};
ghost use Rattle.s2_library.specs.Codes.{code_in};
ghost use Rattle.s2_library.specs.Refusals.{MakesSender};
ghost use Rattle.s2_library.specs.Results.{answer_of, number_of};
ghost use Rattle.s2_library.specs.Copying.{digits_of};
ghost use Rattle.s2_library.specs.Slots.{ClosesStreamOf, CopiesOf, GivesCounts, GivesReady, PutsPacketsOf, RestartsOf, TakesFrameOf, listed, sender_in};
ghost use Rattle.s2_c.specs.Handles.{Fills, MakesOf};

use crate::handle::{Handle, fill};
use s2_library::{
    Options, Refusal, new_transmitter, result_number, transmitter_close, transmitter_counts,
    transmitter_put, transmitter_ready, transmitter_reset, transmitter_symbols, transmitter_take,
    transmitter_word,
};
use std::alloc::Global;

/// Makes a transmitter on a code.
#[unsafe(no_mangle)]
pub extern "C" fn s2_transmitter_new(
    alloc: Global,
    code: &mut Handle,
    options: &Options,
    transmitter: &mut Handle,
) -> i32
    ensures made { Fills (MakesOf code.old.cell.value (λ s made. MakesSender (code_in s) options.now made)) transmitter.old.cell.value transmitter.new.cell.value (answer_of result) }
    ensures kept { code.new.cell.value ≡ code.old.cell.value }
    ensures number { result ≡ number_of (answer_of result) }
{
    if transmitter.live != 0 {
        return Refusal::InUse.number();
    }
    let Some(slot) = code.open(alloc) else {
        return Refusal::Empty.number();
    };
    let made = new_transmitter(alloc, &slot, options);
    code.close(slot);
    fill(alloc, made, transmitter)
}

/// Takes bytes of packets.
#[unsafe(no_mangle)]
pub extern "C" fn s2_transmitter_put(
    alloc: Global,
    transmitter: &mut Handle,
    bytes: &[u8],
    taken: &mut usize,
) -> i32
    ensures empty { transmitter.old.cell.value ≡ None → (answer_of result ≡ Err Refusal.Empty) × (taken.new ≡ taken.old) }
    ensures full { (s t : Slot) → transmitter.old.cell.value ≡ Some s → transmitter.new.cell.value ≡ Some t → PutsPacketsOf s t bytes.now taken.old taken.new (answer_of result) }
    ensures kept { (transmitter.new.cell.value ≡ None) ↔ (transmitter.old.cell.value ≡ None) }
    ensures number { result ≡ number_of (answer_of result) }
{
    let Some(mut slot) = transmitter.open(alloc) else {
        return Refusal::Empty.number();
    };
    let answer = transmitter_put(&mut slot, bytes, taken);
    transmitter.close(slot);
    result_number(answer)
}

/// Ends the stream.
#[unsafe(no_mangle)]
pub extern "C" fn s2_transmitter_close(alloc: Global, transmitter: &mut Handle) -> i32
    ensures empty { transmitter.old.cell.value ≡ None → answer_of result ≡ Err Refusal.Empty }
    ensures full { (s t : Slot) → transmitter.old.cell.value ≡ Some s → transmitter.new.cell.value ≡ Some t → ClosesStreamOf s t (answer_of result) }
    ensures kept { (transmitter.new.cell.value ≡ None) ↔ (transmitter.old.cell.value ≡ None) }
    ensures number { result ≡ number_of (answer_of result) }
{
    let Some(mut slot) = transmitter.open(alloc) else {
        return Refusal::Empty.number();
    };
    let answer = transmitter_close(&mut slot);
    transmitter.close(slot);
    result_number(answer)
}

/// Gives whether a frame can be taken.
#[unsafe(no_mangle)]
pub extern "C" fn s2_transmitter_ready(
    alloc: Global,
    transmitter: &mut Handle,
    is_ready: &mut u32,
) -> i32
    ensures empty { transmitter.old.cell.value ≡ None → (answer_of result ≡ Err Refusal.Empty) × (is_ready.new ≡ is_ready.old) }
    ensures full { (s : Slot) → transmitter.old.cell.value ≡ Some s → GivesReady (sender_in s) is_ready.old is_ready.new (answer_of result) }
    ensures kept { transmitter.new.cell.value ≡ transmitter.old.cell.value }
    ensures number { result ≡ number_of (answer_of result) }
{
    let Some(slot) = transmitter.open(alloc) else {
        return Refusal::Empty.number();
    };
    let answer = transmitter_ready(&slot, is_ready);
    transmitter.close(slot);
    result_number(answer)
}

/// Makes the next frame, and copies its symbols.
#[unsafe(no_mangle)]
pub extern "C" fn s2_transmitter_take(
    alloc: Global,
    transmitter: &mut Handle,
    out: &mut [u8],
    count: &mut usize,
) -> i32
    ensures empty { transmitter.old.cell.value ≡ None → (answer_of result ≡ Err Refusal.Empty) × (out.new ≡ out.old) × (count.new ≡ count.old) }
    ensures full { (s t : Slot) → transmitter.old.cell.value ≡ Some s → transmitter.new.cell.value ≡ Some t → TakesFrameOf s t out.old out.new count.old count.new (answer_of result) }
    ensures kept { (transmitter.new.cell.value ≡ None) ↔ (transmitter.old.cell.value ≡ None) }
    ensures number { result ≡ number_of (answer_of result) }
{
    let Some(mut slot) = transmitter.open(alloc) else {
        return Refusal::Empty.number();
    };
    let answer = transmitter_take(&mut slot, out, count);
    transmitter.close(slot);
    result_number(answer)
}

/// Copies the symbols of the frame that was made last.
#[unsafe(no_mangle)]
pub extern "C" fn s2_transmitter_symbols(
    alloc: Global,
    transmitter: &mut Handle,
    out: &mut [u8],
    count: &mut usize,
) -> i32
    ensures empty { transmitter.old.cell.value ≡ None → (answer_of result ≡ Err Refusal.Empty) × (out.new ≡ out.old) × (count.new ≡ count.old) }
    ensures full { (s : Slot) → transmitter.old.cell.value ≡ Some s → CopiesOf (listed (λ t. t.unit) (sender_in s)) out.old out.new count.old count.new (answer_of result) }
    ensures kept { transmitter.new.cell.value ≡ transmitter.old.cell.value }
    ensures number { result ≡ number_of (answer_of result) }
{
    let Some(slot) = transmitter.open(alloc) else {
        return Refusal::Empty.number();
    };
    let answer = transmitter_symbols(&slot, out, count);
    transmitter.close(slot);
    result_number(answer)
}

/// Copies the codeword of the frame that was made last.
#[unsafe(no_mangle)]
pub extern "C" fn s2_transmitter_word(
    alloc: Global,
    transmitter: &mut Handle,
    out: &mut [u8],
    count: &mut usize,
) -> i32
    ensures empty { transmitter.old.cell.value ≡ None → (answer_of result ≡ Err Refusal.Empty) × (out.new ≡ out.old) × (count.new ≡ count.old) }
    ensures full { (s : Slot) → transmitter.old.cell.value ≡ Some s → CopiesOf (listed (λ t. digits_of t.codeword) (sender_in s)) out.old out.new count.old count.new (answer_of result) }
    ensures kept { transmitter.new.cell.value ≡ transmitter.old.cell.value }
    ensures number { result ≡ number_of (answer_of result) }
{
    let Some(slot) = transmitter.open(alloc) else {
        return Refusal::Empty.number();
    };
    let answer = transmitter_word(&slot, out, count);
    transmitter.close(slot);
    result_number(answer)
}

/// Gives the numbers of packets and frames.
#[unsafe(no_mangle)]
pub extern "C" fn s2_transmitter_counts(
    alloc: Global,
    transmitter: &mut Handle,
    packets: &mut u64,
    frames: &mut u64,
) -> i32
    ensures empty { transmitter.old.cell.value ≡ None → (answer_of result ≡ Err Refusal.Empty) × (packets.new ≡ packets.old) × (frames.new ≡ frames.old) }
    ensures full { (s : Slot) → transmitter.old.cell.value ≡ Some s → GivesCounts (sender_in s) packets.old packets.new frames.old frames.new (answer_of result) }
    ensures kept { transmitter.new.cell.value ≡ transmitter.old.cell.value }
    ensures number { result ≡ number_of (answer_of result) }
{
    let Some(slot) = transmitter.open(alloc) else {
        return Refusal::Empty.number();
    };
    let answer = transmitter_counts(&slot, packets, frames);
    transmitter.close(slot);
    result_number(answer)
}

/// Begins a new stream.
#[unsafe(no_mangle)]
pub extern "C" fn s2_transmitter_reset(alloc: Global, transmitter: &mut Handle) -> i32
    ensures empty { transmitter.old.cell.value ≡ None → answer_of result ≡ Err Refusal.Empty }
    ensures full { (s t : Slot) → transmitter.old.cell.value ≡ Some s → transmitter.new.cell.value ≡ Some t → RestartsOf s t (answer_of result) }
    ensures kept { (transmitter.new.cell.value ≡ None) ↔ (transmitter.old.cell.value ≡ None) }
    ensures number { result ≡ number_of (answer_of result) }
{
    let Some(mut slot) = transmitter.open(alloc) else {
        return Refusal::Empty.number();
    };
    let answer = transmitter_reset(&mut slot);
    transmitter.close(slot);
    result_number(answer)
}
