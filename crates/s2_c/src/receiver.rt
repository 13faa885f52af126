//! The exports of receivers.
ghost use Rattle.std.specs.Prelude.{◌≡◌, ◌↔◌, None, Some, Err, nat_eq};
ghost use Rattle.s2_library.specs.declared.slot.Slot.{Slot};
ghost use Rattle.s2_library.specs.Codes.{code_in};
ghost use Rattle.s2_library.specs.Refusals.{MakesReceiver};
ghost use Rattle.s2_library.specs.Results.{answer_of, number_of};
ghost use Rattle.s2_library.specs.Copying.{digits_of};
ghost use Rattle.s2_library.specs.Fields as fields;
ghost use Rattle.s2_c.specs.Handles.{Fills, MakesOf};
ghost use Rattle.s2_library.specs.Slots.{AdvancesSlot, CopiesMadeOf, CopiesOf, Gives, GivesFields, GivesFieldsIf, ResetsSlot, bbframe_in, last_figures, listed, received_file, reception_in, receiver_in, room_in, sums_in, totals_in};

use crate::handle::{Handle, fill};
use s2_library::{
    FiguresFields, Options, Refusal, StepFields, TotalsFields, new_receiver, receiver_advance,
    receiver_bbframe, receiver_certificate, receiver_figures, receiver_packets, receiver_reset,
    receiver_room, receiver_soft, receiver_sums, receiver_totals, receiver_word, result_number,
};
use std::alloc::Global;

/// Makes a receiver on a code.
#[unsafe(no_mangle)]
pub extern "C" fn s2_receiver_new(
    alloc: Global,
    code: &mut Handle,
    options: &Options,
    receiver: &mut Handle,
) -> i32
    ensures made { Fills (MakesOf code.old.cell.value (λ s made. MakesReceiver (code_in s) options.now made)) receiver.old.cell.value receiver.new.cell.value (answer_of result) }
    ensures kept { code.new.cell.value ≡ code.old.cell.value }
    ensures number { result ≡ number_of (answer_of result) }
{
    if receiver.live != 0 {
        return Refusal::InUse.number();
    }
    let Some(slot) = code.open(alloc) else {
        return Refusal::Empty.number();
    };
    let made = new_receiver(alloc, &slot, options);
    code.close(slot);
    fill(alloc, made, receiver)
}

/// Begins a new stream.
#[unsafe(no_mangle)]
pub extern "C" fn s2_receiver_reset(alloc: Global, receiver: &mut Handle) -> i32
    ensures empty { receiver.old.cell.value ≡ None → answer_of result ≡ Err Refusal.Empty }
    ensures full { (s t : Slot) → receiver.old.cell.value ≡ Some s → receiver.new.cell.value ≡ Some t → ResetsSlot s t (answer_of result) }
    ensures kept { (receiver.new.cell.value ≡ None) ↔ (receiver.old.cell.value ≡ None) }
    ensures number { result ≡ number_of (answer_of result) }
{
    let Some(mut slot) = receiver.open(alloc) else {
        return Refusal::Empty.number();
    };
    let answer = receiver_reset(alloc, &mut slot);
    receiver.close(slot);
    result_number(answer)
}

/// Gives the number of bytes that the receiver takes next.
#[unsafe(no_mangle)]
pub extern "C" fn s2_receiver_room(alloc: Global, receiver: &mut Handle, bytes: &mut usize) -> i32
    ensures empty { receiver.old.cell.value ≡ None → (answer_of result ≡ Err Refusal.Empty) × (bytes.new ≡ bytes.old) }
    ensures full { (s : Slot) → receiver.old.cell.value ≡ Some s → Gives (room_in (receiver_in s)) bytes.old bytes.new (answer_of result) }
    ensures kept { receiver.new.cell.value ≡ receiver.old.cell.value }
    ensures number { result ≡ number_of (answer_of result) }
{
    let Some(slot) = receiver.open(alloc) else {
        return Refusal::Empty.number();
    };
    let answer = receiver_room(&slot, bytes);
    receiver.close(slot);
    result_number(answer)
}

/// Takes bytes of symbols, and gives the step.
#[unsafe(no_mangle)]
pub extern "C" fn s2_receiver_advance(
    alloc: Global,
    receiver: &mut Handle,
    symbols: &[u8],
    step: &mut StepFields,
) -> i32
    ensures empty { receiver.old.cell.value ≡ None → (answer_of result ≡ Err Refusal.Empty) × (step.new ≡ step.old) }
    ensures full { (s t : Slot) → receiver.old.cell.value ≡ Some s → receiver.new.cell.value ≡ Some t → AdvancesSlot s t symbols.now step.old step.new (answer_of result) }
    ensures kept { (receiver.new.cell.value ≡ None) ↔ (receiver.old.cell.value ≡ None) }
    ensures number { result ≡ number_of (answer_of result) }
{
    let Some(mut slot) = receiver.open(alloc) else {
        return Refusal::Empty.number();
    };
    let answer = receiver_advance(&mut slot, symbols, step);
    receiver.close(slot);
    result_number(answer)
}

/// Copies the packets of the last step.
#[unsafe(no_mangle)]
pub extern "C" fn s2_receiver_packets(
    alloc: Global,
    receiver: &mut Handle,
    out: &mut [u8],
    count: &mut usize,
) -> i32
    ensures empty { receiver.old.cell.value ≡ None → (answer_of result ≡ Err Refusal.Empty) × (out.new ≡ out.old) × (count.new ≡ count.old) }
    ensures full { (s : Slot) → receiver.old.cell.value ≡ Some s → CopiesOf (listed (λ r. r.packets) (receiver_in s)) out.old out.new count.old count.new (answer_of result) }
    ensures kept { receiver.new.cell.value ≡ receiver.old.cell.value }
    ensures number { result ≡ number_of (answer_of result) }
{
    let Some(slot) = receiver.open(alloc) else {
        return Refusal::Empty.number();
    };
    let answer = receiver_packets(&slot, out, count);
    receiver.close(slot);
    result_number(answer)
}

/// Copies the soft values of the last frame.
#[unsafe(no_mangle)]
pub extern "C" fn s2_receiver_soft(
    alloc: Global,
    receiver: &mut Handle,
    out: &mut [i16],
    count: &mut usize,
) -> i32
    ensures empty { receiver.old.cell.value ≡ None → (answer_of result ≡ Err Refusal.Empty) × (out.new ≡ out.old) × (count.new ≡ count.old) }
    ensures full { (s : Slot) → receiver.old.cell.value ≡ Some s → CopiesOf (listed (λ r. r.last.soft) (receiver_in s)) out.old out.new count.old count.new (answer_of result) }
    ensures kept { receiver.new.cell.value ≡ receiver.old.cell.value }
    ensures number { result ≡ number_of (answer_of result) }
{
    let Some(slot) = receiver.open(alloc) else {
        return Refusal::Empty.number();
    };
    let answer = receiver_soft(&slot, out, count);
    receiver.close(slot);
    result_number(answer)
}

/// Copies the decided bits of the last frame.
#[unsafe(no_mangle)]
pub extern "C" fn s2_receiver_word(
    alloc: Global,
    receiver: &mut Handle,
    out: &mut [u8],
    count: &mut usize,
) -> i32
    ensures empty { receiver.old.cell.value ≡ None → (answer_of result ≡ Err Refusal.Empty) × (out.new ≡ out.old) × (count.new ≡ count.old) }
    ensures full { (s : Slot) → receiver.old.cell.value ≡ Some s → CopiesOf (listed (λ r. digits_of r.last.bits) (receiver_in s)) out.old out.new count.old count.new (answer_of result) }
    ensures kept { receiver.new.cell.value ≡ receiver.old.cell.value }
    ensures number { result ≡ number_of (answer_of result) }
{
    let Some(slot) = receiver.open(alloc) else {
        return Refusal::Empty.number();
    };
    let answer = receiver_word(&slot, out, count);
    receiver.close(slot);
    result_number(answer)
}

/// Copies the BBFRAME of the last step.
#[unsafe(no_mangle)]
pub extern "C" fn s2_receiver_bbframe(
    alloc: Global,
    receiver: &mut Handle,
    out: &mut [u8],
    count: &mut usize,
) -> i32
    ensures empty { receiver.old.cell.value ≡ None → (answer_of result ≡ Err Refusal.Empty) × (out.new ≡ out.old) × (count.new ≡ count.old) }
    ensures full { (s : Slot) → receiver.old.cell.value ≡ Some s → CopiesMadeOf (bbframe_in (reception_in s)) out.old out.new count.old count.new (answer_of result) }
    ensures kept { receiver.new.cell.value ≡ receiver.old.cell.value }
    ensures number { result ≡ number_of (answer_of result) }
{
    let Some(slot) = receiver.open(alloc) else {
        return Refusal::Empty.number();
    };
    let answer = receiver_bbframe(alloc, &slot, out, count);
    receiver.close(slot);
    result_number(answer)
}

/// Copies the certificate file of the last step.
#[unsafe(no_mangle)]
pub extern "C" fn s2_receiver_certificate(
    alloc: Global,
    receiver: &mut Handle,
    out: &mut [u8],
    count: &mut usize,
) -> i32
    ensures empty { receiver.old.cell.value ≡ None → (answer_of result ≡ Err Refusal.Empty) × (out.new ≡ out.old) × (count.new ≡ count.old) }
    ensures full { (s : Slot) → receiver.old.cell.value ≡ Some s → CopiesMadeOf (received_file (receiver_in s)) out.old out.new count.old count.new (answer_of result) }
    ensures kept { receiver.new.cell.value ≡ receiver.old.cell.value }
    ensures number { result ≡ number_of (answer_of result) }
{
    let Some(slot) = receiver.open(alloc) else {
        return Refusal::Empty.number();
    };
    let answer = receiver_certificate(alloc, &slot, out, count);
    receiver.close(slot);
    result_number(answer)
}

/// Gives the figures of the last step.
#[unsafe(no_mangle)]
pub extern "C" fn s2_receiver_figures(
    alloc: Global,
    receiver: &mut Handle,
    figures: &mut FiguresFields,
) -> i32
    ensures empty { receiver.old.cell.value ≡ None → (answer_of result ≡ Err Refusal.Empty) × (figures.new ≡ figures.old) }
    ensures full { (s : Slot) → receiver.old.cell.value ≡ Some s → GivesFieldsIf fields.figures_fields (last_figures (reception_in s)) (nat_eq figures.old.size 144) figures.old figures.new (answer_of result) }
    ensures kept { receiver.new.cell.value ≡ receiver.old.cell.value }
    ensures number { result ≡ number_of (answer_of result) }
{
    let Some(slot) = receiver.open(alloc) else {
        return Refusal::Empty.number();
    };
    let answer = receiver_figures(&slot, figures);
    receiver.close(slot);
    result_number(answer)
}

/// Gives the sums of figures.
#[unsafe(no_mangle)]
pub extern "C" fn s2_receiver_sums(
    alloc: Global,
    receiver: &mut Handle,
    figures: &mut FiguresFields,
) -> i32
    ensures empty { receiver.old.cell.value ≡ None → (answer_of result ≡ Err Refusal.Empty) × (figures.new ≡ figures.old) }
    ensures full { (s : Slot) → receiver.old.cell.value ≡ Some s → GivesFieldsIf fields.sums_fields (sums_in (receiver_in s)) (nat_eq figures.old.size 144) figures.old figures.new (answer_of result) }
    ensures kept { receiver.new.cell.value ≡ receiver.old.cell.value }
    ensures number { result ≡ number_of (answer_of result) }
{
    let Some(slot) = receiver.open(alloc) else {
        return Refusal::Empty.number();
    };
    let answer = receiver_sums(&slot, figures);
    receiver.close(slot);
    result_number(answer)
}

/// Gives the totals.
#[unsafe(no_mangle)]
pub extern "C" fn s2_receiver_totals(
    alloc: Global,
    receiver: &mut Handle,
    totals: &mut TotalsFields,
) -> i32
    ensures empty { receiver.old.cell.value ≡ None → (answer_of result ≡ Err Refusal.Empty) × (totals.new ≡ totals.old) }
    ensures full { (s : Slot) → receiver.old.cell.value ≡ Some s → GivesFields fields.totals_fields (totals_in (receiver_in s)) (nat_eq totals.old.size 120) totals.old totals.new (answer_of result) }
    ensures kept { receiver.new.cell.value ≡ receiver.old.cell.value }
    ensures number { result ≡ number_of (answer_of result) }
{
    let Some(slot) = receiver.open(alloc) else {
        return Refusal::Empty.number();
    };
    let answer = receiver_totals(&slot, totals);
    receiver.close(slot);
    result_number(answer)
}
