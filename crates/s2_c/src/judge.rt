//! The exports of judges, and of the checker.
ghost use Rattle.std.specs.Prelude.{◌≡◌, ◌↔◌, None, Some, Err};
ghost use Rattle.s2_library.specs.declared.slot.Slot.{Slot};
ghost use Rattle.s2_library.specs.Checked.{ChecksFile};
ghost use Rattle.s2_library.specs.Codes.{code_in};
ghost use Rattle.s2_library.specs.Refusals.{MakesJudge};
ghost use Rattle.s2_library.specs.Results.{answer_of, number_of};
ghost use Rattle.s2_library.specs.Copying.{digits_of};
ghost use Rattle.s2_library.specs.Slots.{CopiesMadeOf, CopiesOf, DecidesOnOf, decided_file, judge_in, listed};
ghost use Rattle.s2_c.specs.Handles.{Fills, MakesOf};

use crate::handle::{Handle, fill};
use s2_library::{
    CheckedFields, Options, Refusal, check, judge_certificate, judge_decide, judge_word, new_judge,
    result_number,
};
use std::alloc::Global;

/// Makes a judge on a code.
#[unsafe(no_mangle)]
pub extern "C" fn s2_judge_new(
    alloc: Global,
    code: &mut Handle,
    options: &Options,
    judge: &mut Handle,
) -> i32
    ensures made { Fills (MakesOf code.old.cell.value (λ s made. MakesJudge (code_in s) options.now made)) judge.old.cell.value judge.new.cell.value (answer_of result) }
    ensures kept { code.new.cell.value ≡ code.old.cell.value }
    ensures number { result ≡ number_of (answer_of result) }
{
    if judge.live != 0 {
        return Refusal::InUse.number();
    }
    let Some(slot) = code.open(alloc) else {
        return Refusal::Empty.number();
    };
    let made = new_judge(alloc, &slot, options);
    code.close(slot);
    fill(alloc, made, judge)
}

/// Decides on soft values.
#[unsafe(no_mangle)]
pub extern "C" fn s2_judge_decide(
    alloc: Global,
    judge: &mut Handle,
    soft: &[i16],
    verdict: &mut u32,
) -> i32
    ensures empty { judge.old.cell.value ≡ None → (answer_of result ≡ Err Refusal.Empty) × (verdict.new ≡ verdict.old) }
    ensures full { (s t : Slot) → judge.old.cell.value ≡ Some s → judge.new.cell.value ≡ Some t → DecidesOnOf s t soft.now verdict.old verdict.new (answer_of result) }
    ensures kept { (judge.new.cell.value ≡ None) ↔ (judge.old.cell.value ≡ None) }
    ensures number { result ≡ number_of (answer_of result) }
{
    let Some(mut slot) = judge.open(alloc) else {
        return Refusal::Empty.number();
    };
    let answer = judge_decide(&mut slot, soft, verdict);
    judge.close(slot);
    result_number(answer)
}

/// Copies the bits that were decided last.
#[unsafe(no_mangle)]
pub extern "C" fn s2_judge_word(
    alloc: Global,
    judge: &mut Handle,
    out: &mut [u8],
    count: &mut usize,
) -> i32
    ensures empty { judge.old.cell.value ≡ None → (answer_of result ≡ Err Refusal.Empty) × (out.new ≡ out.old) × (count.new ≡ count.old) }
    ensures full { (s : Slot) → judge.old.cell.value ≡ Some s → CopiesOf (listed (λ j. digits_of j.bits) (judge_in s)) out.old out.new count.old count.new (answer_of result) }
    ensures kept { judge.new.cell.value ≡ judge.old.cell.value }
    ensures number { result ≡ number_of (answer_of result) }
{
    let Some(slot) = judge.open(alloc) else {
        return Refusal::Empty.number();
    };
    let answer = judge_word(&slot, out, count);
    judge.close(slot);
    result_number(answer)
}

/// Copies the certificate file of the last decision.
#[unsafe(no_mangle)]
pub extern "C" fn s2_judge_certificate(
    alloc: Global,
    judge: &mut Handle,
    out: &mut [u8],
    count: &mut usize,
) -> i32
    ensures empty { judge.old.cell.value ≡ None → (answer_of result ≡ Err Refusal.Empty) × (out.new ≡ out.old) × (count.new ≡ count.old) }
    ensures full { (s : Slot) → judge.old.cell.value ≡ Some s → CopiesMadeOf (decided_file (judge_in s)) out.old out.new count.old count.new (answer_of result) }
    ensures kept { judge.new.cell.value ≡ judge.old.cell.value }
    ensures number { result ≡ number_of (answer_of result) }
{
    let Some(slot) = judge.open(alloc) else {
        return Refusal::Empty.number();
    };
    let answer = judge_certificate(alloc, &slot, out, count);
    judge.close(slot);
    result_number(answer)
}

/// Checks a certificate file against a code.
#[unsafe(no_mangle)]
pub extern "C" fn s2_check(
    alloc: Global,
    code: &mut Handle,
    bytes: &[u8],
    checked: &mut CheckedFields,
) -> i32
    ensures empty { code.old.cell.value ≡ None → (answer_of result ≡ Err Refusal.Empty) × (checked.new ≡ checked.old) }
    ensures full { (s : Slot) → code.old.cell.value ≡ Some s → ChecksFile (code_in s) bytes.now checked.old checked.new (answer_of result) }
    ensures kept { code.new.cell.value ≡ code.old.cell.value }
    ensures number { result ≡ number_of (answer_of result) }
{
    let Some(slot) = code.open(alloc) else {
        return Refusal::Empty.number();
    };
    let answer = check(alloc, &slot, bytes, checked);
    code.close(slot);
    result_number(answer)
}
