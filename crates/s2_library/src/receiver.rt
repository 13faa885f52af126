//! Receivers.
ghost use Rattle.std.specs.Prelude.{◌≡◌, IfErr, IfOk, IsOkUnless, Some, nat_eq};
ghost use Rattle.s2_check.specs.CertificateBytes.{bytes_of};
ghost use Rattle.s2_mode.specs.Mode.{IsMode};
ghost use Rattle.s2_link.specs.Link.{IsSetUp};
ghost use Rattle.s2_modem.specs.Reception.{IsNew};
ghost use Rattle.s2_library.specs.Asked.{flags_of, link_in, mode_in, setup_in};
ghost use Rattle.s2_library.specs.Codes.{code_in as code_in_slot};
ghost use Rattle.s2_library.specs.Copying.{digits_of};
ghost use Rattle.s2_library.specs.Fields as fields;
ghost use Rattle.s2_library.specs.Refusals.{MakesReceiver, RefusesSetup, setup_refusal};
ghost use Rattle.s2_library.specs.Slots.{AdvancesReception, AdvancesSlot, CopiesMadeOf, CopiesOf, Gives, GivesFields, GivesFieldsIf, ResetsReception, ResetsSlot, bbframe_in, figures_in, is_delivered, last_figures, listed, message_bytes, received_file, reception_in, receiver_in, room_in, sums_in, totals_in};

use crate::code::{Code, code_in};
use crate::copying::{copy_bits, copy_items};
use crate::figures::{FiguresFields, figures_fields, sums_fields};
use crate::options::{Flags, Options, mode_by, read_flags, setup_by, wanted_by};
use crate::refusal::Refusal;
use crate::slot::Slot;
use crate::step::{StepFields, step_fields};
use crate::totals::{TotalsFields, totals_fields};
use s2_bits::{Bits, bytes_from};
use s2_check::CertView;
use s2_link::{Link, SetupFault};
use s2_mode::Counting;
use s2_modem::Receiver;
use s2_report::{Figures, Outcome, Step};
use s2_scramble::bb_xor_in_place;
use s2_tuning::{Tuning, tuning_by};
use std::alloc::Global;

/// A receiver, its link and tuning, and its last step.
pub struct Reception {
    link: Link<'static>,
    tuning: Tuning,
    receiver: Receiver<'static>,
    step: Option<Step>,
}

impl Drop for Reception {
    fn drop(self) {
        let Reception {
            link: _,
            tuning: _,
            receiver: _,
            step: _,
        } = self;
    }
}

/// The refusal of a link.
fn setup_refusal(fault: SetupFault) -> Refusal
    ensures { result ≡ setup_refusal fault }
{
    match fault {
        SetupFault::OtherShape => Refusal::OtherShape,
        SetupFault::BadNumber => Refusal::BadScrambling,
        SetupFault::BadRollOff => Refusal::BadRollOff,
        SetupFault::BadRounds | SetupFault::BadPasses => Refusal::BadTuning,
        SetupFault::NoMemory => Refusal::NoMemory,
    }
}

/// The link of options on a code.
pub(crate) fn link_by(code: Code, options: &Options, flags: Flags) -> Result<Link<'static>, Refusal>
    requires { flags ≡ flags_of options.now }
    ensures is { IfOk result (λ link. (link ≡ link_in options.now code.matrix.now) × IsMode (mode_in options.now) × IsSetUp (setup_in options.now) code.matrix.now) }
    ensures refused { IfErr result (RefusesSetup options.now code.matrix.now) }
{
    let mode = mode_by(options.modcod, flags.is_short, flags.has_pilots)?;
    match Link::new(setup_by(mode, options), code.matrix) {
        Ok(link) => Ok(link),
        Err(fault) => Err(setup_refusal(fault)),
    }
}

/// A receiver on a link.
fn receiver_on(
    alloc: Global,
    link: &Link<'static>,
    tuning: Tuning,
) -> Result<Receiver<'static>, Refusal>
    ensures is { IfOk result (IsNew link.now tuning) }
    ensures refused { IsOkUnless result Refusal.NoMemory }
{
    match Receiver::on_link(alloc, link, tuning) {
        Ok(receiver) => Ok(receiver),
        Err(_) => Err(Refusal::NoMemory),
    }
}

/// A receiver on a code, by options. The first refusal is returned.
pub fn new_receiver(alloc: Global, code: &Slot, options: &Options) -> Result<Slot, Refusal>
    ensures { MakesReceiver (code_in_slot code.now) options.now result }
{
    let code = code_in(code)?;
    let flags = read_flags(options)?;
    let link = link_by(code, options, flags)?;
    let Some(tuning) = tuning_by(&link.mode(), wanted_by(flags, options)) else {
        return Err(Refusal::BadTuning);
    };
    let receiver = receiver_on(alloc, &link, tuning)?;
    Ok(Slot::Receiver(Reception {
        link,
        tuning,
        receiver,
        step: None,
    }))
}

/// Begins a new stream. The receiver is unchanged if memory is refused.
fn reset(alloc: Global, reception: &mut Reception) -> Result<(), Refusal>
    ensures { ResetsReception reception.old reception.new result }
{
    reception.receiver = receiver_on(alloc, &reception.link, reception.tuning)?;
    reception.step = None;
    Ok(())
}

/// Begins a new stream of the receiver of a slot.
pub fn receiver_reset(alloc: Global, slot: &mut Slot) -> Result<(), Refusal>
    ensures { ResetsSlot slot.old slot.new result }
{
    match slot {
        Slot::Receiver(reception) => reset(alloc, reception),
        _ => Err(Refusal::OtherKind),
    }
}

/// The number of bytes that a receiver takes next.
pub fn receiver_room(slot: &Slot, bytes: &mut usize) -> Result<(), Refusal>
    ensures { Gives (room_in (receiver_in slot.now)) bytes.old bytes.new result }
{
    let Slot::Receiver(reception) = slot else {
        return Err(Refusal::OtherKind);
    };
    *bytes = reception.receiver.room();
    Ok(())
}

/// Gives a receiver bytes, no more than it takes next. The step is written and kept.
fn advance(reception: &mut Reception, bytes: &[u8], step: &mut StepFields) -> Result<(), Refusal>
    ensures { AdvancesReception reception.old reception.new bytes.now step.old step.new result }
{
    if step.size != crate::step::SIZE {
        return Err(Refusal::BadSize);
    }
    if bytes.len() > reception.receiver.room() {
        return Err(Refusal::TooMany);
    }
    let made = reception.receiver.advance(bytes);
    reception.step = made;
    *step = step_fields(made);
    Ok(())
}

/// Gives the receiver of a slot bytes, no more than it takes next.
pub fn receiver_advance(slot: &mut Slot, bytes: &[u8], step: &mut StepFields) -> Result<(), Refusal>
    ensures { AdvancesSlot slot.old slot.new bytes.now step.old step.new result }
{
    match slot {
        Slot::Receiver(reception) => advance(reception, bytes, step),
        _ => Err(Refusal::OtherKind),
    }
}

/// Copies the packets that end in the frame of the last step.
pub fn receiver_packets(slot: &Slot, out: &mut [u8], count: &mut usize) -> Result<(), Refusal>
    ensures { CopiesOf (listed (λ r. r.packets) (receiver_in slot.now)) out.old out.new count.old count.new result }
{
    match slot {
        Slot::Receiver(reception) => copy_items(reception.receiver.packets(), out, count),
        _ => Err(Refusal::OtherKind),
    }
}

/// Copies the soft values of the last frame.
pub fn receiver_soft(slot: &Slot, out: &mut [i16], count: &mut usize) -> Result<(), Refusal>
    ensures { CopiesOf (listed (λ r. r.last.soft) (receiver_in slot.now)) out.old out.new count.old count.new result }
{
    match slot {
        Slot::Receiver(reception) => copy_items(reception.receiver.soft(), out, count),
        _ => Err(Refusal::OtherKind),
    }
}

/// Copies the decided bits of the last frame.
pub fn receiver_word(slot: &Slot, out: &mut [u8], count: &mut usize) -> Result<(), Refusal>
    ensures { CopiesOf (listed (λ r. digits_of r.last.bits) (receiver_in slot.now)) out.old out.new count.old count.new result }
{
    match slot {
        Slot::Receiver(reception) => copy_bits(reception.receiver.word().truths(), out, count),
        _ => Err(Refusal::OtherKind),
    }
}

/// The bytes of a message, descrambled.
fn message_bytes(alloc: Global, message: &[bool]) -> Result<Vec<u8>, Refusal>
    ensures are { IfOk result (λ bytes. bytes.items ≡ message_bytes message.now) }
    ensures refused { IsOkUnless result Refusal.NoMemory }
{
    let Ok(mut bits) = Bits::zeroed(alloc, message.len()) else {
        return Err(Refusal::NoMemory);
    };
    bits.truths_mut().copy_from_slice(message);
    bb_xor_in_place(&mut bits);
    let Ok(mut bytes) = Vec::from_elem(alloc, 0u8, message.len() / 8) else {
        return Err(Refusal::NoMemory);
    };
    bytes_from(bits.truths(), 0, message.len() / 8, &mut bytes);
    Ok(bytes)
}

/// Whether a step was a delivered frame.
fn is_delivered(step: Option<Step>) -> bool
    ensures { result ≡ is_delivered step }
{
    match step {
        Some(Step::Frame(report)) => match report.outcome {
            Outcome::Delivered { fixed: _ } => true,
            Outcome::NoWord | Outcome::BadHeader(_) => false,
        },
        _ => false,
    }
}

/// Copies the BBFRAME of the last step.
pub fn receiver_bbframe(
    alloc: Global,
    slot: &Slot,
    out: &mut [u8],
    count: &mut usize,
) -> Result<(), Refusal>
    ensures { CopiesMadeOf (bbframe_in (reception_in slot.now)) out.old out.new count.old count.new result }
{
    let Slot::Receiver(reception) = slot else {
        return Err(Refusal::OtherKind);
    };
    if !is_delivered(reception.step) {
        return Err(Refusal::NoneThere);
    }
    let bytes = message_bytes(alloc, reception.receiver.message())?;
    copy_items(&bytes, out, count)
}

/// Copies the file of a certificate.
pub(crate) fn copy_certificate(
    alloc: Global,
    view: &CertView<'_>,
    out: &mut [u8],
    count: &mut usize,
) -> Result<(), Refusal>
    ensures { CopiesMadeOf (Some (Some (bytes_of view.now))) out.old out.new count.old count.new result }
{
    let mut sink = Counting::new(Vec::new(alloc));
    if view.write(&mut sink).is_err() {
        return Err(Refusal::NoMemory);
    }
    let bytes = sink.into_inner();
    copy_items(&bytes, out, count)
}

/// Copies the certificate of the last step.
pub fn receiver_certificate(
    alloc: Global,
    slot: &Slot,
    out: &mut [u8],
    count: &mut usize,
) -> Result<(), Refusal>
    ensures { CopiesMadeOf (received_file (receiver_in slot.now)) out.old out.new count.old count.new result }
{
    let Slot::Receiver(reception) = slot else {
        return Err(Refusal::OtherKind);
    };
    match reception.receiver.certificate() {
        Some(view) => copy_certificate(alloc, &view, out, count),
        None => Err(Refusal::NoneThere),
    }
}

/// The figures of a step.
fn figures_in(step: Option<Step>) -> Option<Figures>
    ensures { result ≡ figures_in step }
{
    match step {
        Some(Step::Frame(report)) => report.figures,
        _ => None,
    }
}

/// Gives the figures of the last step.
pub fn receiver_figures(slot: &Slot, out: &mut FiguresFields) -> Result<(), Refusal>
    ensures { GivesFieldsIf fields.figures_fields (last_figures (reception_in slot.now)) (nat_eq out.old.size 144) out.old out.new result }
{
    let Slot::Receiver(reception) = slot else {
        return Err(Refusal::OtherKind);
    };
    if out.size != crate::figures::SIZE {
        return Err(Refusal::BadSize);
    }
    match figures_in(reception.step) {
        Some(figures) => {
            *out = figures_fields(figures);
            Ok(())
        }
        None => Err(Refusal::NoneThere),
    }
}

/// Gives the sums of figures.
pub fn receiver_sums(slot: &Slot, out: &mut FiguresFields) -> Result<(), Refusal>
    ensures { GivesFieldsIf fields.sums_fields (sums_in (receiver_in slot.now)) (nat_eq out.old.size 144) out.old out.new result }
{
    let Slot::Receiver(reception) = slot else {
        return Err(Refusal::OtherKind);
    };
    if out.size != crate::figures::SIZE {
        return Err(Refusal::BadSize);
    }
    match reception.receiver.totals().sums {
        Some(sums) => {
            *out = sums_fields(sums);
            Ok(())
        }
        None => Err(Refusal::NoneThere),
    }
}

/// Gives the totals.
pub fn receiver_totals(slot: &Slot, out: &mut TotalsFields) -> Result<(), Refusal>
    ensures { GivesFields fields.totals_fields (totals_in (receiver_in slot.now)) (nat_eq out.old.size 120) out.old out.new result }
{
    let Slot::Receiver(reception) = slot else {
        return Err(Refusal::OtherKind);
    };
    if out.size != crate::totals::SIZE {
        return Err(Refusal::BadSize);
    }
    *out = totals_fields(reception.receiver.totals());
    Ok(())
}
