//! Transmitters.
ghost use Rattle.std.specs.Prelude.{◌≡◌};
ghost use Rattle.s2_library.specs.Codes.{code_in as code_in_slot};
ghost use Rattle.s2_library.specs.Copying.{digits_of};
ghost use Rattle.s2_library.specs.Refusals.{MakesSender};
ghost use Rattle.s2_library.specs.Slots.{ClosesStream, ClosesStreamOf, CopiesOf, GivesCounts, GivesReady, PutsPackets, PutsPacketsOf, Restarts, RestartsOf, TakesFrame, TakesFrameOf, listed, send_refusal, sender_in};

use crate::code::code_in;
use crate::copying::{copy_bits, copy_items};
use crate::options::{Options, read_flags};
use crate::receiver::link_by;
use crate::refusal::Refusal;
use crate::slot::Slot;
use s2_send::{SendFault, Sender};
use std::alloc::Global;

/// A transmitter on a code, by options. The first refusal is returned.
pub fn new_transmitter(alloc: Global, code: &Slot, options: &Options) -> Result<Slot, Refusal>
    ensures { MakesSender (code_in_slot code.now) options.now result }
{
    let code = code_in(code)?;
    let flags = read_flags(options)?;
    let link = link_by(code, options, flags)?;
    match Sender::on_link(alloc, &link) {
        Ok(mut sender) => {
            sender.dummy_every(flags.dummy_every);
            Ok(Slot::Transmitter(sender))
        }
        Err(_) => Err(Refusal::NoMemory),
    }
}

/// The refusal of a stream.
fn send_refusal(fault: SendFault) -> Refusal
    ensures { result ≡ send_refusal fault }
{
    match fault {
        SendFault::NotWholePacket => Refusal::CutPacket,
        SendFault::NoSync { .. } => Refusal::NoSync,
        SendFault::Read | SendFault::Write => Refusal::Full,
    }
}

/// Gives a transmitter bytes of packets, and gives the number of those that it took.
fn put(sender: &mut Sender<'static>, bytes: &[u8], taken: &mut usize) -> Result<(), Refusal>
    ensures { PutsPackets sender.old.stream.slicing.closed sender.old sender.new bytes.now taken.old taken.new result }
{
    if sender.is_closed() {
        return Err(Refusal::Closed);
    }
    match sender.put(bytes) {
        Ok(count) => {
            *taken = count;
            Ok(())
        }
        Err(fault) => Err(send_refusal(fault)),
    }
}

/// Gives the transmitter of a slot bytes of packets, and gives the number of those that it took.
pub fn transmitter_put(slot: &mut Slot, bytes: &[u8], taken: &mut usize) -> Result<(), Refusal>
    ensures { PutsPacketsOf slot.old slot.new bytes.now taken.old taken.new result }
{
    match slot {
        Slot::Transmitter(sender) => put(sender, bytes, taken),
        _ => Err(Refusal::OtherKind),
    }
}

/// Ends a stream.
fn close(sender: &mut Sender<'static>) -> Result<(), Refusal>
    ensures { ClosesStream sender.old.stream.slicing.closed sender.old sender.new result }
{
    if sender.is_closed() {
        return Err(Refusal::Closed);
    }
    match sender.close() {
        Ok(()) => Ok(()),
        Err(fault) => Err(send_refusal(fault)),
    }
}

/// Ends the stream of the transmitter of a slot.
pub fn transmitter_close(slot: &mut Slot) -> Result<(), Refusal>
    ensures { ClosesStreamOf slot.old slot.new result }
{
    match slot {
        Slot::Transmitter(sender) => close(sender),
        _ => Err(Refusal::OtherKind),
    }
}

/// Whether a frame can be taken, 1 or 0.
pub fn transmitter_ready(slot: &Slot, is_ready: &mut u32) -> Result<(), Refusal>
    ensures { GivesReady (sender_in slot.now) is_ready.old is_ready.new result }
{
    let Slot::Transmitter(sender) = slot else {
        return Err(Refusal::OtherKind);
    };
    *is_ready = if sender.is_ready() { 1 } else { 0 };
    Ok(())
}

/// Makes the next frame, and copies its symbols.
fn take(sender: &mut Sender<'static>, out: &mut [u8], count: &mut usize) -> Result<(), Refusal>
    ensures { TakesFrame sender.old sender.new out.old out.new count.old count.new result }
{
    if sender.take() {
        copy_items(sender.symbols(), out, count)
    } else {
        Err(Refusal::NoneThere)
    }
}

/// Makes the next frame of the transmitter of a slot, and copies its symbols.
pub fn transmitter_take(slot: &mut Slot, out: &mut [u8], count: &mut usize) -> Result<(), Refusal>
    ensures { TakesFrameOf slot.old slot.new out.old out.new count.old count.new result }
{
    match slot {
        Slot::Transmitter(sender) => take(sender, out, count),
        _ => Err(Refusal::OtherKind),
    }
}

/// Copies the symbols of the frame that was made last.
pub fn transmitter_symbols(slot: &Slot, out: &mut [u8], count: &mut usize) -> Result<(), Refusal>
    ensures { CopiesOf (listed (λ s. s.unit) (sender_in slot.now)) out.old out.new count.old count.new result }
{
    match slot {
        Slot::Transmitter(sender) => copy_items(sender.symbols(), out, count),
        _ => Err(Refusal::OtherKind),
    }
}

/// Copies the codeword of the frame that was made last.
pub fn transmitter_word(slot: &Slot, out: &mut [u8], count: &mut usize) -> Result<(), Refusal>
    ensures { CopiesOf (listed (λ s. digits_of s.codeword) (sender_in slot.now)) out.old out.new count.old count.new result }
{
    match slot {
        Slot::Transmitter(sender) => copy_bits(sender.codeword().truths(), out, count),
        _ => Err(Refusal::OtherKind),
    }
}

/// Gives the numbers of packets and frames.
pub fn transmitter_counts(slot: &Slot, packets: &mut u64, frames: &mut u64) -> Result<(), Refusal>
    ensures { GivesCounts (sender_in slot.now) packets.old packets.new frames.old frames.new result }
{
    let Slot::Transmitter(sender) = slot else {
        return Err(Refusal::OtherKind);
    };
    let counts = sender.counts();
    *packets = counts.packets;
    *frames = counts.frames;
    Ok(())
}

/// Begins a new stream.
fn restart(sender: &mut Sender<'static>) -> Result<(), Refusal>
    ensures { Restarts sender.old sender.new result }
{
    sender.restart();
    Ok(())
}

/// Begins a new stream of the transmitter of a slot.
pub fn transmitter_reset(slot: &mut Slot) -> Result<(), Refusal>
    ensures { RestartsOf slot.old slot.new result }
{
    match slot {
        Slot::Transmitter(sender) => restart(sender),
        _ => Err(Refusal::OtherKind),
    }
}
