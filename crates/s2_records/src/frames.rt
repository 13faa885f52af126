//! One BBFRAME: its header, and its data field joined on (EN 302 307-1, 5.1).
ghost use Rattle.std.specs.Prelude.{◌≡◌, ◌+◌, ◌*◌, ◌/◌, ◌≤◌, true, length, take, IfOk};
ghost use Rattle.s2_mode.specs.Mode.{HasCodeSizes};
ghost use Rattle.s2_bbframe.specs.Headers.{has_valid_lengths, header_of_bytes};
ghost use Rattle.s2_bbframe.specs.Joining.{step};
ghost use Rattle.s2_bbframe.specs.Limits.{max_field_bytes, packet_bytes, packets_room};
ghost use Rattle.s2_receive.specs.Laws.{joined};
ghost use Rattle.s2_records.specs.Counting.{counts_by, IsFew};
ghost use Rattle.s2_records.specs.Frames.{frame_bytes, field_of, event_of};
ghost use Rattle.s2_records.specs.Limits.{header_size};

use crate::join_counts::FrameCounts;
use crate::limits::HEADER_BYTES;
use s2_bbframe::{Header, HeaderFault, Joiner};
use s2_mode::Mode;

/// The bytes of a BBFRAME of a mode, which has Kbch bits.
pub fn frame_bytes(mode: Mode) -> usize
    ensures is { result ≡ frame_bytes mode }
    ensures sizes { HasCodeSizes mode }
{
    mode.kbch() / 8
}

/// The header of a BBFRAME, or why it is refused.
fn header_in(mode: Mode, frame: &[u8]) -> Result<Header, HeaderFault>
    requires { header_size ≤ length frame.now }
    ensures header { result ≡ header_of_bytes mode (take header_size frame.now) }
    ensures valid { IfOk result (λ h. has_valid_lengths mode h ≡ true) }
{
    let mut bytes = [0u8; HEADER_BYTES];
    bytes.copy_from_slice(&frame[..HEADER_BYTES]);
    Header::read(&bytes, mode)
}

/// The data field of a BBFRAME with this header.
fn field_in<'a>(header: &Header, frame: &'a [u8]) -> &'a [u8]
    requires within { header_size + header.now.dfl / 8 ≤ length frame.now }
    ensures field { result.now ≡ field_of header.now frame.now }
    ensures size { length result.now ≡ header.now.dfl / 8 }
{
    let (_, rest) = frame.split_at(HEADER_BYTES);
    let (field, _) = rest.split_at(usize::from(header.dfl / 8));
    field
}

/// Joins a BBFRAME on: its data field, or a gap if its header is refused. The packets that it completes are at the
/// front of `packets` then.
pub(crate) fn join_frame(
    mode: Mode,
    joiner: &mut Joiner,
    frame: &[u8],
    packets: &mut [u8],
) -> FrameCounts
    requires sizes { HasCodeSizes mode }
    requires frame { length frame.now ≡ frame_bytes mode }
    requires room { packets_room max_field_bytes ≤ length packets.old }
    ensures held { joiner.new ≡ (step joiner.old (event_of mode frame.now)).held }
    ensures packets { take (packet_bytes * result.packets) packets.new ≡ joined (step joiner.old (event_of mode frame.now)).good }
    ensures counts { result ≡ counts_by mode joiner.old frame.now }
    ensures few { IsFew result }
    ensures most { packet_bytes * result.packets ≤ length packets.new }
    ensures size { length packets.new ≡ length packets.old }
{
    let Ok(header) = header_in(mode, frame) else {
        joiner.gap();
        return FrameCounts::none();
    };
    let fed = joiner.feed(&header, field_in(&header, frame), packets);
    FrameCounts {
        delivered: 1,
        packets: fed.good as u64,
        bad: fed.bad as u64,
    }
}
