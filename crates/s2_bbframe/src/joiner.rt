//! Packets reassembled from delivered data fields.
ghost use Rattle.std.specs.Prelude.{ℕ, List, nat_lt, ◌≡◌, ◌+◌, ◌-◌, ◌*◌, ◌/◌, ◌%◌, ◌<◌, ◌≤◌, ◌⊎◌, None, Some, IfSome, drop, length, take, if◌then◌else◌};
ghost use Rattle.std.specs.List.{flat_map};
ghost use Rattle.s2_bbframe.specs.Limits.{body_bytes, no_syncd, packet_bytes, packets_room};
ghost use Rattle.s2_bbframe.specs.Joining.{fed, still, inside, run_of, begun_body, incomplete_by};

use crate::bodies::{Bodies, read_bodies};
use crate::header::Header;
use crate::limits::{BODY_BYTES, NO_SYNCD};
use std::marker::Model;
use std::mem;

/// The counts of a field: its packets, and the bodies that were dropped. A bad body has a wrong CRC-8. An incomplete
/// one was begun, with at least a byte, and the field's header names another place than the run's next one.
#[derive(Clone, Copy, Debug, PartialEq, Eq)]
pub struct Fed {
    pub good: usize,
    pub bad: usize,
    pub incomplete: usize,
}

/// Joins the packets of consecutive data fields (EN 302 307-1, 5.1.4 and 5.1.5): it reassembles packets.
///
/// It is lost, or inside a run with a part of a packet's body held. If a field comes while it is lost, a run begins
/// after the field's first place for a CRC-8. A run ends at a gap, and if a header names another place than the run's
/// next one.
#[derive(Drop)]
pub struct Joiner {
    body: [u8; BODY_BYTES],
    held: usize,
    inside: bool,
}

impl Model for Joiner {
    ghost use Rattle.std.specs.Prelude.{ℕ, ◌≤◌, List, Option, Some, None, take, if◌then◌else◌};
    ghost use Rattle.s2_bbframe.specs.Limits.{body_bytes};

    ghost Value = { Option (List ℕ) };

    ghost view = { λ j. if j.inside then Some (take j.held j.body) else None };

    ghost invariant = { λ j. j.held ≤ body_bytes };
}

/// How a run continues in a field: the number of held bytes, and the field's byte from which on it reads.
#[derive(Clone, Copy)]
struct Join {
    start: usize,
    from: usize,
}

// the distance in bits to a run's next place after the held bytes, or `NO_SYNCD` if it is past the field
fn next_place(held: usize, field: &[u8]) -> usize
    requires { held ≤ body_bytes }
    ensures { result ≡ if nat_lt (body_bytes - held) (length field.now) then 8 * (body_bytes - held) else no_syncd }
{
    let to_place = BODY_BYTES - held;
    if to_place < field.len() {
        8 * to_place
    } else {
        usize::from(NO_SYNCD)
    }
}

// the number of begun bodies that are dropped with the held bytes
fn begun_body(inside: bool, held: usize) -> usize
    requires { held ≤ body_bytes }
    ensures is { (body : List ℕ) → length body ≡ body_bytes → result ≡ begun_body (if inside then Some (take held body) else None) }
    ensures few { result ≤ 1 }
{
    if inside && held > 0 { 1 } else { 0 }
}

// the number of begun bodies that a field drops
fn incomplete_by(inside: bool, held: usize, syncd: u16, field: &[u8]) -> usize
    requires { held ≤ body_bytes }
    ensures is { (body : List ℕ) → length body ≡ body_bytes → result ≡ incomplete_by (if inside then Some (take held body) else None) syncd field.now }
    ensures few { result ≤ 1 }
{
    if field.is_empty() || usize::from(syncd) == next_place(held, field) {
        return 0;
    }
    begun_body(inside, held)
}

// how the run continues: with the held body if SYNCD names its next place, else after the place that SYNCD names
fn resumed(was_inside: bool, held: usize, syncd: u16, field: &[u8]) -> Option<Join>
    requires held { held ≤ body_bytes }
    requires some { 0 < length field.now }
    requires syncd { (syncd ≡ no_syncd) ⊎ (syncd / 8 < length field.now) }
    ensures lost { result ≡ None → (body : List ℕ) → length body ≡ body_bytes → fed (if was_inside then Some (take held body) else None) syncd field.now ≡ still None }
    ensures start { IfSome result (λ r. r.start ≤ body_bytes) }
    ensures from { IfSome result (λ r. r.from ≤ length field.now) }
    ensures run { IfSome result (λ r. (body : List ℕ) → length body ≡ body_bytes → fed (if was_inside then Some (take held body) else None) syncd field.now ≡ inside (run_of (take r.start body) (drop r.from field.now))) }
{
    if was_inside && usize::from(syncd) == next_place(held, field) {
        return Some(Join {
            start: held,
            from: 0,
        });
    }
    if syncd == NO_SYNCD {
        return None;
    }
    Some(Join {
        start: 0,
        from: usize::from(syncd / 8) + 1,
    })
}

impl Joiner {
    /// A joiner that is lost.
    pub fn new() -> Joiner
        ensures { result ≡ None }
    {
        Joiner {
            body: [0; BODY_BYTES],
            held: 0,
            inside: false,
        }
    }

    /// A field may be missing here: the joiner is lost, and the body that it held is dropped. Returns the number of
    /// bodies with at least a byte that are dropped: 1 or 0.
    pub fn gap(&mut self) -> usize
        ensures lost { self.new ≡ None }
        ensures incomplete { result ≡ begun_body self.old }
        ensures few { result ≤ 1 }
    {
        let incomplete = begun_body(self.inside, self.held);
        self.inside = false;
        incomplete
    }

    /// Joins the next data field: writes the packets that it completes at the front of `packets`, 188 bytes each, and
    /// returns their number and those of the dropped bodies. Unless the field is empty, SYNCD names a byte of it or is
    /// [`NO_SYNCD`]; [`Header::read`] accepts no other header. [`crate::PACKETS_ROOM`] bytes are room for any field.
    pub fn feed(&mut self, header: &Header, field: &[u8], packets: &mut [u8]) -> Fed
        requires syncd { (length field.now ≡ 0)
            ⊎ ((header.now.syncd ≡ no_syncd) ⊎ (header.now.syncd / 8 < length field.now)) }
        requires room { packets_room (length field.now) ≤ length packets.old }
        ensures held { self.new ≡ (fed self.old header.now.syncd field.now).held }
        ensures packets { take (packet_bytes * result.good) packets.new
            ≡ flat_map (λ packet. packet) (fed self.old header.now.syncd field.now).good }
        ensures good { result.good ≡ length (fed self.old header.now.syncd field.now).good }
        ensures bad { result.bad ≡ (fed self.old header.now.syncd field.now).bad }
        ensures incomplete { result.incomplete ≡ incomplete_by self.old header.now.syncd field.now }
        ensures most { packet_bytes * (result.good + result.bad) ≤ packets_room (length field.now) }
        ensures few { result.incomplete ≤ 1 }
        ensures size { length packets.new ≡ length packets.old }
    {
        let incomplete = incomplete_by(self.inside, self.held, header.syncd, field);
        let nothing = Fed {
            good: 0,
            bad: 0,
            incomplete,
        };
        if field.is_empty() {
            return nothing;
        }
        let was_inside = mem::take(&mut self.inside);
        let Some(Join { start, from }) = resumed(was_inside, self.held, header.syncd, field) else {
            return nothing;
        };
        let Bodies { held, good, bad } = read_bodies(
            &mut self.body,
            start,
            &field[from..],
            packets,
        );
        self.held = held;
        self.inside = true;
        Fed {
            good,
            bad,
            incomplete,
        }
    }
}
