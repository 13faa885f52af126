//! The record of a frame's decision.

use s2_bits::Bits;
use s2_check::Verdict;
use std::marker::Model;

/// The decision on the frame that begins at a position of a recording: position, seal, rounds of min-sum, verdict, decided bits, and
/// the file of their certificate, which is empty if there is none. A record without a verdict is an end record: a piece has no
/// other frame that begins at its position or before it.
#[derive(Drop)]
pub struct Record {
    pub at: u64,
    pub seal: u64,
    pub rounds: u32,
    pub verdict: Option<Verdict>,
    pub word: Bits,
    pub certificate: Vec<u8>,
}

impl Model for Record {
    ghost use Rattle.s2_stitch.specs.Records.{Record as RecordValue};

    ghost Value = { RecordValue };

    ghost view = { λ r. record { at = r.at; seal = r.seal; rounds = r.rounds; verdict = r.verdict; bits = r.word; certificate = r.certificate.items } };
}
