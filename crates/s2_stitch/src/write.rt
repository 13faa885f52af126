//! Writes a record.
ghost use Rattle.std.specs.Prelude.{◌≡◌, ◌++◌, ◌∷◌, [], ◌≤◌, OnOk, length};
ghost use Rattle.s2_certfile.specs.Field.{bytes_of_bits};
ghost use Rattle.s2_stitch.specs.Records.{front, max_certificate, record_bytes, verdict_byte};

use crate::verdicts::verdict_byte;
use s2_bits::Bits;
use s2_check::Verdict;
use std::alloc::AllocError;

/// Appends the numbers in front of a record, and its verdict.
fn put_front(
    block: &mut Vec<u8>,
    at: u64,
    seal: u64,
    rounds: u32,
    size: u32,
    verdict: Option<Verdict>,
) -> Result<(), AllocError>
    ensures { OnOk result (block.new.items ≡ block.old.items ++ (front.bytes (at, (seal, (rounds, size))) ++ (verdict_byte verdict ∷ []))) }
{
    block.extend_from_slice(&at.to_be_bytes())?;
    block.extend_from_slice(&seal.to_be_bytes())?;
    block.extend_from_slice(&rounds.to_be_bytes())?;
    block.extend_from_slice(&size.to_be_bytes())?;
    block.push(verdict_byte(verdict))?;
    Ok(())
}

/// Appends the bytes of bits, eight to a byte.
fn put_bits(block: &mut Vec<u8>, word: &Bits) -> Result<(), AllocError>
    ensures { OnOk result (block.new.items ≡ block.old.items ++ bytes_of_bits word.now) }
{
    'bytes: for k in 0..word.len().div_ceil(8) {
        block.push(word.byte(k))?;
    }
    Ok(())
}

/// Replaces the bytes of a block with the record of a decision: the position of the frame, the seal, the rounds of min-sum, the
/// verdict, the decided bits, and the file of their certificate. The file is empty if there is no certificate. Without a verdict it
/// is an end record ([`crate::Record`]). `AllocError` only if the block has no room for the record and memory does not suffice.
pub fn record_into(
    block: &mut Vec<u8>,
    at: u64,
    seal: u64,
    rounds: u32,
    verdict: Option<Verdict>,
    word: &Bits,
    certificate: &[u8],
) -> Result<(), AllocError>
    requires few { length certificate.now ≤ max_certificate }
    ensures { OnOk result (block.new.items ≡ record_bytes (record { at = at; seal = seal; rounds = rounds; verdict = verdict; bits = word.now; certificate = certificate.now })) }
{
    block.clear();
    put_front(block, at, seal, rounds, certificate.len() as u32, verdict)?;
    put_bits(block, word)?;
    block.extend_from_slice(certificate)?;
    Ok(())
}
