//! A list of bits.
ghost use Rattle.std.specs.Prelude.{◌≡◌, ◌↔◌, ℕ, ◌+◌, ◌*◌, ◌<◌, ◌≤◌, false, length, replicate, slice_set, IfOk, IsTrue, count_by};
ghost use Rattle.std.specs.Borrow.{sem};
ghost use Rattle.s2_bits.specs.Bits.{xor, bit_at, bit_of_bytes, byte_of, number, differences, Rewritten};
ghost use Rattle.s2_bits.specs.Lending.{LendsTruths};

use crate::bools;
use crate::spelling::{bits_of, byte_at};
use std::alloc::{AllocError, Global};
use std::marker::Model;

/// A list of bits of a fixed length.
#[derive(Drop)]
pub struct Bits {
    truths: Vec<bool>,
}

impl Model for Bits {
    ghost use Rattle.std.specs.Prelude.{List, Bool};

    ghost Value = { List Bool };

    ghost view = { λ b. b.truths.items };
}

impl Bits {
    /// A list of `len` zeros. `AllocError` if memory is refused.
    pub fn zeroed(alloc: Global, len: usize) -> Result<Bits, AllocError>
        ensures { IfOk result (λ b. b ≡ replicate len false) }
    {
        let truths = vec![in alloc; false; len]?;
        Ok(Bits { truths })
    }

    /// The first `len` bits of these bytes, each byte's highest bit first. The bytes have at least `len` bits.
    /// `AllocError` if memory is refused.
    pub fn from_bytes(alloc: Global, bytes: &[u8], len: usize) -> Result<Bits, AllocError>
        requires { len ≤ 8 * length bytes.now }
        ensures { IfOk result (λ b. (length b ≡ len) × ((k : ℕ) → k < len → bit_at b k ≡ bit_of_bytes bytes.now k)) }
    {
        let mut truths = bits_of(alloc, &bytes[..len / 8], len)?;
        for i in 8 * (len / 8)..len {
            truths.push((bytes[i / 8] >> (7 - i % 8)) % 2 == 1)?;
        }
        Ok(Bits { truths })
    }

    /// How many bits there are.
    pub fn len(&self) -> usize
        ensures { result ≡ length self.now }
    {
        self.truths.len()
    }

    /// Whether there is no bit.
    pub fn is_empty(&self) -> bool
        ensures { IsTrue result ↔ (length self.now ≡ 0) }
    {
        self.truths.is_empty()
    }

    /// The truth values as a slice.
    pub fn truths(&self) -> &[bool]
        ensures { result.now ≡ self.now }
    {
        &self.truths
    }

    /// The truth values as a slice to write to. The list keeps its length.
    pub fn truths_mut(&mut self) -> &mut [bool]
        ensures* writes_back { sem 𝓛 (LendsTruths self.entry result) }
        ensures value { result.now ≡ self.old }
    {
        &mut self.truths
    }

    /// Bit i, counted from 0, of those below the length.
    pub fn get(&self, i: usize) -> bool
        requires { i < length self.now }
        ensures { result ≡ bit_at self.now i }
    {
        self.truths[i]
    }

    /// Sets bit i, counted from 0. All others are unchanged.
    pub fn set(&mut self, i: usize, bit: bool)
        requires { i < length self.old }
        ensures { self.new ≡ slice_set self.old i bit }
    {
        self.truths[i] = bit;
    }

    /// How many bits are one.
    pub fn count_ones(&self) -> usize
        ensures { result ≡ count_by (λ b. b) self.now }
    {
        bools::count_ones(&self.truths)
    }

    /// The number of places at which two lists of the same length differ (Hamming distance).
    pub fn distance(&self, other: &Bits) -> usize
        requires { length other.now ≡ length self.now }
        ensures { result ≡ differences (length self.now) self.now other.now }
    {
        bools::distance(&self.truths, &other.truths)
    }

    /// Adds the other's first `len` bits modulo 2 to the first `len` bits. All others are unchanged. Both lists have at
    /// least `len` bits.
    pub fn xor_prefix(&mut self, other: &Bits, len: usize)
        requires mine { len ≤ length self.old }
        requires theirs { len ≤ length other.now }
        ensures { Rewritten false len (λ k. xor (bit_at self.old k) (bit_at other.now k)) self.old self.new }
    {
        bools::xor_first(&mut self.truths, &other.truths, len);
    }

    /// Copies the other's first `len` bits over the first `len` bits. All others are unchanged. Both lists have at
    /// least `len` bits.
    pub fn copy_prefix(&mut self, other: &Bits, len: usize)
        requires mine { len ≤ length self.old }
        requires theirs { len ≤ length other.now }
        ensures { Rewritten false len (bit_at other.now) self.old self.new }
    {
        bools::copy_first(&mut self.truths, &other.truths, len);
    }

    // a bit as a number, and zero past the end
    fn bit(&self, at: usize) -> u8
        ensures { result ≡ number (bit_at self.now at) }
    {
        if at < self.truths.len() {
            u8::from(self.truths[at])
        } else {
            0
        }
    }

    // a byte that may reach past the end
    #[tactic(auto, using(crate::proofs::Steps::byte_past))]
    fn padded_byte(&self, i: usize) -> u8
        ensures { result ≡ byte_of (λ k. bit_at self.now (8 * i + k)) }
    {
        if i > self.truths.len() / 8 {
            return 0;
        }
        let at = 8 * i;
        let high = 8 * self.bit(at)
            + 4 * self.bit(at + 1)
            + 2 * self.bit(at + 2)
            + self.bit(at + 3);
        let low = 8 * self.bit(at + 4)
            + 4 * self.bit(at + 5)
            + 2 * self.bit(at + 6)
            + self.bit(at + 7);
        16 * high + low
    }

    /// Bits 8i to 8i + 7 as a byte, the first of them highest, with zeros past the end.
    pub fn byte(&self, i: usize) -> u8
        ensures { result ≡ byte_of (λ k. bit_at self.now (8 * i + k)) }
    {
        if i < self.truths.len() / 8 {
            byte_at(&self.truths, 8 * i)
        } else {
            self.padded_byte(i)
        }
    }
}
