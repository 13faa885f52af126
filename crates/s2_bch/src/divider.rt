//! Division by the generator: blocks of 64 bits, then the last bits of the message eight at a time.
ghost use Rattle.std.specs.Prelude.{◌≡◌, ◌+◌, ◌*◌, ◌/◌, ◌-◌, ◌^◌, ◌<◌, ◌≤◌, ◌∷◌, ℕ, List, Bool, true, false, bit_xor, drop, length, take, replicate, slice_index_or, IfOk};
ghost use Rattle.s2_mode.specs.Mode.{Mode as ModeValue};
ghost use Rattle.s2_bits.specs.Bits.{number_of};
ghost use Rattle.s2_bch.specs.Division.{steps};
ghost use Rattle.s2_bch.specs.Words.{register_after, IsWordOf};
ghost use Rattle.s2_bch.specs.Generators.{generator_of};
ghost use Rattle.s2_bch.specs.Registers.{value_of, empty, Holds, IsTableFor, rest_of};

use crate::generators::tail_of;
use crate::register::Register;
use s2_bits::byte_at;
use s2_mode::Mode;
use std::alloc::{AllocError, Global};

/// Eight steps of the division by x^192 + `tail`.
fn eight_steps(tail: Register, start: Register) -> Register
    ensures { value_of result ≡ steps 192 (value_of tail) 8 (value_of start) }
{
    let mut register = start;
    for _ in 0..8u32 {
        register = register.step(tail);
    }
    register
}

/// The entry that follows these: eight steps from the byte at the top, or from the entry of the same
/// byte in the table before.
fn next_entry(tail: Register, table: &[Register]) -> Register
    requires { length table.now < 2048 }
    ensures first { length table.now < 256 → value_of result ≡ steps 192 (value_of tail) 8 (length table.now * 2 ^ 184) }
    ensures later { 256 ≤ length table.now
        → value_of result ≡ steps 192 (value_of tail) 8 (value_of (slice_index_or table.now (length table.now - 256) empty)) }
{
    let at = table.len();
    if at >= 256 {
        return eight_steps(tail, table[at - 256]);
    }
    let byte = Register {
        high: (at as u64) << 56,
        middle: 0,
        low: 0,
    };
    eight_steps(tail, byte)
}

/// The tables of the division by a mode's generator, 256 entries for each byte of a block, the last
/// byte's first.
pub(crate) fn table_of(alloc: Global, mode: Mode) -> Result<Vec<Register>, AllocError>
    ensures { IfOk result (λ v. IsTableFor (drop 1 (generator_of mode)) v.items) }
{
    let tail = tail_of(mode);
    let mut table = Vec::with_capacity(alloc, 2048)?;
    for _ in 0..2048u32 {
        let entry = next_entry(tail, &table);
        table.push(entry)?;
    }
    Ok(table)
}

/// 16 bits as a number, the first the highest.
fn pair_at(bits: &[bool], at: usize) -> u16
    requires { at + 16 ≤ length bits.now }
    ensures { result ≡ number_of (take 16 (drop at bits.now)) }
{
    (u16::from(byte_at(bits, at)) << 8) + u16::from(byte_at(bits, at + 8))
}

/// 32 bits as a number, the first the highest.
fn half_at(bits: &[bool], at: usize) -> u32
    requires { at + 32 ≤ length bits.now }
    ensures { result ≡ number_of (take 32 (drop at bits.now)) }
{
    (u32::from(pair_at(bits, at)) << 16) + u32::from(pair_at(bits, at + 16))
}

/// A block of 64 bits as a number, the first the highest.
fn block_at(bits: &[bool], at: usize) -> u64
    requires { at + 64 ≤ length bits.now }
    ensures { result ≡ number_of (take 64 (drop at bits.now)) }
{
    (u64::from(half_at(bits, at)) << 32) + u64::from(half_at(bits, at + 32))
}

/// What two bytes at the top of a register leave, with `behind` more bytes after them.
#[inline(always)]
fn carried_by_pair(table: &[Register], behind: usize, pair: u16) -> Register
    requires table { length table.now ≡ 2048 }
    requires behind { behind ≤ 6 }
    ensures { (t : List Bool) → IsTableFor t table.now
        → value_of result ≡ steps 192 (number_of t * 2 ^ (192 - length t)) (8 * behind + 16) (pair * 2 ^ 176) }
{
    let first = usize::from(pair >> 8);
    let second = usize::from(pair % 256);
    table[256 * (behind + 1) + first].plus(table[256 * behind + second])
}

/// What four bytes at the top of a register leave, with `behind` more bytes after them.
#[inline(always)]
fn carried_by_half(table: &[Register], behind: usize, half: u32) -> Register
    requires table { length table.now ≡ 2048 }
    requires behind { behind ≤ 4 }
    ensures { (t : List Bool) → IsTableFor t table.now
        → value_of result ≡ steps 192 (number_of t * 2 ^ (192 - length t)) (8 * behind + 32) (half * 2 ^ 160) }
{
    let first = carried_by_pair(table, behind + 2, (half >> 16) as u16);
    first.plus(carried_by_pair(table, behind, (half % 65536) as u16))
}

/// What a block at the top of a register leaves.
#[inline(always)]
fn carried_by_block(table: &[Register], block: u64) -> Register
    requires { length table.now ≡ 2048 }
    ensures { (t : List Bool) → IsTableFor t table.now
        → value_of result ≡ steps 192 (number_of t * 2 ^ (192 - length t)) 64 (block * 2 ^ 128) }
{
    let first = carried_by_half(table, 4, (block >> 32) as u32);
    first.plus(carried_by_half(table, 0, (block % 4294967296) as u32))
}

/// The register after a block more.
#[inline(always)]
fn feed_block(table: &[Register], register: Register, block: u64) -> Register
    requires { length table.now ≡ 2048 }
    ensures { (t : List Bool) → IsTableFor t table.now
        → value_of result ≡ steps 192 (number_of t * 2 ^ (192 - length t)) 64 (bit_xor (value_of register) (block * 2 ^ 128)) }
{
    register
        .up_a_block()
        .plus(carried_by_block(table, register.high ^ block))
}

/// The register after eight more bits.
fn feed(table: &[Register], register: Register, byte: u8) -> Register
    requires { length table.now ≡ 2048 }
    ensures { (t : List Bool) → IsTableFor t table.now
        → value_of result ≡ steps 192 (number_of t * 2 ^ (192 - length t)) 8 (bit_xor (value_of register) (byte * 2 ^ 184)) }
{
    let at = (register.high >> 56) as u8 ^ byte;
    register.up_a_byte().plus(table[usize::from(at)])
}

/// What the division of a message's whole blocks leaves.
fn divide_blocks(table: &[Register], message: &[bool]) -> Register
    requires { length table.now ≡ 2048 }
    ensures { (t : List Bool) → IsTableFor t table.now
        → Holds result (register_after t (replicate (length t) false) (take (64 * (length message.now / 64)) message.now)) }
{
    let mut register = Register {
        high: 0,
        middle: 0,
        low: 0,
    };
    for block in 0..message.len() / 64 {
        register = feed_block(table, register, block_at(message, 64 * block));
    }
    register
}

/// What the division of a message leaves.
fn divide(table: &[Register], message: &[bool]) -> Register
    requires table { length table.now ≡ 2048 }
    requires whole_bytes { length message.now ≡ 8 * (length message.now / 8) }
    ensures { (t : List Bool) → IsTableFor t table.now
        → Holds result (register_after t (replicate (length t) false) message.now) }
{
    let mut register = divide_blocks(table, message);
    for byte in 8 * (message.len() / 64)..message.len() / 8 {
        register = feed(table, register, byte_at(message, 8 * byte));
    }
    register
}

/// Puts the message and the rest of its division into the word.
pub(crate) fn encode_into(table: &[Register], message: &[bool], word: &mut [bool])
    requires table { length table.now ≡ 2048 }
    requires whole_bytes { length message.now ≡ 8 * (length message.now / 8) }
    requires more { length message.now ≤ length word.old }
    requires few { length word.old ≤ length message.now + 192 }
    ensures { (t : List Bool) → IsTableFor t table.now → length word.old ≡ length message.now + length t
        → IsWordOf (true ∷ t) message.now word.new }
{
    let (front, back) = word.split_at_mut(message.len());
    front.copy_from_slice(message);
    divide(table, message).write(back);
}

/// What the division leaves of a word with `front` bits of message.
pub(crate) fn rest(table: &[Register], word: &[bool], front: usize) -> Register
    requires table { length table.now ≡ 2048 }
    requires whole_bytes { front ≡ 8 * (front / 8) }
    requires more { front ≤ length word.now }
    requires few { length word.now ≤ front + 192 }
    ensures { (t : List Bool) → IsTableFor t table.now → length word.now ≡ front + length t
        → Holds result (rest_of t front word.now) }
{
    divide(table, &word[..front]).plus(Register::read(&word[front..]))
}
