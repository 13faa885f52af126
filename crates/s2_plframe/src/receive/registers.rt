//! Bits of a header in registers of 128 bits; the last bit is the lowest.
ghost use Rattle.std.specs.Prelude.{◌≡◌, ℕ, ◌+◌, ◌-◌, ◌*◌, ◌^◌, ◌%◌, ◌<◌, ◌==◌, Bool, if◌then◌else◌};
ghost use Rattle.std.specs.Int.{bit_at as digit};
ghost use Rattle.s2_mode.specs.Limits.{header_symbols};
ghost use Rattle.s2_mode.specs.Mode.{mode_of};
ghost use Rattle.s2_bits.specs.Bits.{number};
ghost use Rattle.s2_plframe.specs.Header.{header_bit};
ghost use Rattle.s2_plframe.specs.Search.{decision};
ghost use Rattle.s2_plframe.specs.Turns.{opposite_decision};
ghost use Rattle.s2_plframe.specs.Inside.{held, held_list, IsHeader, IsWindow, is_near, wrong_in};

use crate::constants::HEADER_THRESHOLD;
use crate::header::{PlsCode, header_bit};
use crate::receive::search::{opposite_even, opposite_odd, says_even, says_odd};
use s2_mode::{HEADER_SYMBOLS, Symbol};

/// The places of a header's first, third and so on bit in a register.
const ODD: u128 = 0x2AA_AAAA_AAAA_AAAA_AAAA_AAAA;

/// The other places.
const EVEN: u128 = 0x155_5555_5555_5555_5555_5555;

/// A register with one bit more.
#[inline(always)]
pub(crate) fn pushed(register: u128, bit: bool) -> u128
    ensures newest { digit result 0 ≡ number bit }
    ensures others { (j : ℕ) → j < 127 → digit result (j + 1) ≡ digit register j }
    ensures is { register < 2 ^ 127 → result ≡ 2 * register + number bit }
{
    (register << 1) + u128::from(bit)
}

/// The decided bits of a window: those of one register at the odd places, those of the other at the even ones.
#[inline(always)]
pub(crate) fn mixed(odd: u128, even: u128) -> u128
    ensures small { result < 2 ^ header_symbols }
    ensures bits { (k : ℕ) → k < header_symbols → digit result (header_symbols - 1 - k) ≡ (if k % 2 == 0 then digit odd (header_symbols - 1 - k) else digit even (header_symbols - 1 - k)) }
{
    (odd & ODD) | (even & EVEN)
}

/// The signs of the last symbols, in two registers whose lowest bit is the last symbol's. `odd` has the symbols' bits
/// as the first, third and so on of a header, `even` those as the others.
#[derive(Clone, Copy, Debug, PartialEq, Eq)]
pub struct Signs {
    pub odd: u128,
    pub even: u128,
}

impl Signs {
    /// The signs after one more symbol.
    #[inline(always)]
    pub fn with(self, symbol: Symbol) -> Signs
        ensures newest { held result.odd result.even 0 ≡ decision symbol }
        ensures others { (j : ℕ) → j < 127 → held result.odd result.even (j + 1) ≡ held self.odd self.even j }
    {
        let odd = pushed(self.odd, says_odd(symbol));
        let even = pushed(self.even, says_even(symbol));
        Signs { odd, even }
    }

    /// The signs after one more symbol, which is rotated by two quarters.
    #[inline(always)]
    pub(crate) fn with_opposite(self, symbol: Symbol) -> Signs
        ensures newest { held result.odd result.even 0 ≡ opposite_decision symbol }
        ensures others { (j : ℕ) → j < 127 → held result.odd result.even (j + 1) ≡ held self.odd self.even j }
    {
        let odd = pushed(self.odd, opposite_odd(symbol));
        let even = pushed(self.even, opposite_even(symbol));
        Signs { odd, even }
    }

    /// The decided bits of the last 90 symbols as a number; the first one's is the highest. Each symbol's bit is that
    /// of its place in a header.
    #[inline(always)]
    pub fn window(self) -> u128
        ensures { IsWindow (held_list self.odd self.even header_symbols) result }
    {
        mixed(self.odd, self.even)
    }
}

/// The lowest 64 bits.
#[inline(always)]
pub(crate) fn low(number: u128) -> u64
    ensures { result ≡ number % 2 ^ 64 }
{
    (number % (1 << 64)) as u64
}

/// Whether a window passes as a header: at most 12 bits differ.
#[inline(always)]
pub(crate) fn is_near(header: u128, window: u128) -> bool
    ensures { result ≡ is_near header window }
{
    (header ^ window).count_ones() <= HEADER_THRESHOLD
}

/// How many bits of a window differ from a header.
#[inline(always)]
pub fn wrong_in(header: u128, window: u128) -> u32
    ensures { result ≡ wrong_in header window }
{
    (header ^ window).count_ones()
}

/// The 90 bits of a header as a number; the first bit is the highest.
pub fn header_number(code: PlsCode) -> u128
    ensures { IsHeader (header_bit (mode_of code.modcod code.short code.pilots)) result }
{
    let mut number = 0u128;
    for k in 0..HEADER_SYMBOLS {
        number = pushed(number, header_bit(code, k));
    }
    number
}
