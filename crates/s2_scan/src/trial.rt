//! Scrambling numbers, tried on pilots.
ghost use Rattle.std.specs.Prelude.{◌≡◌, ◌<◌};
ghost use Rattle.s2_scramble.specs.Gold.{quarter_turns, x, y};
ghost use Rattle.s2_scramble.specs.Sequence.{HoldsFirst};
ghost use Rattle.s2_scan.specs.Inside.{AreWithin, IsWithin};
ghost use Rattle.s2_scan.specs.Pilots as by;

use crate::pilots::{PILOTS, pilot_place};
use crate::sums::{NO_SUM, Sum, energy, plus, turned_back};
use s2_scramble::tables::{HALF, PERIOD};

/// How many scrambling numbers there are.
const NUMBERS: usize = 262_142;

/// A scrambling number, and the energy of the pilots that it rotates back, added up.
#[derive(Clone, Copy)]
struct Trial {
    number: usize,
    energy: u64,
}

/// R(i) of a scrambling number: by how many quarter turns symbol i after the header is rotated.
#[inline(always)]
fn quarter(x_bits: &[bool], y_bits: &[bool], number: usize, i: usize) -> u8
    requires x_bits { HoldsFirst x 262143 x_bits.now }
    requires y_bits { HoldsFirst y 164264 y_bits.now }
    requires number { number < 262142 }
    requires i { i < 3042 }
    ensures { result ≡ quarter_turns number i }
{
    let low = x_bits[(i + number) % PERIOD] ^ y_bits[i];
    let high = x_bits[(i + HALF + number) % PERIOD] ^ y_bits[i + HALF];
    2 * u8::from(high) + u8::from(low)
}

/// Pilots rotated back by the quarter turns of a scrambling number, and added up.
fn descrambled(pilots: &[Sum], x_bits: &[bool], y_bits: &[bool], number: usize) -> Sum
    requires pilots { AreWithin pilots.now }
    requires x_bits { HoldsFirst x 262143 x_bits.now }
    requires y_bits { HoldsFirst y 164264 y_bits.now }
    requires number { number < 262142 }
    ensures is { result ≡ by.descrambled pilots.now number }
    ensures within { IsWithin 37748736 result }
{
    let mut sum = NO_SUM;
    for k in 0..PILOTS {
        let quarters = quarter(x_bits, y_bits, number, pilot_place(k));
        sum = plus(sum, turned_back(quarters, pilots[k]));
    }
    sum
}

/// A scrambling number, tried on pilots.
#[tactic(auto, unfolding(crate::specs::Pilots::energy_under))]
fn tried(pilots: &[Sum], x_bits: &[bool], y_bits: &[bool], number: usize) -> Trial
    requires pilots { AreWithin pilots.now }
    requires x_bits { HoldsFirst x 262143 x_bits.now }
    requires y_bits { HoldsFirst y 164264 y_bits.now }
    requires number { number < 262142 }
    ensures number { result.number ≡ number }
    ensures energy { result.energy ≡ by.energy_under pilots.now number }
{
    Trial {
        number,
        energy: energy(descrambled(pilots, x_bits, y_bits, number)),
    }
}

/// The scrambling number that rotates pilots back best, of equally good ones the least.
pub(crate) fn best_of(pilots: &[Sum], x_bits: &[bool], y_bits: &[bool]) -> usize
    requires pilots { AreWithin pilots.now }
    requires x_bits { HoldsFirst x 262143 x_bits.now }
    requires y_bits { HoldsFirst y 164264 y_bits.now }
    ensures { by.IsBest pilots.now by.numbers result }
{
    let mut best = tried(pilots, x_bits, y_bits, 0);
    for number in 1..NUMBERS {
        let other = tried(pilots, x_bits, y_bits, number);
        if best.energy < other.energy {
            best = other;
        }
    }
    best.number
}
