//! Noise on one symbol.
ghost use Rattle.std.specs.Prelude.{◌≡◌, ◌≤◌, ◌≤ℤ◌, ◌*◌, pos, negsuc, length};
ghost use Rattle.std.specs.Int.{w32, to_le_bytes};
ghost use Rattle.rand_core.specs.Pcg32Seed.{pcg32_seed};
ghost use Rattle.rand_pcg.specs.Pcg.{pcg32_of_seed};
ghost use Rattle.s2_channel.specs.Gaussian.{greatest_amplitude, nearest, gaussian_gain};
ghost use Rattle.s2_channel.specs.Noise.{draw, level_gain, gain, moved, add, drawn_for, noisy};
ghost use Rattle.s2_channel.specs.Table.{entry, total};
ghost use Rattle.s2_mode.specs.Symbols.{bytes_of_symbols};
ghost use Rattle.s2_channel.specs.declared.strength.Strength.TheVariants as by;

use crate::strength::Strength;
use crate::table::entry;
use rand_core::SeedableRng;
use rand_core::utils::NextWord;
use rand_pcg::Pcg32;
use s2_mode::Symbol;

/// The mean of the sum of eight bytes.
const MEAN_OF_EIGHT: i32 = 1020;

/// Noise of one strength. To contracts it is the strength, and the state of the generator of random words.
#[derive(Drop)]
pub struct Noise {
    strength: Strength,
    generator: Pcg32,
}

/// The sum of the four bytes of a word.
fn byte_sum(word: u32) -> i32
    ensures sum { result ≡ total pos (to_le_bytes w32 word) }
    ensures least { pos 0 ≤ℤ result }
    ensures most { result ≤ℤ pos 1020 }
{
    let [a, b, c, d] = word.to_le_bytes();
    i32::from(a) + i32::from(b) + i32::from(c) + i32::from(d)
}

/// The sum of the entries of the four bytes of a word.
fn entry_sum(word: u32) -> i32
    ensures sum { result ≡ total entry (to_le_bytes w32 word) }
    ensures least { negsuc 12759 ≤ℤ result }
    ensures most { result ≤ℤ pos 12760 }
{
    let [a, b, c, d] = word.to_le_bytes();
    (entry(a) + entry(b)) + (entry(c) + entry(d))
}

/// The sum that the noise of a component is made of.
#[tactic(auto, unfolding(crate::specs::Noise::draw))]
fn draw(strength: Strength, generator: &mut Pcg32) -> i32
    ensures drawn { (result, generator.new) ≡ draw strength generator.old }
    ensures least { negsuc 25519 ≤ℤ result }
    ensures most { result ≤ℤ pos 25520 }
{
    let first = generator.next_word();
    let second = generator.next_word();
    match strength {
        Strength::Level(_) => byte_sum(first) + byte_sum(second),
        Strength::EsN0(_) => entry_sum(first) + entry_sum(second),
    }
}

/// What a component gains by a sum of eight bytes.
#[tactic(auto, unfolding(crate::specs::Noise::level_gain))]
fn level_gain(noise_level: u16, sum: i32) -> i32
    requires least { negsuc 25519 ≤ℤ sum }
    requires most { sum ≤ℤ pos 25520 }
    ensures value { result ≡ level_gain noise_level sum }
    ensures least { negsuc 8388607 ≤ℤ result }
    ensures most { result ≤ℤ pos 8388608 }
{
    (sum - MEAN_OF_EIGHT) * i32::from(noise_level) / 256
}

/// The product of the size of a sum and an amplitude, to the nearest whole number.
fn scaled(amplitude: u32, size: u32) -> i32
    requires amplitude { amplitude ≤ greatest_amplitude }
    requires size { size ≤ 25520 }
    ensures value { result ≡ pos (nearest (size * amplitude)) }
    ensures most { result ≤ℤ pos 300000 }
{
    ((u64::from(size) * u64::from(amplitude) + (1 << 29)) >> 30) as i32
}

/// What a component gains by a sum of eight entries.
#[tactic(auto, unfolding(crate::specs::Gaussian::gaussian_gain))]
fn gaussian_gain(amplitude: u32, sum: i32) -> i32
    requires amplitude { amplitude ≤ greatest_amplitude }
    requires least { negsuc 25519 ≤ℤ sum }
    requires most { sum ≤ℤ pos 25520 }
    ensures value { result ≡ gaussian_gain amplitude sum }
    ensures least { negsuc 8388607 ≤ℤ result }
    ensures most { result ≤ℤ pos 8388608 }
{
    let size = scaled(amplitude, sum.unsigned_abs());
    if sum < 0 { -size } else { size }
}

/// What a component gains by the sum that was drawn.
fn gain(strength: Strength, sum: i32) -> i32
    requires least { negsuc 25519 ≤ℤ sum }
    requires most { sum ≤ℤ pos 25520 }
    ensures value { result ≡ gain strength sum }
    ensures least { negsuc 8388607 ≤ℤ result }
    ensures most { result ≤ℤ pos 8388608 }
{
    match strength {
        Strength::Level(noise_level) => level_gain(noise_level, sum),
        Strength::EsN0(esn0) => gaussian_gain(esn0.amplitude(), sum),
    }
}

/// A component with its gain, or the nearest number of 16 bits.
#[tactic(auto, unfolding(crate::specs::Noise::moved))]
fn moved(strength: Strength, component: i16, sum: i32) -> i16
    requires least { negsuc 25519 ≤ℤ sum }
    requires most { sum ≤ℤ pos 25520 }
    ensures { result ≡ moved strength component sum }
{
    let moved = i32::from(component) + gain(strength, sum);
    moved.clamp(-32768, 32767) as i16
}

impl Noise {
    /// Noise of this level, drawn from the generator of this seed. The standard deviation of what a component
    /// gains is 209.0 level / 256.
    pub fn new(seed: u64, level: u16) -> Noise
        ensures generator { result.generator ≡ pcg32_of_seed (pcg32_seed 16 seed) }
        ensures level { result.strength ≡ by.Level level }
    {
        Noise::of(seed, Strength::Level(level))
    }

    /// Noise of this strength, drawn from the generator of this seed.
    pub fn of(seed: u64, strength: Strength) -> Noise
        ensures generator { result.generator ≡ pcg32_of_seed (pcg32_seed 16 seed) }
        ensures strength { result.strength ≡ strength }
    {
        Noise {
            strength,
            generator: Pcg32::seed_from_u64(seed),
        }
    }

    /// The symbol with the noise that is drawn next, first for I, then for Q. Level 0 draws the same number of
    /// words as any other.
    #[tactic(auto, unfolding(crate::specs::Noise::add))]
    pub fn add(&mut self, symbol: Symbol) -> Symbol
        ensures drawn { (result, self.new.generator) ≡ add self.old.strength self.old.generator symbol }
        ensures strength { self.new.strength ≡ self.old.strength }
    {
        let i = draw(self.strength, &mut self.generator);
        let q = draw(self.strength, &mut self.generator);
        Symbol {
            i: moved(self.strength, symbol.i, i),
            q: moved(self.strength, symbol.q, q),
        }
    }

    /// Symbols with the noise that is drawn next, for one after another.
    pub fn add_to(&mut self, symbols: &mut [Symbol])
        ensures symbols { bytes_of_symbols symbols.new ≡ noisy self.old.strength self.old.generator symbols.old }
        ensures drawn { self.new.generator ≡ drawn_for self.old.strength (length symbols.old) self.old.generator }
        ensures strength { self.new.strength ≡ self.old.strength }
    {
        'add: for i in 0..symbols.len() {
            symbols[i] = self.add(symbols[i]);
        }
    }
}
