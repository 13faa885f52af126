//! How strong noise is.
ghost use Rattle.std.specs.Prelude.{◌≡◌, ◌↔◌, ◌≤◌, ◌*◌, ◌≤ℤ◌, ◌+ℤ◌, pos, negsuc, IsSome, IfSome};
ghost use Rattle.s2_channel.specs.Gaussian.{nearest, hundredth, greatest_amplitude, amplitude_at};

use std::marker::Model;

/// The lowest Es/N0, in hundredths of a dB.
pub const LEAST_ESN0: i32 = -1000;

/// The highest Es/N0, in hundredths of a dB.
pub const MAX_ESN0: i32 = 4000;

/// The amplitude at the lowest Es/N0: 700 · 10^(1/2) / 8364491.25^(1/2), times 2^30.
const GREATEST_AMPLITUDE: u32 = 821_822_722;

/// 10^(-1/2000), times 2^30.
const HUNDREDTH: u64 = 1_072_506_344;

/// An Es/N0 of -10 to 40 dB, in hundredths of a dB. Its value is the number of hundredths above -10 dB.
///
/// Es is the energy of a symbol, 2 · 700², and N0 twice the variance of the noise in each component before it is rounded.
#[derive(Clone, Copy, Debug, PartialEq, Eq)]
pub struct EsN0 {
    above: u16,
    amplitude: u32,
}

impl Model for EsN0 {
    ghost use Rattle.std.specs.Prelude.{◌≡◌, ◌≤◌, ℕ};
    ghost use Rattle.std.proofs.Common.{sym};
    ghost use Rattle.s2_channel.specs.Gaussian.{max_esn0, amplitude_at};

    ghost Value = { ℕ };

    ghost view = { λ e. e.above };

    ghost invariant = { λ e. (e.above ≤ max_esn0) × (e.amplitude ≡ amplitude_at e.above) };

    ghost inverse = { λ v. record { above = v; amplitude = amplitude_at v } };

    ghost inverse_ok = { λ e held. λ t. record { above = e.above; amplitude = sym held.1 t } };
}

/// The amplitude at an Es/N0 a hundredth of a dB higher.
fn at_next_hundredth(amplitude: u32) -> u32
    requires { amplitude ≤ greatest_amplitude }
    ensures value { result ≡ nearest (amplitude * hundredth) }
    ensures most { result ≤ greatest_amplitude }
{
    ((u64::from(amplitude) * HUNDREDTH + (1 << 29)) >> 30) as u32
}

/// The amplitude at an Es/N0 by its number of hundredths of a dB above -10 dB.
#[tactic(auto, unfolding(crate::specs::Gaussian::amplitude_at))]
fn amplitude_at(above: u16) -> u32
    ensures value { result ≡ amplitude_at above }
    ensures most { result ≤ greatest_amplitude }
{
    let mut amplitude = GREATEST_AMPLITUDE;
    'fall: for _hundredth in 0..above {
        amplitude = at_next_hundredth(amplitude);
    }
    amplitude
}

impl EsN0 {
    /// The Es/N0 with this number of hundredths of a dB, if it is in the range.
    pub fn new(hundredths: i32) -> Option<EsN0>
        ensures found { IsSome result ↔ ((negsuc 999 ≤ℤ hundredths) × (hundredths ≤ℤ pos 4000)) }
        ensures value { IfSome result (λ e. pos e ≡ hundredths +ℤ pos 1000) }
    {
        if hundredths < LEAST_ESN0 || hundredths > MAX_ESN0 {
            return None;
        }
        let above = (hundredths - LEAST_ESN0) as u16;
        Some(EsN0 {
            above,
            amplitude: amplitude_at(above),
        })
    }

    /// The factor of the sum of eight entries, times 2^30.
    pub(crate) fn amplitude(self) -> u32
        ensures value { result ≡ amplitude_at self }
        ensures most { result ≤ greatest_amplitude }
    {
        self.amplitude
    }
}

/// How strong noise is.
#[derive(Clone, Copy, Debug, PartialEq, Eq)]
pub enum Strength {
    /// Made of eight bytes for each component, of a standard deviation of 209.0 / 256 for each unit of this level.
    Level(u16),
    /// Nearly Gaussian, up to 8.8 standard deviations: made of eight entries of the table for each component.
    EsN0(EsN0),
}
