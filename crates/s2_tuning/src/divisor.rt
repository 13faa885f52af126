//! The divisor of soft values that a user asks for.
ghost use Rattle.std.specs.Prelude.{◌≡◌, ◌↔◌, IsSome, IfSome};
ghost use Rattle.s2_soft.specs.Divisors.{IsDivisor};
ghost use Rattle.s2_tuning.specs.Divisor.{divisor_by};

use crate::best::best_of;
use crate::wanted::{Number, number_by};
use s2_mode::Mode;
use s2_soft::Divisor;

/// The divisor of a receiver of a mode: the number if it is given, else the best one if that is requested, else the
/// default. It is that of [`crate::tuning_by`] with the same words. `None` if it is no divisor.
pub fn divisor_by(mode: &Mode, tuned: bool, number: Number) -> Option<Divisor>
    ensures found { IsSome result ↔ IsDivisor (divisor_by mode.now tuned number) }
    ensures value { IfSome result (λ d. d ≡ divisor_by mode.now tuned number) }
{
    Divisor::new(number_by(tuned, number, best_of(mode).divisor))
}
