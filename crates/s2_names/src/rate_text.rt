//! A symbol rate as text: digits, with or without a decimal point, and a power of ten.
ghost use Rattle.std.specs.Prelude.{◌≡◌, ◌≤◌, ◌++◌, ◌⊎◌, ℕ, List, Some, None, nat_le, if◌then◌else◌, IsSomeAnd, IfSome};
ghost use Rattle.std.specs.Char.{is_ascii_digit};
ghost use Rattle.std.specs.List.{AllPass, prefix_len};
ghost use Rattle.s2_names.specs.Rates.{max_rate};
ghost use Rattle.s2_names.specs.RateTexts.{AreDigits, HasFraction, IsScaled, number_after, power_of};

use crate::rate::MAX_RATE;

/// The number of digits at the front.
#[tactic(auto, using(crate::proofs::DigitTexts::digit_more, crate::proofs::DigitTexts::digits_stop, crate::proofs::DigitTexts::digits_end))]
fn digits_in(text: &[u8]) -> usize
    ensures { result ≡ prefix_len is_ascii_digit text.now }
{
    let mut digits = 0;
    'digits: for byte in text {
        if !byte.is_ascii_digit() {
            return digits;
        }
        digits += 1;
    }
    digits
}

/// The first digits of a text, and what follows them.
pub(crate) fn split_digits(text: &[u8]) -> Option<(&[u8], &[u8])>
    ensures parts { IfSome result (λ p. (text.now ≡ p.0.now ++ p.1.now) × AreDigits p.0.now) }
    ensures only { (whole rest : List ℕ) → text.now ≡ whole ++ rest → AreDigits whole → prefix_len is_ascii_digit rest ≡ 0
        → IsSomeAnd result (λ p. (p.0.now ≡ whole) × (p.1.now ≡ rest)) }
{
    match digits_in(text) {
        0 => None,
        digits => Some(text.split_at(digits)),
    }
}

/// The digits after a point, and what follows them. If there is no point, nothing is before the ending.
pub(crate) fn split_fraction(text: &[u8]) -> Option<(&[u8], &[u8])>
    ensures parts { IfSome result (λ p. HasFraction text.now p.0.now p.1.now) }
    ensures digits { IfSome result (λ p. AllPass is_ascii_digit p.0.now) }
    ensures only { (fraction ending : List ℕ) (power : ℕ) → HasFraction text.now fraction ending → power_of ending ≡ Some power
        → IsSomeAnd result (λ p. (p.0.now ≡ fraction) × (p.1.now ≡ ending)) }
{
    match text {
        [b'.', rest @ ..] => split_digits(rest),
        _ => Some(text.split_at(0)),
    }
}

/// The power of ten that ends a text.
pub(crate) fn power_of(ending: &[u8]) -> Option<usize>
    ensures value { result ≡ power_of ending.now }
    ensures most { IfSome result (λ power. power ≤ 9) }
{
    match ending {
        [] => Some(0),
        [b'k' | b'K'] => Some(3),
        [b'M'] => Some(6),
        [b'e' | b'E', digit] if digit.is_ascii_digit() => Some(usize::from(*digit - b'0')),
        _ => None,
    }
}

/// A number with these digits after its own, if it is at most [`MAX_RATE`].
fn with_digits(number: usize, digits: &[u8]) -> Option<usize>
    requires start { number ≤ max_rate }
    requires digits { AllPass is_ascii_digit digits.now }
    ensures { result ≡ (let all = number_after number digits.now in if nat_le all max_rate then Some all else None) }
{
    let mut all = number;
    'digits: for digit in digits {
        all = all * 10 + usize::from(*digit - b'0');
        if all > MAX_RATE {
            return None;
        }
    }
    Some(all)
}

/// The number of digits after the point that are before it, if the point moves this many places.
fn moved(digits: usize, power: usize) -> usize
    ensures within { result ≤ digits }
    ensures few { result ≤ power }
    ensures most { (digits ≡ result) ⊎ (power ≡ result) }
{
    if digits < power { digits } else { power }
}

/// The number of digits with a point before the last ones, times a power of ten, if it is whole and not too large.
pub(crate) fn scaled(whole: &[u8], fraction: &[u8], power: usize) -> Option<usize>
    requires whole { AllPass is_ascii_digit whole.now }
    requires fraction { AllPass is_ascii_digit fraction.now }
    requires power { power ≤ 9 }
    ensures value { IfSome result (IsScaled whole.now fraction.now power) }
    ensures only { (number : ℕ) → number ≤ max_rate → IsScaled whole.now fraction.now power number → result ≡ Some number }
{
    let moved = moved(fraction.len(), power);
    let (front, back) = fraction.split_at(moved);
    if with_digits(0, back)? != 0 {
        return None;
    }
    let number = with_digits(with_digits(0, whole)?, front)?;
    Some(number * 10usize.pow((power - moved) as u32))
}
