//! Decimal numbers of a report.
ghost use Rattle.std.specs.Prelude.{◌≡◌, ◌≤◌, ◌<◌, min, IfSome};
ghost use Rattle.std.specs.Option.{option_map};
ghost use Rattle.s2_mode.specs.Limits.{max_symbols};
ghost use Rattle.s2_rows.specs.Numbers.{is_digit, natural_of};
ghost use Rattle.s2_report.specs.Entries.{number_in};

use s2_mode::MAX_SYMBOLS;

fn is_digit(b: u8) -> bool
    ensures { result ≡ is_digit b }
{
    b >= b'0' && b <= b'9'
}

/// The number of these digits, or the limit if it is larger. `None` unless there is a byte and all bytes are digits.
fn natural(digits: &[u8]) -> Option<u64>
    ensures value { result ≡ option_map (min max_symbols) (natural_of digits.now) }
    ensures most { IfSome result (λ n. n ≤ max_symbols) }
{
    if digits.is_empty() {
        return None;
    }
    let mut n = 0u64;
    'digits: for b in digits {
        if !is_digit(*b) {
            return None;
        }
        n = (n * 10 + u64::from(*b - b'0')).min(MAX_SYMBOLS);
    }
    Some(n)
}

/// The number that a word says in decimal digits, if it is below 2^40.
pub(crate) fn read_number(word: &[u8]) -> Option<u64>
    ensures value { result ≡ number_in word.now }
    ensures few { IfSome result (λ n. n < max_symbols) }
{
    match natural(word) {
        Some(n) if n < MAX_SYMBOLS => Some(n),
        _ => None,
    }
}
