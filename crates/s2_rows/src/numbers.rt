//! Decimal numbers.
ghost use Rattle.std.specs.Prelude.{◌≡◌, ◌≤◌, min, IfSome};
ghost use Rattle.std.specs.Option.{option_map};
ghost use Rattle.s2_rows.specs.Numbers.{is_digit, natural_of};

/// Larger than any number that a file may hold. Still larger numbers are read as this one.
const TOO_LARGE: u32 = 1_000_000;

fn is_digit(b: u8) -> bool
    ensures { result ≡ is_digit b }
{
    b >= b'0' && b <= b'9'
}

/// The number of these digits, or `TOO_LARGE` if it is larger. `None` unless there is a byte and all bytes are digits.
pub fn natural(digits: &[u8]) -> Option<u32>
    ensures value { result ≡ option_map (min TOO_LARGE) (natural_of digits.now) }
    ensures most { IfSome result (λ n. n ≤ TOO_LARGE) }
{
    if digits.is_empty() {
        return None;
    }
    let mut n = 0u32;
    for b in digits {
        if !is_digit(*b) {
            return None;
        }
        n = (n * 10 + u32::from(*b - b'0')).min(TOO_LARGE);
    }
    Some(n)
}
