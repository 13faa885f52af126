//! Whether every soft value is at least 1 in favour of a word.
ghost use Rattle.std.specs.Prelude.{◌≡◌, ◌<◌, ◌↔◌, ℕ, IsTrue, length, pos, neg_ℤ, ◌≤ℤ◌, if◌then◌else◌};
ghost use Rattle.s2_check.specs.Cost.{value_at};
ghost use Rattle.s2_check.specs.Moves.{in_favour};

/// Whether a soft value is at least 1 in favour of a bit.
#[inline(always)]
fn favours(value: i16, one: bool) -> bool
    ensures { IsTrue result ↔ (pos 1 ≤ℤ (if one then neg_ℤ value else value)) }
{
    if one { value <= -1 } else { value >= 1 }
}

/// Whether every soft value in favour of the word is at least 1.
pub(crate) fn all_favour(soft: &[i16], word: &[bool]) -> bool
    requires { length word.now ≡ length soft.now }
    ensures { IsTrue result ↔ ((i : ℕ) → i < length soft.now → pos 1 ≤ℤ in_favour word.now i (value_at soft.now i)) }
{
    let mut strict = true;
    for i in 0..soft.len() {
        strict &= favours(soft[i], word[i]);
    }
    strict
}
