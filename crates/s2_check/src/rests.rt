//! What the rests (slacks) of a split prove about a word.
ghost use Rattle.std.specs.Prelude.{◌≡◌, ◌↔◌, IsTrue, pos, neg_ℤ, ◌≤ℤ◌, ◌*ℤ◌, if◌then◌else◌};

/// A sum of negative rests, and whether every rest in favour of the word is at least 1.
#[derive(Clone, Copy)]
pub(crate) struct Rests {
    pub(crate) negative: i64,
    pub(crate) strict: bool,
}

/// The bound that a split shows, and whether every rest in favour of the word is at least 1.
#[derive(Clone, Copy)]
pub(crate) struct Shown {
    pub(crate) bound: i64,
    pub(crate) strict: bool,
}

/// A scaled soft value.
#[inline(always)]
pub(crate) fn scaled(scale: u16, value: i16) -> i64
    ensures is { result ≡ pos scale *ℤ value }
    ensures low { neg_ℤ (pos 2147483648) ≤ℤ result }
    ensures high { result ≤ℤ pos 2147483648 }
{
    i64::from(scale) * i64::from(value)
}

/// Whether a rest is at least 1 in favour of a bit.
#[inline(always)]
pub(crate) fn is_favoured(rest: i64, one: bool) -> bool
    ensures { IsTrue result ↔ (pos 1 ≤ℤ (if one then neg_ℤ rest else rest)) }
{
    if one { rest <= -1 } else { rest >= 1 }
}
