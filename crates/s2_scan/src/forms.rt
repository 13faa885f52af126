//! The forms of a recording: the byte order, and the orientation by rotation and conjugation.
ghost use Rattle.std.specs.Prelude.{◌≡◌, ◌+◌, ◌*◌, ◌<◌, ◌≤◌, ◌==◌, ℕ, false, not, length};
ghost use Rattle.std.specs.Int.{bit_at as digit};
ghost use Rattle.s2_mode.specs.Symbols.{symbol_of};
ghost use Rattle.s2_plframe.specs.Header.{header_bit, dummy_mode};
ghost use Rattle.s2_plframe.specs.Inside.{held, IsHeader};
ghost use Rattle.s2_scan.specs.Forms.{undo, symbol_in};
ghost use Rattle.s2_scan.specs.Inside.{decisions_by, sof_at, NoneMatches};
ghost use Rattle.s2_scan.specs.Passing.{matches_sof};

use s2_mode::Symbol;
use s2_plframe::Signs;

/// The number of forms: two byte orders, and eight orientations.
pub(crate) const FORMS: usize = 16;

/// The number of orientations.
pub(crate) const ORIENTATIONS: usize = 8;

/// The largest number of wrong bits of the start of frame.
const SOF_THRESHOLD: u32 = 4;

/// The symbol of four bytes, big endian.
#[inline(always)]
fn symbol_of(a: u8, b: u8, c: u8, d: u8) -> Symbol
    ensures { result ≡ symbol_of a b c d }
{
    Symbol {
        i: i16::from_be_bytes([a, b]),
        q: i16::from_be_bytes([c, d]),
    }
}

/// A symbol of a recording in a byte order.
#[tactic(auto, unfolding(crate::specs::Forms::symbol_in))]
#[inline(always)]
pub(crate) fn symbol_in(little: bool, bytes: &[u8], k: usize) -> Symbol
    requires { 4 * k + 4 ≤ length bytes.now }
    ensures { result ≡ symbol_in little bytes.now k }
{
    let at = 4 * k;
    let (a, b, c, d) = (bytes[at], bytes[at + 1], bytes[at + 2], bytes[at + 3]);
    if little {
        symbol_of(b, a, d, c)
    } else {
        symbol_of(a, b, c, d)
    }
}

/// All bits of a register negated.
#[inline(always)]
fn negated(register: u128) -> u128
    ensures { (j : ℕ) → j < 128 → (digit result j == 1) ≡ not (digit register j == 1) }
{
    !register
}

/// The signs of a recording whose orientation is undone.
#[inline(always)]
pub(crate) fn undo(orientation: usize, signs: Signs) -> Signs
    requires { orientation < 8 }
    ensures { (j : ℕ) → j < 128 → held result.odd result.even j ≡ undo orientation (held signs.odd signs.even j) }
{
    let Signs { odd, even } = signs;
    match orientation {
        0 => Signs { odd, even },
        1 => Signs {
            odd: negated(even),
            even: odd,
        },
        2 => Signs {
            odd: negated(odd),
            even: negated(even),
        },
        3 => Signs {
            odd: even,
            even: negated(odd),
        },
        4 => Signs {
            odd: negated(even),
            even: negated(odd),
        },
        5 => Signs {
            odd,
            even: negated(even),
        },
        6 => Signs {
            odd: even,
            even: odd,
        },
        _ => Signs {
            odd: negated(odd),
            even,
        },
    }
}

/// Whether the start of frame matches in a window.
#[inline(always)]
pub(crate) fn is_sof(header: u128, window: u128) -> bool
    ensures { result ≡ sof_at header window }
{
    ((header ^ window) >> 64).count_ones() <= SOF_THRESHOLD
}

/// Whether the start of frame matches in signs whose orientation is undone.
#[inline(always)]
fn matches_sof(header: u128, orientation: usize, signs: Signs) -> bool
    requires header { IsHeader (header_bit (dummy_mode false false)) header }
    requires orientation { orientation < 8 }
    ensures { result ≡ matches_sof (decisions_by orientation signs.odd signs.even) }
{
    is_sof(header, undo(orientation, signs).window())
}

/// Whether the start of frame may match in some orientation.
#[inline(always)]
pub(crate) fn may_match(header: u128, signs: Signs) -> bool
    requires { IsHeader (header_bit (dummy_mode false false)) header }
    ensures { result ≡ false → NoneMatches signs.odd signs.even }
{
    let mut any = false;
    for orientation in 0..ORIENTATIONS {
        any = any | matches_sof(header, orientation, signs);
    }
    any
}
