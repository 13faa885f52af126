//! Whether frames have the same symbols.
ghost use Rattle.std.specs.Prelude.{◌≡◌, ◌+◌, ◌*◌};
ghost use Rattle.std.specs.Int.{cast_unsigned, w16};
ghost use Rattle.s2_stitch.specs.Recalling.{are_same, is_same};

use s2_mode::Symbol;

/// Both components of a symbol in one word, I in its lower half.
fn word_of(symbol: Symbol) -> u32
    ensures { result ≡ cast_unsigned w16 symbol.q * 65536 + cast_unsigned w16 symbol.i }
{
    u32::from(symbol.q.cast_unsigned()) * 65536 + u32::from(symbol.i.cast_unsigned())
}

/// Whether two symbols are equal: their words are.
fn is_same(a: Symbol, b: Symbol) -> bool
    ensures { result ≡ is_same a b }
{
    word_of(a) == word_of(b)
}

/// Whether these are the same symbols. It compares all of them, without a branch, so that a compiler can use lanes.
pub(crate) fn are_same(own: &[Symbol], symbols: &[Symbol]) -> bool
    ensures { result ≡ are_same own.now symbols.now }
{
    if own.len() != symbols.len() {
        return false;
    }
    let mut same = true;
    'symbols: for k in 0..own.len() {
        same &= is_same(own[k], symbols[k]);
    }
    same
}
