//! Four symbols in the lanes of a vector: their components, I before Q, as words of 16 bits in two's complement.
ghost use Rattle.std.specs.Prelude.{◌≡◌, ℕ, ◌+◌, ◌<◌, ◌≤◌, length, [], ◌∷◌};
ghost use Rattle.s2_mode.specs.declared.symbols.Symbol.{Symbol};
ghost use Rattle.s2_mode.specs.Symbols.{IsSymbol, symbol_at};
ghost use Rattle.s2_mode.specs.Lanes.{words_of};

use crate::symbols::Symbol;
use std::simd::prelude::*;

/// The words of the four symbols from a place on.
#[inline(always)]
pub fn words_from(symbols: &[Symbol], at: usize) -> u16x8
    requires { at + 4 ≤ length symbols.now }
    ensures a { IsSymbol (symbol_at symbols.now at) }
    ensures b { IsSymbol (symbol_at symbols.now (at + 1)) }
    ensures c { IsSymbol (symbol_at symbols.now (at + 2)) }
    ensures d { IsSymbol (symbol_at symbols.now (at + 3)) }
    ensures words { result ≡ words_of (symbol_at symbols.now at) (symbol_at symbols.now (at + 1))
        (symbol_at symbols.now (at + 2)) (symbol_at symbols.now (at + 3)) }
{
    u16x8::from_array([
        symbols[at].i.cast_unsigned(),
        symbols[at].q.cast_unsigned(),
        symbols[at + 1].i.cast_unsigned(),
        symbols[at + 1].q.cast_unsigned(),
        symbols[at + 2].i.cast_unsigned(),
        symbols[at + 2].q.cast_unsigned(),
        symbols[at + 3].i.cast_unsigned(),
        symbols[at + 3].q.cast_unsigned(),
    ])
}

/// The four symbols that have these words.
#[inline(always)]
pub fn symbols_from(words: u16x8) -> [Symbol; 4]
    ensures { (a b c d : Symbol) → IsSymbol a → IsSymbol b → IsSymbol c → IsSymbol d → words ≡ words_of a b c d
        → result ≡ a ∷ b ∷ c ∷ d ∷ [] }
{
    let [a, b, c, d, e, f, g, h] = words.to_array();
    [
        Symbol {
            i: a.cast_signed(),
            q: b.cast_signed(),
        },
        Symbol {
            i: c.cast_signed(),
            q: d.cast_signed(),
        },
        Symbol {
            i: e.cast_signed(),
            q: f.cast_signed(),
        },
        Symbol {
            i: g.cast_signed(),
            q: h.cast_signed(),
        },
    ]
}

/// Writes four symbols from a place on; all others stay.
#[inline(always)]
pub fn put_four(out: &mut [Symbol], at: usize, four: [Symbol; 4])
    requires { at + 4 ≤ length out.old }
    ensures long { length out.new ≡ length out.old }
    ensures before { (k : ℕ) → k < at → symbol_at out.new k ≡ symbol_at out.old k }
    ensures after { (k : ℕ) → at + 4 ≤ k → symbol_at out.new k ≡ symbol_at out.old k }
    ensures a { symbol_at out.new at ≡ symbol_at four 0 }
    ensures b { symbol_at out.new (at + 1) ≡ symbol_at four 1 }
    ensures c { symbol_at out.new (at + 2) ≡ symbol_at four 2 }
    ensures d { symbol_at out.new (at + 3) ≡ symbol_at four 3 }
{
    let [a, b, c, d] = four;
    out[at] = a;
    out[at + 1] = b;
    out[at + 2] = c;
    out[at + 3] = d;
}
