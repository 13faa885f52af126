//! The search for frames.
ghost use Rattle.std.specs.Prelude.{◌≡◌, ℕ, ◌+◌, ◌<◌, ◌%◌, ◌==◌, if◌then◌else◌, [], ◌∷◌, ◌++◌, length, map, true, false};
ghost use Rattle.s2_mode.specs.Limits.{header_symbols};
ghost use Rattle.s2_plframe.specs.Header.{header_bit};
ghost use Rattle.s2_plframe.specs.Search.{decision, matches_header};
ghost use Rattle.s2_plframe.specs.Turns.{sides, opposite_decision, found_in, behind_in, first_least, wrong_at};
ghost use Rattle.s2_plframe.specs.declared.receive.found.Found.TheVariants as founds;
ghost use Rattle.s2_plframe.specs.Inside.{held};

use crate::constants::HEADER_THRESHOLD;
use crate::header::{header_bit, pls_code};
use crate::receive::found::Found;
use crate::receive::headers::{Headers, found_by, headers_of, nearest_of, wrong_in_dummy};
use crate::receive::registers::{Signs, wrong_in};
use crate::receive::rotations::{
    found_turned, least_wrong, least_wrong_dummy, turn_by, windows_of,
};
use crate::receive::tolerance::HeaderTolerance;
use s2_mode::{HEADER_SYMBOLS, Mode, Symbol};
use std::marker::Model;

/// A symbol's bit as the first, third and so on of a header.
#[inline(always)]
pub(crate) fn says_odd(symbol: Symbol) -> bool
    ensures { result ≡ (decision symbol).odd }
{
    i32::from(symbol.i) + i32::from(symbol.q) < 0
}

/// A symbol's bit as one of the others.
#[inline(always)]
pub(crate) fn says_even(symbol: Symbol) -> bool
    ensures { result ≡ (decision symbol).even }
{
    i32::from(symbol.q) - i32::from(symbol.i) < 0
}

/// A symbol's bit as the first, third and so on of a header, after a rotation by two quarters.
#[inline(always)]
pub(crate) fn opposite_odd(symbol: Symbol) -> bool
    ensures { result ≡ (opposite_decision symbol).odd }
{
    i32::from(symbol.i) + i32::from(symbol.q) > 0
}

/// A symbol's bit as one of the others, after a rotation by two quarters.
#[inline(always)]
pub(crate) fn opposite_even(symbol: Symbol) -> bool
    ensures { result ≡ (opposite_decision symbol).even }
{
    i32::from(symbol.q) - i32::from(symbol.i) > 0
}

/// A symbol's bit as symbol `k` of a header.
fn says_at(k: usize, symbol: Symbol) -> bool
    ensures { result ≡ (if k % 2 == 0 then (decision symbol).odd else (decision symbol).even) }
{
    if k % 2 == 0 {
        says_odd(symbol)
    } else {
        says_even(symbol)
    }
}

/// Whether 90 symbols pass as a header of this mode: at most 12 of their decided bits differ from it. Bit `k`,
/// counted from 1, is decided as one if I + Q < 0 (odd `k`) or Q - I < 0 (even `k`).
pub fn header_matches(mode: Mode, symbols: &[Symbol; HEADER_SYMBOLS]) -> bool
    ensures { result ≡ matches_header (header_bit mode) (map decision symbols.now) }
{
    let code = pls_code(mode);
    let mut different = 0u32;
    for k in 0..HEADER_SYMBOLS {
        different += u32::from(says_at(k, symbols[k]) ^ header_bit(code, k));
    }
    different <= HEADER_THRESHOLD
}

/// The opposite signs after one more symbol: none if only one rotation is sought.
#[inline(always)]
fn opposite_after(turns: bool, signs: Signs, symbol: Symbol) -> Signs
    requires none { turns ≡ false → (signs.odd ≡ 0) × (signs.even ≡ 0) }
    ensures newest { held result.odd result.even 0 ≡ (sides turns symbol).opposite }
    ensures others { (j : ℕ) → j < 127 → held result.odd result.even (j + 1) ≡ held signs.odd signs.even j }
    ensures none { turns ≡ false → (result.odd ≡ 0) × (result.even ≡ 0) }
{
    if turns {
        signs.with_opposite(symbol)
    } else {
        signs
    }
}

/// The search for the header of a mode's frames, symbol by symbol, as sent or in all four rotations. Its
/// value is the frames that it seeks, and the decisions on the last symbols, at most 90, since it was made or restarted.
#[derive(Drop)]
pub struct Search {
    mode: Mode,
    turns: bool,
    headers: Headers,
    straight: Signs,
    opposite: Signs,
    count: usize,
}

impl Model for Search {
    ghost use Rattle.std.specs.Prelude.{◌≤◌};
    ghost use Rattle.s2_plframe.specs.Turns.{Search as SearchValue, search_of, sought_of};
    ghost use Rattle.s2_plframe.specs.Inside.{sides_list, IsSearch};

    ghost Value = { SearchValue };

    ghost view = { λ s. search_of (sought_of s.mode s.turns) (sides_list s.straight.odd s.straight.even s.opposite.odd s.opposite.even s.count) };

    ghost invariant = { λ s. IsSearch s.mode s.turns s.headers.coded s.headers.dummy s.headers.dummy_pilots
        s.headers.dummy_short s.headers.dummy_both s.headers.opposite s.headers.apart s.opposite.odd s.opposite.even s.count };
}

impl Search {
    ghost use Rattle.s2_plframe.specs.Turns.{search_of, sought_of, recent};

    /// A search for frames of a mode, before its first symbol; with `turns` also for those whose symbols arrived rotated
    /// by quarters.
    pub fn new(mode: Mode, turns: bool) -> Search
        ensures { result ≡ search_of (sought_of mode turns) [] }
    {
        Search {
            mode,
            turns,
            headers: headers_of(mode),
            straight: Signs { odd: 0, even: 0 },
            opposite: Signs { odd: 0, even: 0 },
            count: 0,
        }
    }

    /// Begins again, as if no symbol had come.
    pub fn restart(&mut self)
        ensures { self.new ≡ search_of self.old.sought [] }
    {
        self.count = 0;
    }

    /// Takes the next symbol, and returns what the last 90 are: a header of the mode's frames, one of dummy
    /// frames of any TYPE, or nothing. If fewer came, it is nothing. A header passes with at most 12 wrong bits. If
    /// all rotations are sought, those of the rotation with the fewest count. In one rotation no symbols pass as
    /// both ([`crate::laws::apart`]).
    pub fn feed(&mut self, symbol: Symbol) -> Found
        ensures seen { self.new ≡ search_of self.old.sought (recent (self.old.seen ++ sides self.old.sought.turns symbol ∷ [])) }
        ensures found { result ≡ found_in self.old.sought (recent (self.old.seen ++ sides self.old.sought.turns symbol ∷ [])) }
    {
        self.straight = self.straight.with(symbol);
        self.opposite = opposite_after(self.turns, self.opposite, symbol);
        self.count = (self.count + 1).min(HEADER_SYMBOLS);
        if self.count < HEADER_SYMBOLS {
            return Found::Nothing;
        }
        if self.turns {
            return found_turned(&self.headers, windows_of(self.straight, self.opposite));
        }
        found_by(&self.headers, self.straight.window())
    }

    /// What the last 90 symbols are if they come right after a frame: the nearest header passes, if its wrong
    /// bits are at most the lock's number. If fewer symbols came, it is nothing.
    pub fn behind(&self, lock: HeaderTolerance) -> Found
        ensures found { length self.now.seen ≡ header_symbols → result ≡ behind_in self.now.sought lock self.now.seen }
        ensures early { length self.now.seen < header_symbols → result ≡ founds.Nothing }
    {
        if self.count < HEADER_SYMBOLS {
            return Found::Nothing;
        }
        if self.turns {
            let windows = windows_of(self.straight, self.opposite);
            let coded = least_wrong(self.headers.coded, windows);
            return nearest_of(coded, least_wrong_dummy(&self.headers, windows), lock.get());
        }
        let window = self.straight.window();
        let coded = wrong_in(self.headers.coded, window);
        nearest_of(coded, wrong_in_dummy(&self.headers, window), lock.get())
    }

    /// The rotation of the last 90 symbols: after rotating back by it, their bits differ in the fewest places
    /// from the mode's header.
    pub(crate) fn turn(&self) -> u8
        requires turns { self.now.sought.turns ≡ true }
        requires full { length self.now.seen ≡ header_symbols }
        ensures is { result ≡ first_least (wrong_at self.now.sought.mode self.now.seen) }
        ensures few { result < 4 }
    {
        turn_by(self.headers.coded, windows_of(self.straight, self.opposite))
    }
}
