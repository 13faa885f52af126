//! The search in symbols that are held.
ghost use Rattle.std.specs.Prelude.{◌≡◌, ◌+◌, ◌^◌, ◌<◌, ◌≤◌, ◌&&◌, nat_eq, List, [], ◌∷◌, ◌++◌, length, false, true};
ghost use Rattle.s2_mode.specs.declared.symbols.Symbol.{Symbol as SymbolValue};
ghost use Rattle.s2_mode.specs.Limits.{header_symbols};
ghost use Rattle.s2_receive.specs.Limits.{max_symbols};
ghost use Rattle.s2_receive.specs.Meeting.{by_found};
ghost use Rattle.s2_receive.specs.Synchronization.{Candidate, NextCoded, Scans, found_last};
ghost use Rattle.s2_receive.specs.Windows.{Saw, found_as};

use crate::gap::Gap;
use s2_mode::{DUMMY_SYMBOLS, HEADER_SYMBOLS, Symbol};
use s2_plframe::{Found, HeaderTolerance, Search};

/// The place that a search reached in some symbols.
#[derive(Clone, Copy)]
pub(crate) struct Scan {
    /// The place at which a coded frame begins, or else the first at which one may still begin: it is after the
    /// symbols if a dummy frame reaches past them.
    pub(crate) place: usize,
    /// The symbols skipped before it.
    pub(crate) skipped: Gap,
    /// Whether a frame ended right before it.
    pub(crate) behind: bool,
    /// Whether a coded frame begins there.
    pub(crate) coded: bool,
}

/// Whether a place is the first one, and a frame ended right before it.
fn is_first(behind: bool, place: usize, start: usize) -> bool
    ensures { result ≡ (behind && nat_eq place start) }
{
    behind && place == start
}

/// Takes a symbol, and returns which header the last 90 are, right after a frame (`first`) or elsewhere.
fn found_with(
    search: &mut Search,
    max_header_errors: HeaderTolerance,
    symbol: Symbol,
    first: bool,
) -> Found
    ensures header { (seen : List SymbolValue) → Saw search.old seen → (first ≡ true → header_symbols ≤ length (seen ++ symbol ∷ []))
        → Saw search.new (seen ++ symbol ∷ []) × (result ≡ found_last (found_as search.old.sought max_header_errors first) (seen ++ symbol ∷ [])) }
    ensures same { search.new.sought ≡ search.old.sought }
{
    let found = search.feed(symbol);
    if first {
        return search.behind(max_header_errors);
    }
    found
}

/// Searches the header of a coded frame in symbols that begin at this one of the stream. The first n symbols belong
/// to a dummy frame. The symbols of dummy frames are left out; those at which nothing begins are skipped. Right after
/// a dummy frame, the header test is that right after a frame. The same holds at the first symbol, if n is 0 and
/// `behind` is true.
pub(crate) fn look_through(
    search: &mut Search,
    max_header_errors: HeaderTolerance,
    symbols: &[Symbol],
    from: u64,
    inside: usize,
    behind: bool,
    skipped: Gap,
) -> Scan
    requires size { length symbols.now ≤ 2 ^ 32 }
    requires place { from + length symbols.now ≤ max_symbols }
    requires skipped { skipped.symbols ≤ from }
    ensures scans { Scans (found_as search.old.sought max_header_errors) symbols.now from inside behind skipped result }
    ensures same { search.new.sought ≡ search.old.sought }
{
    let mut skipped = skipped;
    let mut start = inside;
    let mut at = inside;
    let mut behind = behind || inside > 0;
    search.restart();
    'look: while at < symbols.len() {
        let first = is_first(behind, at + 1, start + HEADER_SYMBOLS);
        let found = found_with(search, max_header_errors, symbols[at], first);
        at += 1;
        match found {
            Found::Nothing => {}
            Found::Coded => {
                let place = at - HEADER_SYMBOLS;
                return Scan {
                    place,
                    skipped: skipped.extended(from, start, place),
                    behind: first,
                    coded: true,
                };
            }
            Found::Dummy => {
                let place = at - HEADER_SYMBOLS;
                skipped = skipped.extended(from, start, place);
                start = place + DUMMY_SYMBOLS;
                at = start;
                behind = true;
                search.restart();
            }
        }
    }
    let place = start.max(symbols.len().saturating_sub(HEADER_SYMBOLS - 1));
    Scan {
        place,
        skipped: skipped.extended(from, start, place),
        behind: is_first(behind, place, start),
        coded: false,
    }
}

/// Whether a header is that of a coded frame.
fn is_coded(found: Found) -> bool
    ensures { result ≡ by_found found true false false }
{
    match found {
        Found::Coded => true,
        Found::Dummy => false,
        Found::Nothing => false,
    }
}

/// Whether there is a header.
fn is_header(found: Found) -> bool
    ensures { result ≡ by_found found true true false }
{
    match found {
        Found::Coded => true,
        Found::Dummy => true,
        Found::Nothing => false,
    }
}

/// Which header these 90 symbols are, by the usual test.
fn header_of(search: &mut Search, max_header_errors: HeaderTolerance, symbols: &[Symbol]) -> Found
    requires { length symbols.now ≡ header_symbols }
    ensures is { result ≡ found_as search.old.sought max_header_errors false symbols.now }
    ensures same { search.new.sought ≡ search.old.sought }
{
    let mut found = Found::Nothing;
    let mut at = 0;
    search.restart();
    'look: while at < symbols.len() {
        found = found_with(search, max_header_errors, symbols[at], false);
        at += 1;
    }
    found
}

/// The first place from `start` on and before another at which the header of a coded frame begins, by the usual
/// test. If there is none, it is that other place.
fn next_coded(
    search: &mut Search,
    max_header_errors: HeaderTolerance,
    symbols: &[Symbol],
    start: usize,
    before: usize,
) -> usize
    requires size { length symbols.now ≤ 2 ^ 32 }
    requires places { (start ≤ before) × (before ≤ 2 ^ 32) }
    ensures next { NextCoded (found_as search.old.sought max_header_errors) symbols.now start before result }
    ensures same { search.new.sought ≡ search.old.sought }
{
    let end = symbols.len().min(before + HEADER_SYMBOLS - 1);
    let mut at = start;
    search.restart();
    'look: while at < end {
        let found = found_with(search, max_header_errors, symbols[at], false);
        at += 1;
        if is_coded(found) {
            return at - HEADER_SYMBOLS;
        }
    }
    before
}

/// The first place before another at which the search may resume in symbols that begin in a lost frame: the header
/// of a coded frame begins there. If there is none, it is that other place. At the first place another header must
/// begin one frame's size later, unless the stream ends before.
pub(crate) fn first_candidate(
    search: &mut Search,
    max_header_errors: HeaderTolerance,
    symbols: &[Symbol],
    size: usize,
    before: usize,
) -> usize
    requires long { length symbols.now ≤ size + header_symbols }
    requires size { (header_symbols ≤ size) × (size ≤ 2 ^ 31) }
    requires places { (1 ≤ before) × (before < size) }
    ensures candidate { Candidate (found_as search.old.sought max_header_errors) size before symbols.now result }
    ensures same { search.new.sought ≡ search.old.sought }
{
    let first = next_coded(search, max_header_errors, symbols, 0, before);
    if first > 0 || symbols.len() < size + HEADER_SYMBOLS {
        return first;
    }
    let found = header_of(search, max_header_errors, &symbols[size..]);
    if is_header(found) {
        return first;
    }
    next_coded(search, max_header_errors, symbols, 1, before)
}
