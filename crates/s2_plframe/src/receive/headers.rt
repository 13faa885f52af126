//! The headers that a search looks for, and the tests of one window.
ghost use Rattle.std.specs.Prelude.{◌≡◌, ◌<◌};
ghost use Rattle.std.specs.Int.RustNames.{count_ones};
ghost use Rattle.s2_plframe.specs.Turns.{nearest_of};
ghost use Rattle.s2_plframe.specs.Inside.{AreApart, AreHeaders, is_dummy, found_by, wrong_in_dummy};

use crate::header::{dummy_code, pls_code};
use crate::receive::found::Found;
use crate::receive::registers::{header_number, is_near, low, wrong_in};
use s2_mode::Mode;

/// The headers of a mode and of dummy frames, as numbers. Two headers of dummy frames have the complement of the lowest
/// 64 bits of the other two: `opposite` has these bits set, and `apart` is their number.
#[derive(Clone, Copy)]
pub(crate) struct Headers {
    pub(crate) coded: u128,
    pub(crate) dummy: u128,
    pub(crate) dummy_pilots: u128,
    pub(crate) dummy_short: u128,
    pub(crate) dummy_both: u128,
    pub(crate) opposite: u64,
    pub(crate) apart: u32,
}

/// The number of bits in which two headers differ, if two others differ in the same ones, else 0.
fn apart_of(opposite: u64, other: u64) -> u32
    ensures { 0 < result → (opposite ≡ other) × (result ≡ count_ones opposite) }
{
    if opposite == other {
        opposite.count_ones()
    } else {
        0
    }
}

/// The headers that a search of this mode looks for.
pub(crate) fn headers_of(mode: Mode) -> Headers
    ensures headers { AreHeaders mode result.coded result.dummy result.dummy_pilots result.dummy_short result.dummy_both }
    ensures apart { AreApart result.dummy result.dummy_pilots result.dummy_short result.dummy_both result.opposite result.apart }
{
    let dummy = header_number(dummy_code(false, false));
    let dummy_pilots = header_number(dummy_code(false, true));
    let dummy_short = header_number(dummy_code(true, false));
    let dummy_both = header_number(dummy_code(true, true));
    let opposite = low(dummy ^ dummy_short);
    Headers {
        coded: header_number(pls_code(mode)),
        dummy,
        dummy_pilots,
        dummy_short,
        dummy_both,
        opposite,
        apart: apart_of(opposite, low(dummy_pilots ^ dummy_both)),
    }
}

/// Whether a window passes as a header of dummy frames.
#[inline(always)]
fn is_dummy(headers: &Headers, window: u128) -> bool
    ensures { result ≡ is_dummy headers.now.dummy headers.now.dummy_pilots headers.now.dummy_short headers.now.dummy_both window }
{
    is_near(headers.dummy, window)
        || is_near(headers.dummy_pilots, window)
        || is_near(headers.dummy_short, window)
        || is_near(headers.dummy_both, window)
}

/// What a window of 90 symbols is.
#[inline(always)]
pub(crate) fn found_by(headers: &Headers, window: u128) -> Found
    ensures { result ≡ found_by headers.now.coded headers.now.dummy headers.now.dummy_pilots headers.now.dummy_short headers.now.dummy_both window }
{
    if is_near(headers.coded, window) {
        Found::Coded
    } else if is_dummy(headers, window) {
        Found::Dummy
    } else {
        Found::Nothing
    }
}

/// The number of wrong bits for the nearest header of dummy frames.
pub(crate) fn wrong_in_dummy(headers: &Headers, window: u128) -> u32
    ensures { result ≡ wrong_in_dummy headers.now.dummy headers.now.dummy_pilots headers.now.dummy_short headers.now.dummy_both window }
{
    let long = wrong_in(headers.dummy, window).min(wrong_in(headers.dummy_pilots, window));
    let short = wrong_in(headers.dummy_short, window).min(wrong_in(headers.dummy_both, window));
    long.min(short)
}

/// The header that passes right after a frame, from the numbers of wrong bits for the mode's header and for a
/// dummy frame's, and the largest number allowed.
pub(crate) fn nearest_of(coded: u32, dummy: u32, lock: u32) -> Found
    ensures { result ≡ nearest_of coded dummy lock }
{
    if coded <= dummy {
        if coded <= lock {
            Found::Coded
        } else {
            Found::Nothing
        }
    } else if dummy <= lock {
        Found::Dummy
    } else {
        Found::Nothing
    }
}
