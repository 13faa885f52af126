//! The headers that are looked for.
ghost use Rattle.std.specs.Prelude.{◌≡◌, ◌<◌, length};
ghost use Rattle.s2_mode.specs.Mode.{mode_of};
ghost use Rattle.s2_scan.specs.Inside.{AreHeaders};
ghost use Rattle.s2_scan.specs.Passing.{code_at};
ghost use Rattle.s2_scan.specs.Candidates as frames;

use s2_mode::{DUMMY_SYMBOLS, HEADER_SYMBOLS};
use s2_plframe::{PlsCode, header_number};

/// The number of headers: MODCOD 0 to 28, each with four TYPEs.
pub(crate) const HEADERS: usize = 116;

/// The code of a header.
pub(crate) fn code_at(header: usize) -> PlsCode
    requires { header < 116 }
    ensures { mode_of result.modcod result.short result.pilots ≡ code_at header }
{
    PlsCode {
        modcod: (header / 4) as u8,
        short: header / 2 % 2 == 1,
        pilots: header % 2 == 1,
    }
}

/// The bits of all headers.
pub(crate) fn all_headers() -> [u128; HEADERS]
    ensures { AreHeaders result }
{
    let mut headers = [0u128; HEADERS];
    for header in 0..HEADERS {
        headers[header] = header_number(code_at(header));
    }
    headers
}

/// The bits of a symbol of a MODCOD.
fn width_at(modcod: usize) -> usize
    ensures { result ≡ frames.width_at modcod }
{
    if modcod < 12 {
        2
    } else if modcod < 18 {
        3
    } else if modcod < 24 {
        4
    } else {
        5
    }
}

/// The slots of a frame.
fn slots_at(header: usize) -> usize
    ensures { result ≡ frames.slots_at header }
{
    let slots = if header / 2 % 2 == 1 { 180 } else { 720 };
    slots / width_at(header / 4)
}

/// The symbols of a frame.
pub(crate) fn frame_length(header: usize) -> usize
    ensures { result ≡ frames.frame_length header }
{
    if header / 4 == 0 {
        return DUMMY_SYMBOLS;
    }
    let slots = slots_at(header);
    let pilots = if header % 2 == 1 {
        36 * ((slots - 1) / 16)
    } else {
        0
    };
    HEADER_SYMBOLS + 90 * slots + pilots
}
