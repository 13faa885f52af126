//! The bits of a frame's header, the PLHEADER (EN 302 307-1, 5.5.2): SOF, then PLSCODE.
ghost use Rattle.std.specs.Prelude.{◌≡◌, ◌<◌};
ghost use Rattle.s2_mode.specs.Limits.{header_symbols};
ghost use Rattle.s2_mode.specs.Mode.{mode_of};
ghost use Rattle.s2_plframe.specs.Header.{chosen, sum_of_rows, code_bit, dummy_mode, header_bit};

use s2_mode::Mode;

/// The start of frame (SOF), 26 bits.
const START_OF_FRAME: u32 = 0x018D_2E82;

/// The generator matrix of the PLSCODE.
const GENERATOR: [u32; 6] = [
    0x5555_5555,
    0x3333_3333,
    0x0F0F_0F0F,
    0x00FF_00FF,
    0x0000_FFFF,
    0xFFFF_FFFF,
];

/// The scrambling sequence of the PLSCODE.
const SCRAMBLING: u64 = 0x719D_83C9_5342_2DFA;

/// The content of a header (its PLSCODE): the MODCOD, and TYPE's two bits. They are whether frames are short, and
/// whether they have pilots. The standard has MODCOD 0, which is a dummy frame's, and 1 to 28.
#[derive(Clone, Copy, Debug, PartialEq, Eq)]
pub struct PlsCode {
    pub modcod: u8,
    pub short: bool,
    pub pilots: bool,
}

/// The code in the headers of a mode's frames.
pub(crate) fn pls_code(mode: Mode) -> PlsCode
    ensures { mode_of result.modcod result.short result.pilots ≡ mode }
{
    PlsCode {
        modcod: mode.modcod(),
        short: mode.is_short(),
        pilots: mode.has_pilots(),
    }
}

/// The code in the header of a dummy frame.
pub(crate) fn dummy_code(short: bool, pilots: bool) -> PlsCode
    ensures { mode_of result.modcod result.short result.pilots ≡ dummy_mode short pilots }
{
    PlsCode {
        modcod: 0,
        short,
        pilots,
    }
}

/// A header's bit: the SOF, then the scrambled code.
pub(crate) fn header_bit(code: PlsCode, k: usize) -> bool
    requires { k < header_symbols }
    ensures { result ≡ header_bit (mode_of code.modcod code.short code.pilots) k }
{
    if k < 26 {
        (START_OF_FRAME >> (25 - k)) % 2 == 1
    } else {
        let j = k - 26;
        code_bit(code, j) ^ ((SCRAMBLING >> (63 - j)) % 2 == 1)
    }
}

/// A bit of the PLSCODE before scrambling.
fn code_bit(code: PlsCode, j: usize) -> bool
    requires { j < 64 }
    ensures { result ≡ code_bit (mode_of code.modcod code.short code.pilots) j }
{
    let sum = sum_of_rows(code, j / 2);
    sum ^ (j % 2 == 1 && code.pilots)
}

/// A bit of the sum of the chosen rows of the matrix.
fn sum_of_rows(code: PlsCode, k: usize) -> bool
    requires { k < 32 }
    ensures { result ≡ sum_of_rows (mode_of code.modcod code.short code.pilots) 6 k }
{
    let mut sum = false;
    for r in 0..6 {
        let bit = (GENERATOR[r] >> (31 - k)) % 2 == 1;
        sum = sum ^ (chooses(code, r) & bit);
    }
    sum
}

/// Whether a row is chosen: by MODCOD among the first five, by the upper bit of TYPE the last.
fn chooses(code: PlsCode, r: usize) -> bool
    requires { r < 6 }
    ensures { result ≡ chosen (mode_of code.modcod code.short code.pilots) r }
{
    if r == 5 {
        code.short
    } else {
        (code.modcod >> (4 - r)) % 2 == 1
    }
}
