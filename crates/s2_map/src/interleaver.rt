//! The bit interleaver (EN 302 307-1, 5.3.3).
ghost use Rattle.std.specs.Prelude.{◌≡◌, ◌<◌};
ghost use Rattle.s2_mode.specs.Mode.{n_of};
ghost use Rattle.s2_map.specs.Mapping.{place_of};

use crate::constants::PSK_3_5;
use s2_mode::Mode;

/// Which bit of the codeword is payload bit `i`. At QPSK it is bit `i`. At 8PSK the codeword fills
/// three columns, one after another, and the payload is read from them row by row.
pub fn place(mode: Mode, i: usize) -> usize
    requires { i < n_of mode }
    ensures is { result ≡ place_of mode i }
    ensures within { result < n_of mode }
{
    if mode.is_qpsk() {
        return i;
    }
    let column = if mode.modcod() == PSK_3_5 {
        2 - i % 3
    } else {
        i % 3
    };
    column * (mode.n() / 3) + i / 3
}
