//! The points of the constellations (EN 302 307-1, 5.4.1 and 5.4.2).
ghost use Rattle.std.specs.Prelude.{◌≡◌, ◌^◌, ◌<◌};
ghost use Rattle.s2_mode.specs.Mode.{width_of};
ghost use Rattle.s2_map.specs.Mapping.{point_of};

use crate::constants::{AXIS, DIAGONAL};
use s2_mode::{Mode, Symbol};

/// QPSK by label.
static QPSK: [Symbol; 4] = [
    Symbol {
        i: DIAGONAL,
        q: DIAGONAL,
    },
    Symbol {
        i: DIAGONAL,
        q: -DIAGONAL,
    },
    Symbol {
        i: -DIAGONAL,
        q: DIAGONAL,
    },
    Symbol {
        i: -DIAGONAL,
        q: -DIAGONAL,
    },
];

/// 8PSK by label.
static PSK: [Symbol; 8] = [
    Symbol {
        i: DIAGONAL,
        q: DIAGONAL,
    },
    Symbol { i: AXIS, q: 0 },
    Symbol { i: -AXIS, q: 0 },
    Symbol {
        i: -DIAGONAL,
        q: -DIAGONAL,
    },
    Symbol { i: 0, q: AXIS },
    Symbol {
        i: DIAGONAL,
        q: -DIAGONAL,
    },
    Symbol {
        i: -DIAGONAL,
        q: DIAGONAL,
    },
    Symbol { i: 0, q: -AXIS },
];

/// The symbol of a label of two bits (QPSK) or three (8PSK), the first bit the highest.
pub fn point(mode: Mode, label: u8) -> Symbol
    requires { label < 2 ^ width_of mode }
    ensures { result ≡ point_of mode label }
{
    if mode.is_qpsk() {
        QPSK[usize::from(label)]
    } else {
        PSK[usize::from(label)]
    }
}
