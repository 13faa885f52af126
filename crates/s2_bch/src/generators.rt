//! The generators of all modes.
ghost use Rattle.std.specs.Prelude.{drop};
ghost use Rattle.s2_mode.specs.Mode.{IsMode};
ghost use Rattle.s2_bch.specs.Generators.{generator_of};
ghost use Rattle.s2_bch.specs.Registers.{Holds};

use crate::register::Register;
use s2_mode::Mode;

const NORMAL_8: Register = Register {
    high: 0x1c07255f712797bd,
    middle: 0x19fc6d7504f9662b,
    low: 0,
};

const NORMAL_10: Register = Register {
    high: 0x60150cedfc2a331f,
    middle: 0x6a785703efd12301,
    low: 0xb8bb659100000000,
};

const NORMAL_12: Register = Register {
    high: 0x4e260e83845c511c,
    middle: 0x50cf2cd8dc350889,
    low: 0x034785f7660255e7,
};

const SHORT_12: Register = Register {
    high: 0x4062dbea9869b262,
    middle: 0xcd23a39069528fe7,
    low: 0xd7d11905a5000000,
};

/// What the generator of a mode's code has after its first bit (EN 302 307-1, 5.3.1).
pub(crate) fn tail_of(mode: Mode) -> Register
    ensures held { Holds result (drop 1 (generator_of mode)) }
    ensures valid { IsMode mode }
{
    if mode.is_short() {
        SHORT_12
    } else if mode.t() == 8 {
        NORMAL_8
    } else if mode.t() == 10 {
        NORMAL_10
    } else {
        NORMAL_12
    }
}
