//! Bits that lack: whose rest is below 1.
ghost use Rattle.std.specs.Prelude.{◌≡◌, ◌≤◌, length};
ghost use Rattle.s2_mode.specs.Limits.{max_bits};
ghost use Rattle.s2_settle.specs.Rests.{lacking};

use crate::limits::LEAST_REST;

/// How many rests are below 1. The count is as wide as a rest, for the speed of the loop.
pub(crate) fn count_lacking(rests: &[u16]) -> usize
    requires { length rests.now ≤ max_bits }
    ensures is { result ≡ lacking rests.now }
    ensures few { result ≤ length rests.now }
{
    let mut count = 0u16;
    for i in 0..rests.len() {
        count += u16::from(rests[i] < LEAST_REST);
    }
    usize::from(count)
}
