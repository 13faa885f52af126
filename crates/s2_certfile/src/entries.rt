//! The entries of a body, each read from its own bytes, and their tests.
ghost use Rattle.std.specs.Prelude.{◌≡◌, length};
ghost use Rattle.s2_certfile.specs.Format.{soft, share, move};

use crate::step::Move;
use crate::version::{MOVE_BYTES, SHARE_BYTES, SOFT_BYTES};
use s2_mode::MAX_SOFT;

/// A soft value.
pub(crate) fn soft_of(bytes: &[u8]) -> i16
    requires { length bytes.now ≡ SOFT_BYTES }
    ensures { result ≡ soft.value bytes.now }
{
    i16::from_be_bytes([bytes[0], bytes[1]])
}

/// Whether a soft value is in range.
pub(crate) fn is_soft(bytes: &[u8]) -> bool
    requires { length bytes.now ≡ SOFT_BYTES }
    ensures { result ≡ soft.test bytes.now }
{
    let value = soft_of(bytes);
    -(MAX_SOFT as i16) <= value && value <= MAX_SOFT as i16
}

/// A share.
pub(crate) fn share_of(bytes: &[u8]) -> i32
    requires { length bytes.now ≡ SHARE_BYTES }
    ensures { result ≡ share.value bytes.now }
{
    i32::from_be_bytes([bytes[0], bytes[1], bytes[2], bytes[3]])
}

/// A move.
pub(crate) fn move_of(bytes: &[u8]) -> Move
    requires { length bytes.now ≡ MOVE_BYTES }
    ensures { result ≡ move.value bytes.now }
{
    let (place, amount) = bytes.split_at(2);
    Move {
        place: u16::from_be_bytes([place[0], place[1]]),
        amount: u32::from_be_bytes([amount[0], amount[1], amount[2], amount[3]]),
    }
}

/// Whether the amount is below 2^31, and the place is 0 if nothing is moved.
pub(crate) fn is_move(bytes: &[u8]) -> bool
    requires { length bytes.now ≡ MOVE_BYTES }
    ensures { result ≡ move.test bytes.now }
{
    let found = move_of(bytes);
    found.amount < 1 << 31 && (found.amount > 0 || found.place == 0)
}
