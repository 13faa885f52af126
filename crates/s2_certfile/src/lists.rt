//! The lists of a body, tested and read.
ghost use Rattle.std.specs.Prelude.{◌≡◌, ◌*◌, ◌≤◌, true, All, FitsSigned, IfOk, length};
ghost use Rattle.std.specs.Int.{w32};
ghost use Rattle.s2_mode.specs.Limits.{max_bits};
ghost use Rattle.s2_certfile.specs.File.{IsMove, IsSoft};
ghost use Rattle.s2_certfile.specs.Field.{is_padded, many};
ghost use Rattle.s2_certfile.specs.Format.{soft, share, move};

use crate::entries::{is_move, is_soft, move_of, share_of, soft_of};
use crate::step::Move;
use crate::version::{MOVE_BYTES, SHARE_BYTES, SOFT_BYTES};
use std::alloc::{AllocError, Global};

/// Whether each of n numbers is a soft value.
pub(crate) fn are_soft(bytes: &[u8], n: usize) -> bool
    requires { length bytes.now ≡ n * SOFT_BYTES }
    ensures { result ≡ (many n soft).test bytes.now }
{
    let mut rest = bytes;
    for i in 0..n {
        let (front, after) = rest.split_at(SOFT_BYTES);
        if !is_soft(front) {
            return false;
        }
        rest = after;
    }
    true
}

/// Whether each of n entries is a move.
pub(crate) fn are_moves(bytes: &[u8], n: usize) -> bool
    requires { length bytes.now ≡ n * MOVE_BYTES }
    ensures { result ≡ (many n move).test bytes.now }
{
    let mut rest = bytes;
    for i in 0..n {
        let (front, after) = rest.split_at(MOVE_BYTES);
        if !is_move(front) {
            return false;
        }
        rest = after;
    }
    true
}

/// Whether the bits from n on are zero.
pub(crate) fn is_padded(bytes: &[u8], n: usize) -> bool
    requires few { length bytes.now ≤ max_bits }
    requires within { n ≤ 8 * length bytes.now }
    ensures { result ≡ is_padded bytes.now n }
{
    for i in n..8 * bytes.len() {
        if (bytes[i / 8] >> (7 - i % 8)) % 2 == 1 {
            return false;
        }
    }
    true
}

/// The n soft values.
pub(crate) fn soft_values(alloc: Global, bytes: &[u8], n: usize) -> Result<Vec<i16>, AllocError>
    requires size { length bytes.now ≡ n * SOFT_BYTES }
    requires tests { (many n soft).test bytes.now ≡ true }
    ensures are { IfOk result (λ v. v.items ≡ (many n soft).value bytes.now) }
    ensures fit { IfOk result (λ v. All IsSoft v.items) }
{
    let mut values = Vec::with_capacity(alloc, n)?;
    let mut rest = bytes;
    for i in 0..n {
        let (front, after) = rest.split_at(SOFT_BYTES);
        values.push(soft_of(front))?;
        rest = after;
    }
    Ok(values)
}

/// The n shares.
pub(crate) fn shares(alloc: Global, bytes: &[u8], n: usize) -> Result<Vec<i32>, AllocError>
    requires { length bytes.now ≡ n * SHARE_BYTES }
    ensures are { IfOk result (λ v. v.items ≡ (many n share).value bytes.now) }
    ensures fit { IfOk result (λ v. All (FitsSigned w32) v.items) }
{
    let mut values = Vec::with_capacity(alloc, n)?;
    let mut rest = bytes;
    for i in 0..n {
        let (front, after) = rest.split_at(SHARE_BYTES);
        values.push(share_of(front))?;
        rest = after;
    }
    Ok(values)
}

/// The n moves.
pub(crate) fn moves(alloc: Global, bytes: &[u8], n: usize) -> Result<Vec<Move>, AllocError>
    requires size { length bytes.now ≡ n * MOVE_BYTES }
    requires tests { (many n move).test bytes.now ≡ true }
    ensures are { IfOk result (λ v. v.items ≡ (many n move).value bytes.now) }
    ensures fit { IfOk result (λ v. All IsMove v.items) }
{
    let mut values = Vec::with_capacity(alloc, n)?;
    let mut rest = bytes;
    for i in 0..n {
        let (front, after) = rest.split_at(MOVE_BYTES);
        values.push(move_of(front))?;
        rest = after;
    }
    Ok(values)
}
