//! The edges that address rows define.
ghost use Rattle.std.specs.Prelude.{◌≡◌, ℕ, ◌+◌, ◌*◌, ◌/◌, ◌%◌, ◌<◌, ◌≤◌, ◌^◌, ◌==◌, ◌||◌, ◌++◌, ◌∷◌, [], All, OnOk, IfOk, length, vec_len};
ghost use Rattle.std.specs.List.{list_any};
ghost use Rattle.s2_matrix.specs.Total.{upto};
ghost use Rattle.s2_mode.specs.Limits.{max_bits};
ghost use Rattle.s2_mode.specs.Shape.{information_bits, check_count, code_bits};
ghost use Rattle.s2_matrix.specs.Code.{code_of};
ghost use Rattle.s2_rows.specs.Rows.{AreAddresses};
ghost use Rattle.s2_matrix.specs.Edges.{Gains, AreEdges, owners};

use s2_rows::Rows;
use std::alloc::{AllocError, Global};

/// Adds an edge.
pub(crate) fn join(
    checks: &mut Vec<u32>,
    bits: &mut Vec<u32>,
    check: u32,
    bit: u32,
) -> Result<(), AllocError>
    ensures checks { OnOk result (checks.new.items ≡ checks.old.items ++ check ∷ []) }
    ensures bits { OnOk result (bits.new.items ≡ bits.old.items ++ bit ∷ []) }
{
    checks.push(check)?;
    bits.push(bit)?;
    Ok(())
}

/// Adds the edges of an information bit.
fn join_row(
    checks: &mut Vec<u32>,
    bits: &mut Vec<u32>,
    row: &[u32],
    turn: usize,
    count: usize,
    bit: u32,
) -> Result<(), AllocError>
    requires some { 1 ≤ count }
    requires most { count ≤ max_bits }
    requires turn { turn < 2 ^ 32 }
    requires addresses { AreAddresses count row.now }
    requires paired { length bits.old.items ≡ length checks.old.items }
    requires below { All (λ k. k < count) checks.old.items }
    ensures { OnOk result (Gains count checks.old.items bits.old.items checks.new.items bits.new.items (λ j. list_any (λ x. (x + turn) % count == j) row.now) bit (length row.now)) }
{
    for address in row {
        let check = (*address as usize + turn) % count;
        join(checks, bits, check as u32, bit)?;
    }
    Ok(())
}

/// Adds the edges of a parity bit.
fn join_parity(
    checks: &mut Vec<u32>,
    bits: &mut Vec<u32>,
    check: usize,
    count: usize,
    bit: u32,
) -> Result<(), AllocError>
    requires check { check < count }
    requires most { count ≤ max_bits }
    requires paired { length bits.old.items ≡ length checks.old.items }
    requires below { All (λ k. k < count) checks.old.items }
    ensures { OnOk result (Gains count checks.old.items bits.old.items checks.new.items bits.new.items (λ j. (check == j) || (check + 1 == j)) bit 2) }
{
    join(checks, bits, check as u32, bit)?;
    if check + 1 < count {
        join(checks, bits, check as u32 + 1, bit)?;
    }
    Ok(())
}

/// Adds the edges of the information bits.
pub(crate) fn join_info(
    checks: &mut Vec<u32>,
    bits: &mut Vec<u32>,
    rows: &Rows,
) -> Result<(), AllocError>
    requires none { AreEdges (code_of rows.now) 0 checks.old.items bits.old.items }
    ensures { OnOk result (AreEdges (code_of rows.now) (information_bits rows.now.shape) checks.new.items bits.new.items) }
{
    let shape = rows.shape();
    let group = shape.group();
    let q = shape.q();
    let count = shape.checks();
    for bit in 0..shape.k() {
        let row = rows.row(bit / group);
        join_row(checks, bits, row, (bit % group) * q, count, bit as u32)?;
    }
    Ok(())
}

/// Adds the edges of the parity bits.
pub(crate) fn join_parities(
    checks: &mut Vec<u32>,
    bits: &mut Vec<u32>,
    rows: &Rows,
) -> Result<(), AllocError>
    requires info { AreEdges (code_of rows.now) (information_bits rows.now.shape) checks.old.items bits.old.items }
    ensures { OnOk result (AreEdges (code_of rows.now) (code_bits rows.now.shape) checks.new.items bits.new.items) }
{
    let shape = rows.shape();
    let first = shape.k();
    let count = shape.checks();
    for check in 0..count {
        join_parity(checks, bits, check, count, (first + check) as u32)?;
    }
    Ok(())
}
