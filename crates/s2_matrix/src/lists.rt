//! The flat lists of a matrix.
ghost use Rattle.std.specs.Prelude.{◌≡◌, ◌<◌, ◌≤◌, ◌^◌, IfOk, map, length, sum_by};
ghost use Rattle.s2_rows.specs.Rows.{row_of};
ghost use Rattle.s2_rows.specs.Limits.{max_addresses};
ghost use Rattle.s2_matrix.specs.Limits.{max_edges};
ghost use Rattle.s2_matrix.specs.Total.{upto};
ghost use Rattle.s2_matrix.specs.Code.{code_of, members, checks_of, edges_at};
ghost use Rattle.s2_matrix.specs.Joined.{joined};
ghost use Rattle.s2_matrix.specs.Edges.{owners};

use crate::build::{join_info, join_parities};
use crate::counting_sort::sort_by_key;
use crate::jagged_list::JaggedList;
use s2_rows::{Row, Rows};
use std::alloc::{AllocError, Global};

/// A copy of a row.
fn copy_row(row: &[u32]) -> Row
    requires { length row.now ≤ max_addresses }
    ensures { result.items ≡ row.now }
{
    let mut copy = Row::new();
    for address in row {
        copy.push(*address);
    }
    copy
}

/// A copy of all rows.
pub(crate) fn copy_rows(alloc: Global, rows: &Rows) -> Result<Vec<Row>, AllocError>
    ensures { IfOk result (λ v. map (λ row. row.items) v.items ≡ rows.now.rows) }
{
    let groups = rows.shape().groups();
    let mut copy = Vec::with_capacity(alloc, groups)?;
    for i in 0..groups {
        copy.push(copy_row(rows.row(i)))?;
    }
    Ok(copy)
}

/// How many addresses all rows have.
pub(crate) fn address_count(rows: &Rows) -> usize
    ensures is { result ≡ sum_by (λ g. length (row_of rows.now g)) (upto rows.now.shape.groups) }
    ensures few { result ≤ max_edges }
{
    let mut count = 0;
    for g in 0..rows.shape().groups() {
        count += rows.row(g).len();
    }
    count
}

/// The members of the checks. The memory for all edges is allocated before the first one is written.
pub(crate) fn members(alloc: Global, rows: &Rows) -> Result<JaggedList, AllocError>
    ensures are { IfOk result (λ t. t ≡ map (members (code_of rows.now)) (upto (code_of rows.now).checks)) }
    ensures few { IfOk result (λ t. length (joined t) ≤ max_edges) }
{
    let shape = rows.shape();
    let count = shape.checks();
    let edges = shape.group() * address_count(rows) + 2 * count;
    let mut checks = Vec::with_capacity(alloc, edges)?;
    let mut bits = Vec::with_capacity(alloc, edges)?;
    join_info(&mut checks, &mut bits, rows)?;
    join_parities(&mut checks, &mut bits, rows)?;
    let by_check = sort_by_key(alloc, &checks, &bits, count)?;
    Ok(by_check)
}

/// The numbers below n.
fn numbers(alloc: Global, n: usize) -> Result<Vec<u32>, AllocError>
    requires { n < 2 ^ 32 }
    ensures { IfOk result (λ v. v.items ≡ upto n) }
{
    let mut numbers = Vec::with_capacity(alloc, n)?;
    for i in 0..n {
        numbers.push(i as u32)?;
    }
    Ok(numbers)
}

/// The check of each edge.
fn owners_of(alloc: Global, by_check: &JaggedList) -> Result<Vec<u32>, AllocError>
    requires { length by_check.now < 2 ^ 32 }
    ensures { IfOk result (λ v. v.items ≡ owners by_check.now (length by_check.now)) }
{
    let mut owners = Vec::with_capacity(alloc, by_check.all().len())?;
    for check in 0..by_check.len() {
        let long = owners.len() + by_check.row(check).len();
        owners.resize(long, check as u32)?;
    }
    Ok(owners)
}

/// The edges of the bits.
pub(crate) fn edges(
    alloc: Global,
    rows: &Rows,
    by_check: &JaggedList,
) -> Result<JaggedList, AllocError>
    requires are { by_check.now ≡ map (members (code_of rows.now)) (upto (code_of rows.now).checks) }
    requires few { length (joined by_check.now) ≤ max_edges }
    ensures { IfOk result (λ t. t ≡ map (edges_at (code_of rows.now)) (upto (code_of rows.now).bits)) }
{
    let bits = rows.shape().n();
    let all = by_check.all();
    let numbers = numbers(alloc, all.len())?;
    let edges = sort_by_key(alloc, all, &numbers, bits)?;
    Ok(edges)
}

/// The checks of the bits.
pub(crate) fn checks(
    alloc: Global,
    rows: &Rows,
    by_check: &JaggedList,
) -> Result<JaggedList, AllocError>
    requires are { by_check.now ≡ map (members (code_of rows.now)) (upto (code_of rows.now).checks) }
    requires few { length (joined by_check.now) ≤ max_edges }
    ensures { IfOk result (λ t. t ≡ map (checks_of (code_of rows.now)) (upto (code_of rows.now).bits)) }
{
    let bits = rows.shape().n();
    let owners = owners_of(alloc, by_check)?;
    let checks = sort_by_key(alloc, by_check.all(), &owners, bits)?;
    Ok(checks)
}
