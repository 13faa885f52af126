//! Rows that a seed determines.
ghost use Rattle.std.specs.Prelude.{◌≡◌, ◌<◌, ◌≤◌, ◌==◌, [], map, false, length, IfOk};
ghost use Rattle.std.specs.List.{list_any};
ghost use Rattle.s2_mode.specs.Shape.{IsShape};
ghost use Rattle.s2_mode.specs.FaultTexts.{said};
ghost use Rattle.s2_rows.specs.FaultTexts.{make_fault_text};
ghost use Rattle.s2_rows.specs.Limits.{max_addresses};
ghost use Rattle.s2_rows.specs.MadeRows.{free_from, drawn_row, Makes};

use crate::limits::MAX_ADDRESSES;
use crate::rows::{Row, Rows};
use rand_core::SeedableRng;
use rand_core::utils::NextWord;
use rand_pcg::Pcg32;
use s2_mode::{FaultText, Shape};
use std::alloc::{Allocator, Global};
use thiserror::Error;

/// Why no rows were made.
#[derive(Clone, Copy, Debug, PartialEq, Eq, Error)]
#[error("{}", self.text())]
pub enum MakeFault {
    /// The weight is not 1 to 24, or is over n - k.
    BadWeight,
    /// Memory was refused.
    NoMemory,
}

impl MakeFault {
    /// The text of this fault.
    pub fn text(self) -> FaultText
        ensures { said result ≡ make_fault_text self }
    {
        match self {
            MakeFault::BadWeight => FaultText::of("no such weight"),
            MakeFault::NoMemory => FaultText::of("no memory"),
        }
    }
}

/// The first of x, x + 1, .. (wrapping at n - k) that is not in the row.
fn free_from(row: &[u32], checks: u32, x: u32) -> u32
    requires below { x < checks }
    requires room { length row.now < checks }
    ensures is { result ≡ free_from checks row.now (length row.now) x }
    ensures below { result < checks }
    ensures free { list_any (λ y. y == result) row.now ≡ false }
{
    let mut x = x;
    for _moves in 0..row.len() {
        if !row.contains(&x) {
            return x;
        }
        x = (x + 1) % checks;
    }
    x
}

/// A row of `weight` addresses, drawn one after another.
fn draw_row(generator: &mut Pcg32, checks: u32, weight: usize) -> Row
    requires few { weight ≤ max_addresses }
    requires free { weight ≤ checks }
    ensures { (result.items, generator.new) ≡ drawn_row checks weight [] generator.old }
{
    let mut row = Row::new();
    for _drawn in 0..weight {
        let address = free_from(row.as_slice(), checks, generator.next_word() % checks);
        row.push(address);
    }
    row
}

/// The rows of a shape, row by row.
pub fn draw_rows<A: Allocator>(
    alloc: A,
    shape: Shape,
    weight: usize,
    seed: u64,
) -> Result<Vec<Row, A>, MakeFault>
    ensures made { Makes (λ v. map (λ row. row.items) v.items) result shape weight seed }
    ensures valid { IsShape shape }
{
    let checks = shape.checks();
    if weight < 1 || weight > MAX_ADDRESSES || weight > checks {
        return Err(MakeFault::BadWeight);
    }
    let mut rows = Vec::with_capacity(alloc, shape.groups()).map_err(|_| MakeFault::NoMemory)?;
    let mut generator = Pcg32::seed_from_u64(seed);
    for _made in 0..shape.groups() {
        rows.push(draw_row(&mut generator, checks as u32, weight))
            .unwrap();
    }
    Ok(rows)
}

/// The rows that a shape, a weight and a seed determine. One `Pcg32` with that seed makes them row by row, `weight`
/// addresses each. An address is the next word modulo n - k. While its row has it already, it is increased by one
/// modulo n - k. `BadWeight` unless the weight is 1 to 24 and at most n - k; `NoMemory` only if the weight is valid.
pub fn make_rows(alloc: Global, shape: Shape, weight: usize, seed: u64) -> Result<Rows, MakeFault>
    ensures made { Makes (λ r. r.rows) result shape weight seed }
    ensures shape { IfOk result (λ r. r.shape ≡ shape) }
{
    let rows = draw_rows(alloc, shape, weight, seed)?;
    Ok(Rows::from_parts(shape, rows))
}
