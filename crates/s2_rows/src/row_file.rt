//! Row files.
ghost use Rattle.std.specs.Prelude.{◌≡◌, ◌+◌, ◌-◌, ◌<◌, ◌≤◌, ◌∷◌, ℕ, List, Ok, Err, map, vec_len, vec_capacity, IfOk, MatchResult};
ghost use Rattle.s2_mode.specs.Shape.{IsShape, check_count};
ghost use Rattle.s2_mode.specs.Limits.{max_bits};
ghost use Rattle.s2_mode.specs.FaultTexts.{said};
ghost use Rattle.s2_rows.specs.FaultTexts.{row_fault_text};
ghost use Rattle.s2_rows.specs.Numbers.{natural_of};
ghost use Rattle.s2_rows.specs.Readings.{after, GoesOn};
ghost use Rattle.s2_rows.specs.RowFiles.{address_of, with_token, row_in, rows_of, rows_of_text, RowsAnswer};
ghost use Rattle.s2_rows.specs.Text.{tokens_of};

use crate::numbers::natural;
use crate::rows::{Row, Rows};
use crate::text::{cut_line, cut_token, is_ignored};
use s2_mode::{FaultText, Shape};
use std::alloc::{Allocator, Global};
use thiserror::Error;

/// Why a row file is refused. Lines count from 1.
#[derive(Clone, Copy, Debug, PartialEq, Eq, Error)]
#[error("{}", self.text())]
pub enum RowFault {
    NotNumber { line: u64 },
    TooFewRows,
    TooManyRows,
    AddressTooLarge { line: u64 },
    Repeated { line: u64 },
    RowTooLong { line: u64 },
    NoMemory,
}

impl RowFault {
    /// The text of this fault.
    pub fn text(self) -> FaultText
        ensures { said result ≡ row_fault_text self }
    {
        match self {
            RowFault::NotNumber { line } => FaultText::in_line("not a number in line ", line),
            RowFault::TooFewRows => FaultText::of("too few rows"),
            RowFault::TooManyRows => FaultText::of("too many rows"),
            RowFault::AddressTooLarge { line } => {
                FaultText::in_line("address too large in line ", line)
            }
            RowFault::Repeated { line } => FaultText::in_line("repeated address in line ", line),
            RowFault::RowTooLong { line } => FaultText::in_line("row too long in line ", line),
            RowFault::NoMemory => FaultText::of("no memory"),
        }
    }
}

/// The address that a token spells.
fn address(checks: usize, line: u64, token: &[u8]) -> Result<u32, RowFault>
    requires { checks ≤ max_bits }
    ensures { result ≡ address_of checks line (natural_of token.now) }
{
    match natural(token) {
        None => Err(RowFault::NotNumber { line }),
        Some(x) if x as usize >= checks => Err(RowFault::AddressTooLarge { line }),
        Some(x) => Ok(x),
    }
}

/// Adds the address that a token spells to its row.
fn add_token(row: &mut Row, checks: usize, line: u64, token: &[u8]) -> Result<(), RowFault>
    requires { checks ≤ max_bits }
    ensures { MatchResult result
        (λ _. with_token checks line row.old.items token.now ≡ Ok row.new.items)
        (λ e. with_token checks line row.old.items token.now ≡ Err e) }
{
    if row.is_full() {
        return Err(RowFault::RowTooLong { line });
    }
    let address = address(checks, line, token)?;
    if row.as_slice().contains(&address) {
        return Err(RowFault::Repeated { line });
    }
    row.push(address);
    Ok(())
}

/// The row of a line.
fn read_row(checks: usize, number: u64, line: &[u8]) -> Result<Row, RowFault>
    requires { checks ≤ max_bits }
    ensures { MatchResult result
        (λ row. row_in checks number (tokens_of line.now) ≡ Ok row.items)
        (λ e. row_in checks number (tokens_of line.now) ≡ Err e) }
{
    let mut row = Row::new();
    let mut rest = line;
    while !rest.is_empty() {
        let (token, after) = cut_token(rest);
        if !token.is_empty() {
            add_token(&mut row, checks, number, token)?;
        }
        rest = after;
    }
    Ok(row)
}

/// Reads a line, and adds its row to those before it.
fn read_line<A: Allocator>(
    rows: &mut Vec<Row, A>,
    shape: Shape,
    number: u64,
    line: &[u8],
) -> Result<(), RowFault>
    requires room { shape.groups ≤ vec_capacity rows.old }
    requires most { vec_len rows.old ≤ shape.groups }
    ensures read { (lines : List (List ℕ)) → GoesOn result
        (after (map (λ row. row.items) rows.old.items) (rows_of (check_count shape) (shape.groups - vec_len rows.old) number (line.now ∷ lines)))
        (after (map (λ row. row.items) rows.new.items) (rows_of (check_count shape) (shape.groups - vec_len rows.new) (number + 1) lines)) }
    ensures room { shape.groups ≤ vec_capacity rows.new }
    ensures most { vec_len rows.new ≤ shape.groups }
{
    if is_ignored(line) {
        return Ok(());
    }
    if rows.len() >= shape.groups() {
        return Err(RowFault::TooManyRows);
    }
    let row = read_row(shape.checks(), number, line)?;
    rows.push(row).unwrap();
    Ok(())
}

/// The rows of a text, one for each group of the shape.
pub fn read_lines<A: Allocator>(
    alloc: A,
    text: &[u8],
    shape: Shape,
) -> Result<Vec<Row, A>, RowFault>
    ensures read { RowsAnswer (λ v. map (λ row. row.items) v.items) result (rows_of_text text.now shape) }
    ensures valid { IsShape shape }
{
    let mut rows = Vec::with_capacity(alloc, shape.groups()).map_err(|_| RowFault::NoMemory)?;
    let mut rest = text;
    let mut number = 1u64;
    while !rest.is_empty() {
        let (line, after) = cut_line(rest);
        read_line(&mut rows, shape, number, line)?;
        rest = after;
        number += 1;
    }
    if rows.len() < shape.groups() {
        return Err(RowFault::TooFewRows);
    }
    Ok(rows)
}

/// The rows that a text holds for a shape, or its first fault in reading order. A line that has no
/// tokens, or whose first token begins with #, is ignored. Each other line is the row of the
/// next group of information bits. Its tokens, separated by spaces, tabs and CR, are decimal addresses:
/// 1 to 24 of them, below n - k, each once. Memory is allocated before the text is read, so `NoMemory` comes
/// before every other fault.
pub fn read_rows(alloc: Global, text: &[u8], shape: Shape) -> Result<Rows, RowFault>
    ensures rows { RowsAnswer (λ r. r.rows) result (rows_of_text text.now shape) }
    ensures shape { IfOk result (λ r. r.shape ≡ shape) }
{
    let rows = read_lines(alloc, text, shape)?;
    Ok(Rows::from_parts(shape, rows))
}
