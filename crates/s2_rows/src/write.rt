//! Writing row files.
ghost use Rattle.std.specs.Prelude.{◌≡◌, Ok, OnOk};
ghost use Rattle.std.specs.Io.KnownBytes.{Appends};
ghost use Rattle.s2_mode.specs.Counts.{CanCount, CountsFault};
ghost use Rattle.s2_rows.specs.RowFiles.{rows_of_text};
ghost use Rattle.s2_rows.specs.RowTexts.{after_address, row_text, rows_text};

use crate::rows::Rows;
use itoa::Buffer;
use s2_mode::{CountedWrite, WriteFault, write_full};

/// What follows an address, before these others.
fn after_address(others: &[u32]) -> &'static [u8]
    ensures { result.now ≡ after_address others.now }
{
    if others.is_empty() { b"\n" } else { b" " }
}

/// Writes the line of a row.
fn write_row<W: CountedWrite>(row: &[u32], out: &mut W) -> Result<(), WriteFault>
    requires { CanCount (W.count out.old) }
    ensures line { OnOk result (Appends (W.contents out.old) (W.contents out.new) (row_text row.now)) }
    ensures cause { CountsFault (W.count out.old) (W.count out.new) result }
{
    for (at, address) in row.iter().enumerate() {
        let mut digits = Buffer::new();
        write_full(out, digits.format(*address).as_bytes())?;
        write_full(out, after_address(&row[at + 1..]))?;
    }
    Ok(())
}

/// Writes each row on its line: its addresses in their order, one space between them and LF after
/// the last. [`read_rows`] accepts this text as the same rows. `WriteFault` if a write fails;
/// the writer may then hold a part of the text.
///
/// [`read_rows`]: crate::read_rows
pub fn write_rows<W: CountedWrite>(rows: &Rows, out: &mut W) -> Result<(), WriteFault>
    requires { CanCount (W.count out.old) }
    ensures lines { OnOk result (Appends (W.contents out.old) (W.contents out.new) (rows_text rows.now.rows)) }
    ensures read_back { OnOk result (rows_of_text (rows_text rows.now.rows) rows.now.shape ≡ Ok rows.now.rows) }
    ensures cause { CountsFault (W.count out.old) (W.count out.new) result }
{
    for g in 0..rows.shape().groups() {
        write_row(rows.row(g), out)?;
    }
    Ok(())
}
