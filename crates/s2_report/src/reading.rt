//! Reads a report, line by line.
ghost use Rattle.std.specs.Prelude.{◌≡◌, ◌≢◌, ◌+◌, [], Err, IfOk};
ghost use Rattle.s2_mode.specs.Counts.{CanCount, CountsFault};
ghost use Rattle.s2_report.specs.Reading.{GivesByte, GivesLine, NextLine, line_fault};

use crate::limits::MAX_LINE_BYTES;
use arrayvec::ArrayVec;
use s2_io::Fault;
use s2_mode::{CountedRead, FaultText, ReadFault, read_full};

/// The bytes of a line, with room for one too many.
pub type LineBytes = ArrayVec<u8, 640>;

/// The next byte of a reader, or `None` at its end.
pub fn read_byte<R: CountedRead>(reader: &mut R) -> Result<Option<u8>, ReadFault>
    requires { CanCount (R.count reader.old) }
    ensures byte { IfOk result (GivesByte (R.remaining reader.old) (R.remaining reader.new)) }
    ensures cause { CountsFault (R.count reader.old) (R.count reader.new) result }
{
    let mut byte = [0u8; 1];
    if read_full(reader, &mut byte)? == 0 {
        return Ok(None);
    }
    Ok(Some(byte[0]))
}

/// Reads a line into an empty buffer, without its LF. False if no LF came, before the end or among 640 bytes.
fn read_line<R: CountedRead>(reader: &mut R, line: &mut LineBytes) -> Result<bool, ReadFault>
    requires reader { CanCount (R.count reader.old) }
    requires empty { line.old.items ≡ [] }
    ensures line { IfOk result (GivesLine (R.remaining reader.old) (R.remaining reader.new) line.new.items) }
    ensures cause { CountsFault (R.count reader.old) (R.count reader.new) result }
{
    'bytes: for _taken in 0..MAX_LINE_BYTES + 1 {
        let Some(byte) = read_byte(reader)? else {
            return Ok(false);
        };
        if byte == b'\n' {
            return Ok(true);
        }
        line.push(byte);
    }
    Ok(false)
}

/// The fault of a line that cannot be read.
fn line_fault(number: u64) -> Fault<'static>
    ensures { result ≡ line_fault number }
{
    Fault::about("report: ", FaultText::in_line("line ", number))
}

/// Reads the next line of a report into an empty buffer, without its LF. False at the end of the report. The line has this number.
/// `Read`: a read failed. Any other fault is that of the line: it has no LF, or more than [`MAX_LINE_BYTES`] bytes.
pub fn next_line<R: CountedRead>(
    reader: &mut R,
    line: &mut LineBytes,
    number: u64,
) -> Result<bool, Fault<'static>>
    requires reader { CanCount (R.count reader.old) }
    requires empty { line.old.items ≡ [] }
    ensures line { NextLine number (R.remaining reader.old) (R.remaining reader.new) line.new.items result }
    ensures read { result ≡ Err Fault.Read → R.count reader.new ≡ R.count reader.old + 1 }
    ensures no_read { result ≢ Err Fault.Read → R.count reader.new ≡ R.count reader.old }
{
    let Ok(ended) = read_line(reader, line) else {
        return Err(Fault::Read);
    };
    if ended {
        return Ok(true);
    }
    if line.is_empty() {
        return Ok(false);
    }
    Err(line_fault(number))
}
