//! Readers and writers whose bytes are hashed.
ghost use Rattle.std.specs.Prelude.{◌≡◌, ◌≤◌, ◌<◌, ℕ, List, ◌++◌, IfOk, length};
ghost use Rattle.std.specs.Io.KnownBytes.{ReadConsumes, WriteAppends};
ghost use Rattle.s2_mode.specs.Counts.{CanCount, CountsFault};
ghost use Rattle.s2_about.specs.FileSums.{HoldsBytes, moved};

use crate::file_sum::FileSum;
use s2_io::Output;
use s2_mode::{Counted, CountedRead, CountedWrite, ReadFault, WriteFault};
use std::cell::Cell;

/// The sum of a file's bytes, which outlives the file.
#[derive(Drop)]
pub struct SharedSum {
    sum: Cell<Option<FileSum>>,
}

impl SharedSum {
    /// Nothing has passed so far.
    pub fn new() -> SharedSum {
        SharedSum {
            sum: Cell::new(None),
        }
    }

    /// The sum so far. Until it is put back, the shared one is that of no bytes.
    pub fn take(&self) -> FileSum {
        match self.sum.take() {
            Some(sum) => sum,
            None => FileSum::new(),
        }
    }

    fn put(&self, sum: FileSum) {
        self.sum.set(Some(sum));
    }
}

/// The sums of a command's files: its rows, its input, its output and its report.
#[derive(Drop)]
pub struct FileSums {
    pub rows: SharedSum,
    pub from: SharedSum,
    pub to: SharedSum,
    pub report: SharedSum,
}

impl FileSums {
    /// Nothing has passed so far.
    pub fn new() -> FileSums {
        FileSums {
            rows: SharedSum::new(),
            from: SharedSum::new(),
            to: SharedSum::new(),
            report: SharedSum::new(),
        }
    }

    /// The sum of the rows, if there are sums.
    pub fn rows_of(sums: Option<&FileSums>) -> Option<&SharedSum> {
        match sums {
            Some(sums) => Some(&sums.rows),
            None => None,
        }
    }

    /// The sum of the input, if there are sums.
    pub fn from_of(sums: Option<&FileSums>) -> Option<&SharedSum> {
        match sums {
            Some(sums) => Some(&sums.from),
            None => None,
        }
    }

    /// The sum of the output, if there are sums.
    pub fn to_of(sums: Option<&FileSums>) -> Option<&SharedSum> {
        match sums {
            Some(sums) => Some(&sums.to),
            None => None,
        }
    }

    /// The sum of the report, if there are sums.
    pub fn report_of(sums: Option<&FileSums>) -> Option<&SharedSum> {
        match sums {
            Some(sums) => Some(&sums.report),
            None => None,
        }
    }
}

/// A reader or writer whose bytes are hashed, if there is a sum. In contracts, it is the inner reader or writer.
#[derive(Drop)]
pub struct Hashed<'h, T> {
    inner: T,
    shared: Option<&'h SharedSum>,
}

impl<'h, T> Hashed<'h, T> {
    /// Nothing has passed so far. Without a sum nothing is hashed.
    pub fn new(inner: T, shared: Option<&'h SharedSum>) -> Hashed<'h, T>
        ensures { result.inner ≡ inner }
    {
        Hashed { inner, shared }
    }
}

/// Reads, and hashes the bytes that were read.
fn read_summed<T: CountedRead>(
    inner: &mut T,
    sum: &mut FileSum,
    buf: &mut [u8],
) -> Result<usize, ReadFault>
    requires { CanCount (T.count inner.old) }
    ensures bound { IfOk result (λ n. n ≤ length buf.new) }
    ensures bytes { ReadConsumes (T.remaining inner.old) (T.remaining inner.new) result buf.new }
    ensures cause { CountsFault (T.count inner.old) (T.count inner.new) result }
    ensures summed { (before : List ℕ) → HoldsBytes sum.old before → HoldsBytes sum.new (before ++ moved result buf.new) }
{
    let read = inner.read(buf)?;
    sum.pass(&buf[..read]);
    Ok(read)
}

/// Writes, and hashes the bytes that were taken.
fn write_summed<T: CountedWrite>(
    inner: &mut T,
    sum: &mut FileSum,
    buf: &[u8],
) -> Result<usize, WriteFault>
    requires { CanCount (T.count inner.old) }
    ensures bound { IfOk result (λ n. n ≤ length buf.now) }
    ensures progress { IfOk result (λ n. 0 < length buf.now → 0 < n) }
    ensures bytes { WriteAppends (T.contents inner.old) (T.contents inner.new) result buf.now }
    ensures cause { CountsFault (T.count inner.old) (T.count inner.new) result }
    ensures summed { (before : List ℕ) → HoldsBytes sum.old before → HoldsBytes sum.new (before ++ moved result buf.now) }
{
    let taken = inner.write(buf)?;
    sum.pass(&buf[..taken]);
    Ok(taken)
}

impl<T: Counted> Counted for Hashed<'_, T> {
    ghost count = { λ h. T.count h.inner };

    fn count(&self) -> u64 {
        self.inner.count()
    }
}

impl<T: CountedRead> CountedRead for Hashed<'_, T> {
    ghost remaining = { λ h. T.remaining h.inner };

    fn read(&mut self, buf: &mut [u8]) -> Result<usize, ReadFault> {
        let Some(shared) = self.shared else {
            return self.inner.read(buf);
        };
        let mut sum = shared.take();
        let ended = read_summed(&mut self.inner, &mut sum, buf);
        shared.put(sum);
        ended
    }
}

impl<T: CountedWrite> CountedWrite for Hashed<'_, T> {
    ghost contents = { λ h. T.contents h.inner };

    fn write(&mut self, buf: &[u8]) -> Result<usize, WriteFault> {
        let Some(shared) = self.shared else {
            return self.inner.write(buf);
        };
        let mut sum = shared.take();
        let ended = write_summed(&mut self.inner, &mut sum, buf);
        shared.put(sum);
        ended
    }
}

impl<T: Output> Output for Hashed<'_, T> {
    fn truncate(&mut self) -> Result<(), WriteFault> {
        self.inner.truncate()
    }
}
