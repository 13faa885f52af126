//! A reader or writer whose bytes are counted by a meter.
ghost use Rattle.std.specs.Prelude.{◌≡◌};

use crate::meter::Meter;
use crate::output::Output;
use s2_mode::{Counted, CountedRead, CountedWrite, ReadFault, WriteFault};

/// A reader or writer whose bytes are counted by a meter. In contracts, it is the inner reader or writer.
#[derive(Drop)]
pub struct Watched<'m, T, M> {
    inner: T,
    meter: &'m M,
}

impl<'m, T, M> Watched<'m, T, M> {
    /// Nothing has passed so far.
    pub fn new(inner: T, meter: &'m M) -> Watched<'m, T, M>
        ensures { result.inner ≡ inner }
    {
        Watched { inner, meter }
    }

    /// The reader or writer that it holds.
    pub fn into_inner(self) -> T
        ensures { result ≡ self.entry.inner }
    {
        self.inner
    }
}

impl<T: Counted, M> Counted for Watched<'_, T, M> {
    ghost count = { λ w. T.count w.inner };

    fn count(&self) -> u64 {
        self.inner.count()
    }
}

impl<T: CountedRead, M: Meter> CountedRead for Watched<'_, T, M> {
    ghost remaining = { λ w. T.remaining w.inner };

    fn read(&mut self, buf: &mut [u8]) -> Result<usize, ReadFault> {
        let n = self.inner.read(buf)?;
        self.meter.took(n);
        Ok(n)
    }
}

impl<T: CountedWrite, M: Meter> CountedWrite for Watched<'_, T, M> {
    ghost contents = { λ w. T.contents w.inner };

    fn write(&mut self, buf: &[u8]) -> Result<usize, WriteFault> {
        let n = self.inner.write(buf)?;
        self.meter.gave(n);
        Ok(n)
    }
}

impl<T: Output, M: Meter> Output for Watched<'_, T, M> {
    fn truncate(&mut self) -> Result<(), WriteFault> {
        self.inner.truncate()
    }
}
