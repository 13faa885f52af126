//! The first symbols of a reader.
ghost use Rattle.std.specs.Prelude.{◌≡◌, ◌*◌, ◌^◌, ◌<◌, ◌≤◌, length, IfOk, Some};
ghost use Rattle.std.specs.Io.KnownBytes.{ReadConsumes};
ghost use Rattle.std.specs.Option.{ForSome, option_map};
ghost use Rattle.s2_mode.specs.Counts.{CanCount, CountsFault};
ghost use Rattle.s2_scan.specs.Beginnings.{begin_of};

use s2_mode::{Counted, CountedRead, ReadFault};

/// A reader that ends after its first symbols. To contracts its bytes are the first ones of the reader that it holds. Without
/// a number they are all of them.
#[derive(Drop)]
pub struct Beginning<R> {
    inner: R,
    left: Option<usize>,
}

/// The bytes of symbols.
fn bytes_of(symbols: Option<u64>) -> Option<usize>
    requires { ForSome symbols (λ n. n < 2 ^ 62) }
    ensures { result ≡ option_map (λ n. 4 * n) symbols }
{
    match symbols {
        Some(symbols) => Some(4 * symbols as usize),
        None => None,
    }
}

impl<R> Beginning<R> {
    /// The first symbols of a reader, or without a number all of them.
    pub fn new(inner: R, symbols: Option<u64>) -> Beginning<R>
        requires { ForSome symbols (λ n. n < 2 ^ 62) }
        ensures inner { result.inner ≡ inner }
        ensures left { result.left ≡ option_map (λ n. 4 * n) symbols }
    {
        Beginning {
            inner,
            left: bytes_of(symbols),
        }
    }
}

/// Reads bytes of which so many are left.
fn read_within<R: CountedRead>(
    reader: &mut R,
    left: &mut usize,
    buf: &mut [u8],
) -> Result<usize, ReadFault>
    requires { CanCount (R.count reader.old) }
    ensures bound { IfOk result (λ n. n ≤ length buf.new) }
    ensures bytes { ReadConsumes (begin_of (Some left.old) (R.remaining reader.old)) (begin_of (Some left.new) (R.remaining reader.new)) result buf.new }
    ensures cause { CountsFault (R.count reader.old) (R.count reader.new) result }
{
    let room = buf.len().min(*left);
    match reader.read(&mut buf[..room]) {
        Ok(n) => {
            *left -= n;
            Ok(n)
        }
        Err(fault) => Err(fault),
    }
}

impl<R: Counted> Counted for Beginning<R> {
    ghost count = { λ b. R.count b.inner };

    fn count(&self) -> u64 {
        self.inner.count()
    }
}

impl<R: CountedRead> CountedRead for Beginning<R> {
    ghost remaining = { λ b. begin_of b.left (R.remaining b.inner) };

    fn read(&mut self, buf: &mut [u8]) -> Result<usize, ReadFault> {
        let Some(left) = self.left else {
            return self.inner.read(buf);
        };
        let mut left = left;
        let ended = read_within(&mut self.inner, &mut left, buf);
        self.left = Some(left);
        ended
    }
}
