//! A page: a buffer of bytes before a writer. After a failed write the writer has gained a first part of
//! the bytes in the page and those after them, but not all.
ghost use Rattle.std.specs.Prelude.{◌<◌, OnOk, [], ◌∷◌};
ghost use Rattle.arrayvec.specs.ArrayVec.{array_vec_len};
ghost use Rattle.s2_mode.specs.Counts.{CanCount, CountsFault};
ghost use Rattle.s2_certfile.specs.Pages.{PutsThrough};

use arrayvec::ArrayVec;
use s2_mode::{CountedWrite, WriteFault, write_full};

/// Bytes that are not written yet.
pub type Page = ArrayVec<u8, 4096>;

/// Makes room for a byte: writes the page if it is full.
fn make_room<W: CountedWrite>(out: &mut W, page: &mut Page) -> Result<(), WriteFault>
    requires { CanCount (W.count out.old) }
    ensures room { OnOk result (array_vec_len page.new < 4096) }
    ensures bytes { PutsThrough [] (W.contents out.old) (W.contents out.new) page.old.items page.new.items result }
    ensures cause { CountsFault (W.count out.old) (W.count out.new) result }
{
    if !page.is_full() {
        return Ok(());
    }
    write_full(out, page.as_slice())?;
    page.clear();
    Ok(())
}

/// Puts a byte into the page, after writing the page if it is full.
pub(crate) fn put<W: CountedWrite>(out: &mut W, page: &mut Page, byte: u8) -> Result<(), WriteFault>
    requires { CanCount (W.count out.old) }
    ensures bytes { PutsThrough (byte ∷ []) (W.contents out.old) (W.contents out.new) page.old.items page.new.items result }
    ensures cause { CountsFault (W.count out.old) (W.count out.new) result }
{
    make_room(out, page)?;
    page.push(byte);
    Ok(())
}

/// Puts bytes into the page, one after another, and writes it whenever it is full.
fn put_each<W: CountedWrite>(out: &mut W, page: &mut Page, bytes: &[u8]) -> Result<(), WriteFault>
    requires { CanCount (W.count out.old) }
    ensures bytes { PutsThrough bytes.now (W.contents out.old) (W.contents out.new) page.old.items page.new.items result }
    ensures cause { CountsFault (W.count out.old) (W.count out.new) result }
{
    for byte in bytes {
        put(out, page, *byte)?;
    }
    Ok(())
}

/// Puts bytes into the page, and writes it whenever it is full.
pub(crate) fn put_all<W: CountedWrite>(
    out: &mut W,
    page: &mut Page,
    bytes: &[u8],
) -> Result<(), WriteFault>
    requires { CanCount (W.count out.old) }
    ensures bytes { PutsThrough bytes.now (W.contents out.old) (W.contents out.new) page.old.items page.new.items result }
    ensures cause { CountsFault (W.count out.old) (W.count out.new) result }
{
    if page.try_extend_from_slice(bytes).is_ok() {
        return Ok(());
    }
    put_each(out, page, bytes)
}
