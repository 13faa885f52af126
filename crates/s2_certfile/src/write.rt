//! The parts of a certificate file, each appended to a page. The page is written whenever it is full.
//! After a failed write the writer has gained a first part of the bytes in the page and those after
//! them, but not all.
ghost use Rattle.std.specs.Prelude.{◌≡◌, ◌≤◌, All, length};
ghost use Rattle.std.specs.List.{flat_map};
ghost use Rattle.s2_mode.specs.Limits.{max_bits};
ghost use Rattle.s2_mode.specs.Counts.{CanCount, CountsFault};
ghost use Rattle.s2_certfile.specs.Limits.{max_shares};
ghost use Rattle.s2_certfile.specs.Pages.{PutsThrough};
ghost use Rattle.s2_certfile.specs.Field.{bytes_of_bits};
ghost use Rattle.s2_certfile.specs.File.{IsSoft};
ghost use Rattle.s2_certfile.specs.Format.{header_bytes, soft, share, move, version_byte, count_bytes, front_bytes};

use crate::header::FileHeader;
use crate::page::{Page, put, put_all};
use crate::step::Move;
use crate::version::Version;
use s2_bits::Bits;
use s2_mode::{CountedWrite, WriteFault};

/// The byte of a version.
fn byte_of(version: Version) -> u8
    ensures { result ≡ version_byte version }
{
    match version {
        Version::Listed => 1,
        Version::Moved => 2,
    }
}

/// Writes the bytes with which every version begins.
fn write_front<W: CountedWrite>(
    out: &mut W,
    page: &mut Page,
    header: &FileHeader,
) -> Result<(), WriteFault>
    requires { CanCount (W.count out.old) }
    ensures bytes { PutsThrough (front_bytes header.now) (W.contents out.old) (W.contents out.new) page.old.items page.new.items result }
    ensures cause { CountsFault (W.count out.old) (W.count out.new) result }
{
    let version = byte_of(header.version);
    let [g0, g1] = (header.shape.group() as u16).to_be_bytes();
    let [i0, i1] = (header.shape.groups() as u16).to_be_bytes();
    let [q0, q1] = (header.shape.q() as u16).to_be_bytes();
    let [s0, s1] = header.scale.to_be_bytes();
    put_all(
        out,
        page,
        &[
            b'S', b'2', b'M', b'L', version, g0, g1, i0, i1, q0, q1, s0, s1,
        ],
    )
}

/// Writes the count of shares. Moves have no count.
fn write_count<W: CountedWrite>(
    out: &mut W,
    page: &mut Page,
    version: Version,
    count: u32,
) -> Result<(), WriteFault>
    requires { CanCount (W.count out.old) }
    ensures bytes { PutsThrough (count_bytes version count) (W.contents out.old) (W.contents out.new) page.old.items page.new.items result }
    ensures cause { CountsFault (W.count out.old) (W.count out.new) result }
{
    match version {
        Version::Listed => put_all(out, page, &count.to_be_bytes()),
        Version::Moved => Ok(()),
    }
}

/// Writes the front and the header. A count is at most 1,555,200.
pub fn write_header<W: CountedWrite>(
    out: &mut W,
    page: &mut Page,
    header: &FileHeader,
) -> Result<(), WriteFault>
    requires count { CanCount (W.count out.old) }
    requires few { header.now.count ≤ max_shares }
    ensures bytes { PutsThrough (header_bytes header.now)
        (W.contents out.old) (W.contents out.new) page.old.items page.new.items result }
    ensures cause { CountsFault (W.count out.old) (W.count out.new) result }
{
    write_front(out, page, header)?;
    write_count(out, page, header.version, header.count as u32)
}

/// Writes a soft value.
fn put_soft<W: CountedWrite>(out: &mut W, page: &mut Page, value: i16) -> Result<(), WriteFault>
    requires count { CanCount (W.count out.old) }
    requires range { IsSoft value }
    ensures bytes { PutsThrough (soft.bytes value) (W.contents out.old) (W.contents out.new) page.old.items page.new.items result }
    ensures cause { CountsFault (W.count out.old) (W.count out.new) result }
{
    put_all(out, page, &value.to_be_bytes())
}

/// Writes the soft values.
pub fn write_soft<W: CountedWrite>(
    out: &mut W,
    page: &mut Page,
    values: &[i16],
) -> Result<(), WriteFault>
    requires count { CanCount (W.count out.old) }
    requires range { All IsSoft values.now }
    ensures bytes { PutsThrough (flat_map soft.bytes values.now)
        (W.contents out.old) (W.contents out.new) page.old.items page.new.items result }
    ensures cause { CountsFault (W.count out.old) (W.count out.new) result }
{
    for value in values {
        put_soft(out, page, *value)?;
    }
    Ok(())
}

/// Writes the word, padded with zeros to a byte.
pub fn write_word<W: CountedWrite>(
    out: &mut W,
    page: &mut Page,
    word: &Bits,
) -> Result<(), WriteFault>
    requires count { CanCount (W.count out.old) }
    requires few { length word.now ≤ max_bits }
    ensures bytes { PutsThrough (bytes_of_bits word.now)
        (W.contents out.old) (W.contents out.new) page.old.items page.new.items result }
    ensures cause { CountsFault (W.count out.old) (W.count out.new) result }
{
    for k in 0..word.len().div_ceil(8) {
        put(out, page, word.byte(k))?;
    }
    Ok(())
}

/// Writes a share.
pub fn write_share<W: CountedWrite>(
    out: &mut W,
    page: &mut Page,
    value: i32,
) -> Result<(), WriteFault>
    requires { CanCount (W.count out.old) }
    ensures bytes { PutsThrough (share.bytes value)
        (W.contents out.old) (W.contents out.new) page.old.items page.new.items result }
    ensures cause { CountsFault (W.count out.old) (W.count out.new) result }
{
    put_all(out, page, &value.cast_unsigned().to_be_bytes())
}

/// Writes a move.
pub fn write_move<W: CountedWrite>(
    out: &mut W,
    page: &mut Page,
    value: Move,
) -> Result<(), WriteFault>
    requires { CanCount (W.count out.old) }
    ensures bytes { PutsThrough (move.bytes value)
        (W.contents out.old) (W.contents out.new) page.old.items page.new.items result }
    ensures cause { CountsFault (W.count out.old) (W.count out.new) result }
{
    let [p0, p1] = value.place.to_be_bytes();
    let [a0, a1, a2, a3] = value.amount.to_be_bytes();
    put_all(out, page, &[p0, p1, a0, a1, a2, a3])
}
