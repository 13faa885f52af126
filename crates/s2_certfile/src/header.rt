//! The front and the header of a file. Each reader returns a value and the bytes after it.
ghost use Rattle.std.specs.Prelude.{◌≡◌, ℕ, IfOk};
ghost use Rattle.std.specs.Int.{w16, w32};
ghost use Rattle.s2_mode.specs.Shape.{shape_of};
ghost use Rattle.s2_certfile.specs.Format.{letter_at, version_at, front_at, number_at, count_at, header_at, IsCount, IsHeader};
ghost use Rattle.s2_certfile.specs.Answers.{Reads};

use crate::fault::CertFault;
use crate::limits::{MAX_SCALE, MAX_SHARES};
use crate::version::Version;
use s2_mode::Shape;

/// The numbers before the soft values.
#[derive(Clone, Copy)]
pub struct FileHeader {
    /// The form of the split.
    pub version: Version,
    /// The shape of the code.
    pub shape: Shape,
    /// The scale of the split.
    pub scale: u16,
    /// How many shares or moves there are.
    pub count: usize,
}

/// What follows this letter.
fn read_letter(bytes: &[u8], letter: u8) -> Result<&[u8], CertFault>
    ensures { Reads (λ x. x.now) result (letter_at letter bytes.now) }
{
    match bytes {
        [] => Err(CertFault::Cut),
        [byte, rest @ ..] => {
            if *byte == letter {
                Ok(rest)
            } else {
                Err(CertFault::Magic)
            }
        }
    }
}

/// The version, and what follows it.
fn read_version(bytes: &[u8]) -> Result<(Version, &[u8]), CertFault>
    ensures { Reads (λ x. (x.0, x.1.now)) result (version_at bytes.now) }
{
    match bytes {
        [] => Err(CertFault::Cut),
        [byte, rest @ ..] => {
            if *byte == 1 {
                Ok((Version::Listed, rest))
            } else if *byte == 2 {
                Ok((Version::Moved, rest))
            } else {
                Err(CertFault::Magic)
            }
        }
    }
}

/// The version, and what follows the first five bytes.
#[tactic(auto, unfolding(crate::specs::Format::front_at))]
pub(crate) fn read_front(bytes: &[u8]) -> Result<(Version, &[u8]), CertFault>
    ensures { Reads (λ x. (x.0, x.1.now)) result (front_at bytes.now) }
{
    let rest = read_letter(bytes, b'S')?;
    let rest = read_letter(rest, b'2')?;
    let rest = read_letter(rest, b'M')?;
    let rest = read_letter(rest, b'L')?;
    let found = read_version(rest)?;
    Ok(found)
}

/// A number of two bytes.
fn number16(bytes: &[u8]) -> Result<(u16, &[u8]), CertFault>
    ensures { Reads (λ x. (x.0, x.1.now)) result (number_at w16 bytes.now) }
{
    if bytes.len() < 2 {
        return Err(CertFault::Cut);
    }
    let (front, rest) = bytes.split_at(2);
    Ok((u16::from_be_bytes([front[0], front[1]]), rest))
}

/// A number of four bytes.
fn number32(bytes: &[u8]) -> Result<(u32, &[u8]), CertFault>
    ensures { Reads (λ x. (x.0, x.1.now)) result (number_at w32 bytes.now) }
{
    if bytes.len() < 4 {
        return Err(CertFault::Cut);
    }
    let (front, rest) = bytes.split_at(4);
    let number = u32::from_be_bytes([front[0], front[1], front[2], front[3]]);
    Ok((number, rest))
}

/// How many shares or moves there are: there is a move for each check.
fn read_count(
    version: Version,
    group: u16,
    q: u16,
    bytes: &[u8],
) -> Result<(usize, &[u8]), CertFault>
    ensures is { (groups : ℕ) → Reads (λ x. (x.0, x.1.now)) result (count_at version (shape_of group groups q) bytes.now) }
    ensures counted { IfOk result (λ x. (groups : ℕ) → IsCount version (shape_of group groups q) x.0) }
{
    match version {
        Version::Listed => {
            let (count, rest) = number32(bytes)?;
            Ok((count as usize, rest))
        }
        Version::Moved => Ok((usize::from(group) * usize::from(q), bytes)),
    }
}

/// The header, and what follows it.
#[tactic(auto, unfolding(crate::specs::Format::header_at))]
pub(crate) fn read_header(version: Version, bytes: &[u8]) -> Result<(FileHeader, &[u8]), CertFault>
    ensures is { Reads (λ x. (x.0, x.1.now)) result (header_at version bytes.now) }
    ensures known { IfOk result (λ x. IsHeader x.0) }
{
    let (group, rest) = number16(bytes)?;
    let (groups, rest) = number16(rest)?;
    let (q, rest) = number16(rest)?;
    let (scale, rest) = number16(rest)?;
    let (count, rest) = read_count(version, group, q, rest)?;
    let Some(shape) = Shape::new(usize::from(group), usize::from(groups), usize::from(q)) else {
        return Err(CertFault::Shape);
    };
    if scale < 1 || scale > MAX_SCALE || count > MAX_SHARES {
        return Err(CertFault::Range);
    }
    Ok((
        FileHeader {
            version,
            shape,
            scale,
            count,
        },
        rest,
    ))
}
