//! The contents of a certificate file, in memory.
ghost use Rattle.std.specs.Prelude.{◌≡◌, IfOk, OnOk, true, length};
ghost use Rattle.s2_certfile.specs.File.{IsFile, IsSplit};
ghost use Rattle.s2_certfile.specs.Format.{body, body_at, file_of, file_of_bytes, split, IsHeader};
ghost use Rattle.s2_certfile.specs.Held.{split_in};
ghost use Rattle.s2_certfile.specs.Answers.{FileAnswer, Reads};

use crate::fault::CertFault;
use crate::header::{FileHeader, read_front, read_header};
use crate::held::Held;
use crate::lists::{are_moves, are_soft, is_padded, moves, shares, soft_values};
use crate::version::{MOVE_BYTES, SHARE_BYTES, SOFT_BYTES, Version};
use s2_bits::Bits;
use s2_mode::Shape;
use std::alloc::{AllocError, Global};
use std::marker::Model;

/// The contents of a certificate file: a shape, a scale, a soft value and a bit for each place of a
/// codeword, and a split.
pub struct Contents {
    shape: Shape,
    scale: u16,
    soft: Vec<i16>,
    word: Bits,
    held: Held,
}

impl Drop for Contents {
    fn drop(self) {
        let Contents {
            shape: _,
            scale: _,
            soft: _,
            word: _,
            held: _,
        } = self;
    }
}

impl Model for Contents {
    ghost use Rattle.s2_certfile.specs.File.{File, IsFile};
    ghost use Rattle.s2_certfile.specs.Held.{split_in};

    ghost Value = { File };

    ghost view = { λ c. record {
      shape = c.shape;
      scale = c.scale;
      soft = c.soft.items;
      bits = c.word;
      split = split_in c.held;
    } };

    ghost invariant = { λ c. IsFile (record {
      shape = c.shape;
      scale = c.scale;
      soft = c.soft.items;
      bits = c.word;
      split = split_in c.held;
    }) };
}

/// How many bytes the split has.
fn split_size(header: &FileHeader) -> usize
    requires { IsHeader header.now }
    ensures { result ≡ (split header.now.version header.now.count).size }
{
    match header.version {
        Version::Listed => header.count * SHARE_BYTES,
        Version::Moved => header.count * MOVE_BYTES,
    }
}

/// Whether the split's numbers are in range.
fn is_split(header: &FileHeader, bytes: &[u8]) -> bool
    requires { length bytes.now ≡ (split header.now.version header.now.count).size }
    ensures { result ≡ (split header.now.version header.now.count).test bytes.now }
{
    match header.version {
        Version::Listed => true,
        Version::Moved => are_moves(bytes, header.count),
    }
}

/// The split.
fn read_split(alloc: Global, header: &FileHeader, bytes: &[u8]) -> Result<Held, AllocError>
    requires header { IsHeader header.now }
    requires size { length bytes.now ≡ (split header.now.version header.now.count).size }
    requires tests { (split header.now.version header.now.count).test bytes.now ≡ true }
    ensures is { IfOk result (λ s. split_in s ≡ (split header.now.version header.now.count).value bytes.now) }
    ensures fits { IfOk result (λ s. IsSplit header.now.shape (split_in s)) }
{
    match header.version {
        Version::Listed => {
            let list = shares(alloc, bytes, header.count)?;
            Ok(Held::Listed(list))
        }
        Version::Moved => {
            let list = moves(alloc, bytes, header.count)?;
            Ok(Held::Moved(list))
        }
    }
}

/// Whether the body has the length that the header gives, and each field passes its test.
fn accept(header: &FileHeader, bytes: &[u8]) -> Result<(), CertFault>
    requires { IsHeader header.now }
    ensures is { Reads (λ x. file_of header.now ((body header.now).value bytes.now)) result (body_at header.now bytes.now) }
    ensures size { OnOk result (length bytes.now ≡ (body header.now).size) }
    ensures tests { OnOk result ((body header.now).test bytes.now ≡ true) }
{
    let n = header.shape.n();
    let soft_size = n * SOFT_BYTES;
    let word_size = (n + 7) / 8;
    let size = soft_size + (word_size + split_size(header));
    if bytes.len() < size {
        return Err(CertFault::Cut);
    }
    if size < bytes.len() {
        return Err(CertFault::Extra);
    }
    let (soft, rest) = bytes.split_at(soft_size);
    let (word, last) = rest.split_at(word_size);
    if !are_soft(soft, n) || !is_padded(word, n) || !is_split(header, last) {
        return Err(CertFault::Range);
    }
    Ok(())
}

impl Contents {
    /// Takes an accepted body apart.
    fn take_apart(alloc: Global, bytes: &[u8], header: &FileHeader) -> Result<Contents, AllocError>
        requires header { IsHeader header.now }
        requires size { length bytes.now ≡ (body header.now).size }
        requires tests { (body header.now).test bytes.now ≡ true }
        ensures { IfOk result (λ c. c ≡ file_of header.now ((body header.now).value bytes.now)) }
    {
        let n = header.shape.n();
        let (soft, rest) = bytes.split_at(n * SOFT_BYTES);
        let (word, last) = rest.split_at((n + 7) / 8);
        let soft = soft_values(alloc, soft, n)?;
        let word = Bits::from_bytes(alloc, word, n)?;
        let held = read_split(alloc, header, last)?;
        Ok(Contents {
            shape: header.shape,
            scale: header.scale,
            soft,
            word,
            held,
        })
    }

    /// The contents of a body.
    fn read_body(alloc: Global, header: &FileHeader, bytes: &[u8]) -> Result<Contents, CertFault>
        requires { IsHeader header.now }
        ensures { FileAnswer (λ c. c) result (body_at header.now bytes.now) }
    {
        accept(header, bytes)?;
        match Contents::take_apart(alloc, bytes, header) {
            Ok(contents) => Ok(contents),
            Err(_) => Err(CertFault::NoMemory),
        }
    }

    /// The contents of a file, or its first refusal. The tests are made in this order: magic, cut (before the end of
    /// the header), shape, range (the scale or the count), cut, extra, range (a soft value, a padding bit or a move).
    /// `NoMemory` is returned only for a file that is otherwise accepted.
    #[tactic(auto, unfolding(crate::specs::Format::file_of_bytes))]
    pub fn read(alloc: Global, bytes: &[u8]) -> Result<Contents, CertFault>
        ensures { FileAnswer (λ c. c) result (file_of_bytes bytes.now) }
    {
        let (version, rest) = read_front(bytes)?;
        match read_header(version, rest) {
            Ok((header, rest)) => Contents::read_body(alloc, &header, rest),
            Err(fault) => Err(fault),
        }
    }

    /// The shape of the code.
    pub fn shape(&self) -> Shape
        ensures is { result ≡ self.now.shape }
        ensures valid { IsFile self.now }
    {
        self.shape
    }

    /// The scale of the split, 1 to 4096.
    pub fn scale(&self) -> u16
        ensures { result ≡ self.now.scale }
    {
        self.scale
    }

    /// The soft values, each from -511 to 511.
    pub fn soft(&self) -> &[i16]
        ensures { result.now ≡ self.now.soft }
    {
        &self.soft
    }

    /// The word.
    pub fn word(&self) -> &Bits
        ensures { result.now ≡ self.now.bits }
    {
        &self.word
    }

    /// The split.
    pub fn held(&self) -> &Held
        ensures { split_in result.now ≡ self.now.split }
    {
        &self.held
    }
}
