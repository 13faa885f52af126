//! Certificates of codewords.
ghost use Rattle.std.specs.Prelude.{◌≡◌, ◌≢◌, ◌↔◌, All, IfOk, IfSome, IsTrue, None, length};
ghost use Rattle.s2_matrix.specs.Code.{code_of, IsCodeword};
ghost use Rattle.s2_check.specs.Views.{IsSoft};
ghost use Rattle.s2_split.specs.Making.{shared_view, shared_views};
ghost use Rattle.s2_split.specs.Scattered.{repaired};
ghost use Rattle.s2_judge.specs.Deciding.{is_strict, view_for, decoded_view};
ghost use Rattle.s2_judge.specs.Certifying.{found_by, IsCertificateSource};

use s2_bits::Bits;
use s2_check::CertView;
use s2_matrix::Matrix;
use s2_settle::DualAscent;
use s2_split::Maker;
use std::alloc::{AllocError, Global};
use std::marker::Model;

/// The owner of the last certificate found.
#[derive(Clone, Copy)]
pub(crate) enum CertificateSource {
    NotFound,
    Maker,
    DualAscent,
}

impl CertificateSource {
    /// Whether there is a certificate.
    fn is_some(self) -> bool
        ensures { IsTrue result ↔ (self ≢ CertificateSource.NotFound) }
    {
        match self {
            CertificateSource::NotFound => false,
            CertificateSource::Maker | CertificateSource::DualAscent => true,
        }
    }
}

/// Looks for a certificate of the repair, in at most `passes` passes of settling, if that is not 0. Returns the owner
/// of the certificate, and whether it is strict.
fn find_for_repair(
    maker: &mut Maker<'_>,
    ascent: &mut DualAscent<'_>,
    soft: &[i16],
    codeword: &Bits,
    passes: u32,
) -> (CertificateSource, bool)
    requires ascent { ascent.old.rows ≡ maker.old.rows }
    requires soft { length soft.now ≡ (code_of maker.old.rows).bits }
    requires range { All IsSoft soft.now }
    requires codeword { IsCodeword (code_of maker.old.rows) codeword.now }
    ensures maker { maker.new.rows ≡ maker.old.rows }
    ensures ascent { ascent.new.rows ≡ ascent.old.rows }
    ensures source { IsCertificateSource maker.new result.0 }
    ensures view { view_for maker.old.rows passes soft.now codeword.now ≡ shared_views maker.old.rows soft.now codeword.now (found_by maker.new ascent.new result.0) }
    ensures strict { IfSome (found_by maker.new ascent.new result.0) (λ s. is_strict maker.old.rows (shared_view maker.old.rows soft.now codeword.now s) ≡ result.1) }
{
    if passes == 0 {
        if maker.certify_codeword(soft, codeword) {
            return (CertificateSource::Maker, maker.is_strict());
        }
        return (CertificateSource::NotFound, false);
    }
    if maker.certify_greedily(soft, codeword) {
        return (CertificateSource::Maker, maker.is_strict());
    }
    if ascent.certify(soft, codeword, passes) {
        return (CertificateSource::DualAscent, true);
    }
    (CertificateSource::NotFound, false)
}

/// Looks for a certificate of a codeword that min-sum found, in at most `passes` passes of settling, if that is not 0.
/// Returns the owner of the certificate, and whether it is strict. Greedy amounts succeed for few of these codewords,
/// and trying them first takes longer.
fn find_for_decoded(
    maker: &mut Maker<'_>,
    ascent: &mut DualAscent<'_>,
    soft: &[i16],
    codeword: &Bits,
    passes: u32,
) -> (CertificateSource, bool)
    requires ascent { ascent.old.rows ≡ maker.old.rows }
    requires soft { length soft.now ≡ (code_of maker.old.rows).bits }
    requires range { All IsSoft soft.now }
    requires codeword { IsCodeword (code_of maker.old.rows) codeword.now }
    ensures maker { maker.new.rows ≡ maker.old.rows }
    ensures ascent { ascent.new.rows ≡ ascent.old.rows }
    ensures source { IsCertificateSource maker.new result.0 }
    ensures view { decoded_view maker.old.rows passes soft.now codeword.now ≡ shared_views maker.old.rows soft.now codeword.now (found_by maker.new ascent.new result.0) }
    ensures strict { IfSome (found_by maker.new ascent.new result.0) (λ s. is_strict maker.old.rows (shared_view maker.old.rows soft.now codeword.now s) ≡ result.1) }
{
    if passes == 0 {
        if maker.certify_codeword(soft, codeword) {
            return (CertificateSource::Maker, maker.is_strict());
        }
        return (CertificateSource::NotFound, false);
    }
    if ascent.certify(soft, codeword, passes) {
        return (CertificateSource::DualAscent, true);
    }
    (CertificateSource::NotFound, false)
}

/// Finds certificates of codewords. Without passes it tries the maker's greedy amounts, then its spreading. With
/// passes it runs at most that many of the ascent; for a repair it tries greedy amounts first.
///
/// In contracts it has four parts: the rows of its matrix, its number of passes, the shares found last, and whether
/// they are strict.
pub(crate) struct Certifier<'a> {
    matrix: &'a Matrix,
    passes: u32,
    maker: Maker<'a>,
    ascent: DualAscent<'a>,
    source: CertificateSource,
    strict: bool,
}

impl<'a> Drop for Certifier<'a> {
    fn drop(self) {
        let Certifier {
            matrix: _,
            passes: _,
            maker: _,
            ascent: _,
            source: _,
            strict: _,
        } = self;
    }
}

impl<'a> Model for Certifier<'a> {
    ghost use Rattle.s2_judge.specs.Certifying.{Certifying, IsCertifier, found_by};

    ghost Value = { Certifying };

    ghost view = { λ c. record { rows = c.matrix.now; passes = c.passes; found = found_by c.maker c.ascent c.source; strict = c.strict } };

    ghost invariant = { λ c. IsCertifier c.matrix.now c.maker c.ascent c.source };
}

impl<'a> Certifier<'a> {
    /// A certifier for the codewords of this matrix, with this number of passes, which has found nothing yet.
    /// It takes all its memory here: `AllocError` only if memory is refused.
    pub(crate) fn new(
        alloc: Global,
        matrix: &'a Matrix,
        passes: u32,
    ) -> Result<Certifier<'a>, AllocError>
        ensures rows { IfOk result (λ c. c.rows ≡ matrix.now) }
        ensures passes { IfOk result (λ c. c.passes ≡ passes) }
    {
        let maker = Maker::new(alloc, matrix)?;
        let ascent = DualAscent::new(alloc, matrix)?;
        Ok(Certifier {
            matrix,
            passes,
            maker,
            ascent,
            source: CertificateSource::NotFound,
            strict: false,
        })
    }

    /// The matrix of the codewords.
    pub(crate) fn matrix(&self) -> &'a Matrix
        ensures { result.now ≡ self.now.rows }
    {
        self.matrix
    }

    /// Writes the repaired hard decision: each bit that is in at least two checks, all of them odd under the hard
    /// decision, is flipped. The last certificate is kept.
    pub(crate) fn repair_into(&mut self, soft: &[i16], word: &mut Bits)
        requires soft { length soft.now ≡ (code_of self.old.rows).bits }
        requires word { length word.old ≡ (code_of self.old.rows).bits }
        ensures same { self.new ≡ self.old }
        ensures word { word.new ≡ repaired (code_of self.old.rows) soft.now }
    {
        self.maker.repair_into(soft, word);
    }

    /// Looks for a certificate of a repair that is a codeword, and returns whether it found one.
    pub(crate) fn certify_repair(&mut self, soft: &[i16], codeword: &Bits) -> bool
        requires soft { length soft.now ≡ (code_of self.old.rows).bits }
        requires range { All IsSoft soft.now }
        requires codeword { IsCodeword (code_of self.old.rows) codeword.now }
        ensures rows { self.new.rows ≡ self.old.rows }
        ensures passes { self.new.passes ≡ self.old.passes }
        ensures found { IsTrue result ↔ (self.new.found ≢ None) }
        ensures view { view_for self.old.rows self.old.passes soft.now codeword.now ≡ shared_views self.old.rows soft.now codeword.now self.new.found }
        ensures strict { IfSome self.new.found (λ s. is_strict self.old.rows (shared_view self.old.rows soft.now codeword.now s) ≡ self.new.strict) }
    {
        let (source, strict) = find_for_repair(
            &mut self.maker,
            &mut self.ascent,
            soft,
            codeword,
            self.passes,
        );
        self.source = source;
        self.strict = strict;
        self.source.is_some()
    }

    /// Looks for a certificate of a codeword that min-sum found, and returns whether it found one.
    pub(crate) fn certify_decoded(&mut self, soft: &[i16], codeword: &Bits) -> bool
        requires soft { length soft.now ≡ (code_of self.old.rows).bits }
        requires range { All IsSoft soft.now }
        requires codeword { IsCodeword (code_of self.old.rows) codeword.now }
        ensures rows { self.new.rows ≡ self.old.rows }
        ensures passes { self.new.passes ≡ self.old.passes }
        ensures found { IsTrue result ↔ (self.new.found ≢ None) }
        ensures view { decoded_view self.old.rows self.old.passes soft.now codeword.now ≡ shared_views self.old.rows soft.now codeword.now self.new.found }
        ensures strict { IfSome self.new.found (λ s. is_strict self.old.rows (shared_view self.old.rows soft.now codeword.now s) ≡ self.new.strict) }
    {
        let (source, strict) = find_for_decoded(
            &mut self.maker,
            &mut self.ascent,
            soft,
            codeword,
            self.passes,
        );
        self.source = source;
        self.strict = strict;
        self.source.is_some()
    }

    /// Whether the last certificate found is strict.
    pub(crate) fn is_strict(&self) -> bool
        ensures { result ≡ self.now.strict }
    {
        self.strict
    }

    /// The certificate of these values and this word with the shares found last.
    pub(crate) fn held<'s>(&'s self, soft: &'s [i16], word: &'s Bits) -> Option<CertView<'s>>
        requires soft { length soft.now ≡ (code_of self.now.rows).bits }
        requires range { All IsSoft soft.now }
        requires long { length word.now ≡ (code_of self.now.rows).bits }
        ensures { result ≡ shared_views self.now.rows soft.now word.now self.now.found }
    {
        match self.source {
            CertificateSource::NotFound => None,
            CertificateSource::Maker => Some(self.maker.held(soft, word)),
            CertificateSource::DualAscent => Some(self.ascent.held(soft, word)),
        }
    }
}
