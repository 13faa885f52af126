//! The receiver's decision on the soft values of one frame.
ghost use Rattle.std.specs.Prelude.{◌≡◌, ◌≢◌, ◌↔◌, IsTrue, IfOk, All, Bool, List, None, length, replicate, false, pos};
ghost use Rattle.std.specs.Borrow.{sem};
ghost use Rattle.s2_matrix.specs.Code.{code_of, IsCodeword};
ghost use Rattle.s2_check.specs.Cost.{IsMostLikely};
ghost use Rattle.s2_check.specs.Hard.{hard_decision, NoneIsZero};
ghost use Rattle.s2_check.specs.Strict.{IsSole};
ghost use Rattle.s2_check.specs.Verdicts.{is_certified};
ghost use Rattle.s2_check.specs.Views.{IsSoft};
ghost use Rattle.s2_split.specs.Scattered.{IsScattered};
ghost use Rattle.s2_judge.specs.Deciding.{decided, rounds_run, IsShown};
ghost use Rattle.s2_judge.specs.Lending.{LendsSoft};

use crate::certifier::Certifier;
use crate::evidence::Evidence;
use crate::steps::decide_by_steps;
use s2_bits::Bits;
use s2_check::{CertView, Verdict};
use s2_matrix::Matrix;
use s2_minsum::Decoder;
use s2_tuning::Tuning;
use std::alloc::{AllocError, Global};
use std::marker::Model;

/// The receiver's decision on the soft values of one frame, with all the memory that it takes.
///
/// The first of four steps that succeeds decides:
/// 1. The hard decision satisfies every check. It is most likely, by its unsplit certificate.
/// 2. Its repair satisfies every check, and a certificate is found for it. The repair is most likely. It flips each bit
///    that is in at least two checks, all of them odd.
/// 3. The hard decision after a round of min-sum satisfies every check. No further round is run. It is most likely if
///    a certificate is found for it, else its verdict is parity.
/// 4. The repair, if it satisfies every check. Otherwise min-sum's last hard decision, which is broken.
///
/// Without passes the judge tries greedy amounts for a certificate, then spreading. With passes it runs at most that
/// many of settling, and a certificate from these is strict; for a repair it tries greedy amounts first. It looks for
/// no certificate of min-sum's codeword if the tuning leaves these uncertified. If a certificate is strict, the verdict
/// is sole instead of most likely: every other codeword costs more. In step 1 it is strict if no soft value is 0.
///
/// In contracts a judge is its matrix's rows, its tuning, its soft values, the bits that were last decided, their
/// certificate, and the rounds of min-sum that were run for them.
pub struct Judge<'a> {
    tuning: Tuning,
    certifier: Certifier<'a>,
    decoder: Decoder<'a>,
    soft: Vec<i16>,
    repair: Bits,
    bits: Bits,
    evidence: Evidence,
    rounds: u32,
}

impl<'a> Drop for Judge<'a> {
    fn drop(self) {
        let Judge {
            tuning: _,
            certifier: _,
            decoder: _,
            soft: _,
            repair: _,
            bits: _,
            evidence: _,
            rounds: _,
        } = self;
    }
}

impl<'a> Model for Judge<'a> {
    ghost use Rattle.s2_judge.specs.Judging.{Judging, IsJudge, view_by};

    ghost Value = { Judging };

    ghost view = { λ j. record {
      rows = j.certifier.rows;
      tuning = j.tuning;
      soft = j.soft.items;
      bits = j.bits;
      certificate = view_by j.certifier.rows j.soft.items j.bits j.certifier.found j.evidence;
      rounds = j.rounds;
    } };

    ghost invariant = { λ j. IsJudge j.tuning j.certifier j.decoder j.soft.items j.repair j.bits j.evidence };
}

impl<'a> Judge<'a> {
    /// A judge for this matrix and this tuning. `AllocError` only if memory is refused.
    pub fn new(alloc: Global, matrix: &'a Matrix, tuning: Tuning) -> Result<Judge<'a>, AllocError>
        ensures rows { IfOk result (λ j. j.rows ≡ matrix.now) }
        ensures tuning { IfOk result (λ j. j.tuning ≡ tuning) }
        ensures soft { IfOk result (λ j. j.soft ≡ replicate (code_of matrix.now).bits (pos 0)) }
        ensures bits { IfOk result (λ j. j.bits ≡ replicate (code_of matrix.now).bits false) }
        ensures none { IfOk result (λ j. j.certificate ≡ None) }
        ensures rounds { IfOk result (λ j. j.rounds ≡ 0) }
    {
        // its postcondition on the rounds is part of a judge's invariant
        let _rounds = tuning.rounds();
        let n = matrix.bits();
        let certifier = Certifier::new(alloc, matrix, tuning.passes())?;
        let decoder = Decoder::new(alloc, matrix)?;
        let soft = vec![in alloc; 0i16; n]?;
        let repair = Bits::zeroed(alloc, n)?;
        let bits = Bits::zeroed(alloc, n)?;
        Ok(Judge {
            tuning,
            certifier,
            decoder,
            soft,
            repair,
            bits,
            evidence: Evidence::Nothing,
            rounds: 0,
        })
    }

    /// The soft values, zeros at first.
    pub fn soft(&self) -> &[i16]
        ensures is { result.now ≡ self.now.soft }
        ensures long { length result.now ≡ (code_of self.now.rows).bits }
    {
        &self.soft
    }

    /// The soft values, to be overwritten: n of them, the codeword's length. The decided bits are kept until the next
    /// decision, but without their certificate.
    pub fn soft_mut(&mut self) -> &mut [i16]
        ensures* writes_back { sem 𝓛 (LendsSoft self.entry result) }
        ensures is { result.now ≡ self.old.soft }
        ensures long { length result.now ≡ (code_of self.old.rows).bits }
    {
        self.evidence = Evidence::Nothing;
        &mut self.soft
    }

    /// Decides on the soft values that were written, each from -511 to 511. It takes no memory. The decision depends
    /// only on these values.
    pub fn decide(&mut self) -> Verdict
        requires range { All IsSoft self.old.soft }
        ensures rows { self.new.rows ≡ self.old.rows }
        ensures tuning { self.new.tuning ≡ self.old.tuning }
        ensures soft { self.new.soft ≡ self.old.soft }
        ensures verdict { result ≡ (decided self.old.rows self.old.tuning self.old.soft).verdict }
        ensures bits { self.new.bits ≡ (decided self.old.rows self.old.tuning self.old.soft).bits }
        ensures certificate { self.new.certificate ≡ (decided self.old.rows self.old.tuning self.old.soft).certificate }
        ensures rounds { self.new.rounds ≡ rounds_run self.old.rows self.old.tuning self.old.soft }
        ensures likely { IsTrue (is_certified result)
            → IsMostLikely (code_of self.old.rows) self.old.soft self.new.bits }
        ensures sole { result ≡ Verdict.Sole → IsSole (code_of self.old.rows) self.old.soft self.new.bits }
        ensures certified { IsShown self.old.rows self.old.soft
            (record { verdict = result; bits = self.new.bits; certificate = self.new.certificate }) }
        ensures codeword { result ≢ Verdict.Broken → IsCodeword (code_of self.old.rows) self.new.bits }
        ensures broken { result ≡ Verdict.Broken → IsCodeword (code_of self.old.rows) self.new.bits → ⊥ }
        ensures scattered { (sent : List Bool) → IsScattered (code_of self.old.rows) self.old.soft sent
            → IsTrue (is_certified result) × (self.new.bits ≡ sent) }
        ensures clean { IsCodeword (code_of self.old.rows) (hard_decision self.old.soft) → IsTrue (is_certified result)
            × (self.new.bits ≡ hard_decision self.old.soft) × ((result ≡ Verdict.Sole) ↔ NoneIsZero self.old.soft) }
    {
        let (evidence, rounds) = decide_by_steps(
            &mut self.certifier,
            &mut self.decoder,
            &self.soft,
            self.tuning,
            &mut self.repair,
            &mut self.bits,
        );
        self.evidence = evidence;
        self.rounds = rounds;
        self.evidence.verdict()
    }

    /// Decides on n soft values from -511 to 511, n the codeword's length, which it copies. It takes no memory. The
    /// decision depends only on these values.
    pub fn judge(&mut self, soft: &[i16]) -> Verdict
        requires long { length soft.now ≡ (code_of self.old.rows).bits }
        requires range { All IsSoft soft.now }
        ensures rows { self.new.rows ≡ self.old.rows }
        ensures tuning { self.new.tuning ≡ self.old.tuning }
        ensures soft { self.new.soft ≡ soft.now }
        ensures verdict { result ≡ (decided self.old.rows self.old.tuning soft.now).verdict }
        ensures bits { self.new.bits ≡ (decided self.old.rows self.old.tuning soft.now).bits }
        ensures certificate { self.new.certificate ≡ (decided self.old.rows self.old.tuning soft.now).certificate }
        ensures rounds { self.new.rounds ≡ rounds_run self.old.rows self.old.tuning soft.now }
        ensures likely { IsTrue (is_certified result) → IsMostLikely (code_of self.old.rows) soft.now self.new.bits }
        ensures sole { result ≡ Verdict.Sole → IsSole (code_of self.old.rows) soft.now self.new.bits }
        ensures certified { IsShown self.old.rows soft.now
            (record { verdict = result; bits = self.new.bits; certificate = self.new.certificate }) }
        ensures codeword { result ≢ Verdict.Broken → IsCodeword (code_of self.old.rows) self.new.bits }
        ensures broken { result ≡ Verdict.Broken → IsCodeword (code_of self.old.rows) self.new.bits → ⊥ }
        ensures scattered { (sent : List Bool) → IsScattered (code_of self.old.rows) soft.now sent
            → IsTrue (is_certified result) × (self.new.bits ≡ sent) }
        ensures clean { IsCodeword (code_of self.old.rows) (hard_decision soft.now) → IsTrue (is_certified result)
            × (self.new.bits ≡ hard_decision soft.now) × ((result ≡ Verdict.Sole) ↔ NoneIsZero soft.now) }
    {
        self.soft_mut().copy_from_slice(soft);
        self.decide()
    }

    /// The bits that were last decided: zeros before the first decision.
    pub fn word(&self) -> &Bits
        ensures is { result.now ≡ self.now.bits }
        ensures long { length result.now ≡ (code_of self.now.rows).bits }
    {
        &self.bits
    }

    /// The certificate of the bits that were last decided: `Some` exactly if the verdict was sole or most likely, and
    /// `soft_mut` was not called since.
    pub fn certificate(&self) -> Option<CertView<'_>>
        ensures { result ≡ self.now.certificate }
    {
        match self.evidence {
            Evidence::HardDecision(_) => Some(CertView::unsplit(
                self.certifier.matrix(),
                &self.soft,
                &self.bits,
            )),
            Evidence::Found(_) => self.certifier.held(&self.soft, &self.bits),
            Evidence::Checks | Evidence::Nothing => None,
        }
    }

    /// The rounds of min-sum that the last decision ran: 0 before the first one, and if the hard decision or its repair
    /// was decided without min-sum.
    pub fn rounds(&self) -> u32
        ensures { result ≡ self.now.rounds }
    {
        self.rounds
    }
}
