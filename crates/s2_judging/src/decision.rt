//! The decision on soft values: its line, its exit and its certificate.
ghost use Rattle.std.specs.Prelude.{◌≡◌, ◌≢◌, ℕ, List, IsTrue, All, IfOk, OnOk, OnErr, None, length, true, false};
ghost use Rattle.s2_mode.specs.Counts.{CanCount, CountsFault};
ghost use Rattle.s2_matrix.specs.Code.{code_of, IsCodeword};
ghost use Rattle.s2_check.specs.Cost.{IsMostLikely};
ghost use Rattle.s2_check.specs.Strict.{IsSole};
ghost use Rattle.s2_check.specs.Verdicts.{is_certified};
ghost use Rattle.s2_check.specs.Views.{IsSoft};
ghost use Rattle.s2_judge.specs.Deciding.{decided, IsShown};
ghost use Rattle.s2_judging.specs.Files.{written};
ghost use Rattle.s2_judging.specs.Judging.{Says, SaysDecided, SaysOwn, IsJudged, changed_of, own_verdict};
ghost use Rattle.s2_bits.specs.Bits.{differences};
ghost use Rattle.s2_check.specs.Hard.{hard_decision};
ghost use Rattle.s2_judging.specs.Certifying.{Writes, WritesPart, Wrote, WrotePart};

use crate::lines::{broken_line, codeword_line};
use s2_bits::Bits;
use s2_check::{CertView, Verdict, cost};
use s2_io::{Destination, Exit, Output, Printed};
use s2_judge::Judge;
use s2_matrix::Matrix;
use s2_mode::WriteFault;

/// In how many bits a word differs from the hard decision.
fn changed_bits(soft: &[i16], word: &Bits) -> usize
    requires { length word.now ≡ length soft.now }
    ensures { result ≡ differences (length soft.now) (hard_decision soft.now) word.now }
{
    let mut changed = 0usize;
    'bits: for i in 0..soft.len() {
        changed += usize::from((soft[i] < 0) ^ word.get(i));
    }
    changed
}

/// The same, if the soft values are hard decisions.
fn changed_by(hard: bool, soft: &[i16], word: &Bits) -> Option<usize>
    requires { length word.now ≡ length soft.now }
    ensures { result ≡ changed_of hard soft.now word.now }
{
    if hard {
        Some(changed_bits(soft, word))
    } else {
        None
    }
}

/// The line and the exit of a verdict on decided bits, with the number of changed ones.
fn judgement(
    matrix: &Matrix,
    soft: &[i16],
    word: &Bits,
    verdict: Verdict,
    changed: Option<usize>,
) -> Printed
    requires soft { length soft.now ≡ (code_of matrix.now).bits }
    requires word { length word.now ≡ (code_of matrix.now).bits }
    requires likely { IsTrue (is_certified verdict) → IsMostLikely (code_of matrix.now) soft.now word.now }
    requires sole { verdict ≡ Verdict.Sole → IsSole (code_of matrix.now) soft.now word.now }
    requires codeword { verdict ≢ Verdict.Broken → IsCodeword (code_of matrix.now) word.now }
    requires broken { verdict ≡ Verdict.Broken → IsCodeword (code_of matrix.now) word.now → ⊥ }
    ensures says { Says verdict matrix.now soft.now word.now changed result.exit result.text }
{
    // at most 64800 bits, so the cost fits
    let _ = matrix.bits();
    let cost = cost(soft, word);
    // the bits are broken exactly if a check is odd
    match (matrix.odd_check(word), verdict) {
        (Some(check), _) => Printed {
            exit: Exit::No,
            text: broken_line(cost, check, changed),
        },
        (None, Verdict::Sole) => Printed {
            exit: Exit::Fine,
            text: codeword_line(Verdict::Sole, cost, changed),
        },
        (None, Verdict::MostLikely) => Printed {
            exit: Exit::Fine,
            text: codeword_line(Verdict::MostLikely, cost, changed),
        },
        (None, _) => Printed {
            exit: Exit::No,
            text: codeword_line(Verdict::Parity, cost, changed),
        },
    }
}

/// A judge's decision on soft values: its line and its exit.
fn decision(matrix: &Matrix, judge: &mut Judge<'_>, soft: &[i16], hard: bool) -> Printed
    requires rows { judge.old.rows ≡ matrix.now }
    requires long { length soft.now ≡ (code_of matrix.now).bits }
    requires range { All IsSoft soft.now }
    ensures says { SaysDecided hard (decided matrix.now judge.old.tuning soft.now) matrix.now soft.now result.exit result.text }
    ensures certificate { judge.new.certificate ≡ (decided matrix.now judge.old.tuning soft.now).certificate }
    ensures shown { IsShown matrix.now soft.now (decided matrix.now judge.old.tuning soft.now) }
    ensures same { (judge.new.rows ≡ judge.old.rows) × (judge.new.tuning ≡ judge.old.tuning) }
{
    let verdict = judge.judge(soft);
    let word = judge.word();
    judgement(matrix, soft, word, verdict, changed_by(hard, soft, word))
}

/// The verdict that the program without arguments prints: most likely, also if the bits are sole.
fn own_verdict(verdict: Verdict) -> Verdict
    ensures { result ≡ own_verdict verdict }
{
    match verdict {
        Verdict::Sole | Verdict::MostLikely => Verdict::MostLikely,
        Verdict::Parity => Verdict::Parity,
        Verdict::Broken => Verdict::Broken,
    }
}

/// A judge's decision on soft values, as the program without arguments prints it.
pub(crate) fn own_decision(matrix: &Matrix, judge: &mut Judge<'_>, soft: &[i16]) -> Printed
    requires rows { judge.old.rows ≡ matrix.now }
    requires long { length soft.now ≡ (code_of matrix.now).bits }
    requires range { All IsSoft soft.now }
    ensures { SaysOwn (decided matrix.now judge.old.tuning soft.now) matrix.now soft.now result.exit result.text }
{
    let verdict = judge.judge(soft);
    judgement(matrix, soft, judge.word(), own_verdict(verdict), None)
}

/// Truncates a file, unless it is begun.
fn begin_file<C: Output>(file: &mut Destination<C>) -> Result<(), WriteFault>
    requires count { CanCount (C.count file.old.to) }
    ensures begun { file.new.begun ≡ true }
    ensures kept { C.contents file.new.to ≡ C.contents file.old.to }
    ensures cause { CountsFault (C.count file.old.to) (C.count file.new.to) result }
    ensures once { OnErr result (file.old.begun ≡ false) }
{
    if file.is_begun() {
        return Ok(());
    }
    file.truncate()
}

/// Truncates a file, unless it is begun, and writes a certificate, if there is one. If a write fails, a part of the
/// certificate was written. If the file cannot be truncated, nothing is written.
fn write_certificate<C: Output>(
    view: Option<CertView<'_>>,
    file: &mut Destination<C>,
) -> Result<(), WriteFault>
    requires count { CanCount (C.count file.old.to) }
    ensures begun { file.new.begun ≡ true }
    ensures bytes { OnOk result (Writes view.entry (C.contents file.old.to) (C.contents file.new.to)) }
    ensures part { OnErr result (WritesPart view.entry (C.contents file.old.to) (C.contents file.new.to)) }
    ensures cause { CountsFault (C.count file.old.to) (C.count file.new.to) result }
    ensures once { view.entry ≡ None → OnErr result (file.old.begun ≡ false) }
{
    begin_file(file)?;
    match view {
        Some(view) => view.write(file.writer()),
        None => Ok(()),
    }
}

/// The same, if there is a file.
pub(crate) fn certify<C: Output>(
    view: Option<CertView<'_>>,
    certificate: &mut Option<Destination<C>>,
) -> Result<(), WriteFault>
    requires { CanCount (written C.contents C.count certificate.old).failed }
    ensures whole { OnOk result (Wrote view.entry (written C.contents C.count certificate.old) (written C.contents C.count certificate.new)) }
    ensures part { OnErr result (WrotePart view.entry (written C.contents C.count certificate.old) (written C.contents C.count certificate.new)) }
    ensures once { view.entry ≡ None → OnErr result (((written C.contents C.count certificate.old).asked ≡ true) × ((written C.contents C.count certificate.old).begun ≡ false)) }
{
    match (view, certificate) {
        (view, Some(file)) => write_certificate(view, file),
        (Some(_), None) => Ok(()),
        (None, None) => Ok(()),
    }
}

/// A judge's decision. Its certificate, if there is one, is written to the file, if there is one.
pub(crate) fn decide_by<C: Output>(
    matrix: &Matrix,
    judge: &mut Judge<'_>,
    soft: &[i16],
    hard: bool,
    certificate: &mut Option<Destination<C>>,
) -> Result<Printed, WriteFault>
    requires rows { judge.old.rows ≡ matrix.now }
    requires long { length soft.now ≡ (code_of matrix.now).bits }
    requires range { All IsSoft soft.now }
    requires certificate { CanCount (written C.contents C.count certificate.old).failed }
    ensures same { (judge.new.rows ≡ judge.old.rows) × (judge.new.tuning ≡ judge.old.tuning) }
    ensures says { IfOk result (λ p. IsJudged hard judge.old.tuning (matrix.now, soft.now) p.exit p.text) }
    ensures said { (exit : Exit) × (text : List ℕ) × IsJudged hard judge.old.tuning (matrix.now, soft.now) exit text }
    ensures shown { IsShown matrix.now soft.now (decided matrix.now judge.old.tuning soft.now) }
    ensures whole { OnOk result (Wrote (decided matrix.now judge.old.tuning soft.now).certificate
        (written C.contents C.count certificate.old) (written C.contents C.count certificate.new)) }
    ensures part { OnErr result (WrotePart (decided matrix.now judge.old.tuning soft.now).certificate
        (written C.contents C.count certificate.old) (written C.contents C.count certificate.new)) }
{
    let printed = decision(matrix, judge, soft, hard);
    certify(judge.certificate(), certificate)?;
    Ok(printed)
}
