//! The answer for a frame.
ghost use Rattle.std.specs.Prelude.{◌≡◌, ◌≢◌, ◌≤◌, ◌*◌, MatchOption, length, pos, neg_ℤ, ◌≤ℤ◌, Some, None};
ghost use Rattle.s2_bits.specs.Bits.{differences};
ghost use Rattle.s2_mode.specs.Limits.{max_bits};
ghost use Rattle.s2_mode.specs.Shape.{code_bits};
ghost use Rattle.s2_rows.specs.Rows.{Rows};
ghost use Rattle.s2_matrix.specs.Code.{code_of, IsCodeword};
ghost use Rattle.s2_check.specs.Cost.{cost, IsMostLikely};
ghost use Rattle.s2_check.specs.Checking.{IsCertificate};
ghost use Rattle.s2_compare.specs.Comparing.{Answers, AnswersWord, Compares, Shows, changed_bits, given, odd_checks};

use crate::compared::Compared;
use s2_bits::Bits;
use s2_check::{Answer, CertView, Certificate, Verdict, examine};
use s2_matrix::Matrix;

/// In how many bits a word differs from that of a certificate.
fn changed_bits(view: &CertView<'_>, word: &Bits) -> usize
    requires { length word.now ≡ code_bits view.now.rows.shape }
    ensures is { result ≡ changed_bits view.now word.now }
    ensures none { result ≡ 0 → word.now ≡ view.now.bits }
    ensures some { result ≢ 0 → word.now ≢ view.now.bits }
{
    let _valid = view.shape();
    let mut changed = 0usize;
    'bits: for i in 0..word.len() {
        changed += usize::from(word.get(i) ^ view.bit(i));
    }
    changed
}

/// The cost of a word under the soft values of a certificate.
fn cost_under(view: &CertView<'_>, word: &Bits) -> i64
    requires { length word.now ≡ code_bits view.now.rows.shape }
    ensures { result ≡ cost view.now.soft word.now }
{
    let _valid = view.shape();
    let mut cost = 0i64;
    'bits: for i in 0..word.len() {
        let value = i64::from(view.soft(i));
        cost += if word.get(i) { value } else { 0 };
    }
    cost
}

/// How many checks do not hold for a word. They are written to `odd`, a bit for each check.
fn odd_checks(matrix: &Matrix, word: &Bits, odd: &mut Bits) -> usize
    requires word { length word.now ≡ (code_of matrix.now).bits }
    requires odd { length odd.old ≡ (code_of matrix.now).checks }
    ensures is { result ≡ odd_checks (code_of matrix.now) word.now }
    ensures size { length odd.new ≡ length odd.old }
{
    matrix.odd_into(word.truths(), odd.truths_mut());
    odd.count_ones()
}

/// What an accepted certificate shows of its word. `None` if it is not accepted.
fn shown_by(matrix: &Matrix, view: &CertView<'_>) -> Option<Verdict>
    ensures found { MatchOption result (IsCertificate matrix.now view.now → ⊥) (λ v. IsCertificate matrix.now view.now × Shows matrix.now view.now v) }
    ensures likely { result ≢ None → IsMostLikely (code_of matrix.now) view.now.soft view.now.bits }
{
    let found = examine(matrix, view);
    match found.answer {
        Answer::No(_) => None,
        Answer::Yes => Some(if found.strict {
            Verdict::Sole
        } else {
            Verdict::MostLikely
        }),
    }
}

/// The answer for a codeword that is not the certified one.
fn codeword_answer(view: &CertView<'_>, word: &Bits, changed: usize) -> Compared
    requires long { length word.now ≡ code_bits view.now.rows.shape }
    ensures { (rows : Rows) → IsCertificate rows view.now → IsMostLikely (code_of rows) view.now.soft view.now.bits → IsCodeword (code_of rows) word.now → word.now ≢ view.now.bits → changed ≡ changed_bits view.now word.now → AnswersWord rows view.now word.now result }
{
    let cost = cost_under(view, word);
    let best = view.cost();
    if cost == best {
        Compared::Equal { cost, changed }
    } else {
        Compared::Worse {
            cost,
            best,
            changed,
        }
    }
}

/// The answer for a word, beside that of an accepted certificate with this verdict.
fn word_answer(
    matrix: &Matrix,
    view: &CertView<'_>,
    verdict: Verdict,
    word: &Bits,
    odd: &mut Bits,
) -> Compared
    requires certificate { IsCertificate matrix.now view.now }
    requires shown { Shows matrix.now view.now verdict }
    requires likely { IsMostLikely (code_of matrix.now) view.now.soft view.now.bits }
    requires long { length word.now ≡ (code_of matrix.now).bits }
    requires odd { length odd.old ≡ (code_of matrix.now).checks }
    ensures answers { AnswersWord matrix.now view.now word.now result }
    ensures size { length odd.new ≡ length odd.old }
{
    let changed = changed_bits(view, word);
    if changed == 0 {
        return Compared::Same {
            verdict,
            cost: view.cost(),
        };
    }
    match matrix.odd_check(word) {
        None => codeword_answer(view, word, changed),
        Some(_) => Compared::NoCodeword {
            checks: odd_checks(matrix, word, odd),
            changed,
        },
    }
}

/// The answer for what a device delivered: a word, or nothing.
fn view_answer(
    matrix: &Matrix,
    view: &CertView<'_>,
    delivered: bool,
    word: &Bits,
    odd: &mut Bits,
) -> Compared
    requires long { length word.now ≡ (code_of matrix.now).bits }
    requires odd { length odd.old ≡ (code_of matrix.now).checks }
    ensures answers { Answers matrix.now view.now (given delivered word.now) result }
    ensures size { length odd.new ≡ length odd.old }
{
    match shown_by(matrix, view) {
        None => Compared::Refused,
        Some(verdict) if delivered => word_answer(matrix, view, verdict, word, odd),
        Some(_) => Compared::Missing,
    }
}

/// The answer for a certificate, and for what a device delivered.
pub(crate) fn answer_for(
    matrix: &Matrix,
    certificate: &Certificate,
    delivered: bool,
    word: &Bits,
    odd: &mut Bits,
) -> Compared
    requires long { length word.now ≡ (code_of matrix.now).bits }
    requires odd { length odd.old ≡ (code_of matrix.now).checks }
    ensures compares { Compares matrix.now certificate.now (given delivered word.now) result }
    ensures size { length odd.new ≡ length odd.old }
{
    match certificate.view(matrix) {
        Some(view) => view_answer(matrix, &view, delivered, word, odd),
        None => Compared::Refused,
    }
}
