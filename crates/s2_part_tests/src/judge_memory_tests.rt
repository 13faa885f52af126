//! Judges, if memory may be refused: each call that takes memory is made again.
ghost use Rattle.std.specs.Prelude.{◌≡◌, All, IfOk, IsTrue, length};
ghost use Rattle.s2_matrix.specs.Code.{code_of};
ghost use Rattle.s2_check.specs.Views.{IsSoft};

use super::again::{TOY, matrix_of};
use super::values::are_soft;
use s2_check::Verdict;
use s2_judge::Judge;
use s2_matrix::Matrix;
use s2_tuning::Tuning;
use std::alloc::{AllocError, Global};
use std::test::Fail;

/// Whether a judge of these checks takes these values.
fn fits(matrix: &Matrix, soft: &[i16]) -> bool
    ensures long { IsTrue result → length soft.now ≡ (code_of matrix.now).bits }
    ensures range { IsTrue result → All IsSoft soft.now }
{
    soft.len() == matrix.bits() && are_soft(soft)
}

fn judge_of<'a>(alloc: Global, matrix: &'a Matrix, tuning: Tuning) -> Result<Judge<'a>, AllocError>
    ensures { IfOk result (λ j. j.rows ≡ matrix.now) }
{
    match Judge::new(alloc, matrix, tuning) {
        Err(AllocError) => Judge::new(alloc, matrix, tuning),
        made => made,
    }
}

/// The verdict on these values and how many ones were decided.
fn judged_by(judge: &mut Judge<'_>, soft: &[i16]) -> (Verdict, usize)
    requires long { length soft.now ≡ (code_of judge.old.rows).bits }
    requires range { All IsSoft soft.now }
{
    (judge.judge(soft), judge.word().count_ones())
}

/// Whether a new judge decides these values as zeros, with this verdict.
fn is_judged(alloc: Global, matrix: &Matrix, soft: &[i16], want: Verdict) -> bool {
    let Ok(tuning) = Tuning::new(50, 0) else {
        return false;
    };
    match judge_of(alloc, matrix, tuning) {
        Ok(mut judge) => fits(matrix, soft) && judged_by(&mut judge, soft) == (want, 0),
        Err(_) => false,
    }
}

#[test]
fn asks_again_where_memory_is_refused(rt: HostRuntime) -> Result<(), Fail> {
    let toy = matrix_of(rt.alloc(), TOY).ok_or("no matrix")?;
    assert!(rt; is_judged(rt.alloc(), &toy, &[10; 20], Verdict::Sole));
    assert!(rt; is_judged(rt.alloc(), &toy, &[0; 20], Verdict::MostLikely));
    Ok(())
}
