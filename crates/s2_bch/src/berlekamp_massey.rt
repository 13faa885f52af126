// The Berlekamp-Massey algorithm: the shortest locator that annihilates a sequence.
ghost use Rattle.std.specs.Prelude.{◌≡◌, ◌≢◌, ◌+◌, ◌<◌, ◌≤◌, ◌∷◌, [], length, List, take, slice_index_or};
ghost use Rattle.s2_bch.specs.Sequences.{discrepancies, sequence_of, plus, scale, shift, Shortest};

use s2_field::Field;

/// The sum of locator[j] * sequence[at + j].
fn discrepancy<F: Field>(locator: &[F], sequence: &[F], at: usize) -> F
    requires { at + length locator.now ≤ length sequence.now }
    ensures { result ≡ discrepancies F.field locator.now (sequence_of F.field.zero sequence.now) at }
{
    let mut total = F::zero();
    for j in 0..locator.len() {
        total = total.add(locator[j].mul(sequence[at + j]));
    }
    total
}

/// The coefficient at i of x^by times the polynomial.
fn shifted<F: Field>(polynomial: &[F], by: usize, i: usize) -> F
    ensures { result ≡ slice_index_or (shift F.field by polynomial.now) i F.field.zero }
{
    if i < by {
        return F::zero();
    }
    let j = i - by;
    if j < polynomial.len() {
        polynomial[j]
    } else {
        F::zero()
    }
}

/// Puts x^locator_shift times the locator, plus the factor times x^auxiliary_shift times the auxiliary, into
/// `out`.
fn combine<F: Field>(
    out: &mut [F],
    locator: &[F],
    locator_shift: usize,
    auxiliary: &[F],
    auxiliary_shift: usize,
    factor: F,
)
    requires locator_fits { locator_shift + length locator.now ≡ length out.old }
    requires auxiliary_fits { auxiliary_shift + length auxiliary.now ≤ length out.old }
    ensures { out.new ≡ plus F.field
        (shift F.field locator_shift locator.now)
        (scale F.field factor (shift F.field auxiliary_shift auxiliary.now)) }
{
    for i in 0..out.len() {
        let term = shifted(auxiliary, auxiliary_shift, i);
        out[i] = shifted(locator, locator_shift, i).add(factor.mul(term));
    }
}

/// Adds the factor times x^auxiliary_shift times the auxiliary to the locator. `next` has room for the sum.
fn renew<F: Field>(
    locator: &mut [F],
    next: &mut [F],
    degree: usize,
    auxiliary: &[F],
    auxiliary_shift: usize,
    factor: F,
)
    requires same_size { length next.old ≡ length locator.old }
    requires locator_fits { degree + 1 ≤ length locator.old }
    requires auxiliary_fits { auxiliary_shift + length auxiliary.now ≤ degree + 1 }
    ensures { take (degree + 1) locator.new ≡ plus F.field
        (shift F.field 0 (take (degree + 1) locator.old))
        (scale F.field factor (shift F.field auxiliary_shift auxiliary.now)) }
{
    let size = degree + 1;
    combine(
        &mut next[..size],
        &locator[..size],
        0,
        auxiliary,
        auxiliary_shift,
        factor,
    );
    locator[..size].copy_from_slice(&next[..size]);
}

/// Writes the shortest monic locator that annihilates the sequence to the front of `locator`, and returns its degree.
pub fn shortest_locator<F: Field>(
    sequence: &[F],
    locator: &mut [F],
    auxiliary: &mut [F],
    next: &mut [F],
) -> usize
    requires bound { length sequence.now < 1000 }
    requires locator_room { length locator.old ≡ length sequence.now + 1 }
    requires auxiliary_room { length auxiliary.old ≡ length sequence.now + 1 }
    requires next_room { length next.old ≡ length sequence.now + 1 }
    ensures { (b : List F) × (delta : F) × Shortest F.field (length sequence.now) result
        (take (result + 1) locator.new) b delta (sequence_of F.field.zero sequence.now) }
{
    locator[0] = F::one();
    let mut degree = 0;
    let mut auxiliary_size = 0;
    let mut delta = F::one();
    for n in 0..sequence.len() {
        let wrong = discrepancy(&locator[..degree + 1], sequence, n - degree);
        if wrong.is_zero() {
            continue;
        }
        let factor = wrong.mul(delta.inv());
        if 2 * degree <= n {
            let by = n + 1 - 2 * degree;
            let kept = degree + 1;
            grow(locator, next, auxiliary, degree, by, auxiliary_size, factor);
            auxiliary_size = kept;
            degree = n + 1 - degree;
            delta = wrong;
        } else {
            let by = 2 * degree - n - 1;
            renew(
                locator,
                next,
                degree,
                &auxiliary[..auxiliary_size],
                by,
                factor,
            );
        }
    }
    degree
}

/// Replaces the locator by x^locator_shift times it plus the factor times the auxiliary, and the auxiliary by the old
/// locator.
fn grow<F: Field>(
    locator: &mut [F],
    next: &mut [F],
    auxiliary: &mut [F],
    degree: usize,
    locator_shift: usize,
    auxiliary_size: usize,
    factor: F,
)
    requires same_size { length next.old ≡ length locator.old }
    requires auxiliary_room { length auxiliary.old ≡ length locator.old }
    requires locator_fits { locator_shift + degree + 1 ≤ length locator.old }
    requires auxiliary_fits { auxiliary_size ≤ locator_shift + degree + 1 }
    ensures locator { take (locator_shift + degree + 1) locator.new ≡ plus F.field
        (shift F.field locator_shift (take (degree + 1) locator.old))
        (scale F.field factor (shift F.field 0 (take auxiliary_size auxiliary.old))) }
    ensures auxiliary { take (degree + 1) auxiliary.new ≡ take (degree + 1) locator.old }
{
    let size = locator_shift + degree + 1;
    combine(
        &mut next[..size],
        &locator[..degree + 1],
        locator_shift,
        &auxiliary[..auxiliary_size],
        0,
        factor,
    );
    auxiliary[..degree + 1].copy_from_slice(&locator[..degree + 1]);
    locator[..size].copy_from_slice(&next[..size]);
}
