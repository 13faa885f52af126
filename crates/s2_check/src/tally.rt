//! The tally of a check's shares, from which its local minimum follows.
ghost use Rattle.std.specs.Prelude.{◌≡◌, ℕ, ◌+◌, ◌*◌, ◌%◌, ◌==◌, ◌≤◌, ◌≤ℤ◌, ◌+ℤ◌, min, pos, neg_ℤ, int_lt, unsigned_abs, if◌then◌else◌};
ghost use Rattle.std.specs.Int.{int_min};
ghost use Rattle.s2_mode.specs.Limits.{max_bits};

/// Of the shares of a check so far: the sum of the negative ones, their number, and the least magnitude of all.
#[derive(Clone, Copy)]
pub(crate) struct Tally {
    pub(crate) negative_sum: i64,
    pub(crate) negative_count: usize,
    pub(crate) least_magnitude: u32,
}

impl Tally {
    /// The tally of no share.
    pub(crate) fn new() -> Tally
        ensures sum { result.negative_sum ≡ pos 0 }
        ensures count { result.negative_count ≡ 0 }
        ensures magnitude { result.least_magnitude ≡ 4294967295 }
    {
        Tally {
            negative_sum: 0,
            negative_count: 0,
            least_magnitude: u32::MAX,
        }
    }

    /// The tally with one share more.
    pub(crate) fn with(self, share: i32) -> Tally
        requires few { self.negative_count ≤ max_bits }
        requires low { neg_ℤ (pos (2147483648 * max_bits)) ≤ℤ self.negative_sum }
        requires high { self.negative_sum ≤ℤ pos 0 }
        ensures sum { result.negative_sum ≡ self.negative_sum +ℤ int_min (pos 0) share }
        ensures count { result.negative_count ≡ self.negative_count + (if int_lt share (pos 0) then 1 else 0) }
        ensures magnitude { result.least_magnitude ≡ min self.least_magnitude (unsigned_abs share) }
    {
        let negative = share < 0;
        Tally {
            negative_sum: self.negative_sum + i64::from(share.min(0)),
            negative_count: self.negative_count + usize::from(negative),
            least_magnitude: self.least_magnitude.min(share.unsigned_abs()),
        }
    }

    /// The least sum of an even number of the shares. It is the sum of the negative ones; if their number is odd, the
    /// least magnitude is added.
    pub(crate) fn least_even_sum(self) -> i64
        requires low { neg_ℤ (pos (2147483648 * max_bits)) ≤ℤ self.negative_sum }
        requires high { self.negative_sum ≤ℤ pos 0 }
        ensures { result ≡ (if self.negative_count % 2 == 0 then self.negative_sum else self.negative_sum +ℤ pos self.least_magnitude) }
    {
        if self.negative_count % 2 == 0 {
            self.negative_sum
        } else {
            self.negative_sum + i64::from(self.least_magnitude)
        }
    }
}
