//! The results of a comparison.
use s2_check::Verdict;

/// How a device's word for a frame compares with the certified one.
#[derive(Clone, Copy, Debug, PartialEq, Eq)]
pub enum Compared {
    /// It is the certified word, which has this verdict and this cost.
    Same {
        verdict: Verdict,
        cost: i64,
    },
    /// It is another codeword, of the same cost. `changed` bits differ.
    Equal {
        cost: i64,
        changed: usize,
    },
    /// It is a codeword that costs more than the certified one, which has the cost `best`.
    Worse {
        cost: i64,
        best: i64,
        changed: usize,
    },
    /// It is no codeword: `checks` checks do not hold.
    NoCodeword {
        checks: usize,
        changed: usize,
    },
    /// The certificate is not accepted.
    Refused,
    /// The device delivered nothing.
    Missing,
}
