//! The course of settling: the margin, how far amounts go, and when settling is given up.
ghost use Rattle.std.specs.Prelude.{◌≡◌, ◌≤◌, ◌<◌, ◌||◌, All, nat_lt, length};
ghost use Rattle.s2_mode.specs.Limits.{max_bits};
ghost use Rattle.s2_check.specs.Views.{IsSoft};
ghost use Rattle.s2_settle.specs.Plain.{is_hopeless, first_margin, at_first, after, step_at};

use crate::limits::{BITS_A_FEW, FIRST_END, MAX_GROWTH, SETTLING_SCALE};

/// The margin of the last pass, and the number of bits that lacked before it; 0 before the first pass.
#[derive(Clone, Copy)]
pub(crate) struct Course {
    pub(crate) margin: u16,
    pub(crate) before: usize,
}

/// The margin of a pass, and whether its amounts go further (over-relaxation).
#[derive(Clone, Copy)]
pub(crate) struct Step {
    pub(crate) margin: u16,
    pub(crate) further: bool,
}

/// Two fifths of the mean magnitude of the scaled values.
fn first_margin(soft: &[i16]) -> u16
    requires range { All IsSoft soft.now }
    requires some { 0 < length soft.now }
    requires few { length soft.now ≤ max_bits }
    ensures { result ≡ first_margin soft.now }
{
    let mut sum = 0usize;
    for i in 0..soft.len() {
        sum += usize::from(soft[i].unsigned_abs());
    }
    (usize::from(SETTLING_SCALE) * (sum / soft.len()) * 2 / 5) as u16
}

/// Whether passes are of no more use.
pub(crate) fn is_hopeless(bits: usize, pass: u32, before: usize, now: usize) -> bool
    requires { before ≤ max_bits }
    ensures { result ≡ is_hopeless bits pass before now }
{
    pass >= FIRST_END && now > bits / BITS_A_FEW && now > before + MAX_GROWTH
}

impl Course {
    /// The course before the first pass, for these values.
    pub(crate) fn at_first(soft: &[i16]) -> Course
        requires range { All IsSoft soft.now }
        requires some { 0 < length soft.now }
        requires few { length soft.now ≤ max_bits }
        ensures { result ≡ at_first soft.now }
    {
        Course {
            margin: first_margin(soft),
            before: 0,
        }
    }

    /// The course from a pass on, by the number of bits that lack before it.
    pub(crate) fn after(self, now: usize) -> Course
        requires { self.before ≤ max_bits }
        ensures { result ≡ after self now }
    {
        let margin = if self.before == 0 {
            self.margin
        } else {
            (usize::from(self.margin) * 5 * now.min(self.before) / (6 * self.before)) as u16
        };
        Course {
            margin,
            before: now,
        }
    }

    /// The step of a pass, by the number of bits that lack before it.
    pub(crate) fn step(self, pass: u32, now: usize) -> Step
        requires { self.before ≤ max_bits }
        ensures { result ≡ step_at self pass now }
    {
        Step {
            margin: self.after(now).margin,
            further: pass < 2 || now < self.before,
        }
    }
}
