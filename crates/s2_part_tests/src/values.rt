//! Soft values.
ghost use Rattle.std.specs.Prelude.{◌≡◌, All, IfOk, IsTrue, length};
ghost use Rattle.s2_mode.specs.Limits.{max_soft};
ghost use Rattle.s2_check.specs.Views.{IsSoft};
ghost use Rattle.s2_minsum.specs.Decoding.{AreWithin};

use s2_mode::MAX_SOFT;
use std::alloc::{AllocError, Global};

/// The largest and the least soft value.
const LARGEST: i16 = MAX_SOFT as i16;

const LEAST: i16 = -LARGEST;

/// A wrong bit: of 20 values all are 10 but the first.
pub(crate) const WRONG: [i16; 20] = [
    -4, 10, 10, 10, 10, 10, 10, 10, 10, 10, 10, 10, 10, 10, 10, 10, 10, 10, 10, 10,
];

/// Whether all values lie within the limits of a soft value.
pub(crate) fn are_soft(values: &[i16]) -> bool
    ensures { IsTrue result → All IsSoft values.now }
{
    for value in values {
        if *value < LEAST || *value > LARGEST {
            return false;
        }
    }
    true
}

/// These values, none of a size over that of a soft value.
pub(crate) fn soft_values(alloc: Global, values: &[i16]) -> Result<Vec<i16>, AllocError>
    ensures long { IfOk result (λ v. length v.items ≡ length values.now) }
    ensures small { IfOk result (λ v. AreWithin max_soft v.items) }
{
    let mut soft = Vec::new(alloc);
    for value in values {
        soft.push((*value).clamp(LEAST, LARGEST))?;
    }
    Ok(soft)
}
