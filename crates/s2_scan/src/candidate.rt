//! A header that is seen in a form.
ghost use Rattle.std.specs.Prelude.{◌≡◌, ◌<◌, length, IfOk, OnOk, ◌++◌};
ghost use Rattle.s2_scan.specs.Candidates.{first_of, candidate_by, candidate_of};

use crate::amplitude::amplitude_of;
use crate::codes::frame_length;
use crate::distances::{distances, occurrences};
use crate::passes::Pass;
use crate::tally::usual_distance;
use std::alloc::{AllocError, Global};

/// A header that is seen in a recording, in one of the sixteen forms of its symbols.
#[derive(Clone, Copy)]
pub struct Candidate {
    /// The form, 0 to 15. Bytes are little endian if it is 8 or more, symbols are conjugated if `form % 8` is 4 or more.
    pub form: usize,
    /// The header, 0 to 115: four times its MODCOD, and its TYPE.
    pub header: usize,
    /// The number of positions that pass as this header.
    pub seen: usize,
    /// The number of these at the frame's distance from the one before.
    pub pairs: usize,
    /// The first position, in symbols from 0.
    pub first: u64,
    /// The most frequent distance, in symbols.
    pub every: u64,
    /// The amplitude of its symbols.
    pub amplitude: u64,
}

/// Appends the candidate of passes to others, if two passes have their frame's distance.
pub(crate) fn push_candidate(
    alloc: Global,
    form: usize,
    header: usize,
    passes: &[Pass],
    candidates: &mut Vec<Candidate>,
) -> Result<(), AllocError>
    ensures { OnOk result (candidates.new.items ≡ candidates.old.items ++ candidate_of form header passes.now) }
{
    let distances = distances(alloc, passes)?;
    let pairs = occurrences(frame_length(header) as u64, &distances);
    if pairs == 0 {
        return Ok(());
    }
    let every = usual_distance(alloc, &distances)?;
    candidates.push(Candidate {
        form,
        header,
        seen: passes.len(),
        pairs,
        first: passes[0].position,
        every,
        amplitude: amplitude_of(passes),
    })?;
    Ok(())
}
