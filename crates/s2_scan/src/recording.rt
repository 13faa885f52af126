//! The headers of a recording in memory.
ghost use Rattle.std.specs.Prelude.{IfOk, Some};
ghost use Rattle.s2_scan.specs.Scanning.{AreHeadersOf, AreSeen};

use crate::candidate::Candidate;
use crate::ranking::candidates_of;
use crate::reading::{Seen, read_seen};
use s2_io::Fault;
use s2_mode::InMemory;
use std::alloc::Global;

/// The passes of a recording in memory.
fn passes_of(alloc: Global, bytes: &[u8]) -> Result<Seen, Fault<'static>>
    ensures { IfOk result (λ s. AreSeen (Some bytes.now) s.passes.items s.front.items) }
{
    let mut reader = InMemory::new(bytes);
    read_seen(alloc, &mut reader)
}

/// The headers that come twice at their frame's distance in a recording in memory, the most frequent first. For each of them
/// [`crate::scan_command`] prints a line. `NoMemory` and `TooLong` are the faults.
pub fn find_headers(alloc: Global, bytes: &[u8]) -> Result<Vec<Candidate>, Fault<'static>>
    ensures { IfOk result (λ v. AreHeadersOf (Some bytes.now) v.items) }
{
    let seen = passes_of(alloc, bytes)?;
    match candidates_of(alloc, &seen.passes) {
        Ok(candidates) => Ok(candidates),
        Err(_) => Err(Fault::NoMemory),
    }
}
