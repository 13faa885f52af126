//! The most frequent distance.
ghost use Rattle.std.specs.Prelude.{◌≡◌, nat_lt, if◌then◌else◌, OnOk, IfOk};
ghost use Rattle.s2_scan.specs.Candidates.{tallied, most_frequent, no_tally, usual_distance};

use std::alloc::{AllocError, Global};

/// A distance, and how often it occurred.
#[derive(Clone, Copy)]
pub(crate) struct Tally {
    distance: u64,
    times: u64,
}

/// Counts a distance in a table.
fn add(table: &mut Vec<Tally>, distance: u64) -> Result<(), AllocError>
    ensures { OnOk result (table.new.items ≡ tallied distance table.old.items) }
{
    for k in 0..table.len() {
        if table[k].distance == distance {
            table[k].times = table[k].times.saturating_add(1);
            return Ok(());
        }
    }
    table.push(Tally { distance, times: 1 })?;
    Ok(())
}

/// The more frequent one of two distances: the first one, if both are as frequent.
fn better(best: Tally, other: Tally) -> Tally
    ensures { result ≡ (if nat_lt best.times other.times then other else best) }
{
    if best.times < other.times {
        other
    } else {
        best
    }
}

/// The most frequent distance of a table.
fn most_frequent(table: &[Tally]) -> Tally
    ensures { result ≡ most_frequent table.now no_tally }
{
    let mut best = Tally {
        distance: 0,
        times: 0,
    };
    for k in 0..table.len() {
        best = better(best, table[k]);
    }
    best
}

/// The most frequent distance.
pub(crate) fn usual_distance(alloc: Global, distances: &[u64]) -> Result<u64, AllocError>
    ensures { IfOk result (λ d. d ≡ usual_distance distances.now) }
{
    let mut table = Vec::new(alloc);
    for k in 0..distances.len() {
        add(&mut table, distances[k])?;
    }
    Ok(most_frequent(&table).distance)
}
