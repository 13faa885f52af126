//! A decoder, if memory may be refused once: it reports that, and the same call then succeeds.
ghost use Rattle.std.specs.Prelude.{◌≡◌, IfOk};

use super::again::zeros;
use s2_bch::Bch;
use s2_mode::Mode;
use std::alloc::{AllocError, Global};
use std::test::Fail;

fn bch(alloc: Global, mode: Mode) -> Result<Bch, AllocError>
    ensures { IfOk result (λ b. b ≡ mode) }
{
    match Bch::new(alloc, mode) {
        Err(AllocError) => Bch::new(alloc, mode),
        made => made,
    }
}

/// Changes every 600th place of a word of zeros, `changes` of them, and decodes. Returns the decoder's result, and the
/// number of ones that are left.
fn decoded(alloc: Global, mode: Mode, changes: usize) -> Result<(Option<u32>, usize), Fail> {
    let mut word = zeros(alloc, mode.k())?;
    let mut at = 0usize;
    for _ in 0..changes {
        if at < word.len() {
            word.set(at, true);
            at = at.saturating_add(600);
        }
    }
    if word.len() != mode.k() {
        return Err(Fail::from("another length"));
    }
    let found = bch(alloc, mode)?.decode_in_place(&mut word);
    Ok((found, word.count_ones()))
}

#[test]
fn asks_again_where_memory_is_refused(rt: HostRuntime) -> Result<(), Fail> {
    let half = Mode::of(4, true, false).ok_or("no mode")?;
    assert!(rt; decoded(rt.alloc(), half, 0)? == (Some(0), 0));
    assert!(rt; decoded(rt.alloc(), half, 12)? == (Some(12), 0));
    Ok(())
}
