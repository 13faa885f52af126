//! The parts of a reception by records: the receiver, and the source of the records.
ghost use Rattle.std.specs.Prelude.{◌≡◌, IfOk, None};
ghost use Rattle.s2_mode.specs.Mode.{symbols_in};
ghost use Rattle.s2_receive.specs.Receiving.{begun};
ghost use Rattle.s2_stitch.specs.Sources.{source_by};
ghost use Rattle.s2_stitch.specs.Stitching.{own_rules};
ghost use Rattle.s2_stitching.specs.Stitches.{rules_with, terms_on};

use s2_link::Link;
use s2_mode::CountedRead;
use s2_modem::options_of;
use s2_receive::{Decide, MAX_SYMBOLS, Receiver};
use s2_stitch::{Recalling, RecordSource};
use s2_tuning::Tuning;
use std::alloc::{AllocError, Global};

/// A receiver of a link that takes decisions from records, and makes others by this decider.
pub(crate) fn receiver_of<'a, D: Decide + Drop>(
    alloc: Global,
    link: &Link<'a>,
    tuning: Tuning,
    decider: D,
) -> Result<Receiver<Recalling<'a, D>>, AllocError>
    requires { D.size decider ≡ symbols_in link.now.setup.mode }
    ensures rules { IfOk result (λ r. own_rules D.decide r ≡ rules_with (D.decide decider) link.now tuning) }
    ensures begun { IfOk result (λ r. r.state ≡ begun) }
    ensures decider { IfOk result (λ r. (r.decider.decider ≡ decider) × (r.decider.held ≡ None)) }
{
    Receiver::new(
        alloc,
        link.mode(),
        tuning.has_turns(),
        tuning.max_header_errors(),
        tuning.has_resync(),
        Recalling::new(decider),
        MAX_SYMBOLS,
    )
}

/// The source of the records of a link's frames, whose seals begin with this seed, and of their symbols.
pub(crate) fn source_of<'a, Q: CountedRead + Drop, C: CountedRead + Drop>(
    alloc: Global,
    link: &Link<'a>,
    tuning: Tuning,
    seed: u64,
    records: Q,
    copy: C,
) -> Result<RecordSource<'a, Q, C>, AllocError>
    ensures { IfOk result (λ s. s ≡ source_by Q.remaining Q.count C.remaining C.count (terms_on seed link.now tuning) records copy 0 None) }
{
    RecordSource::new(
        alloc,
        link.matrix(),
        seed,
        link.mode(),
        link.number(),
        options_of(tuning),
        records,
        copy,
    )
}
