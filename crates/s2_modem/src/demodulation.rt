//! A whole stream of symbols in memory.
ghost use Rattle.std.specs.Prelude.{◌≡◌, ◌^◌, ◌<◌, Err, OnOk, length};
ghost use Rattle.s2_mode.specs.Counts.{CanCount};
ghost use Rattle.s2_mode.specs.Streams.{OnlyFailed};
ghost use Rattle.s2_receive.specs.Answers.{bytes_by};
ghost use Rattle.s2_link.specs.Link.{link_of};
ghost use Rattle.s2_tuning.specs.Tuning.{tuning_of};
ghost use Rattle.s2_modem.specs.Reception.{Demodulates, DemodulatesOn};
ghost use Rattle.s2_modem.specs.Promise.{IsHeadline};

use crate::receiver::build;
use s2_link::{Link, Setup, SetupFault};
use s2_matrix::Matrix;
use s2_mode::CountedWrite;
use s2_receive::receive_bytes;
use s2_report::Totals;
use s2_tuning::Tuning;
use std::alloc::Global;
use thiserror::Error;

/// Why a stream was not received to its end.
#[derive(Clone, Copy, Debug, PartialEq, Eq, Error)]
pub enum DemodFault {
    /// There is no such receiver.
    #[error("{0}")]
    Setup(SetupFault),
    /// A write failed.
    #[error("cannot write")]
    Write,
}

/// Receives a whole stream of symbols on a link.
fn demodulate_link<P: CountedWrite, W: CountedWrite>(
    alloc: Global,
    link: &Link<'_>,
    tuning: Tuning,
    bytes: &[u8],
    packets: &mut P,
    report: &mut W,
) -> Result<Totals, DemodFault>
    requires packets { CanCount (P.count packets.old) }
    requires report { CanCount (W.count report.old) }
    requires few { length bytes.now < 2 ^ 42 }
    ensures demodulates { let ends = bytes_by P.contents P.count W.contents W.count in
        DemodulatesOn link.now tuning
        (ends bytes.now packets.old report.old) (ends bytes.now packets.new report.new) result }
    ensures headline { let ends = bytes_by P.contents P.count W.contents W.count in
        OnOk result (IsHeadline link.now tuning (ends bytes.now packets.old report.old) (ends bytes.now packets.new report.new)) }
    ensures counts { let ends = bytes_by P.contents P.count W.contents W.count in
        OnlyFailed ⊥ (result ≡ Err DemodFault.Write)
        (ends bytes.now packets.old report.old) (ends bytes.now packets.new report.new) }
{
    let Ok(mut receiver) = build(alloc, link, tuning) else {
        return Err(DemodFault::Setup(SetupFault::NoMemory));
    };
    match receive_bytes(&mut receiver, bytes, packets, report) {
        Ok(totals) => Ok(totals),
        Err(_) => Err(DemodFault::Write),
    }
}

/// Receives a whole stream of symbols, fewer than 2^42 bytes, and writes the packets of its frames and a line
/// for each frame, for a cut one, and for the end. 1 to 3 bytes after the last symbol are dropped. The reported
/// bits are as likely as their verdicts say ([`crate::laws::likely_frame`], [`crate::laws::sole_frame`]). The
/// headline holds of the whole stream. If the search is at a frame that a transmitter of the link sent, that
/// frame has its line and is delivered, and certified if it is clear. The first frames, clear or with at most t
/// wrong bits of the BCH word, give their packets, and a stream of nothing else no others. A setup is refused
/// as by [`crate::Receiver::new`], and then nothing is written; the divisor of soft values is the usual one, as
/// there. Lines have no figures.
pub fn demodulate<P: CountedWrite, W: CountedWrite>(
    alloc: Global,
    setup: Setup,
    matrix: &Matrix,
    rounds: u32,
    passes: u32,
    bytes: &[u8],
    packets: &mut P,
    report: &mut W,
) -> Result<Totals, DemodFault>
    requires packets { CanCount (P.count packets.old) }
    requires report { CanCount (W.count report.old) }
    requires few { length bytes.now < 2 ^ 42 }
    ensures demodulates { let ends = bytes_by P.contents P.count W.contents W.count bytes.now in Demodulates
        setup matrix.now (tuning_of rounds passes) (ends packets.old report.old) (ends packets.new report.new) result }
    ensures headline { let at = bytes_by P.contents P.count W.contents W.count bytes.now in OnOk result (IsHeadline
        (link_of setup matrix.now) (tuning_of rounds passes) (at packets.old report.old) (at packets.new report.new)) }
    ensures counts { let ends = bytes_by P.contents P.count W.contents W.count bytes.now in OnlyFailed ⊥
        (result ≡ Err DemodFault.Write) (ends packets.old report.old) (ends packets.new report.new) }
{
    let link = match Link::new(setup, matrix) {
        Ok(link) => link,
        Err(fault) => return Err(DemodFault::Setup(fault)),
    };
    let tuning = match Tuning::new(rounds, passes) {
        Ok(tuning) => tuning,
        Err(fault) => return Err(DemodFault::Setup(fault)),
    };
    demodulate_link(alloc, &link, tuning, bytes, packets, report)
}
