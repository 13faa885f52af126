//! `audit`: makes a receiver's report again, without a decoder, and compares it.
ghost use Rattle.std.specs.Prelude.{◌≡◌, ◌≢◌, ◌+◌, Err};
ghost use Rattle.s2_mode.specs.Counts.{CanCount};
ghost use Rattle.s2_io.specs.Screens.{CanShow};
ghost use Rattle.s2_link.specs.Link.{setup_of};
ghost use Rattle.s2_audit.specs.Audits.{ReachesLimit};
ghost use Rattle.s2_audit.specs.Commands.{AuditEnds, AuditRuns, AuditsLink, ReadFailed, files_by};
ghost use Rattle.s2_receive.specs.Sinks.{wanted_count};
ghost use Rattle.s2_audit.specs.Turns.{FailedOnce, SameFailures, ends_by, failures_by};

use crate::auditing::audit_report;
use crate::frame::FrameAuditor;
use crate::how::How;
use s2_inputs::read_matrix;
use s2_io::{Console, Exit, Fault};
use s2_link::{Link, LinkSetup};
use s2_mode::{CountedRead, CountedWrite};
use std::alloc::Global;

/// Audits on a link. All memory but that of a certificate is allocated before the first line is read.
fn audit_link<R: CountedRead, O: CountedWrite>(
    alloc: Global,
    link: &Link<'_>,
    how: How,
    symbols: &mut R,
    report: &mut R,
    certificates: &mut R,
    codewords: &mut Option<R>,
    packets: &mut Option<R>,
    out: &mut O,
) -> Result<Exit, Fault<'static>>
    requires symbols { CanCount (R.count symbols.old) }
    requires report { CanCount (R.count report.old) }
    requires certificates { CanCount (R.count certificates.old) }
    requires codewords { CanCount (wanted_count R.count codewords.old) }
    requires packets { CanCount (wanted_count R.count packets.old) }
    requires out { CanCount (O.count out.old) }
    ensures audits { let ends = ends_by R.remaining in AuditsLink link.now how (ends symbols.old report.old certificates.old codewords.old packets.old)
        (ends symbols.new report.new certificates.new codewords.new packets.new) (O.contents out.old) (O.contents out.new) result }
    ensures read { let ends = ends_by R.remaining in let failures = failures_by R.count in result ≡ Err Fault.Read → FailedOnce (failures symbols.old report.old certificates.old codewords.old packets.old)
        (failures symbols.new report.new certificates.new codewords.new packets.new) (ReachesLimit (ends symbols.old report.old certificates.old codewords.old packets.old) (ends symbols.new report.new certificates.new codewords.new packets.new)) }
    ensures no_read { let failures = failures_by R.count in result ≢ Err Fault.Read → SameFailures (failures symbols.old report.old certificates.old codewords.old packets.old)
        (failures symbols.new report.new certificates.new codewords.new packets.new) }
    ensures write { result ≡ Err Fault.Write → O.count out.new ≡ O.count out.old + 1 }
    ensures no_write { result ≢ Err Fault.Write → O.count out.new ≡ O.count out.old }
{
    match FrameAuditor::new(alloc, link, how) {
        Ok(mut auditor) => audit_report(
            alloc,
            &mut auditor,
            symbols,
            report,
            certificates,
            codewords,
            packets,
            out,
        ),
        Err(_) => Err(Fault::NoMemory),
    }
}

/// Reads rows, and audits.
fn audit_files<R: CountedRead, O: CountedWrite>(
    alloc: Global,
    setup: LinkSetup,
    how: How,
    rows: &mut R,
    symbols: &mut R,
    report: &mut R,
    certificates: &mut R,
    codewords: &mut Option<R>,
    packets: &mut Option<R>,
    out: &mut O,
) -> Result<Exit, Fault<'static>>
    requires rows { CanCount (R.count rows.old) }
    requires symbols { CanCount (R.count symbols.old) }
    requires report { CanCount (R.count report.old) }
    requires certificates { CanCount (R.count certificates.old) }
    requires codewords { CanCount (wanted_count R.count codewords.old) }
    requires packets { CanCount (wanted_count R.count packets.old) }
    requires out { CanCount (O.count out.old) }
    ensures runs { let files = files_by R.remaining R.count in AuditRuns (setup_of setup) how (files rows.old symbols.old report.old certificates.old codewords.old packets.old)
        (files rows.new symbols.new report.new certificates.new codewords.new packets.new) (O.contents out.old) (O.contents out.new) result }
    ensures read { let files = files_by R.remaining R.count in result ≡ Err Fault.Read → ReadFailed (files rows.old symbols.old report.old certificates.old codewords.old packets.old)
        (files rows.new symbols.new report.new certificates.new codewords.new packets.new) }
    ensures no_read { let files = files_by R.remaining R.count in result ≢ Err Fault.Read → (files rows.new symbols.new report.new certificates.new codewords.new packets.new).failed ≡ (files rows.old symbols.old report.old certificates.old codewords.old packets.old).failed }
    ensures write { result ≡ Err Fault.Write → O.count out.new ≡ O.count out.old + 1 }
    ensures no_write { result ≢ Err Fault.Write → O.count out.new ≡ O.count out.old }
{
    match read_matrix(alloc, rows, setup.mode.shape()) {
        Ok(matrix) => {
            let link = Link::of(setup, &matrix);
            audit_link(
                alloc,
                &link,
                how,
                symbols,
                report,
                certificates,
                codewords,
                packets,
                out,
            )
        }
        Err(fault) => Err(fault),
    }
}

/// `audit`: makes the report of a receiver again, without a decoder, and compares it. The receiver's own loop runs over the recording,
/// with these options. The next line of the report names the verdict on the frame that is found, and the decided bits are:
///
/// - those of the next certificate, if the verdict is sole or most-likely;
/// - else those of the frame's record in `codewords`, if that file is given. The record of a frame with a certificate is read too, and
///   must have the certificate's bits;
/// - else not known. The frame is taken on the report's word, and counted as unchecked.
///
/// By these bits the receiver's line is made, and must be that of the report. If `packets` is given, the packets that end in the frame
/// must be the next ones of it. A line for each frame with a certificate is printed before the next thing is searched.
///
/// Exit 0 if report and packets are those of the receiver, and nothing is left over in any file. The last line has the counts. Else
/// exit 2, after a line with the first difference.
///
/// - `rows: ..`: the rows are refused, and nothing is read of the other files.
/// - `report: line N`: the line cannot be read. `certificate: cut`, `codewords: cut`: the file ends within a record.
/// - `cannot read`: a read failed, [`crate::MAX_LINES`] lines came, or the receiver's limit of symbols was reached. `cannot write`: a
///   line could not be printed.
/// - `no memory`: for the rows, for a frame and its evidence, or for a certificate that is taken apart.
///
/// After a fault the lines of the frames before it are printed. One line, one frame, one certificate, one codeword and the packets of
/// one frame are in memory at a time. All memory but that of a certificate's parts is allocated before the first line is read.
pub fn audit_command<R: CountedRead, O: CountedWrite, E: CountedWrite>(
    alloc: Global,
    setup: LinkSetup,
    how: How,
    rows: &mut R,
    symbols: &mut R,
    report: &mut R,
    certificates: &mut R,
    codewords: &mut Option<R>,
    packets: &mut Option<R>,
    console: &mut Console<O, E>,
) -> Exit
    requires rows { CanCount (R.count rows.old) }
    requires symbols { CanCount (R.count symbols.old) }
    requires report { CanCount (R.count report.old) }
    requires certificates { CanCount (R.count certificates.old) }
    requires codewords { CanCount (wanted_count R.count codewords.old) }
    requires packets { CanCount (wanted_count R.count packets.old) }
    requires console { CanShow console.old }
    ensures quiet { result ≢ Exit.Fault → console.new.errors_failed ≡ console.old.errors_failed }
    ensures whole { result ≢ Exit.Fault → console.new.output_failed ≡ console.old.output_failed }
    ensures run { AuditEnds R.remaining R.count setup how rows.old symbols.old report.old certificates.old codewords.old packets.old
        rows.new symbols.new report.new certificates.new codewords.new packets.new console.old console.new result }
{
    let ended = audit_files(
        alloc,
        setup,
        how,
        rows,
        symbols,
        report,
        certificates,
        codewords,
        packets,
        &mut console.output,
    );
    console.finish(ended)
}
