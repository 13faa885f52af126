//! The rest of each file after the end.
ghost use Rattle.std.specs.Prelude.{◌≡◌, ◌≢◌, ◌+◌, ◌^◌, ◌<◌, Err, option_map};
ghost use Rattle.s2_mode.specs.Counts.{CanCount};
ghost use Rattle.s2_receive.specs.Sinks.{wanted_count};
ghost use Rattle.s2_audit.specs.Differences.{rests_by};
ghost use Rattle.s2_audit.specs.Steps.{MoreIf, MoreIs, RestIs, RestTurn};

use crate::difference::Difference;
use crate::place::Place;
use crate::turn::{Turn, packet_number};
use s2_io::Fault;
use s2_mode::CountedRead;
use s2_report::read_byte;

/// Whether a file has a byte more.
fn has_more<R: CountedRead>(reader: &mut R) -> Result<bool, Fault<'static>>
    requires { CanCount (R.count reader.old) }
    ensures more { MoreIs (R.remaining reader.old) (R.remaining reader.new) result }
    ensures read { result ≡ Err Fault.Read → R.count reader.new ≡ R.count reader.old + 1 }
    ensures no_read { result ≢ Err Fault.Read → R.count reader.new ≡ R.count reader.old }
{
    match read_byte(reader) {
        Ok(byte) => Ok(byte.is_some()),
        Err(_) => Err(Fault::Read),
    }
}

/// Whether a file that may not be given has a byte more.
fn has_more_if<R: CountedRead>(reader: &mut Option<R>) -> Result<bool, Fault<'static>>
    requires { CanCount (wanted_count R.count reader.old) }
    ensures more { MoreIf (option_map R.remaining reader.old) (option_map R.remaining reader.new) result }
    ensures read { result ≡ Err Fault.Read → wanted_count R.count reader.new ≡ wanted_count R.count reader.old + 1 }
    ensures no_read { result ≢ Err Fault.Read → wanted_count R.count reader.new ≡ wanted_count R.count reader.old }
{
    match reader {
        Some(reader) => has_more(reader),
        None => Ok(false),
    }
}

/// The first file that has more bytes after the end.
fn find_rest<R: CountedRead>(
    place: Place,
    report: &mut R,
    certificates: &mut R,
    codewords: &mut Option<R>,
    packets: &mut Option<R>,
) -> Result<Option<Difference>, Fault<'static>>
    requires report { CanCount (R.count report.old) }
    requires certificates { CanCount (R.count certificates.old) }
    requires codewords { CanCount (wanted_count R.count codewords.old) }
    requires packets { CanCount (wanted_count R.count packets.old) }
    ensures rest { let ends = rests_by R.remaining in RestIs (ends report.old certificates.old codewords.old packets.old) (ends report.new certificates.new codewords.new packets.new) place result }
    ensures read { result ≡ Err Fault.Read → R.count report.new + R.count certificates.new + wanted_count R.count codewords.new + wanted_count R.count packets.new ≡ R.count report.old + R.count certificates.old + wanted_count R.count codewords.old + wanted_count R.count packets.old + 1 }
    ensures no_read { result ≢ Err Fault.Read → (R.count report.new ≡ R.count report.old) × (R.count certificates.new ≡ R.count certificates.old) × (wanted_count R.count codewords.new ≡ wanted_count R.count codewords.old) × (wanted_count R.count packets.new ≡ wanted_count R.count packets.old) }
{
    if has_more(report)? {
        return Ok(Some(Difference::MoreLines { line: place.line }));
    }
    if has_more(certificates)? {
        return Ok(Some(Difference::MoreCertificates));
    }
    if has_more_if(codewords)? {
        return Ok(Some(Difference::MoreCodewords));
    }
    if has_more_if(packets)? {
        let number = packet_number(place.bytes, 0);
        return Ok(Some(Difference::MorePackets { number }));
    }
    Ok(None)
}

/// Audits the rest of each file if this is the end. Another finding is unchanged.
pub(crate) fn with_rest<R: CountedRead>(
    turn: Turn,
    place: Place,
    report: &mut R,
    certificates: &mut R,
    codewords: &mut Option<R>,
    packets: &mut Option<R>,
) -> Result<Turn, Fault<'static>>
    requires report { CanCount (R.count report.old) }
    requires certificates { CanCount (R.count certificates.old) }
    requires codewords { CanCount (wanted_count R.count codewords.old) }
    requires packets { CanCount (wanted_count R.count packets.old) }
    requires line { place.line < 2 ^ 63 }
    ensures rest { let ends = rests_by R.remaining in RestTurn (ends report.old certificates.old codewords.old packets.old) (ends report.new certificates.new codewords.new packets.new) turn place result }
    ensures read { result ≡ Err Fault.Read → R.count report.new + R.count certificates.new + wanted_count R.count codewords.new + wanted_count R.count packets.new ≡ R.count report.old + R.count certificates.old + wanted_count R.count codewords.old + wanted_count R.count packets.old + 1 }
    ensures no_read { result ≢ Err Fault.Read → (R.count report.new ≡ R.count report.old) × (R.count certificates.new ≡ R.count certificates.old) × (wanted_count R.count codewords.new ≡ wanted_count R.count codewords.old) × (wanted_count R.count packets.new ≡ wanted_count R.count packets.old) }
{
    match turn {
        Turn::Frame(told) => Ok(Turn::Frame(told)),
        Turn::Cut => Ok(Turn::Cut),
        Turn::Differs(difference) => Ok(Turn::Differs(difference)),
        Turn::End => {
            let line = place.line + 1;
            let behind = Place { line, ..place };
            match find_rest(behind, report, certificates, codewords, packets) {
                Ok(Some(difference)) => Ok(Turn::Differs(difference)),
                Ok(None) => Ok(Turn::End),
                Err(fault) => Err(fault),
            }
        }
    }
}
