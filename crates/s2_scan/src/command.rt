//! `scan`: the contents of a recording.
ghost use Rattle.std.specs.Prelude.{◌≡◌, ◌≢◌, ◌+◌, Err, IfErr, IfOk, IsOk};
ghost use Rattle.s2_mode.specs.Counts.{CanCount};
ghost use Rattle.s2_io.specs.Exits.{CommandRuns, CommandCounts, CommandExits};
ghost use Rattle.s2_io.specs.Screens.{CanShow};
ghost use Rattle.s2_scan.specs.Scanning.{IsRecording, IsScanned, MayFail, SaysScan, SaysSeen};

use crate::number::number_of;
use crate::passes::Pass;
use crate::ranking::candidates_of;
use crate::reading::read_seen;
use crate::text::{scan_exit, scan_text};
use s2_io::{Console, Exit, Fault, print};
use s2_mode::{CountedRead, CountedWrite};
use std::alloc::{AllocError, Global};

/// The printed text, and the exit.
struct Report {
    exit: Exit,
    text: Vec<u8>,
}

impl Drop for Report {
    fn drop(self) {
        let Report { exit: _, text: _ } = self;
    }
}

/// The text and the exit for the passes and the first bytes of the file of this name.
fn report_by(alloc: Global, name: &str, passes: &[Pass], front: &[u8]) -> Result<Report, AllocError>
    ensures { IfOk result (λ s. SaysSeen name.now passes.now front.now s.exit s.text.items) }
{
    let candidates = candidates_of(alloc, passes)?;
    let number = number_of(alloc, front, passes, &candidates)?;
    let text = scan_text(alloc, name, front, number, &candidates)?;
    Ok(Report {
        exit: scan_exit(&candidates),
        text,
    })
}

/// The text and the exit for a recording.
fn report_of<R: CountedRead>(
    alloc: Global,
    name: &str,
    symbols: &mut R,
) -> Result<Report, Fault<'static>>
    requires { CanCount (R.count symbols.old) }
    ensures is { IfOk result (λ s. IsScanned name.now (R.remaining symbols.old) s.exit s.text.items) }
    ensures faults { IfErr result (MayFail (R.remaining symbols.old)) }
    ensures read { result ≡ Err Fault.Read → R.count symbols.new ≡ R.count symbols.old + 1 }
    ensures no_other { result ≢ Err Fault.Read → R.count symbols.new ≡ R.count symbols.old }
{
    let seen = read_seen(alloc, symbols)?;
    match report_by(alloc, name, &seen.passes, &seen.front) {
        Ok(report) => Ok(report),
        Err(_) => Err(Fault::NoMemory),
    }
}

/// Prints the contents of a recording.
fn print_scan<R: CountedRead, O: CountedWrite>(
    alloc: Global,
    name: &str,
    symbols: &mut R,
    out: &mut O,
) -> Result<Exit, Fault<'static>>
    requires symbols { CanCount (R.count symbols.old) }
    requires out { CanCount (O.count out.old) }
    ensures whole { IsOk result → O.count out.new ≡ O.count out.old }
    ensures run { CommandRuns (SaysScan name.now) (IsRecording (R.remaining symbols.old)) result (O.contents out.old) (O.contents out.new) }
    ensures causes { CommandCounts result (R.count symbols.old) (R.count symbols.new) (O.count out.old) (O.count out.new) }
{
    let report = report_of(alloc, name, symbols)?;
    print(out, report.exit, &report.text)
}

/// `scan`: prints which headers a recording has, in which form, and how the likeliest frames are received from the file of
/// this name. The exit is 2 if no header comes twice at its frame's distance.
pub fn scan_command<R: CountedRead, O: CountedWrite, E: CountedWrite>(
    alloc: Global,
    name: &str,
    symbols: &mut R,
    console: &mut Console<O, E>,
) -> Exit
    requires symbols { CanCount (R.count symbols.old) }
    requires console { CanShow console.old }
    ensures quiet { result ≢ Exit.Fault → console.new.errors_failed ≡ console.old.errors_failed }
    ensures whole { result ≢ Exit.Fault → console.new.output_failed ≡ console.old.output_failed }
    ensures run { CommandExits (SaysScan name.now) (IsRecording (R.remaining symbols.old))
        (R.count symbols.old) (R.count symbols.new) console.old console.new result }
{
    let ended = print_scan(alloc, name, symbols, &mut console.output);
    console.finish(ended)
}
