//! `modes`: the modes listed, or one of them.
ghost use Rattle.std.specs.Prelude.{◌≡◌, ◌≢◌, ⊤, Result, Ok, IsOk, IfOk};
ghost use Rattle.s2_mode.specs.Counts.{CanCount};
ghost use Rattle.s2_io.specs.Exits.{CommandRuns, CommandCounts, CommandExits};
ghost use Rattle.s2_io.specs.Screens.{CanShow};
ghost use Rattle.s2_names.specs.ModeLines.{IsListed, IsAsked, listed_text};

use crate::listing::{mode_text, modes_text};
use crate::rate::SymbolRate;
use s2_io::{Console, Exit, Fault, print};
use s2_mode::{CountedWrite, Mode};
use std::alloc::{AllocError, Global};

/// The lines of all codes, or the line of one mode's code.
fn listed_text(
    alloc: Global,
    rate: &Option<SymbolRate>,
    mode: &Option<Mode>,
) -> Result<Vec<u8>, AllocError>
    ensures { IfOk result (λ text. text.items ≡ listed_text rate.now mode.now) }
{
    match mode {
        Some(mode) => mode_text(alloc, mode, rate),
        None => modes_text(alloc, rate),
    }
}

/// Prints these lines, whole and at once.
fn print_modes<O: CountedWrite>(
    alloc: Global,
    rate: &Option<SymbolRate>,
    mode: &Option<Mode>,
    out: &mut O,
) -> Result<Exit, Fault<'static>>
    requires { CanCount (O.count out.old) }
    ensures whole { IsOk result → O.count out.new ≡ O.count out.old }
    ensures run { CommandRuns (IsListed mode.now) (IsAsked rate.now) result (O.contents out.old) (O.contents out.new) }
    ensures causes { CommandCounts result 0 0 (O.count out.old) (O.count out.new) }
{
    match listed_text(alloc, rate, mode) {
        Ok(text) => print(out, Exit::Fine, &text),
        Err(_) => Err(Fault::NoMemory),
    }
}

/// `modes`: prints a line for each code, or the line of one mode's code alone. If a symbol rate is given, a line has
/// the bits of the transport stream per second too. Whether the mode has pilots makes no difference.
pub fn modes_command<O: CountedWrite, E: CountedWrite>(
    alloc: Global,
    rate: &Option<SymbolRate>,
    mode: &Option<Mode>,
    console: &mut Console<O, E>,
) -> Exit
    requires console { CanShow console.old }
    ensures quiet { result ≢ Exit.Fault → console.new.errors_failed ≡ console.old.errors_failed }
    ensures whole { result ≢ Exit.Fault → console.new.output_failed ≡ console.old.output_failed }
    ensures run { CommandExits (IsListed mode.now) (IsAsked rate.now) 0 0 console.old console.new result }
{
    let ended = print_modes(alloc, rate, mode, &mut console.output);
    console.finish(ended)
}
