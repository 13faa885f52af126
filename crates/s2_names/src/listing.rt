//! The lines of all codes.
ghost use Rattle.std.specs.Prelude.{◌≡◌, ◌≤◌, [], ◌∷◌, ◌++◌, codes, if◌then◌else◌, IfOk, OnOk};
ghost use Rattle.std.specs.List.{filter};
ghost use Rattle.s2_mode.specs.Limits.{max_modcod};
ghost use Rattle.s2_names.specs.Names.{name_of};
ghost use Rattle.s2_names.specs.Rates as rates;
ghost use Rattle.s2_names.specs.Ideal.{ideal_text};
ghost use Rattle.s2_names.specs.ModeLines.{code_text, frames_text, rates_of, line_text, line_of, has_code, modcods_of, lines_of};
ghost use Rattle.s2_names.specs.ModeLines as lines;

use crate::names::{Case, constellation};
use crate::rate::SymbolRate;
use crate::texts::{push, push_hundredths, push_millionths, push_number};
use s2_mode::{MAX_MODCOD, Mode};
use std::alloc::{AllocError, Global};

/// The bits of a transport stream that a frame carries.
fn stream_bits(mode: &Mode) -> usize
    ensures is { result ≡ rates.stream_bits mode.now }
    ensures most { result ≤ 58112 }
{
    mode.kbch() - 80
}

/// Millionths of a bit of a transport stream for each symbol, to the nearest one.
fn symbol_millionths(mode: &Mode) -> usize
    ensures { result ≡ rates.symbol_millionths mode.now }
{
    let symbols = mode.symbols();
    (2_000_000 * stream_bits(mode) + symbols) / (2 * symbols)
}

/// The whole bits of the transport stream per second.
fn stream_rate(mode: &Mode, rate: SymbolRate) -> usize
    ensures { result ≡ rates.stream_rate rate mode.now }
{
    rate.get() * stream_bits(mode) / mode.symbols()
}

/// The name of a mode.
fn push_name(text: &mut Vec<u8>, mode: &Mode) -> Result<(), AllocError>
    ensures { OnOk result (text.new.items ≡ text.old.items ++ name_of mode.now Case.Small) }
{
    push(text, constellation(mode, Case::Small))?;
    push(text, mode.code_rate())
}

/// The words of a frame's length.
fn length_words(mode: &Mode) -> &'static str
    ensures { result.now ≡ (if mode.now.short then codes " short" else codes " normal") }
{
    if mode.is_short() { " short" } else { " normal" }
}

/// MODCOD, name, length, Kbch and k.
#[tactic(auto, unfolding(crate::specs::ModeLines::code_text))]
fn push_code(text: &mut Vec<u8>, mode: &Mode) -> Result<(), AllocError>
    ensures { OnOk result (text.new.items ≡ text.old.items ++ code_text mode.now) }
{
    push_number(text, "modcod ", usize::from(mode.modcod()))?;
    push(text, " ")?;
    push_name(text, mode)?;
    push(text, length_words(mode))?;
    push_number(text, " kbch ", mode.kbch())?;
    push_number(text, " k ", mode.k())
}

/// The symbols of frames without pilot blocks and with them, and the bits of a transport stream for each.
#[tactic(auto, unfolding(crate::specs::ModeLines::frames_text))]
fn push_frames(text: &mut Vec<u8>, plain: &Mode, piloted: &Mode) -> Result<(), AllocError>
    ensures { OnOk result (text.new.items ≡ text.old.items ++ frames_text plain.now piloted.now) }
{
    push_number(text, " symbols ", plain.symbols())?;
    push_number(text, " ", piloted.symbols())?;
    push_millionths(text, " bits ", symbol_millionths(plain))?;
    push_millionths(text, " ", symbol_millionths(piloted))
}

/// The text after the Es/N0 of normal frames.
fn added(mode: &Mode) -> &'static str
    ensures { result.now ≡ (if mode.now.short then codes "+0.2..0.3" else []) }
{
    if mode.is_short() { "+0.2..0.3" } else { "" }
}

/// The Es/N0 of theory.
fn push_ideal(text: &mut Vec<u8>, mode: &Mode) -> Result<(), AllocError>
    ensures { OnOk result (text.new.items ≡ text.old.items ++ (codes " esn0 " ++ ideal_text mode.now)) }
{
    push(text, " esn0 ")?;
    push_hundredths(text, mode.ideal())?;
    push(text, added(mode))
}

/// The bits of the transport stream per second, if a symbol rate is given.
#[tactic(auto, unfolding(crate::specs::ModeLines::rates_of))]
fn push_rates(
    text: &mut Vec<u8>,
    plain: &Mode,
    piloted: &Mode,
    rate: &Option<SymbolRate>,
) -> Result<(), AllocError>
    ensures { OnOk result (text.new.items ≡ text.old.items ++ rates_of rate.now plain.now piloted.now) }
{
    match rate {
        Some(rate) => {
            push_number(text, " ts ", stream_rate(plain, *rate))?;
            push_number(text, " ", stream_rate(piloted, *rate))
        }
        None => Ok(()),
    }
}

/// The line of a code, by its modes without pilot blocks and with them.
#[tactic(auto, unfolding(crate::specs::ModeLines::line_text))]
fn push_modes(
    text: &mut Vec<u8>,
    plain: &Mode,
    piloted: &Mode,
    rate: &Option<SymbolRate>,
) -> Result<(), AllocError>
    ensures { OnOk result (text.new.items ≡ text.old.items ++ line_text rate.now plain.now piloted.now) }
{
    push_code(text, plain)?;
    push_frames(text, plain, piloted)?;
    push_ideal(text, plain)?;
    push_rates(text, plain, piloted, rate)?;
    push(text, "\n")
}

/// The line of a code, if there is one of this MODCOD and length.
#[tactic(auto, using(crate::proofs::Codes::piloted_is, crate::proofs::Codes::code_line, crate::proofs::Codes::no_code_line))]
fn push_line(
    text: &mut Vec<u8>,
    modcod: u8,
    short: bool,
    rate: &Option<SymbolRate>,
) -> Result<(), AllocError>
    requires some { 1 ≤ modcod }
    requires most { modcod ≤ max_modcod }
    ensures { OnOk result (text.new.items ≡ text.old.items ++ lines_of rate.now short (filter (has_code short) (modcod ∷ []))) }
{
    let Some(plain) = Mode::of(modcod, short, false) else {
        return Ok(());
    };
    let Some(piloted) = Mode::of(modcod, short, true) else {
        return Ok(());
    };
    push_modes(text, &plain, &piloted, rate)
}

/// The lines of all codes of a length.
#[tactic(auto, using(crate::proofs::Codes::line_more, crate::proofs::Codes::no_lines))]
fn push_lines(text: &mut Vec<u8>, short: bool, rate: &Option<SymbolRate>) -> Result<(), AllocError>
    ensures { OnOk result (text.new.items ≡ text.old.items ++ lines_of rate.now short (modcods_of short)) }
{
    for modcod in 1..=MAX_MODCOD {
        push_line(text, modcod, short, rate)?;
    }
    Ok(())
}

/// A line for each code, those of normal frames before those of short ones.
///
/// A line has the MODCOD, the name, the length, Kbch and k. Then, without and with pilot blocks, it has the symbols of a frame
/// and the bits of the transport stream that each symbol carries, to the nearest millionth. The Es/N0 of the standard's table
/// 13 follows, and `+0.2..0.3` after it for short frames. If a symbol rate is given, the line ends with the bits of the
/// transport stream per second, rounded down, without and with pilot blocks.
#[tactic(auto, unfolding(crate::specs::ModeLines::modes_text))]
pub fn modes_text(alloc: Global, rate: &Option<SymbolRate>) -> Result<Vec<u8>, AllocError>
    ensures { IfOk result (λ text. text.items ≡ lines.modes_text rate.now) }
{
    let mut text = Vec::new(alloc);
    push_lines(&mut text, false, rate)?;
    push_lines(&mut text, true, rate)?;
    Ok(text)
}

/// The line of a mode's code, as [`modes_text`] has it.
#[tactic(auto, using(crate::proofs::Codes::alone_is))]
pub fn mode_text(
    alloc: Global,
    mode: &Mode,
    rate: &Option<SymbolRate>,
) -> Result<Vec<u8>, AllocError>
    ensures { IfOk result (λ text. text.items ≡ line_of rate.now mode.now.modcod mode.now.short) }
{
    let mut text = Vec::new(alloc);
    push_line(&mut text, mode.modcod(), mode.is_short(), rate)?;
    Ok(text)
}
