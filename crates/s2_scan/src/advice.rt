//! The line that says how frames are received.
ghost use Rattle.std.specs.Prelude.{◌≡◌, ◌++◌, OnOk};
ghost use Rattle.s2_scan.specs.Lines as lines;

use crate::amplitude::MAX_AMPLITUDE;
use crate::candidate::Candidate;
use crate::lines::{choose, has_pilots, is_conjugate, is_short, name_at};
use crate::shell::{push_name, push_word};
use crate::texts::{push, push_fraction, push_number};
use std::alloc::AllocError;

/// Whether this program receives the frames of a header.
fn is_received(header: usize) -> bool
    ensures { result ≡ lines.is_received header }
{
    let modcod = header / 4;
    0 < modcod && modcod < 18 && !(is_short(header) && (modcod == 11 || modcod == 17))
}

/// The least amplitude of symbols that need no gain, 1.5 dB below 990.
const LEAST_USUAL: u64 = 833;

/// The largest amplitude of symbols that need no gain, 1.5 dB above 990.
const MOST_USUAL: u64 = 1177;

/// Whether symbols of this amplitude need no gain: 833 to 1177, which is 990 and at most 1.5 dB off.
pub fn is_usual(amplitude: u64) -> bool
    ensures { result ≡ lines.is_usual amplitude }
{
    LEAST_USUAL <= amplitude && amplitude <= MOST_USUAL
}

/// The gain for symbols of an amplitude: 990 divided by it, in ten-thousandths, rounded.
pub fn gain_of(amplitude: u64) -> u64
    ensures { result ≡ lines.gain_of amplitude }
{
    let amplitude = amplitude.min(MAX_AMPLITUDE).max(1);
    (19_800_000 + amplitude) / (2 * amplitude)
}

/// The option for a gain.
#[tactic(auto, unfolding(crate::specs::Lines::gain_words))]
fn push_gain(text: &mut Vec<u8>, gain: u64) -> Result<(), AllocError>
    ensures { OnOk result (text.new.items ≡ text.old.items ++ lines.gain_words gain) }
{
    push_number(text, " --gain ", gain / 10_000)?;
    push_fraction(text, ".", 10_000 + gain % 10_000)
}

/// The option for quarter turns, if there are any.
#[tactic(auto, unfolding(crate::specs::Lines::turn_words))]
fn push_turn(text: &mut Vec<u8>, turns: usize) -> Result<(), AllocError>
    ensures { OnOk result (text.new.items ≡ text.old.items ++ lines.turn_words turns) }
{
    if turns == 0 {
        return Ok(());
    }
    push_number(text, " --turn ", turns as u64)
}

/// The command that undoes a form.
#[tactic(auto, unfolding(crate::specs::Lines::convert_words))]
fn push_convert(text: &mut Vec<u8>, form: usize) -> Result<(), AllocError>
    ensures { OnOk result (text.new.items ≡ text.old.items ++ lines.convert_words form) }
{
    push(
        text,
        choose(
            form >= 8,
            "tools/convert ci16_le ci16_be",
            "tools/convert ci16_be ci16_be",
        ),
    )?;
    push(text, choose(is_conjugate(form), " --conjugate", ""))?;
    push_turn(text, form % 4)
}

/// The command that undoes a candidate's form, as far as the pipe.
#[tactic(auto, unfolding(crate::specs::Lines::source_words))]
fn push_source(text: &mut Vec<u8>, name: &str, candidate: &Candidate) -> Result<(), AllocError>
    ensures { OnOk result (text.new.items ≡ text.old.items ++ lines.source_words name.now candidate.now) }
{
    push_convert(text, candidate.form)?;
    push_gain(text, gain_of(candidate.amplitude))?;
    push_word(text, " ", name, " | ")
}

/// The option for a scrambling number, if it is found and not 0.
#[tactic(auto, unfolding(crate::specs::Lines::number_words))]
fn push_option(text: &mut Vec<u8>, number: Option<u64>) -> Result<(), AllocError>
    ensures { OnOk result (text.new.items ≡ text.old.items ++ lines.number_words number) }
{
    let Some(number) = number else {
        return Ok(());
    };
    if number == 0 {
        return Ok(());
    }
    push_number(text, " --number ", number)
}

/// The mode of a header in options.
#[tactic(auto, unfolding(crate::specs::Lines::mode_words))]
fn push_mode(text: &mut Vec<u8>, header: usize) -> Result<(), AllocError>
    ensures { OnOk result (text.new.items ≡ text.old.items ++ lines.mode_words header) }
{
    push(text, name_at(header))?;
    push(text, choose(is_short(header), " --short", ""))?;
    push(text, choose(has_pilots(header), " --pilots", ""))
}

/// The command that receives the frames of a header under a scrambling number.
#[tactic(auto, unfolding(crate::specs::Lines::demod_words))]
fn push_demod(text: &mut Vec<u8>, number: Option<u64>, header: usize) -> Result<(), AllocError>
    ensures { OnOk result (text.new.items ≡ text.old.items ++ lines.demod_words number header) }
{
    push(text, "./s2 demod --modcod ")?;
    push_mode(text, header)?;
    push_option(text, number)?;
    push(text, " --tuned rows ")
}

/// The line that says how a candidate's frames are received after their form is undone.
#[tactic(auto, unfolding(crate::specs::Lines::converted_line))]
fn push_converted(
    text: &mut Vec<u8>,
    name: &str,
    number: Option<u64>,
    candidate: &Candidate,
) -> Result<(), AllocError>
    ensures { OnOk result (text.new.items ≡ text.old.items ++ lines.converted_line name.now number candidate.now) }
{
    push_source(text, name, candidate)?;
    push_demod(text, number, candidate.header)?;
    push(text, "- received.ts\n")
}

/// The line that says how the frames of a header are received as they are.
#[tactic(auto, unfolding(crate::specs::Lines::direct_line))]
fn push_direct(
    text: &mut Vec<u8>,
    name: &str,
    number: Option<u64>,
    header: usize,
) -> Result<(), AllocError>
    ensures { OnOk result (text.new.items ≡ text.old.items ++ lines.direct_line name.now number header) }
{
    push_demod(text, number, header)?;
    push_name(text, name)?;
    push(text, " received.ts\n")
}

/// The line that says how a candidate's frames are received.
fn push_command(
    text: &mut Vec<u8>,
    name: &str,
    number: Option<u64>,
    candidate: &Candidate,
) -> Result<(), AllocError>
    ensures { OnOk result (text.new.items ≡ text.old.items ++ lines.command_line name.now number candidate.now) }
{
    if candidate.form == 0 && is_usual(candidate.amplitude) {
        push_direct(text, name, number, candidate.header)
    } else {
        push_converted(text, name, number, candidate)
    }
}

/// The last line: how the likeliest frames that this program receives are received from the file of this name.
pub(crate) fn push_advice(
    text: &mut Vec<u8>,
    name: &str,
    number: Option<u64>,
    candidates: &[Candidate],
) -> Result<(), AllocError>
    ensures { OnOk result (text.new.items ≡ text.old.items ++ lines.advice_of name.now number candidates.now) }
{
    for k in 0..candidates.len() {
        if is_received(candidates[k].header) {
            return push_command(text, name, number, &candidates[k]);
        }
    }
    push(text, "s2 demod receives none of these\n")
}
