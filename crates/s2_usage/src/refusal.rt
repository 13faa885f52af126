//! Usage errors. Each is one line with the mistake, the accepted values, and the command that prints the help.
ghost use Rattle.std.specs.Prelude.{IfOk, OnOk};
ghost use Rattle.s2_usage.specs.Errors.{EndsIfFault, EndsWithLf, IsUsageError};

use crate::misuse::{Misuse, misuse_of};
use crate::unread::Unread;
use clap::Error;
use clap::builder::ValueParser;
use clap::error::ErrorKind;
use s2_arguments::{CommandHelp, command_named, parser_of};
use std::alloc::{AllocError, Global};

/// The text on arguments that nothing else describes.
const NOT_UNDERSTOOD: &str = "the arguments are not understood";

/// The command that the arguments name, if there is one.
fn command_in(arguments: &[String]) -> Option<CommandHelp> {
    command_named(arguments.get(1)?.as_str())
}

/// Appends texts in turn.
fn push_all(text: &mut String, parts: &[&str]) -> Result<(), AllocError> {
    for part in parts {
        text.push_str(part)?;
    }
    Ok(())
}

/// Appends the end of a line: the command that prints the help of a command or of the program.
fn push_way(text: &mut String, command: Option<CommandHelp>) -> Result<(), AllocError>
    ensures { OnOk result (EndsWithLf text.new.bytes.items) }
{
    match command {
        Some(entry) => push_all(text, &["; see s2 ", entry.name, " --help"])?,
        None => text.push_str("; see s2 --help")?,
    }
    text.push_str("\n")
}

/// Appends an argument. If it is empty or has spaces or control characters, it is quoted and escaped.
fn push_word(text: &mut String, word: &str) -> Result<(), AllocError> {
    if word.is_empty() || word.bytes().any(|byte| byte <= b' ' || byte == 127) {
        write!(text, "{word:?}")
    } else {
        text.push_str(word)
    }
}

/// Appends an argument, and the text on it.
fn push_said(text: &mut String, word: &str, said: &str) -> Result<(), AllocError> {
    push_word(text, word)?;
    text.push_str(said)
}

/// Appends the numbers or names that a parser accepts.
fn push_accepted(text: &mut String, parser: ValueParser<'static>) -> Result<(), AllocError> {
    match parser {
        ValueParser::Signed(least, most) => write!(text, "{least} to {most}"),
        ValueParser::Unsigned(_, _) => text.push_str("an unsigned 64-bit number"),
        ValueParser::Names(names) => push_names(text, names),
        _ => text.push_str("a valid value"),
    }
}

/// Appends names, with `or` between them.
fn push_names(text: &mut String, names: &[&str]) -> Result<(), AllocError> {
    let mut between = "";
    for name in names {
        text.push_str(between)?;
        text.push_str(name)?;
        between = " or ";
    }
    Ok(())
}

/// An option without the name of its value.
fn bare(option: &str) -> &str {
    match option.split_once(' ') {
        Some((name, _)) => name,
        None => option,
    }
}

/// Appends that an option does not accept a value.
fn push_refused(text: &mut String, option: &str, value: &str) -> Result<(), AllocError> {
    push_all(text, &[bare(option), ": "])?;
    push_said(text, value, " is not ")
}

/// Appends that a word is neither an option nor a file.
fn push_unknown(
    text: &mut String,
    command: Option<CommandHelp>,
    word: &str,
) -> Result<(), AllocError> {
    if !word.starts_with('-') {
        return push_said(text, word, " is an unexpected argument");
    }
    push_said(text, word, " is not an option of ")?;
    text.push_str(name_of(command))
}

/// The name of a command, or that of the program.
fn name_of(command: Option<CommandHelp>) -> &'static str {
    match command {
        Some(entry) => entry.name,
        None => "s2",
    }
}

/// Appends words, and lines of names with commas between them.
fn push_lines(
    alloc: Global,
    text: &mut String,
    words: &[&str],
    lines: &str,
) -> Result<(), AllocError> {
    let names = lines.replace(alloc, "\n  ", ", ")?;
    push_all(text, words)?;
    text.push_str(names.as_str())
}

/// Appends that an option does not accept a value, and which values it accepts.
fn push_not_accepted(
    text: &mut String,
    command: Option<CommandHelp>,
    option: &str,
    value: &str,
) -> Result<(), AllocError> {
    push_refused(text, option, value)?;
    push_accepted(text, parser_of(command, bare(option)))
}

/// Appends a description of a mistake.
fn push_misuse(
    alloc: Global,
    text: &mut String,
    command: Option<CommandHelp>,
    misuse: Misuse<'_>,
) -> Result<(), AllocError> {
    match misuse {
        Misuse::Unknown(word) => push_unknown(text, command, word),
        Misuse::NoCommand(word) => push_said(text, word, " is not a command"),
        Misuse::Missing(lines) => push_lines(alloc, text, &["missing: "], lines),
        Misuse::Twice(option) => push_all(text, &[option, " is given twice"]),
        Misuse::Excluded(option, others) => {
            push_lines(alloc, text, &[option, " cannot be used with "], others)
        }
        Misuse::TakesNone(option) => push_all(text, &[option, " takes no value"]),
        Misuse::LacksValue(option) => push_all(text, &[bare(option), ": the value is missing"]),
        Misuse::Refused { option, value } => push_not_accepted(text, command, option, value),
    }
}

/// Values that users give to `--pilots`, although it takes none.
const SWITCHES: [&str; 8] = ["on", "off", "yes", "no", "true", "false", "1", "0"];

fn is_switch(word: &str) -> bool {
    for switch in SWITCHES {
        if switch.eq_ignore_ascii_case(word) {
            return true;
        }
    }
    false
}

/// Whether one of these values follows `--pilots`.
fn is_switched(arguments: &[String]) -> bool {
    let mut behind = false;
    for argument in arguments {
        if behind && is_switch(argument.as_str()) {
            return true;
        }
        behind = argument.as_str() == "--pilots";
    }
    false
}

/// The mistake that an error with this kind and this text reports.
fn mistake_of<'t>(arguments: &[String], kind: ErrorKind, told: &'t str) -> Option<Misuse<'t>> {
    match misuse_of(kind, told)? {
        Misuse::Unknown(_) if is_switched(arguments) => Some(Misuse::TakesNone("--pilots")),
        misuse => Some(misuse),
    }
}

/// Appends a description of an error of clap.
fn push_fault(
    alloc: Global,
    text: &mut String,
    arguments: &[String],
    kind: ErrorKind,
    told: &str,
) -> Result<(), AllocError> {
    match mistake_of(arguments, kind, told) {
        Some(misuse) => push_misuse(alloc, text, command_in(arguments), misuse),
        None => text.push_str(kind.as_str().unwrap_or(NOT_UNDERSTOOD)),
    }
}

/// The line of a usage error, from the kind and the text of clap's error.
fn fault_line(
    alloc: Global,
    arguments: &[String],
    kind: ErrorKind,
    told: &str,
) -> Result<String, AllocError>
    ensures { IfOk result (λ text. EndsWithLf text.bytes.items) }
{
    let mut text = String::from_str(alloc, "s2: ")?;
    push_fault(alloc, &mut text, arguments, kind, told)?;
    push_way(&mut text, command_in(arguments))?;
    Ok(text)
}

/// Why a command line is not a request, from the parser's error.
pub(crate) fn unread_of(
    alloc: Global,
    arguments: &[String],
    error: Error,
) -> Result<Unread, AllocError>
    ensures { IfOk result EndsIfFault }
{
    match error.kind() {
        ErrorKind::OutOfMemory => Ok(Unread::NoMemory),
        ErrorKind::DisplayHelp | ErrorKind::DisplayVersion => Ok(Unread::Asked(error)),
        kind => {
            let told = format!(in alloc; "{error}")?;
            Ok(Unread::Fault(fault_line(alloc, arguments, kind, told.as_str())?))
        }
    }
}

/// A value that an option does not accept, and those that it accepts.
#[derive(Clone, Copy)]
pub struct Refused<'a> {
    pub option: &'a str,
    pub value: &'a str,
    pub accepted: &'a str,
}

/// The usage error of a refused value. The line ends with the command `s2` and the words of `see`.
pub fn refused_value(
    alloc: Global,
    refused: Refused<'_>,
    see: &[&str],
) -> Result<Unread, AllocError>
    ensures { IfOk result IsUsageError }
{
    let mut text = String::from_str(alloc, "s2: ")?;
    push_refused(&mut text, refused.option, refused.value)?;
    push_all(&mut text, &[refused.accepted, "; see s2 "])?;
    push_all(&mut text, see)?;
    text.push_str("\n")?;
    Ok(Unread::Fault(text))
}

/// The usage error of arguments from which no request can be made.
pub fn not_understood(alloc: Global) -> Result<Unread, AllocError>
    ensures { IfOk result IsUsageError }
{
    let mut text = String::from_str(alloc, "s2: ")?;
    text.push_str(NOT_UNDERSTOOD)?;
    push_way(&mut text, None)?;
    Ok(Unread::Fault(text))
}

/// The usage error of an argument that is not text.
pub fn not_text(alloc: Global, argument: &str) -> Result<Unread, AllocError>
    ensures { IfOk result IsUsageError }
{
    let mut text = String::from_str(alloc, "s2: ")?;
    push_said(&mut text, argument, " is not valid UTF-8")?;
    push_way(&mut text, None)?;
    Ok(Unread::Fault(text))
}
