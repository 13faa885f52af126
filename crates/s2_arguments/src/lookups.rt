//! Looks up commands and options in the table.
ghost use Rattle.std.specs.Prelude.{◌≡◌, IfSome, None};

use crate::arguments::ArgumentKind;
use crate::table::{CommandHelp, Section, arguments_in, commands, sections_of};
use clap::builder::ValueParser;

/// The command of this name.
pub fn command_named(name: &str) -> Option<CommandHelp>
    ensures { IfSome result (λ entry. entry.name.now ≡ name.now) }
{
    for entry in commands() {
        if entry.name == name {
            return Some(*entry);
        }
    }
    None
}

/// The parser of an option's value, for example of `--number`. It is any text if there is no such option.
pub fn parser_of(command: Option<CommandHelp>, option: &str) -> ValueParser<'static>
    ensures { command ≡ None → result ≡ ValueParser.String }
{
    let Some(entry) = command else {
        return ValueParser::String;
    };
    for section in sections_of(entry.command) {
        if let Some(parser) = parser_in(*section, option) {
            return parser;
        }
    }
    ValueParser::String
}

/// The parser of an option's value, if the option is in this part.
fn parser_in(section: Section, option: &str) -> Option<ValueParser<'static>> {
    for argument in arguments_in(section) {
        if let ArgumentKind::Valued(value) = argument.form {
            if option.strip_prefix("--") == Some(argument.name) {
                return Some(value.allowed);
            }
        }
    }
    None
}
