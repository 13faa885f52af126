//! The arguments of the program: one table has each command's options, their ranges and their help.
//!
//! [`matches_of`] parses the arguments with clap, using this table. [`command_named`] and [`parser_of`] look up a command and the
//! values of its options, for usage errors.
#![tactic(auto)]

mod arguments;
mod help;
mod lookups;
mod parser;
mod table;

pub use arguments::DELIVERY_TEXT;
pub use lookups::{command_named, parser_of};
pub use parser::matches_of;
pub use table::{CommandHelp, CommandName};
