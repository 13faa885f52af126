//! Parses the arguments.
ghost use Rattle.std.specs.Prelude.{IfErr};
ghost use Rattle.s2_usage.specs.Errors.{EndsIfFault};

use crate::refusal::unread_of;
use crate::unread::Unread;
use clap::ArgMatches;
use s2_arguments::matches_of;
use std::alloc::Global;

/// The parsed arguments, or why there are none.
pub fn read_words<'a>(alloc: Global, arguments: &'a [String]) -> Result<ArgMatches<'a>, Unread>
    ensures { IfErr result EndsIfFault }
{
    match matches_of(alloc, arguments) {
        Ok(matches) => Ok(matches),
        Err(error) => Err(unread_of(alloc, arguments, error).unwrap_or(Unread::NoMemory)),
    }
}
