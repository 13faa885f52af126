//! The values of a command's arguments.
use clap::ArgMatches;
use clap::parser::ValueSource;

/// The values of a command's arguments. The functions that read them are proved with these calls alone, without the parser.
pub(crate) trait Given<'a> {
    /// The text of an option, or the name of a file, if it is given or has a default.
    fn text(&self, name: &str) -> Option<&'a str>;

    /// Whether a flag is given.
    fn flag(&self, name: &str) -> bool;

    /// The number of an option, or 0 if it has none.
    fn number(&self, name: &str) -> u32;

    /// The seed, or 0 if there is none.
    fn seed(&self) -> u64;

    /// Whether the command line has this option. A default does not count.
    fn is_typed(&self, name: &str) -> bool;
}

impl<'a> Given<'a> for ArgMatches<'a> {
    fn text(&self, name: &str) -> Option<&'a str> {
        self.get_str(name)
    }

    fn flag(&self, name: &str) -> bool {
        self.get_flag(name)
    }

    fn number(&self, name: &str) -> u32 {
        self.get_one::<u32>(name).unwrap_or(0)
    }

    fn seed(&self) -> u64 {
        self.get_one::<u64>("seed").unwrap_or(0)
    }

    fn is_typed(&self, name: &str) -> bool {
        match self.value_source(name) {
            Some(ValueSource::CommandLine) => true,
            _ => false,
        }
    }
}
