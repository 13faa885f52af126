//! Standard streams, and their names.
use crate::uses::Role;
use std::io::{IsTerminal, Read, Write};
use std::rt::{Stderr, Stdin, Stdout};

/// The standard streams of the program.
pub trait StandardStreams {
    type Input: Read + Drop;

    type Output: Write + Drop;

    type Errors: Write + IsTerminal + Drop;

    fn input(&self) -> Self::Input;

    fn output(&self) -> Self::Output;

    fn errors(&self) -> Self::Errors;
}

impl StandardStreams for HostRuntime {
    type Input = Stdin;

    type Output = Stdout;

    type Errors = Stderr;

    fn input(&self) -> Stdin {
        self.stdin()
    }

    fn output(&self) -> Stdout {
        self.stdout()
    }

    fn errors(&self) -> Stderr {
        self.stderr()
    }
}

/// The path of a standard stream.
pub(crate) fn standard_path(role: Role) -> &'static str {
    match role {
        Role::Input => "/dev/stdin",
        Role::Output => "/dev/stdout",
    }
}

/// Whether a name is that of a standard stream: `-`, or its path.
pub fn is_standard(role: Role, name: &str) -> bool {
    name == "-" || name == standard_path(role)
}
