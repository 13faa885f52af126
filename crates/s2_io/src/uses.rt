//! The files that a command has opened, and which of them clash.
ghost use Rattle.std.specs.Prelude.{◌≡◌};
ghost use Rattle.s2_io.specs.Uses.{clashes, clashes_any, same_node};

/// The identity of a file in its file system: its device, and its inode number there.
#[derive(Clone, Copy, Debug, PartialEq, Eq)]
pub struct Node {
    pub device: u64,
    pub number: u64,
}

/// What the file system says of an open file: its identity, if it holds bytes, and its length, if it is a regular file.
#[derive(Clone, Copy, Debug, PartialEq, Eq)]
pub struct Stat {
    pub node: Option<Node>,
    pub length: Option<u64>,
}

/// Whether a file is read or written.
#[derive(Clone, Copy, Debug, PartialEq, Eq)]
pub enum Role {
    Input,
    Output,
}

/// How a command uses a file: whether it is read or written, whether it is a standard stream, and its identity, if it is
/// a file that holds bytes.
#[derive(Clone, Copy, Debug, PartialEq, Eq)]
pub struct Use {
    pub role: Role,
    pub standard: bool,
    pub node: Option<Node>,
}

impl Default for Use {
    fn default() -> Use {
        Use {
            role: Role::Input,
            standard: false,
            node: None,
        }
    }
}

/// Whether both are there and the same.
fn same_node(one: Option<Node>, other: Option<Node>) -> bool
    ensures { result ≡ same_node one other }
{
    match (one, other) {
        (Some(one), Some(other)) => one.device == other.device && one.number == other.number,
        _ => false,
    }
}

/// Whether two uses clash: they are of one standard stream, or of one file that one of them writes.
fn clashes(one: Use, other: Use) -> bool
    ensures { result ≡ clashes one other }
{
    match (one.role, other.role) {
        (Role::Input, Role::Input) => one.standard && other.standard,
        (Role::Output, Role::Output) => {
            (one.standard && other.standard) || same_node(one.node, other.node)
        }
        _ => same_node(one.node, other.node),
    }
}

/// Whether a use clashes with one of those before it.
pub(crate) fn clashes_any(before: &[Use], new: Use) -> bool
    ensures { result ≡ clashes_any before.now new }
{
    for used in before {
        if clashes(*used, new) {
            return true;
        }
    }
    false
}
