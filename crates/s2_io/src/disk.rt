//! Files by their names.
use crate::standard::{StandardStreams, standard_path};
use crate::uses::{Node, Role, Stat};
use std::fs::{Metadata, OpenFile, OpenOptions};
use std::os::unix::fs::{FileTypeExt, MetadataExt};
use std::rt::Files;
use std::{fs, io};

/// Opens files by their names, and has the standard streams. An opened file is a reader or a writer.
pub trait Disk: Files + StandardStreams {}

impl Disk for HostRuntime {}

/// The identity of a file that holds bytes.
fn node_of(file: &Metadata) -> Option<Node> {
    if file.is_file() || file.file_type().is_block_device() {
        Some(Node {
            device: file.dev(),
            number: file.ino(),
        })
    } else {
        None
    }
}

/// Opens a file that is read.
pub(crate) fn open_input<R: Disk>(rt: &R, name: &str) -> io::Result<R::File> {
    fs::open(rt, name)
}

/// Opens a file that is written, without truncating it; creates it if there is none.
pub(crate) fn open_output<R: Disk>(rt: &R, name: &str) -> io::Result<R::File> {
    let mut options = OpenOptions::new();
    options.write(true).create(true);
    options.open(rt, name)
}

/// What the file system says of an open file.
pub(crate) fn stat<F: OpenFile>(file: &F) -> io::Result<Stat> {
    let metadata = file.metadata()?;
    let length = if metadata.is_file() {
        Some(metadata.len())
    } else {
        None
    };
    Ok(Stat {
        node: node_of(&metadata),
        length,
    })
}

/// The identity of a standard stream, if it is a file that holds bytes.
pub(crate) fn standard_node<R: Disk>(rt: &R, role: Role) -> Option<Node> {
    match fs::metadata(rt, standard_path(role)) {
        Ok(metadata) => node_of(&metadata),
        Err(_) => None,
    }
}
