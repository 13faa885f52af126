//! The texts of faults, and memory that is refused.
use s2_mode::{FileFault, InMemory, ReadFault, StreamFault, WriteFault, read_all};
use std::alloc::{AllocError, Global};
use std::test::Fail;

/// Whether these are the texts of all faults.
fn are_texts(alloc: Global) -> Result<bool, AllocError> {
    let of_calls = format!(in alloc; "{}, {}", ReadFault, WriteFault)?;
    let of_streams = format!(in alloc; "{}, {}", StreamFault::Read, StreamFault::Write)?;
    Ok(of_calls.as_str() == "cannot read, cannot write" && of_streams.as_str() == of_calls.as_str())
}

fn are_file_texts(alloc: Global) -> Result<bool, AllocError> {
    let (long, memory) = (FileFault::TooLong, FileFault::NoMemory);
    let text = format!(in alloc; "{}, {long}, {memory}", FileFault::Read)?;
    Ok(text.as_str() == "cannot read, file too long, no memory")
}

#[test]
fn says_what_failed(rt: HostRuntime) -> Result<(), Fail> {
    assert!(rt; are_texts(rt.alloc())? && are_file_texts(rt.alloc())?);
    Ok(())
}

/// Whether these are all bytes of a file. If memory is refused, none of them was read, and the next call returns them.
fn is_read_again(alloc: Global, bytes: &[u8]) -> bool {
    let mut reader = InMemory::new(bytes);
    let all = match read_all(alloc, &mut reader, 9) {
        Err(FileFault::NoMemory) => read_all(alloc, &mut reader, 9),
        read => read,
    };
    match all {
        Ok(all) => all.as_slice() == bytes,
        Err(_) => false,
    }
}

#[test]
fn asks_again_where_memory_is_refused(rt: HostRuntime) {
    assert!(rt; is_read_again(rt.alloc(), b"abc"));
}
