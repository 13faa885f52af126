//! A slicer if memory is refused once: the call says so, and the same call succeeds when repeated.
use s2_bbframe::Slicer;
use s2_mode::Mode;
use std::alloc::{AllocError, Global};
use std::test::Fail;

fn slicer(alloc: Global, mode: Mode) -> Result<Slicer, AllocError> {
    match Slicer::new(alloc, mode) {
        Err(AllocError) => Slicer::new(alloc, mode),
        made => made,
    }
}

#[test]
fn asks_again_where_memory_is_refused(rt: HostRuntime) -> Result<(), Fail> {
    let mode = Mode::of(1, false, false).ok_or("no mode")?;
    let slicer = slicer(rt.alloc(), mode)?;
    assert!(rt; slicer.size() == 1991 && !slicer.ready());
    Ok(())
}
