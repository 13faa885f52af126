//! Laws: each a call that does nothing, which the check accepts only if the law holds.
use crate::handle::Handle;
use std::marker::Send;

/// Ends a value that any thread may have.
fn end<T: Send + Drop>(value: T) {
    drop(value);
}

/// A handle may go from one thread to another.
pub fn handle_is_send(handle: Handle) {
    end(handle);
}
