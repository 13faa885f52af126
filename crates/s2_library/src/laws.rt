//! Laws: each a call that does nothing, which the check accepts only if the law holds.
use crate::slot::Slot;
use std::marker::Send;

/// Ends a value that any thread may have.
fn end<T: Send + Drop>(value: T) {
    drop(value);
}

/// The contents of a handle may go from one thread to another.
pub fn slot_is_send(slot: Slot) {
    end(slot);
}
