//! The modem for C: `include/s2.h` declares the exports of this crate.
//!
//! A [`Handle`] has a pointer to a block with a slot of `s2_library`, or it is empty. An export takes the slot out, calls
//! `s2_library`, and puts it back. Only [`Cell`] and `Loose` touch the pointer.
#![tactic(auto)]

mod cell;
mod code;
mod handle;
mod judge;
pub mod laws;
mod loose;
mod receiver;
mod scanner;
mod transmitter;

pub use cell::Cell;
pub use handle::Handle;
