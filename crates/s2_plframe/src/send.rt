//! The sending end: the frame of a payload, and dummy frames.
mod dummy;
mod frame;
mod header;

pub use dummy::dummy_into;
pub use frame::frame_into;
