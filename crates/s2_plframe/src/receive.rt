//! The receiving end: the search for headers, and the payload of a frame.
mod found;
mod headers;
mod payload;
mod registers;
mod rotations;
mod search;
mod tolerance;
mod turns;

pub use found::Found;
pub use payload::payload_of;
pub use registers::{Signs, header_number, wrong_in};
pub use search::{Search, header_matches};
pub use tolerance::HeaderTolerance;
pub use turns::{derotate, derotate_into, turn_of};
