//! Physical layer frames (PLFRAME, EN 302 307-1, 5.5), between the constellation and the line, in both directions.
//!
//! [`frame_into`] writes exactly the frame of a payload: its mode's header (PLHEADER), then the slots with
//! their pilot blocks. The physical layer's scrambler rotates all symbols after the header. [`dummy_into`]
//! writes a dummy frame, which carries nothing. [`Search`] finds the headers in a stream of symbols. A header
//! passes with at most 12 wrong bits. Dummy frames are found too. [`payload_of`] takes the payload out again,
//! exactly, whatever symbols came. A search may also find frames whose symbols are rotated by quarter turns, as after a slip
//! of a carrier loop. [`turn_of`] is the rotation of such a frame; [`derotate`] and [`derotate_into`] rotate it back. The [`laws`] join the two ends. No call takes memory.
//!
//! For receivers of other modes: [`header_number`] gives the 90 header bits of any MODCOD and TYPE
//! ([`PlsCode`]), [`Signs`] hold the decisions on the last symbols, and [`wrong_in`] counts the wrong bits.
//!
//! ```text
//! frame_into(mode, &gold, &payload, &mut frame);
//!
//! let mut search = Search::new(mode, false);
//! if search.feed(symbol) == Found::Coded {
//!     payload_of(mode, &gold, &frame, &mut payload);
//! }
//! ```
#![tactic(auto)]

mod constants;
mod header;
pub mod laws;
mod receive;
mod send;

pub use constants::{HEADER_THRESHOLD, MAX_LOCK};
pub use header::PlsCode;
pub use receive::{
    Found, HeaderTolerance, Search, Signs, derotate, derotate_into, header_matches, header_number,
    payload_of, turn_of, wrong_in,
};
pub use send::{dummy_into, frame_into};
