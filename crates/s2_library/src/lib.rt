//! What the modem offers to other languages, in safe Rust: the contents of a handle, and each call on them.
//!
//! A [`Slot`] is a code, a receiver, a transmitter, a judge or a scanner. Each call takes a slot, and is refused if it is of another
//! kind. `s2_c` has handles with slots, and exports the calls to C. A refusal has a number ([`result_number`]) and a
//! text ([`error_text`]). Structs that C shares begin with their size, and a call refuses another size.
//!
//! A call that copies a list out writes all of it at the front of the caller's buffer, or
//! nothing if the buffer is too short. It always gives the length of the list.
//!
//! ```text
//! let mut slot = new_receiver(alloc, &code, &options)?;
//! let answer = receiver_packets(&slot, &mut buffer, &mut count);
//! ```
#![tactic(auto)]

mod checking;
mod code;
mod copying;
mod decision;
mod figures;
pub mod laws;
mod mode;
mod options;
mod receiver;
mod refusal;
mod scanner;
mod shelf;
mod slot;
mod step;
mod texts;
mod totals;
mod transmitter;

pub use checking::{CheckedFields, check};
pub use code::{Code, code_facts, new_code, shape_code};
pub use decision::{judge_certificate, judge_decide, judge_word, new_judge};
pub use figures::FiguresFields;
pub use mode::{ModeFields, mode_fields};
pub use options::Options;
pub use receiver::{
    Reception, new_receiver, receiver_advance, receiver_bbframe, receiver_certificate,
    receiver_figures, receiver_packets, receiver_reset, receiver_room, receiver_soft,
    receiver_sums, receiver_totals, receiver_word,
};
pub use refusal::{Refusal, result_number};
pub use scanner::{Scanner, SeenFields, new_scanner, scan_at, scan_feed, scan_find};
pub use shelf::{Shelf, new_shelf, shelf_code};
pub use slot::Slot;
pub use step::StepFields;
pub use texts::error_text;
pub use totals::TotalsFields;
pub use transmitter::{
    new_transmitter, transmitter_close, transmitter_counts, transmitter_put, transmitter_ready,
    transmitter_reset, transmitter_symbols, transmitter_take, transmitter_word,
};
