//! Notes on standard error that no command writes. They give the cause of a failed call on a file, a byte order mark at its
//! beginning, the places of packets in a packet file, and the number of bytes left out. There are also one on the likely causes
//! of a refused audit, and one on numbers that are typed. A note that cannot be written is lost.
//!
//! This is plain code. Of a writer its contracts say only that no call failed so far.
//!
//! ```text
//! note_cause(rt, terminal, &request, name);
//! note_beginning(terminal, name);
//! ```
#![tactic(auto)]

mod beginnings;
mod causes;
mod errors;
mod losses;
mod names;

pub use beginnings::note_beginning;
pub use causes::{note_cause, note_failure, note_marks, takes_output};
pub use errors::{Errors, errors_of};
pub use losses::{exit_after, note_audit, note_left_out, note_typed};
pub use names::{has_control, shown};
