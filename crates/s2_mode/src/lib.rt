//! What every other crate begins with: the modes of a DVB-S2 modem, the shape of a code, symbols, and
//! readers and writers that count their failed calls.
//!
//! A [`Mode`] is made by [`Mode::of`] alone, so it is one that EN 302 307-1 has. One table has a line for each MODCOD
//! ([`Mode::modulation`] to [`Mode::ideal`]), another the sizes of each code rate ([`Mode::kbch`] to
//! [`Mode::symbols`]). [`Mode::shape`] is the shape of its LDPC code. [`Shape::new`] makes any other shape of at most
//! 64800 bits. A soft value (LLR, log-likelihood ratio) is an integer from -[`MAX_SOFT`] to [`MAX_SOFT`]; it is
//! positive for a 0.
//!
//! A call that reads or writes takes a [`Counted`] reader or writer. Over memory its contract names the bytes. A failed
//! call increments the count, so no fault is returned unless a call failed. [`Counting`] counts for any [`RawRead`] or
//! [`RawWrite`], which each reader and each writer of std is, and fails only if a call into it failed. [`InMemory`] reads a
//! slice.
//!
//! A [`Symbol`] has four bytes in a file, and is read back from the bytes that were written ([`laws::symbols_back`]).
//! [`bytes_into`] writes the bytes of many symbols into a slice, and [`symbols_into`] reads them. Four symbols fill a
//! vector's lanes ([`words_from`], [`symbols_from`], [`put_four`]). The text of any crate's fault is a [`FaultText`]. A
//! [`StreamFault`] says why a stream was not copied to its end.
//!
//! ```
//! let mode = Mode::of(4, true, false)?;
//! assert_eq!((mode.kbch(), mode.k(), mode.n()), (7032, 7200, 16200));
//! assert_eq!(mode.symbols(), 8190);
//! ```
#![tactic(auto)]

mod counts;
mod device;
mod fakes;
mod fault_text;
mod lanes;
pub mod laws;
mod limits;
mod memory;
mod modcods;
mod mode;
mod rates;
mod reading;
mod shape;
mod stream_fault;
mod symbols;
mod wrapped;

pub use counts::{
    Counted, CountedRead, CountedWrite, ReadFault, WriteFault, read_full, write_full,
};
pub use device::{RawRead, RawWrite};
pub use fakes::{ByOne, Endless, FailAt};
pub use fault_text::FaultText;
pub use lanes::{put_four, symbols_from, words_from};
pub use limits::{
    DUMMY_SYMBOLS, HEADER_SYMBOLS, MAX_BITS, MAX_GROUP, MAX_MODCOD, MAX_SOFT, MAX_SYMBOLS,
};
pub use memory::InMemory;
pub use modcods::Modulation;
pub use mode::Mode;
pub use reading::{FileFault, read_all, read_into};
pub use shape::Shape;
pub use stream_fault::StreamFault;
pub use symbols::{Symbol, bytes_into, read_symbol, symbols_into, write_symbol};
pub use wrapped::Counting;
