//! Memory that one frame of a record leaves to the next.
ghost use Rattle.std.specs.Prelude.{◌≡◌, IfOk, length};

use crate::frame::RecordedFrame;
use s2_mode::Symbol;
use std::alloc::{AllocError, Global};

/// Lists that are not used any more: the bytes of a frame, its symbols, and its soft values. Their contents say nothing.
#[derive(Drop)]
pub(crate) struct Room {
    pub(crate) bytes: Option<Vec<u8>>,
    symbols: Option<Vec<Symbol>>,
    soft: Option<Vec<i16>>,
}

/// The list that is kept, if it has this length, or a new one.
fn taken<T: Copy>(
    alloc: Global,
    kept: &mut Option<Vec<T>>,
    any: T,
    size: usize,
) -> Result<Vec<T>, AllocError>
    ensures { IfOk result (λ v. length v.items ≡ size) }
{
    match kept.take() {
        Some(list) if list.len() == size => Ok(list),
        _ => vec![in alloc; any; size],
    }
}

impl Room {
    /// No lists yet.
    pub(crate) fn new() -> Room {
        Room {
            bytes: None,
            symbols: None,
            soft: None,
        }
    }

    /// A list of this number of bytes.
    pub(crate) fn take_bytes(&mut self, alloc: Global, size: usize) -> Result<Vec<u8>, AllocError>
        ensures { IfOk result (λ v. length v.items ≡ size) }
    {
        taken(alloc, &mut self.bytes, 0, size)
    }

    /// A list of this number of symbols.
    pub(crate) fn take_symbols(
        &mut self,
        alloc: Global,
        size: usize,
    ) -> Result<Vec<Symbol>, AllocError>
        ensures { IfOk result (λ v. length v.items ≡ size) }
    {
        taken(alloc, &mut self.symbols, Symbol { i: 0, q: 0 }, size)
    }

    /// A list of this number of soft values.
    pub(crate) fn take_soft(&mut self, alloc: Global, size: usize) -> Result<Vec<i16>, AllocError>
        ensures { IfOk result (λ v. length v.items ≡ size) }
    {
        taken(alloc, &mut self.soft, 0, size)
    }

    /// Keeps the symbols and the soft values of a frame that is not used any more.
    pub(crate) fn keep(&mut self, frame: RecordedFrame<'_>) {
        let RecordedFrame {
            matrix: _,
            at: _,
            symbols,
            soft,
            word: _,
            certificate: _,
            message: _,
            decided: _,
            field: _,
        } = frame;
        self.symbols = Some(symbols);
        self.soft = Some(soft);
    }
}
