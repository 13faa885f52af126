//! Gaps: the parts of a stream without frames.
use std::cell::Cell;

const SYMBOL_BYTES: u64 = 4;

/// Finds the gaps of a stream, from the bytes that were read and from the moments at which frames are reported. A
/// receiver reports a frame when it has read its last symbol, and nothing after it.
#[derive(Drop)]
pub(crate) struct Gaps {
    /// The number of symbols of a frame, 0 if nothing is to be noted.
    frame: Cell<u64>,
    taken: Cell<u64>,
    /// The symbol after the last frame.
    end: Cell<u64>,
    /// Whether it was noted that no frame came since then.
    is_noted: Cell<bool>,
}

impl Gaps {
    /// Nothing is to be noted.
    pub(crate) fn none() -> Gaps {
        Gaps {
            frame: Cell::new(0),
            taken: Cell::new(0),
            end: Cell::new(0),
            is_noted: Cell::new(false),
        }
    }

    /// From now on it is to be noted if no frame comes. A frame has this number of symbols.
    pub(crate) fn watch(&self, frame: u64) {
        self.frame.set(frame);
    }

    /// Counts bytes that were read. Returns the symbol since which no frame came, once per gap, if the next frame
    /// begins a frame's length after it or later: then another frame's length has been read.
    pub(crate) fn took(&self, bytes: usize) -> Option<u64> {
        self.taken
            .set(self.taken.get().saturating_add(bytes as u64));
        let (frame, end) = (self.frame.get(), self.end.get());
        let since = (self.taken.get() / SYMBOL_BYTES).saturating_sub(end);
        if frame == 0 || self.is_noted.get() || since < frame.saturating_mul(2) {
            return None;
        }
        self.is_noted.set(true);
        Some(end)
    }

    /// A frame is reported. Returns the symbol at which it begins, if it was noted that none came.
    pub(crate) fn heard(&self) -> Option<u64> {
        let end = self.taken.get() / SYMBOL_BYTES;
        self.end.set(end);
        if self.is_noted.replace(false) {
            Some(end.saturating_sub(self.frame.get()))
        } else {
            None
        }
    }
}
