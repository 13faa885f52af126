//! The interface of a decider that is supplied between two steps.
ghost use Rattle.std.specs.Prelude.{◌≡◌, ℕ};

use crate::decider::Decide;
use std::alloc::Global;

/// A decider that takes something from a source of type `S` between two steps, such as the record of the next frame. Its
/// rule of decision may change by it.
pub trait Supplied<S>: Decide {
    /// The source may be read: its failed calls can be counted.
    ghost can: { S → Type 0 };

    /// The decider and the source before and after a call, by the position from which on frames are to come.
    ghost supplies: { ℕ → Self → Self → S → S → Type 0 };

    /// Takes from the source what it has for the next frame, which begins at this position of the stream or after it.
    fn supply(&mut self, alloc: Global, source: &mut S, at: u64)
        requires { can source.old }
        ensures supplies { supplies at self.old self.new source.old source.new }
        ensures size { Self.size self.new ≡ Self.size self.old };
}
