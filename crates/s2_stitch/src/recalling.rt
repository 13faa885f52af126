//! A decider that recalls the decision of a record.
ghost use Rattle.std.specs.Prelude.{◌≡◌, None, false};
ghost use Rattle.std.specs.Option.{option_copied};
ghost use Rattle.s2_stitch.specs.Recalling.{holds, is_ahead, recalled};

use crate::frame::RecordedFrame;
use crate::source::RecordSource;
use s2_mode::{CountedRead, Symbol};
use s2_receive::{Decide, Decided, Frame, Supplied};
use std::alloc::Global;
use std::marker::Model;

/// A decider that holds the frame of a record. On exactly its symbols, it takes the recorded decision. It leaves other frames to
/// its own decider. Nothing else of a record is checked here.
///
/// In contracts, it is its own decider, the frame that it holds, and whether that gave the last decision. After it was supplied,
/// the last decision says nothing.
pub struct Recalling<'a, D: Decide> {
    decider: D,
    held: Option<RecordedFrame<'a>>,
    is_recalled: bool,
}

impl<'a, D: Decide + Drop> Drop for Recalling<'a, D> {
    fn drop(self) {
        let Recalling {
            decider: _,
            held: _,
            is_recalled: _,
        } = self;
    }
}

impl<'a, D: Decide> Model for Recalling<'a, D> {
    ghost use Rattle.s2_stitch.specs.Recalling.{Recalling as RecallingValue};

    ghost Value = { RecallingValue D };

    ghost view = { λ r. record { decider = r.decider; held = r.held; is_recalled = r.is_recalled } };
}

/// Whether a frame is held that has these symbols.
fn holds(held: &Option<RecordedFrame<'_>>, symbols: &[Symbol]) -> bool
    ensures { result ≡ holds held.now symbols.now }
{
    match held {
        Some(frame) => frame.has_symbols(symbols),
        None => false,
    }
}

/// Whether a frame is held that begins at this position or after it.
fn is_ahead(held: &Option<RecordedFrame<'_>>, at: u64) -> bool
    ensures { result ≡ is_ahead at held.now }
{
    match held {
        Some(frame) => at <= frame.at(),
        None => false,
    }
}

impl<'a, D: Decide> Recalling<'a, D> {
    /// A decider that holds no frame yet.
    pub fn new(decider: D) -> Recalling<'a, D>
        ensures decider { result.decider ≡ decider }
        ensures none { result.held ≡ None }
        ensures last { result.is_recalled ≡ false }
    {
        Recalling {
            decider,
            held: None,
            is_recalled: false,
        }
    }

    /// The frame that gave the last decision, if a record did.
    fn recalled(&self) -> Option<&RecordedFrame<'a>>
        ensures { option_copied result ≡ recalled self.now }
    {
        match &self.held {
            Some(frame) if self.is_recalled => Some(frame),
            _ => None,
        }
    }
}

impl<'a, D: Decide> Decide for Recalling<'a, D> {
    ghost use Rattle.s2_stitch.specs.Recalling.{field_by, last_by, recalled};
    ghost use Rattle.s2_stitch.specs.Stitching.{own_rule, recall_rule};

    ghost size = { λ r. D.size r.decider };

    ghost decide = { recall_rule D.decide };

    ghost unaided = { own_rule D.decide };

    ghost field = { λ r. field_by D.field r.decider (recalled r) };

    ghost last = { λ r. last_by D.last r.decider (recalled r) };

    /// Decides a frame: by the frame that it holds if that has these symbols, else by its own decider.
    fn decide(&mut self, symbols: &[Symbol]) {
        if holds(&self.held, symbols) {
            self.is_recalled = true;
            return;
        }
        self.is_recalled = false;
        self.decider.decide(symbols);
    }

    fn decided(&self) -> Decided {
        match self.recalled() {
            Some(frame) => frame.decided(),
            None => self.decider.decided(),
        }
    }

    fn field(&self) -> &[u8] {
        match self.recalled() {
            Some(frame) => frame.field(),
            None => self.decider.field(),
        }
    }

    fn frame(&self) -> Frame<'_> {
        match self.recalled() {
            Some(frame) => frame.frame(),
            None => self.decider.frame(),
        }
    }
}

impl<'a, D: Decide, Q: CountedRead, C: CountedRead> Supplied<RecordSource<'a, Q, C>>
    for Recalling<'a, D> {
    ghost use Rattle.s2_mode.specs.Counts.{CanCount};
    ghost use Rattle.s2_stitch.specs.Stitching.{Supplies};

    ghost can = { λ s. CanCount s.record_reads × CanCount s.copy_reads };

    ghost supplies = { Supplies };

    /// Keeps the frame that it holds if that is still to come, else takes the next one.
    fn supply(&mut self, alloc: Global, source: &mut RecordSource<'a, Q, C>, at: u64) {
        if is_ahead(&self.held, at) {
            return;
        }
        self.is_recalled = false;
        source.take_back(self.held.take());
        self.held = source.next(alloc, at);
    }
}
