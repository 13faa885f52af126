//! A decider that drops certificates.

use s2_mode::Symbol;
use s2_receive::{Decide, Decided, Frame};
use std::marker::Model;

/// A decider whose decisions are those of another, without their certificates. Records without certificates are true for it if they
/// were made with the other.
pub struct Uncertified<D: Decide> {
    inner: D,
}

impl<D: Decide + Drop> Drop for Uncertified<D> {
    fn drop(self) {
        let Uncertified { inner: _ } = self;
    }
}

impl<D: Decide> Model for Uncertified<D> {
    ghost Value = { D };

    ghost view = { λ u. u.inner };
}

impl<D: Decide> Uncertified<D> {
    ghost use Rattle.std.specs.Prelude.{◌≡◌};

    /// Drops the certificates of this decider.
    pub fn new(inner: D) -> Uncertified<D>
        ensures { result ≡ inner }
    {
        Uncertified { inner }
    }
}

impl<D: Decide> Decide for Uncertified<D> {
    ghost use Rattle.std.specs.Prelude.{None};
    ghost use Rattle.s2_stitch.specs.Laws.{uncertified};

    ghost size = { D.size };

    ghost decide = { λ u symbols. uncertified (D.decide u) symbols };

    ghost unaided = { λ u symbols. uncertified (D.unaided u) symbols };

    ghost field = { D.field };

    ghost last = { λ u. record (D.last u) { certificate = None } };

    fn decide(&mut self, symbols: &[Symbol]) {
        self.inner.decide(symbols);
    }

    fn decided(&self) -> Decided {
        self.inner.decided()
    }

    fn field(&self) -> &[u8] {
        self.inner.field()
    }

    fn frame(&self) -> Frame<'_> {
        let frame = self.inner.frame();
        Frame {
            soft: frame.soft,
            word: frame.word,
            certificate: None,
            message: frame.message,
            decided: frame.decided,
            field: frame.field,
        }
    }
}
