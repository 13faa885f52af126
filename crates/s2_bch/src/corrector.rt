//! The corrector: the places in which a word differs from a codeword.
ghost use Rattle.std.specs.Prelude.{◌≡◌, ◌<◌, ◌≤◌, ◌+◌, ◌^◌, ℕ, Bool, List, length, IfOk};
ghost use Rattle.s2_bits.specs.Bits.{differences};
ghost use Rattle.s2_bch.specs.Words.{IsMultiple};
ghost use Rattle.s2_bch.specs.Values.{HasRoots, HaveSameValues};
ghost use Rattle.s2_bch.specs.Workspaces.{HasSizes};

use crate::berlekamp_massey::shortest_locator;
use crate::chien::chien_search;
use crate::lanes::LANES;
use crate::splitting::may_split;
use crate::syndromes::put_syndromes;
use s2_field::Field;
use std::alloc::{AllocError, Global};
use std::marker::Model;

/// A workspace to find up to t errors over the field of the code's roots: the syndromes, the
/// locator polynomial, the auxiliary polynomial beside it, and room for their products.
pub(crate) struct FieldWorkspace<F: Field> {
    t: usize,
    syndromes: Vec<F>,
    locator: Vec<F>,
    auxiliary: Vec<F>,
    next: Vec<F>,
    terms: Vec<F>,
    values: Vec<F>,
}

impl<F: Field> Drop for FieldWorkspace<F> {
    fn drop(self) {
        let FieldWorkspace {
            t: _,
            syndromes: _,
            locator: _,
            auxiliary: _,
            next: _,
            terms: _,
            values: _,
        } = self;
    }
}

impl<F: Field> Model for FieldWorkspace<F> {
    ghost Value = { ℕ };

    ghost view = { λ f. f.t };

    ghost invariant = { λ f. HasSizes f.t (length f.syndromes.items) (length f.locator.items) (length f.auxiliary.items) (length f.next.items) (length f.terms.items) (length f.values.items) };
}

impl<F: Field> FieldWorkspace<F> {
    pub(crate) fn new(alloc: Global, t: usize) -> Result<FieldWorkspace<F>, AllocError>
        requires { t ≤ 15 }
        ensures { IfOk result (λ f. f ≡ t) }
    {
        Ok(FieldWorkspace {
            t,
            syndromes: vec![in alloc; F::zero(); t + t]?,
            locator: vec![in alloc; F::zero(); t + t + 1]?,
            auxiliary: vec![in alloc; F::zero(); t + t + 1]?,
            next: vec![in alloc; F::zero(); t + t + 1]?,
            terms: vec![in alloc; F::zero(); 16 * LANES]?,
            values: vec![in alloc; F::zero(); LANES]?,
        })
    }

    /// Flips the only bits whose change can make the word a codeword, at most t. The code has the
    /// first 2t powers of `alpha` as roots. Returns the number of flipped bits. `rest` has the
    /// word's values at these roots. The field has 2^m elements.
    pub(crate) fn correct_errors(&mut self, m: u32, rest: &[bool], word: &mut [bool]) -> usize
        requires field { 2 ^ m ≡ F.ORDER + 1 }
        requires short { length word.old < F.ORDER }
        requires few { length word.old < 65536 }
        requires rest { HaveSameValues F.field F.alpha (self.old + self.old) rest.now word.old }
        ensures same { self.new ≡ self.old }
        ensures size { length word.new ≡ length word.old }
        ensures count { result ≡ differences (length word.old) word.old word.new }
        ensures only { (g v : List Bool) → 0 < length g → HasRoots F.field F.alpha (self.old + self.old) g
            → IsMultiple g v → length v ≡ length word.old → differences (length word.old) word.old v ≤ self.old → word.new ≡ v }
    {
        put_syndromes(rest, &mut self.syndromes);
        let degree = shortest_locator(
            &self.syndromes,
            &mut self.locator,
            &mut self.auxiliary,
            &mut self.next,
        );
        if degree > self.t {
            return 0;
        }
        if !may_split(
            &self.locator[..degree],
            m,
            &mut self.auxiliary,
            &mut self.next,
        ) {
            return 0;
        }
        chien_search(
            &self.locator[..degree + 1],
            &mut self.terms,
            &mut self.values,
            word,
        )
    }
}
