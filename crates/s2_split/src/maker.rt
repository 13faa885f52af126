//! The maker of certificates.
ghost use Rattle.std.specs.Prelude.{◌≡◌, ◌≤◌, IfOk, Bool, All, length, Some, None, IsTrue, List, ◌↔◌, ◌≢◌, IfSome};
ghost use Rattle.s2_matrix.specs.Code.{code_of, IsCodeword};
ghost use Rattle.s2_check.specs.Checking.{IsCertificate};
ghost use Rattle.s2_check.specs.Views.{IsSoft};
ghost use Rattle.s2_split.specs.Making.{shared, shared_view, made_view, split_in_ways, HoldsRests, AreSome};
ghost use Rattle.s2_split.specs.Scattered.{repaired, IsScattered};
ghost use Rattle.s2_split.specs.Spreading.{greedy_split, made_split};

use crate::make::{Ways, make_moves};
use crate::repair::repair;
use crate::rests::are_some;
use s2_bits::Bits;
use s2_check::{CertView, Move, hard_into};
use s2_matrix::Matrix;
use std::alloc::{AllocError, Global};
use std::marker::Model;

/// A maker of certificates, by one move for each check.
pub struct Maker<'a> {
    matrix: &'a Matrix,
    rests: Vec<i32>,
    negatives: Vec<u32>,
    moves: Vec<Move>,
    odd: Vec<bool>,
    scale: u16,
}

impl<'a> Drop for Maker<'a> {
    fn drop(self) {
        let Maker {
            matrix: _,
            rests: _,
            negatives: _,
            moves: _,
            odd: _,
            scale: _,
        } = self;
    }
}

impl<'a> Model for Maker<'a> {
    ghost use Rattle.s2_split.specs.Making.{Making, IsMaker, made_of};

    ghost Value = { Making };

    ghost view = { λ m.
        record { rows = m.matrix.now; made = made_of m.scale m.moves.items; rests = m.rests.items } };

    ghost invariant = { λ m.
        IsMaker m.matrix.now m.scale m.rests.items m.negatives.items m.moves.items m.odd.items };
}

impl<'a> Maker<'a> {
    /// A maker for the words of this matrix, which has made nothing yet. It takes all its memory
    /// here. Returns `AllocError` only if memory is refused.
    pub fn new(alloc: Global, matrix: &'a Matrix) -> Result<Maker<'a>, AllocError>
        ensures rows { IfOk result (λ m. m.rows ≡ matrix.now) }
        ensures none { IfOk result (λ m. m.made ≡ None) }
    {
        let bits = matrix.bits();
        let checks = matrix.check_count();
        let rests = vec![in alloc; 0i32; bits]?;
        let negatives = vec![in alloc; 0u32; checks]?;
        let none = Move {
            place: 0,
            amount: 0,
        };
        let moves = vec![in alloc; none; checks]?;
        let odd = vec![in alloc; false; checks]?;
        Ok(Maker {
            matrix,
            rests,
            negatives,
            moves,
            odd,
            scale: 0,
        })
    }

    /// Writes the repaired hard decision: each bit is flipped that is in at least two checks, all
    /// of them odd under the hard decision. The split made last is kept.
    pub fn repair_into(&mut self, soft: &[i16], word: &mut Bits)
        requires soft { length soft.now ≡ (code_of self.old.rows).bits }
        requires word { length word.old ≡ (code_of self.old.rows).bits }
        ensures same { self.new ≡ self.old }
        ensures long { length word.new ≡ length word.old }
        ensures word { word.new ≡ repaired (code_of self.old.rows) soft.now }
        ensures found { (codeword : List Bool) → IsScattered (code_of self.old.rows) soft.now codeword
            → word.new ≡ codeword }
    {
        hard_into(soft, word);
        repair(self.matrix, &mut self.odd, word.truths_mut());
    }

    /// The certificate of a codeword. `None` if none is found or the word has an odd check.
    pub fn make<'s>(&'s mut self, soft: &'s [i16], word: &'s Bits) -> Option<CertView<'s>>
        requires soft { length soft.now ≡ (code_of self.old.rows).bits }
        requires range { All IsSoft soft.now }
        requires word { length word.now ≡ (code_of self.old.rows).bits }
        ensures is { IsCodeword (code_of self.old.rows) word.now → result ≡ made_view self.old.rows soft.now word.now }
        ensures odd { (IsCodeword (code_of self.old.rows) word.now → ⊥) → result ≡ None }
        ensures accepted { IfSome result (λ v. IsCertificate self.old.rows v) }
        ensures scattered { IsScattered (code_of self.old.rows) soft.now word.now → result ≢ None }
    {
        if self.certify(soft, word) {
            Some(self.held(soft, word))
        } else {
            None
        }
    }

    /// Makes the split for a codeword, and returns whether there is one. The held rests are then
    /// what the split leaves of each bit, in favour of the word.
    pub fn certify(&mut self, soft: &[i16], word: &Bits) -> bool
        requires soft { length soft.now ≡ (code_of self.old.rows).bits }
        requires range { All IsSoft soft.now }
        requires word { length word.now ≡ (code_of self.old.rows).bits }
        ensures rows { self.new.rows ≡ self.old.rows }
        ensures found { IsTrue result ↔ (self.new.made ≢ None) }
        ensures codeword { IsTrue result → IsCodeword (code_of self.old.rows) word.now }
        ensures made { IsCodeword (code_of self.old.rows) word.now → self.new.made
            ≡ shared (code_of self.old.rows) word.now (made_split (code_of self.old.rows) soft.now word.now) }
        ensures odd { (IsCodeword (code_of self.old.rows) word.now → ⊥) → self.new.made ≡ None }
        ensures rests { HoldsRests self.new soft.now word.now }
    {
        if !self.matrix.satisfied(word) {
            self.scale = 0;
            return false;
        }
        self.certify_codeword(soft, word)
    }

    /// As [`Maker::certify`], for a word that is known to be a codeword.
    pub fn certify_codeword(&mut self, soft: &[i16], word: &Bits) -> bool
        requires soft { length soft.now ≡ (code_of self.old.rows).bits }
        requires range { All IsSoft soft.now }
        requires codeword { IsCodeword (code_of self.old.rows) word.now }
        ensures rows { self.new.rows ≡ self.old.rows }
        ensures found { IsTrue result ↔ (self.new.made ≢ None) }
        ensures made { self.new.made
            ≡ shared (code_of self.old.rows) word.now (made_split (code_of self.old.rows) soft.now word.now) }
        ensures rests { HoldsRests self.new soft.now word.now }
    {
        self.certify_in(Ways::GreedyThenSpreading, soft, word)
    }

    /// As [`Maker::certify_codeword`], by the greedy amounts alone.
    pub fn certify_greedily(&mut self, soft: &[i16], word: &Bits) -> bool
        requires soft { length soft.now ≡ (code_of self.old.rows).bits }
        requires range { All IsSoft soft.now }
        requires codeword { IsCodeword (code_of self.old.rows) word.now }
        ensures rows { self.new.rows ≡ self.old.rows }
        ensures found { IsTrue result ↔ (self.new.made ≢ None) }
        ensures made { self.new.made
            ≡ shared (code_of self.old.rows) word.now (greedy_split (code_of self.old.rows) soft.now word.now) }
        ensures rests { HoldsRests self.new soft.now word.now }
    {
        self.certify_in(Ways::Greedy, soft, word)
    }

    /// Makes the split for a codeword in these ways, and returns whether there is one.
    fn certify_in(&mut self, ways: Ways, soft: &[i16], word: &Bits) -> bool
        requires soft { length soft.now ≡ (code_of self.old.rows).bits }
        requires range { All IsSoft soft.now }
        requires codeword { IsCodeword (code_of self.old.rows) word.now }
        ensures rows { self.new.rows ≡ self.old.rows }
        ensures found { IsTrue result ↔ (self.new.made ≢ None) }
        ensures made { self.new.made ≡ shared (code_of self.old.rows) word.now (split_in_ways ways (code_of self.old.rows) soft.now word.now) }
        ensures rests { HoldsRests self.new soft.now word.now }
    {
        self.scale = make_moves(
            self.matrix,
            soft,
            word.truths(),
            ways,
            &mut self.rests,
            &mut self.negatives,
            &mut self.moves,
        );
        self.scale > 0
    }

    /// Whether every held rest is at least 1. If a split was made, its certificate is strict
    /// exactly then.
    pub fn is_strict(&self) -> bool
        ensures { IsTrue result ↔ AreSome (code_of self.now.rows) self.now.rests }
    {
        are_some(&self.rests)
    }

    /// The certificate of these values and this word by what the maker holds.
    pub fn held<'s>(&'s self, soft: &'s [i16], word: &'s Bits) -> CertView<'s>
        requires soft { length soft.now ≡ (code_of self.now.rows).bits }
        requires range { All IsSoft soft.now }
        requires word { length word.now ≡ (code_of self.now.rows).bits }
        requires made { self.now.made ≢ None }
        ensures { IfSome self.now.made (λ s. result ≡ shared_view self.now.rows soft.now word.now s) }
    {
        CertView::placed(self.matrix, self.scale, soft, word, &self.moves)
    }
}
