//! The encoder and decoder of a mode's code.
ghost use Rattle.std.specs.Prelude.{◌≡◌, ◌+◌, ◌*◌, ◌∷◌, ◌<◌, ◌≤◌, List, Bool, true, false, length, drop, IsTrue, ◌↔◌, IfOk, IfSome, IfNone, Some, None};
ghost use Rattle.s2_bits.specs.Bits.{differences};
ghost use Rattle.s2_mode.specs.Mode.{kbch_of, k_of, t_of, IsMode, HasCodeSizes};
ghost use Rattle.s2_bch.specs.Registers.{Holds, IsTableFor, rest_of};
ghost use Rattle.s2_bch.specs.Generators.{generator_of};
ghost use Rattle.s2_bch.specs.Ready.{IsWorkspace};
ghost use Rattle.s2_bch.specs.Codes.{IsBchWord, IsBchWordOf, IsWithin};
ghost use Rattle.s2_bch.specs.Decoding.{nearest};
ghost use Rattle.s2_bch.specs.Errors.{order_of, HaveSameValuesIn, IsOnlyIn};

use crate::corrector::FieldWorkspace;
use crate::divider::{encode_into, rest, table_of};
use crate::register::Register;
use s2_bits::Bits;
use s2_field::{Gf14, Gf16};
use s2_mode::Mode;
use std::alloc::{AllocError, Global};
use std::marker::Model;

/// The workspace to find errors, over one of the two fields.
#[derive(Drop)]
pub(crate) enum Workspace {
    Normal(FieldWorkspace<Gf16>),
    Short(FieldWorkspace<Gf14>),
}

/// The BCH code of a mode (EN 302 307-1, 5.3.1), with tables and room to encode and decode.
pub struct Bch {
    mode: Mode,
    table: Vec<Register>,
    rest: Vec<bool>,
    candidate: Vec<bool>,
    workspace: Workspace,
}

impl Drop for Bch {
    fn drop(self) {
        let Bch {
            mode: _,
            table: _,
            rest: _,
            candidate: _,
            workspace: _,
        } = self;
    }
}

impl Model for Bch {
    ghost use Rattle.std.specs.Prelude.{length};
    ghost use Rattle.s2_mode.specs.Mode.{Mode as ModeValue};
    ghost use Rattle.s2_bch.specs.Ready.{IsReady};

    ghost Value = { ModeValue };

    ghost view = { λ b. b.mode };

    ghost invariant = { λ b. IsReady b.mode b.table.items (length b.rest.items)
        (length b.candidate.items) b.workspace };
}

impl Bch {
    /// The BCH code of a mode (EN 302 307-1, 5.3.1), with all the memory that its calls use.
    /// Returns `AllocError` if memory is refused; then none is held.
    pub fn new(alloc: Global, mode: Mode) -> Result<Bch, AllocError>
        ensures { IfOk result (λ b. b ≡ mode) }
    {
        let t = mode.t();
        let workspace = if mode.is_short() {
            Workspace::Short(FieldWorkspace::new(alloc, t)?)
        } else {
            Workspace::Normal(FieldWorkspace::new(alloc, t)?)
        };
        Ok(Bch {
            mode,
            table: table_of(alloc, mode)?,
            rest: vec![in alloc; false; mode.k() - mode.kbch()]?,
            candidate: vec![in alloc; false; mode.k()]?,
            workspace,
        })
    }

    /// Writes the codeword of a message: the message, then its parity bits. The first bit of each
    /// is the highest power of x (EN 302 307-1, 5.3.1). The message has Kbch bits (`Mode::kbch`),
    /// the word Nbch (`Mode::k`). The old bits of the word are lost.
    pub fn encode_into(&self, message: &Bits, word: &mut Bits)
        requires message { length message.now ≡ kbch_of self.now }
        requires word { length word.old ≡ k_of self.now }
        ensures is { IsBchWordOf self.now message.now word.new }
        ensures word { IsBchWord self.now word.new }
    {
        encode_into(&self.table, message.truths(), word.truths_mut());
    }

    /// Replaces a word of Nbch bits (`Mode::k`) by the codeword (EN 302 307-1, 5.3.1) that differs
    /// from it in at most t places (`Mode::t`). Returns the number of these places: 0 for a
    /// codeword. `None` if there is no such codeword: then the word is unchanged.
    pub fn decode_in_place(&mut self, word: &mut Bits) -> Option<u32>
        requires { length word.old ≡ k_of self.old }
        ensures same { self.new ≡ self.old }
        ensures some { IfSome result
            (λ c. IsWithin self.old word.old word.new × (c ≡ differences (length word.old) word.old word.new)) }
        ensures only { IfSome result (λ c. (v : List Bool) → IsWithin self.old word.old v → v ≡ word.new) }
        ensures none { IfNone result ((v : List Bool) → IsWithin self.old word.old v → ⊥) }
        ensures nearest { IfSome result (λ _. nearest self.old word.old ≡ Some word.new) }
        ensures no_nearest { IfNone result (nearest self.old word.old ≡ None) }
        ensures unchanged { IfNone result (word.new ≡ word.old) }
    {
        correct_bits(
            self.mode,
            &self.table,
            &mut self.workspace,
            word,
            &mut self.rest,
            &mut self.candidate,
        )
    }
}

fn correct_bits(
    mode: Mode,
    table: &[Register],
    workspace: &mut Workspace,
    word: &mut Bits,
    bits: &mut [bool],
    candidate: &mut [bool],
) -> Option<u32>
    requires valid { IsMode mode }
    requires sizes { HasCodeSizes mode }
    requires table { IsTableFor (drop 1 (generator_of mode)) table.now }
    requires workspace { IsWorkspace mode workspace.old }
    requires word { length word.old ≡ k_of mode }
    requires bits { length bits.old + kbch_of mode ≡ k_of mode }
    requires candidate { length candidate.old ≡ k_of mode }
    ensures workspace { IsWorkspace mode workspace.new }
    ensures some { IfSome result (λ c. IsWithin mode word.old word.new × (c ≡ differences (length word.old) word.old word.new)) }
    ensures only { IfSome result (λ c. (v : List Bool) → IsWithin mode word.old v → v ≡ word.new) }
    ensures none { IfNone result ((v : List Bool) → IsWithin mode word.old v → ⊥) }
    ensures nearest { IfSome result (λ _. nearest mode word.old ≡ Some word.new) }
    ensures no_nearest { IfNone result (nearest mode word.old ≡ None) }
    ensures unchanged { IfNone result (word.new ≡ word.old) }
{
    decode(mode, table, workspace, word.truths_mut(), bits, candidate)
}

/// Keeps a codeword, which costs one division, and corrects any other word.
fn decode(
    mode: Mode,
    table: &[Register],
    workspace: &mut Workspace,
    word: &mut [bool],
    bits: &mut [bool],
    candidate: &mut [bool],
) -> Option<u32>
    requires valid { IsMode mode }
    requires sizes { HasCodeSizes mode }
    requires table { IsTableFor (drop 1 (generator_of mode)) table.now }
    requires workspace { IsWorkspace mode workspace.old }
    requires word { length word.old ≡ k_of mode }
    requires bits { length bits.old + kbch_of mode ≡ k_of mode }
    requires candidate { length candidate.old ≡ k_of mode }
    ensures workspace { IsWorkspace mode workspace.new }
    ensures some { IfSome result (λ c. IsBchWord mode word.new × (c ≡ differences (length word.old) word.old word.new) × (c ≤ t_of mode)) }
    ensures only { IfSome result (λ c. (v : List Bool) → IsBchWord mode v → differences (length word.old) word.old v ≤ t_of mode → word.new ≡ v) }
    ensures none { IfNone result ((v : List Bool) → IsBchWord mode v → t_of mode < differences (length word.old) word.old v) }
    ensures unchanged { IfNone result (word.new ≡ word.old) }
{
    let left = rest(table, word, mode.kbch());
    if left.is_zero() {
        return Some(0);
    }
    left.write(bits);
    correct(mode, table, workspace, word, bits, candidate)
}

/// Flips bits in a copy of the word: the only ones whose change can make it a codeword, at most t.
/// Returns their number. `rest` is the remainder of its division.
fn correct_errors(workspace: &mut Workspace, rest: &[bool], candidate: &mut [bool]) -> usize
    requires short { length candidate.old < order_of workspace.old }
    requires rest { HaveSameValuesIn workspace.old rest.now candidate.old }
    ensures same { workspace.new ≡ workspace.old }
    ensures size { length candidate.new ≡ length candidate.old }
    ensures count { result ≡ differences (length candidate.old) candidate.old candidate.new }
    ensures only { IsOnlyIn workspace.old candidate.old candidate.new }
{
    match workspace {
        Workspace::Normal(workspace) => workspace.correct_errors(16, rest, candidate),
        Workspace::Short(workspace) => workspace.correct_errors(14, rest, candidate),
    }
}

fn correct(
    mode: Mode,
    table: &[Register],
    workspace: &mut Workspace,
    word: &mut [bool],
    bits: &[bool],
    candidate: &mut [bool],
) -> Option<u32>
    requires valid { IsMode mode }
    requires sizes { HasCodeSizes mode }
    requires table { IsTableFor (drop 1 (generator_of mode)) table.now }
    requires workspace { IsWorkspace mode workspace.old }
    requires word { length word.old ≡ k_of mode }
    requires bits { bits.now ≡ rest_of (drop 1 (generator_of mode)) (kbch_of mode) word.old }
    requires candidate { length candidate.old ≡ k_of mode }
    ensures workspace { IsWorkspace mode workspace.new }
    ensures some { IfSome result (λ c. IsBchWord mode word.new × (c ≡ differences (length word.old) word.old word.new) × (c ≤ t_of mode)) }
    ensures only { IfSome result (λ c. (v : List Bool) → IsBchWord mode v → differences (length word.old) word.old v ≤ t_of mode → word.new ≡ v) }
    ensures none { IfNone result ((v : List Bool) → IsBchWord mode v → t_of mode < differences (length word.old) word.old v) }
    ensures unchanged { IfNone result (word.new ≡ word.old) }
{
    candidate.copy_from_slice(word);
    let count = correct_errors(workspace, bits, candidate);
    if count > mode.t() {
        return None;
    }
    if !rest(table, candidate, mode.kbch()).is_zero() {
        return None;
    }
    word.copy_from_slice(candidate);
    Some(count as u32)
}
