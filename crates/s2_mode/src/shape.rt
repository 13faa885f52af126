//! Shapes of codes.
ghost use Rattle.std.specs.Prelude.{◌≡◌, ◌+◌, ◌*◌, ◌≤◌, ◌↔◌, IsSome, IfSome};
ghost use Rattle.s2_mode.specs.Shape.{information_bits, check_count, code_bits, IsShape, shape_of};

use crate::limits::{MAX_BITS, MAX_GROUP};
use std::marker::Model;

/// The shape of a code whose rows are repeated by groups (EN 302 307-1, 5.3.2). It has the size of a group, the number
/// of groups of information bits, and q: the checks of a group's next bit are q further.
#[derive(Clone, Copy, Debug, PartialEq, Eq)]
pub struct Shape {
    group: usize,
    groups: usize,
    q: usize,
}

impl Model for Shape {
    ghost use Rattle.s2_mode.specs.Shape.{Shape as ShapeValue, IsShape, shape_of};

    ghost Value = { ShapeValue };

    ghost view = { λ s. shape_of s.group s.groups s.q };

    ghost invariant = { λ s. IsShape (shape_of s.group s.groups s.q) };

    ghost inverse = { λ v. record { group = v.group; groups = v.groups; q = v.q } };
}

impl Shape {
    /// The shape of these numbers. `None` unless a group has 1 to 360 bits, there is at least one
    /// group of information bits and one of checks, and a codeword has at most 64800 bits.
    pub fn new(group: usize, groups: usize, q: usize) -> Option<Shape>
        ensures found { IsSome result ↔ IsShape (shape_of group groups q) }
        ensures value { IfSome result (λ s. s ≡ shape_of group groups q) }
    {
        if group < 1 || groups < 1 || q < 1 {
            return None;
        }
        if group > MAX_GROUP || groups > MAX_BITS || q > MAX_BITS {
            return None;
        }
        if group * (groups + q) > MAX_BITS {
            return None;
        }
        Some(Shape::of(group, groups, q))
    }

    /// The shape of numbers that are known to be within these limits.
    pub fn of(group: usize, groups: usize, q: usize) -> Shape
        requires { IsShape (shape_of group groups q) }
        ensures { result ≡ shape_of group groups q }
    {
        Shape { group, groups, q }
    }

    /// How many bits a group has.
    pub fn group(&self) -> usize
        ensures is { result ≡ self.now.group }
        ensures valid { IsShape self.now }
    {
        self.group
    }

    /// How many groups of information bits there are.
    pub fn groups(&self) -> usize
        ensures is { result ≡ self.now.groups }
        ensures valid { IsShape self.now }
    {
        self.groups
    }

    /// By how many checks each next bit of a group moves on.
    pub fn q(&self) -> usize
        ensures is { result ≡ self.now.q }
        ensures valid { IsShape self.now }
    {
        self.q
    }

    /// k, how many information bits a codeword has.
    pub fn k(&self) -> usize
        ensures is { result ≡ information_bits self.now }
        ensures valid { IsShape self.now }
    {
        self.group * self.groups
    }

    /// The number of checks, which is that of the parity bits.
    pub fn checks(&self) -> usize
        ensures is { result ≡ check_count self.now }
        ensures valid { IsShape self.now }
    {
        self.group * self.q
    }

    /// n, how many bits a codeword has.
    pub fn n(&self) -> usize
        ensures is { result ≡ code_bits self.now }
        ensures valid { IsShape self.now }
    {
        self.group * (self.groups + self.q)
    }
}
