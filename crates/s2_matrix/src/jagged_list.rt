//! Lists of numbers, of any lengths, in one piece.
ghost use Rattle.std.specs.Prelude.{◌≡◌, ◌<◌, ◌≤◌, [], length, slice_index_or, slice_range};
ghost use Rattle.s2_matrix.specs.CountingSort.{places_before};
ghost use Rattle.s2_matrix.specs.Joined.{joined};

use std::marker::Model;

/// Lists of numbers, of any lengths, one after another in one piece.
pub(crate) struct JaggedList {
    pub(crate) first: Vec<u32>,
    pub(crate) items: Vec<u32>,
}

impl Drop for JaggedList {
    fn drop(self) {
        let JaggedList { first: _, items: _ } = self;
    }
}

impl Model for JaggedList {
    ghost use Rattle.std.specs.Prelude.{ℕ, List};
    ghost use Rattle.s2_matrix.specs.Cut.{cut, IsCut};

    ghost Value = { List (List ℕ) };

    ghost view = { λ t. cut t.first.items t.items.items };

    ghost invariant = { λ t. IsCut t.first.items t.items.items };
}

impl JaggedList {
    /// How many lists.
    pub fn len(&self) -> usize
        ensures { result ≡ length self.now }
    {
        self.first.len() - 1
    }

    /// One list.
    pub fn row(&self, i: usize) -> &[u32]
        requires { i < length self.now }
        ensures { result.now ≡ slice_index_or self.now i [] }
    {
        let start = self.first[i] as usize;
        let end = self.first[i + 1] as usize;
        part(&self.items, start, end)
    }

    /// The number of numbers in the lists before one.
    pub fn first(&self, i: usize) -> usize
        requires { i ≤ length self.now }
        ensures { result ≡ places_before self.now i }
    {
        self.first[i] as usize
    }

    /// All numbers, list by list.
    pub fn all(&self) -> &[u32]
        ensures { result.now ≡ joined self.now }
    {
        &self.items
    }
}

/// The numbers from one place to another.
fn part(items: &[u32], start: usize, end: usize) -> &[u32]
    requires rises { start ≤ end }
    requires within { end ≤ length items.now }
    ensures { result.now ≡ slice_range items.now start end }
{
    &items[start..end]
}
