//! A borrowed list of the children of a node.

ghost use Rattle.std.specs.Prelude.{◌≡◌, ◌++◌, ◌∷◌, [], IfOk, MatchOption};
ghost use Rattle.std.specs.List.{slice_get};
ghost use Rattle.std.specs.Iterator.{YieldsFirst, item_count};
ghost use Rattle.moo_world_tree.specs.Gapped.{present};

use std::alloc::{AllocError, Global};
use std::marker::Model;

/// The nodes right below a node, the newest last.
#[derive(Drop)]
pub struct Below<'a> {
    slots: &'a [Option<usize>],
}

impl<'a> Model for Below<'a> {
    ghost use Rattle.std.specs.Prelude.{List, ℕ};
    ghost use Rattle.moo_world_tree.specs.Gapped.{present};

    ghost Value = { List ℕ };

    ghost view = { λ b. present b.slots.now };
}

impl<'a> Below<'a> {
    pub(crate) fn new(slots: &'a [Option<usize>]) -> Below<'a>
        ensures { result ≡ present slots.now }
    {
        Below { slots }
    }

    /// Returns the oldest node, or `None` if the list is empty.
    pub fn first(self) -> Option<usize>
        ensures { result ≡ slice_get self.entry 0 }
    {
        let mut left = self;
        left.next()
    }

    /// Removes and returns the newest node, or returns `None` if the list is empty.
    pub fn take_last(&mut self) -> Option<usize>
        ensures { MatchOption result ((self.old ≡ []) × (self.new ≡ [])) (λ x. self.old ≡ self.new ++ x ∷ []) }
    {
        while let Some((slot, others)) = self.slots.split_last() {
            self.slots = others;
            if slot.is_some() {
                return *slot;
            }
        }
        None
    }

    /// Copies the list.
    pub fn to_vec(self, alloc: Global) -> Result<Vec<usize>, AllocError>
        ensures { IfOk result (λ xs. xs.items ≡ self.entry) }
    {
        self.collect(alloc)
    }
}

impl<'a> Iterator for Below<'a> {
    type Item = usize;

    ghost next_gives = { YieldsFirst (λ left. left) };

    ghost remaining = { item_count (λ left. left) };

    fn next(&mut self) -> Option<usize> {
        while let Some((slot, others)) = self.slots.split_first() {
            self.slots = others;
            if slot.is_some() {
                return *slot;
            }
        }
        None
    }
}
