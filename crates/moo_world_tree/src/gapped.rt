//! Lists of nodes from which a removal takes constant time, because it leaves an empty slot.

ghost use Rattle.std.specs.Prelude.{◌≡◌, ◌+◌, ◌<◌, ◌≤◌, ◌++◌, ◌∷◌, [], length, IfOk, OnOk, OnErr, MatchOption, Some, None, map, count_by, nat_eq, slice_index_or};
ghost use Rattle.moo_world_tree.specs.Forest.{without};
ghost use Rattle.moo_world_tree.specs.Gapped.{present, BeginsEmpty};

use crate::below::Below;
use std::alloc::{AllocError, Global};
use std::marker::Model;

/// A list of nodes in slots, some of which may be empty.
#[derive(Drop)]
pub struct Gapped {
    slots: Vec<Option<usize>>,
    // The number of empty slots.
    gaps: usize,
    // The number of slots at the front that are known to be empty.
    front: usize,
}

impl Model for Gapped {
    ghost use Rattle.std.specs.Prelude.{List, ℕ};
    ghost use Rattle.moo_world_tree.specs.Gapped.{present, BeginsEmpty};

    ghost Value = { List ℕ };

    ghost view = { λ g. present g.slots.items };

    ghost invariant = { λ g. BeginsEmpty g.front g.slots.items };
}

impl Gapped {
    /// Makes an empty list.
    pub fn new(alloc: Global) -> Self
        ensures { result ≡ [] }
    {
        Gapped {
            slots: Vec::new(alloc),
            gaps: 0,
            front: 0,
        }
    }

    /// Returns the nodes in order.
    pub fn below(&self) -> Below<'_>
        ensures { result ≡ self.now }
    {
        Below::new(&self.slots[self.front..])
    }

    /// Returns the number of slots.
    pub fn slots(&self) -> usize {
        self.slots.len()
    }

    /// Returns the node in a slot, or `None` if the slot is empty or does not exist.
    pub fn slot(&self, place: usize) -> Option<usize> {
        if place < self.slots.len() {
            self.slots[place]
        } else {
            None
        }
    }

    /// Appends a node. Out of memory nothing changes.
    pub fn push(&mut self, x: usize) -> Result<(), AllocError>
        ensures ok { OnOk result (self.new ≡ self.old ++ x ∷ []) }
        ensures err { OnErr result (self.new ≡ self.old) }
    {
        self.slots.push(Some(x))?;
        Ok(())
    }

    /// Appends nodes in their order. Out of memory nothing changes.
    pub fn push_all(&mut self, xs: &[usize]) -> Result<(), AllocError>
        ensures ok { OnOk result (self.new ≡ self.old ++ xs.now) }
        ensures err { OnErr result (self.new ≡ self.old) }
    {
        push_all(&mut self.slots, xs)?;
        Ok(())
    }

    /// Removes a node, which is in the list at most once. Looks first at the slot `place`, and then searches all slots.
    pub fn remove(&mut self, x: usize, place: usize)
        requires { count_by (nat_eq x) self.old ≤ 1 }
        ensures { self.new ≡ without x self.old }
    {
        if let Some(place) = slot_of(&self.slots, x, place) {
            self.slots[place] = None;
            self.gaps = self.gaps.saturating_add(1);
            self.front = empty_at_front(&self.slots, self.front);
        }
    }

    /// Is true if more than half of the slots are empty.
    pub fn is_sparse(&self) -> bool {
        self.gaps > self.slots.len() / 2
    }

    /// Removes the empty slots.
    pub fn pack(&mut self)
        ensures { self.new ≡ self.old }
    {
        keep_filled(&mut self.slots);
        self.gaps = 0;
        self.front = 0;
    }

    /// Removes all nodes.
    pub fn clear(&mut self)
        ensures { self.new ≡ [] }
    {
        self.slots.clear();
        self.gaps = 0;
        self.front = 0;
    }
}

fn push_all(slots: &mut Vec<Option<usize>>, xs: &[usize]) -> Result<(), AllocError>
    ensures ok { OnOk result (slots.new.items ≡ slots.old.items ++ map (λ x. Some x) xs.now) }
    ensures err { OnErr result (slots.new.items ≡ slots.old.items) }
{
    let before = slots.len();
    for x in xs {
        if let Err(fault) = slots.push(Some(*x)) {
            slots.truncate(before);
            return Err(fault.into());
        }
    }
    Ok(())
}

// Returns the slot of a node: the one at `place` if the node is there.
fn slot_of(slots: &[Option<usize>], x: usize, place: usize) -> Option<usize>
    ensures { MatchOption result (count_by (nat_eq x) (present slots.now) ≡ 0) (λ i. (i < length slots.now) × (slice_index_or slots.now i None ≡ Some x)) }
{
    if place < slots.len() && slots[place] == Some(x) {
        return Some(place);
    }
    for i in 0..slots.len() {
        if slots[i] == Some(x) {
            return Some(i);
        }
    }
    None
}

// Returns how many slots at the front are empty, if the first `known` of them are.
fn empty_at_front(slots: &[Option<usize>], known: usize) -> usize
    requires { BeginsEmpty known slots.now }
    ensures { BeginsEmpty result slots.now }
{
    let mut front = known;
    while front < slots.len() && slots[front].is_none() {
        front += 1;
    }
    front
}

fn keep_filled(slots: &mut Vec<Option<usize>>)
    ensures { present slots.new.items ≡ present slots.old.items }
{
    slots.retain(|slot| slot.is_some());
}
