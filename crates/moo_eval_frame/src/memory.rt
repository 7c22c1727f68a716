//! The memory of frames that have ended, which the next ones use.
ghost use Rattle.std.specs.Prelude.{◌≡◌, IfOk, IfErr, OnOk};
ghost use Rattle.moo_value.specs.Tree.{list_of};
ghost use Rattle.moo_value.specs.Size.{IsWithinLimits};
ghost use Rattle.moo_value.specs.Faults.{IsRefusedList};
ghost use Rattle.moo_value.specs.View.{trees};

use moo_value::{ListLimit, MooList, Value};
use std::alloc::Global;

/// Holds the memory of a frame that has ended: of its slots, and of the list of its arguments if nothing else shared
/// that list. The elements of that list have memory of their own.
#[derive(Drop)]
pub struct FrameMemory {
    slots: Vec<Option<Value>>,
    args: Option<MooList>,
}

impl FrameMemory {
    /// Returns a value that holds no memory.
    #[inline(always)]
    pub fn new(alloc: Global) -> FrameMemory {
        FrameMemory {
            slots: Vec::new(alloc),
            args: None,
        }
    }

    /// Returns the memory of these slots and of `args`, and the elements of `args` if it is a list that nothing else shares.
    /// The values of the slots are dropped.
    #[inline(always)]
    pub(crate) fn of(
        alloc: Global,
        slots: Vec<Option<Value>>,
        args: Value,
    ) -> (FrameMemory, Vec<Value>) {
        let mut slots = slots;
        slots.clear();
        let (args, elements) = taken_apart(alloc, args);
        (FrameMemory { slots, args }, elements)
    }

    /// Makes the list of these values, as `MooList::try_from_vec` does. It uses the memory of the list of arguments, if
    /// there is one.
    #[inline(always)]
    pub fn list(&mut self, alloc: Global, values: Vec<Value>) -> Result<MooList, ListLimit>
        ensures ok { IfOk result (λ list. list ≡ trees values.items) }
        ensures limits { OnOk result (IsWithinLimits (list_of (trees values.items))) }
        ensures err { IfErr result (λ fault. IsRefusedList fault (trees values.items)) }
    {
        match self.args.take() {
            Some(list) => list.refilled(alloc, values),
            None => MooList::try_from_vec(alloc, values),
        }
    }

    /// Returns the memory of the slots.
    #[inline(always)]
    pub(crate) fn into_slots(self) -> Vec<Option<Value>> {
        self.slots
    }
}

// Returns the memory of a list and its elements, if nothing else shares them. Returns no memory for other values.
#[inline(always)]
fn taken_apart(alloc: Global, value: Value) -> (Option<MooList>, Vec<Value>) {
    match value {
        Value::List(list) => {
            let mut list = list;
            let elements = list.take_elements(alloc);
            if elements.is_empty() {
                (list.emptied(), elements)
            } else {
                (Some(list), elements)
            }
        }
        _ => (None, Vec::new(alloc)),
    }
}
