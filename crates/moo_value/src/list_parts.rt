//! Parts of lists, and splices of lists.
ghost use Rattle.std.specs.Prelude.{◌≡◌, ◌≤◌, ◌++◌, length, slice_range, IfOk, IfErr, OnOk};
ghost use Rattle.moo_value.specs.Tree.{list_of};
ghost use Rattle.moo_value.specs.Size.{IsWithinLimits, IsStored};
ghost use Rattle.moo_value.specs.Splice.{spliced};

use crate::elements::{copied, copied_in_a_row};
use crate::list::{ListLimit, MooList};
use crate::measure::{measured, measured_in_a_row};
use crate::value::Value;
use std::alloc::{AllocError, Global};

impl MooList {
    ghost use Rattle.moo_value.specs.View.{trees};
    ghost use Rattle.moo_value.specs.Faults.{IsRefusedList};

    /// Returns the elements from `low` up to but not including `high`, as a list that shares what they hold.
    pub fn part(&self, alloc: Global, low: usize, high: usize) -> Result<MooList, AllocError>
        requires order { low ≤ high }
        requires within { high ≤ length self.now }
        ensures { IfOk result (λ list. list ≡ slice_range self.now low high) }
    {
        let elements = copied(alloc, &self.elements()[low..high])?;
        let Some(measure) = measured(&elements) else {
            unreachable!()
        };
        MooList::from_measured(alloc, elements, measure)
    }

    // Returns what `spliced` does, with copies of all elements.
    pub(crate) fn spliced_copy(
        &self,
        alloc: Global,
        low: usize,
        high: usize,
        middle: &MooList,
    ) -> Result<MooList, ListLimit>
        requires low { low ≤ length self.now }
        requires high { high ≤ length self.now }
        ensures ok { IfOk result (λ list. list ≡ spliced self.now low high middle.now) }
        ensures limits { OnOk result (IsWithinLimits (list_of (spliced self.now low high middle.now))) }
        ensures err { IfErr result (λ fault. IsRefusedList fault (spliced self.now low high middle.now)) }
    {
        let all = self.elements();
        MooList::in_a_row(alloc, &all[..low], middle.elements(), &all[high..])
    }

    fn in_a_row(
        alloc: Global,
        front: &[Value],
        middle: &[Value],
        back: &[Value],
    ) -> Result<MooList, ListLimit>
        requires front { IsStored (list_of (trees front.now)) }
        requires middle { IsStored (list_of (trees middle.now)) }
        requires back { IsStored (list_of (trees back.now)) }
        ensures ok { IfOk result (λ list. list ≡ trees front.now ++ trees middle.now ++ trees back.now) }
        ensures limits { OnOk result (IsWithinLimits (list_of (trees front.now ++ trees middle.now ++ trees back.now))) }
        ensures err { IfErr result (λ fault. IsRefusedList fault (trees front.now ++ trees middle.now ++ trees back.now)) }
    {
        let Some(measure) = measured_in_a_row(front, middle, back) else {
            return Err(ListLimit::TooLarge);
        };
        let elements = copied_in_a_row(alloc, front, middle, back).map_err(|_| ListLimit::Memory)?;
        MooList::from_measured(alloc, elements, measure).map_err(|_| ListLimit::Memory)
    }
}
