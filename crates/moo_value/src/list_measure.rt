//! The measures of a list with one element more, with one less, and with one replaced.
ghost use Rattle.std.specs.Prelude.{◌≡◌, ◌≤◌, ◌<◌, ◌++◌, ◌+◌, ◌∷◌, [], ℕ, length, insert, remove, slice_set, IfSome, IfNone};
ghost use Rattle.moo_value.specs.Tree.{list_of};
ghost use Rattle.moo_value.specs.Size.{list_depth, IsWithinLimits, depth_limit};
ghost use Rattle.moo_value.specs.Inner.{IsMeasuredList};
ghost use Rattle.moo_value.specs.View.{tree};

use crate::limits::{DEPTH_LIMIT, WEIGHT_LIMIT};
use crate::list::MooList;
use crate::measure::{Measure, list_depth};
use crate::value::Value;

impl MooList {
    // Measures the list with one more value, at its end or before any element. Returns `None` if it is too heavy or too
    // deep.
    pub(crate) fn measured_with(&self, value: &Value) -> Option<Measure>
        ensures last { IfSome result (λ m. IsMeasuredList m.weight m.depth (self.now ++ tree value.now ∷ [])) }
        ensures inserted { IfSome result (λ m. (k : ℕ) → IsMeasuredList m.weight m.depth (insert self.now k (tree value.now))) }
        ensures no_last { IfNone result (¬ IsWithinLimits (list_of (self.now ++ tree value.now ∷ []))) }
        ensures no_inserted { IfNone result ((k : ℕ) → ¬ IsWithinLimits (list_of (insert self.now k (tree value.now)))) }
    {
        let own = self.measure();
        let weight = own.weight + value.weight();
        let depth = own.depth.max(value.depth() + 1);
        if weight > WEIGHT_LIMIT {
            return None;
        }
        if depth > DEPTH_LIMIT {
            return None;
        }
        Some(Measure { weight, depth })
    }

    // Measures the list with this value at `index`. Returns `None` if it is too heavy or too deep.
    pub(crate) fn measured_replacing(&self, index: usize, value: &Value) -> Option<Measure>
        requires { index < length self.now }
        ensures some { IfSome result (λ m. IsMeasuredList m.weight m.depth (slice_set self.now index (tree value.now))) }
        ensures none { IfNone result (¬ IsWithinLimits (list_of (slice_set self.now index (tree value.now)))) }
    {
        let old = self.elements()[index].weight();
        let own = self.measure();
        let weight = own.weight - old + value.weight();
        if weight > WEIGHT_LIMIT {
            return None;
        }
        let depth = self.depth_replacing(index, value);
        if depth > DEPTH_LIMIT {
            return None;
        }
        Some(Measure { weight, depth })
    }

    // Measures the list without the element at `index`.
    pub(crate) fn measured_without(&self, index: usize) -> Measure
        requires { index < length self.now }
        ensures { IsMeasuredList result.weight result.depth (remove self.now index) }
    {
        let old = self.elements()[index].weight();
        let own = self.measure();
        let weight = own.weight - old;
        let depth = self.depth_around(index);
        Measure { weight, depth }
    }

    // Returns the depth with this value at `index`. Reads the other elements only if the element that goes may be the
    // deepest and the new one is less deep.
    fn depth_replacing(&self, index: usize, value: &Value) -> u32
        requires { index < length self.now }
        ensures depth { result ≡ list_depth (slice_set self.now index (tree value.now)) }
        ensures limit { result ≤ 1 + depth_limit }
    {
        let old = self.elements()[index].depth();
        let new = value.depth();
        let depth = self.depth();
        if old <= new {
            return depth.max(new + 1);
        }
        if old + 1 < depth {
            return depth;
        }
        self.depth_around(index).max(new + 1)
    }

    // Returns the depth without the element at `index`. Reads no further than an element that makes the list as deep as it is.
    fn depth_around(&self, index: usize) -> u32
        requires { index < length self.now }
        ensures depth { result ≡ list_depth (remove self.now index) }
        ensures limit { result ≤ depth_limit }
    {
        let elements = self.elements();
        let most = self.depth();
        let before = list_depth(&elements[..index], most);
        if before == most {
            return most;
        }
        let after = list_depth(&elements[index + 1..], most);
        before.max(after)
    }
}
