//! Parts of lists that are still to be taken.
ghost use Rattle.std.specs.Prelude.{◌≡◌, ◌≤◌, length, slice_range, IfOk};
ghost use Rattle.moo_value.specs.Tree.{list_of};
ghost use Rattle.moo_value.specs.View.{tree};
ghost use Rattle.moo_builtin_operator.specs.Places.{range_of};
ghost use Rattle.moo_eval_frame.specs.Outcome.{answers};
ghost use Rattle.moo_eval_frame.specs.Seen.{seen_by, IsKnownFailure};
ghost use Rattle.moo_eval_access.specs.Bounds.{IsWithin};
ghost use Rattle.moo_eval_deferred.specs.Deferred.{deferred_tree};

use crate::deferred::Deferred;
use moo_builtin_operator::{list_bounds, range};
use moo_eval_frame::Failure;
use moo_value::{MooList, Value};
use std::alloc::{AllocError, Global};
use std::marker::Model;

/// Holds a list, and which part of it is still to be taken: the elements from one index up to but not including another.
#[derive(Drop)]
pub struct ListPart {
    list: MooList,
    from: usize,
    to: usize,
}

impl Model for ListPart {
    ghost use Rattle.std.specs.Prelude.{List, ◌≤◌, length, slice_range};
    ghost use Rattle.moo_value.specs.Tree.{Tree};
    ghost use Rattle.moo_value.specs.TreeCode.{tree_list_code};

    ghost Value = { List Tree };

    ghost coded = { tree_list_code };

    ghost view = { λ p. slice_range p.list p.from p.to };

    ghost invariant = { λ p. (p.from ≤ p.to) × (p.to ≤ length p.list) };
}

impl ListPart {
    // Takes the part. A list that nothing else holds is changed in place. Err is out of memory.
    pub(crate) fn into_list(self, alloc: Global) -> Result<MooList, AllocError>
        ensures { IfOk result (λ list. list ≡ self) }
    {
        let ListPart { list, from, to } = self;
        list.narrowed(alloc, from, to)
    }

    // Returns bounds of the weight and the depth of the part.
    pub(crate) fn bounds(&self) -> (u32, u32)
        ensures { IsWithin result.0 result.1 (list_of self.now) }
    {
        (self.list.weight(), self.list.depth())
    }

    // Returns the depth of the list that the part is taken of.
    pub(crate) fn depth(&self) -> u32 {
        self.list.depth()
    }
}

/// Computes `base[low..high]`, as `range` does. A part of a list isn't taken yet.
pub fn deferred_range(
    alloc: Global,
    base: Value,
    low: &Value,
    high: &Value,
) -> Result<Deferred, Failure>
    ensures { IsKnownFailure result → answers (range_of (tree base) (tree low.now) (tree high.now)) ≡ seen_by deferred_tree result }
{
    match base {
        Value::List(list) => deferred_part(alloc, list, low, high),
        base => computed_range(alloc, &base, low, high),
    }
}

// Computes `list[low..high]`. The part isn't taken yet.
fn deferred_part(
    alloc: Global,
    list: MooList,
    low: &Value,
    high: &Value,
) -> Result<Deferred, Failure>
    ensures { IsKnownFailure result → answers (range_of (list_of list) (tree low.now) (tree high.now)) ≡ seen_by deferred_tree result }
{
    match list_bounds(&list, low, high) {
        Some((from, to)) => Ok(Deferred::Part(ListPart { list, from, to })),
        None => computed_range(alloc, &Value::List(list), low, high),
    }
}

// Computes `base[low..high]`.
fn computed_range(
    alloc: Global,
    base: &Value,
    low: &Value,
    high: &Value,
) -> Result<Deferred, Failure>
    ensures { IsKnownFailure result → answers (range_of (tree base.now) (tree low.now) (tree high.now)) ≡ seen_by deferred_tree result }
{
    Ok(Deferred::Value(range(alloc, base, low, high)?))
}
