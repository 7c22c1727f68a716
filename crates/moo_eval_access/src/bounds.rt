//! Bounds of the weight and the depth of containers that are rebuilt.
ghost use Rattle.std.specs.Prelude.{◌≡◌, ◌<◌, length, slice_set, Ok, IsTrue, IfSome, is_ok};
ghost use Rattle.moo_value.specs.Tree.{Tree, list_of};
ghost use Rattle.moo_value.specs.Size.{IsWithinLimits};
ghost use Rattle.moo_value.specs.View.{tree};
ghost use Rattle.moo_builtin_operator.specs.Assignment.{with_index_of};
ghost use Rattle.moo_eval_access.specs.Target.{with_part, rebuilt};
ghost use Rattle.moo_eval_access.specs.SeenTarget.{places_of, steps_of};
ghost use Rattle.moo_eval_access.specs.Bounds.{IsWithin};

use crate::target::{Places, Step};
use moo_builtin_operator::before_place;
use moo_value::{DEPTH_LIMIT, MooList, Value, WEIGHT_LIMIT};

// Is true only if `rebuilt` raises nothing for any value of at most this weight and this depth at the end of these
// steps.
pub(crate) fn are_taken(steps: &[Step], heaviest: u32, deepest: u32) -> bool
    ensures { IsTrue result → (v : Tree) → IsWithin heaviest deepest v → IsTrue (is_ok (rebuilt (steps_of steps.now) (Ok v))) }
{
    let mut left = steps;
    let mut bounds = (heaviest, deepest);
    while let Some((step, outer)) = left.split_last() {
        let Some(next) = step.bounds(bounds.0, bounds.1) else {
            return false;
        };
        bounds = next;
        left = outer;
    }
    true
}

impl Step {
    // Returns bounds of the weight and depth of the container with a value of at most this weight and this depth at its
    // place. `None` if they are past the limits, or if the step isn't to an element of a list.
    fn bounds(&self, heaviest: u32, deepest: u32) -> Option<(u32, u32)>
        ensures { IfSome result (λ b. (v : Tree) → IsWithin heaviest deepest v → (w : Tree) × (with_part (tree self.now.container) (places_of self.now.places) v ≡ Ok w) × IsWithin b.0 b.1 w) }
    {
        match (&self.container, &self.places) {
            (Value::List(list), Places::Element(place)) => {
                element_bounds(list, place, heaviest, deepest)
            }
            _ => None,
        }
    }
}

/// Returns bounds of the weight and depth of a list with a value of at most this weight and this depth at a place.
/// `None` if they are past the limits, or if the list has no such place.
pub fn element_bounds(
    list: &MooList,
    place: &Value,
    heaviest: u32,
    deepest: u32,
) -> Option<(u32, u32)>
    ensures { IfSome result (λ b. (v : Tree) → IsWithin heaviest deepest v → (w : Tree) × (with_index_of (list_of list.now) (tree place.now) v ≡ Ok w) × IsWithin b.0 b.1 w) }
{
    let Value::Int(place) = place else {
        return None;
    };
    let index = before_place(*place, list.len())?;
    list_bounds(list, index, heaviest, deepest)
}

// Returns bounds of the weight and depth of a list with a value of at most this weight and this depth at `index`.
// `None` if they are past the limits.
fn list_bounds(list: &MooList, index: usize, heaviest: u32, deepest: u32) -> Option<(u32, u32)>
    requires { index < length list.now }
    ensures { IfSome result (λ b. (v : Tree) → IsWithin heaviest deepest v → IsWithin b.0 b.1 (list_of (slice_set list.now index v)) × IsWithinLimits (list_of (slice_set list.now index v))) }
{
    if heaviest > WEIGHT_LIMIT || deepest > DEPTH_LIMIT {
        return None;
    }
    let old = list.elements()[index].weight();
    let weight = list.weight() - old + heaviest;
    if weight > WEIGHT_LIMIT {
        return None;
    }
    let depth = list.depth().max(deepest + 1);
    if depth > DEPTH_LIMIT {
        return None;
    }
    Some((weight, depth))
}
