//! Containers that don't hold the next one while it is changed.
ghost use Rattle.std.specs.Prelude.{◌≡◌, Result, IfOk, OnOk};
ghost use Rattle.moo_value.specs.declared.error_code.ErrorCode.{ErrorCode as Error};
ghost use Rattle.moo_value.specs.Tree.{Tree};
ghost use Rattle.moo_value.specs.View.{tree};
ghost use Rattle.moo_eval_access.specs.Target.{with_part, rebuilt};
ghost use Rattle.moo_eval_access.specs.SeenTarget.{places_of, steps_of};

use crate::target::{Places, Step, is_taken};
use moo_builtin_operator::{index_refusal, list, with_index};
use moo_value::Value;
use std::alloc::{AllocError, Global};
use std::mem;

// The greatest depth of a container for which another value takes its place.
const MOST_DEPTH: u32 = 3;

// Takes the next container out of each one, as `let_go_each` does, if `is_taken` holds for the steps and this value. So
// a list that nothing but the steps holds is changed in place. Err is out of memory.
pub(crate) fn let_go_inside(
    alloc: Global,
    steps: Vec<Step>,
    value: &Value,
) -> Result<Vec<Step>, AllocError>
    ensures { IfOk result (λ new. (r : Result Tree Error) → rebuilt (steps_of new.items) r ≡ rebuilt (steps_of steps.items) r) }
{
    if steps.len() > 1 && is_taken(&steps, value) {
        let_go_each(alloc, steps)
    } else {
        Ok(steps)
    }
}

// Has each container but the innermost let go of the next one. A next one of depth 0, or deeper than `MOST_DEPTH`, stays
// in its place.
pub(crate) fn let_go_each(alloc: Global, steps: Vec<Step>) -> Result<Vec<Step>, AllocError>
    ensures { IfOk result (λ new. (r : Result Tree Error) → rebuilt (steps_of new.items) r ≡ rebuilt (steps_of steps.items) r) }
{
    let mut steps = steps;
    let mut next: usize = 1;
    while next < steps.len() {
        let depth = steps[next].container.depth();
        steps[next - 1].let_go(alloc, depth)?;
        next += 1;
    }
    Ok(steps)
}

impl Step {
    /// Puts another list of this depth into the place, so that the container doesn't hold what was there. The place
    /// takes other values as before. Does nothing if the depth is 0 or over `MOST_DEPTH`. Err is out of memory.
    pub fn let_go(&mut self, alloc: Global, depth: u32) -> Result<(), AllocError>
        ensures { OnOk result ((v : Tree) → with_part (tree self.new.container) (places_of self.new.places) v ≡ with_part (tree self.old.container) (places_of self.old.places) v) }
    {
        if depth == 0 || depth > MOST_DEPTH {
            return Ok(());
        }
        let held = nested_list(alloc, depth)?;
        self.hold(alloc, held)
    }

    // Puts a value into the place, if it is that of an element of a list, and the list takes the value. The place takes
    // other values as before.
    fn hold(&mut self, alloc: Global, held: Value) -> Result<(), AllocError>
        ensures { OnOk result ((v : Tree) → with_part (tree self.new.container) (places_of self.new.places) v ≡ with_part (tree self.old.container) (places_of self.old.places) v) }
    {
        let (Value::List(_), Places::Element(place)) = (&self.container, &self.places) else {
            return Ok(());
        };
        if index_refusal(&self.container, place, &held).is_some() {
            return Ok(());
        }
        let container = mem::replace(&mut self.container, Value::Int(0));
        match with_index(alloc, container, place, held) {
            Ok(container) => {
                self.container = container;
                Ok(())
            }
            Err(_) => Err(AllocError),
        }
    }
}

// Returns a list of this depth, at least 1, with at most one element, again such a list. A list that gets it in the
// place of one as deep doesn't have to look for its deepest element.
fn nested_list(alloc: Global, depth: u32) -> Result<Value, AllocError> {
    let mut value = listed(alloc, Vec::new(alloc))?;
    for _ in 1..depth {
        let mut values = Vec::new(alloc);
        values.push(value)?;
        value = listed(alloc, values)?;
    }
    Ok(value)
}

fn listed(alloc: Global, values: Vec<Value>) -> Result<Value, AllocError> {
    match list(alloc, values) {
        Ok(value) => Ok(value),
        Err(_) => Err(AllocError),
    }
}
