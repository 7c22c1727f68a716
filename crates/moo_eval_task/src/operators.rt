//! Evaluates elements of variables at once, and makes lists.
ghost use Rattle.std.specs.Prelude.{◌≡◌, ◌≤◌, Ok, IfSome, IfNone};
ghost use Rattle.moo_value.specs.View.{tree};
ghost use Rattle.moo_syntax_ast.specs.Tree.{variable, index, list};
ghost use Rattle.moo_syntax_node.specs.Source.{source};
ghost use Rattle.moo_builtin_operator.specs.Places.{made_list};
ghost use Rattle.moo_world_table.specs.World.{World as WorldModel};
ghost use Rattle.moo_eval_frame.specs.Outcome.{answers};
ghost use Rattle.moo_eval_frame.specs.State.{Context};
ghost use Rattle.moo_eval_frame.specs.Seen.{seen_answer, IsKnownFailure};
ghost use Rattle.moo_builtin.specs.Telling.{Faults};
ghost use Rattle.moo_eval_semantics.specs.Meaning.{Evaluates};
ghost use Rattle.moo_eval_task.specs.Seen.{state_of};

use crate::task::Task;
use moo_eval_frame::{Activation, Failure, Gathered};
use moo_eval_integer::{element_of, inner_element_of};
use moo_syntax_ast::Name;
use moo_syntax_node::Node;
use moo_value::Value;
use std::alloc::Global;

impl Task {
    /// Returns `base[place]`, and takes its ticks. The base is a variable, an element of one or an element of such an
    /// element, and the places are computed from integers alone. `None` if that can't be; then nothing has changed.
    #[inline(always)]
    pub(crate) fn try_element(
        &mut self,
        active: &Activation,
        base: &Node,
        place: &Node,
    ) -> Option<Value>
        ensures some { IfSome result (λ v. (w : WorldModel) (c : Context) → Evaluates Faults c (index (source base.now) (source place.now)) (state_of self.old w active.now) (Ok (tree v)) (state_of self.new w active.now)) }
        ensures none { IfNone result (self.new ≡ self.old) }
        ensures ticks { self.new.ticks_left ≤ self.old.ticks_left }
    {
        match base {
            Node::Variable(name) => self.try_variable_element(active, name, place),
            Node::Index(..) => self.try_inner_element(active, base, place),
            _ => None,
        }
    }

    // Returns `name[place]` as `try_element` does.
    #[inline(always)]
    fn try_variable_element(
        &mut self,
        active: &Activation,
        name: &Name,
        place: &Node,
    ) -> Option<Value>
        ensures some { IfSome result (λ v. (w : WorldModel) (c : Context) → Evaluates Faults c (index (variable name.now) (source place.now)) (state_of self.old w active.now) (Ok (tree v)) (state_of self.new w active.now)) }
        ensures none { IfNone result (self.new ≡ self.old) }
        ensures ticks { self.new.ticks_left ≤ self.old.ticks_left }
    {
        let mut left = self.ticks_left.left() as u32;
        let value = element_of(&mut self.spare.letters, active, &mut left, name, place)?;
        self.ticks_left.leave(left);
        Some(value)
    }

    // Returns `base[place]` as `try_element` does, if the base is an element.
    #[inline(always)]
    fn try_inner_element(&mut self, active: &Activation, base: &Node, place: &Node) -> Option<Value>
        ensures some { IfSome result (λ v. (w : WorldModel) (c : Context) → Evaluates Faults c (index (source base.now) (source place.now)) (state_of self.old w active.now) (Ok (tree v)) (state_of self.new w active.now)) }
        ensures none { IfNone result (self.new ≡ self.old) }
        ensures ticks { self.new.ticks_left ≤ self.old.ticks_left }
    {
        let mut left = self.ticks_left.left() as u32;
        let value = inner_element_of(&mut self.spare.letters, active, &mut left, base, place)?;
        self.ticks_left.leave(left);
        Some(value)
    }
}

/// Returns the list of values. E_QUOTA if it is past the limits of lists. Not inlined, so that nested lists need no
/// stack space for it.
#[inline(never)]
pub fn listed(alloc: Global, values: Gathered) -> Result<Value, Failure>
    ensures { IsKnownFailure result → answers (made_list values) ≡ seen_answer result }
{
    let list = values.into_list(alloc)?;
    Ok(Value::List(list))
}
