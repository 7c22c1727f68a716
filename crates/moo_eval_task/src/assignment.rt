//! Assigns integers and elements to variables at once, stores values into variables and properties, and recognises
//! `name = value`.
ghost use Rattle.std.specs.Prelude.{◌≡◌, ◌≤◌, Ok, IfSome, IsTrue, IsFalse};
ghost use Rattle.moo_syntax_ast.specs.Tree.{variable, index, assign, performs};
ghost use Rattle.moo_syntax_node.specs.Source.{source};
ghost use Rattle.moo_value.specs.View.{tree as value_tree};
ghost use Rattle.moo_eval_access.specs.Target.{named, owned};
ghost use Rattle.moo_eval_semantics.specs.Meaning.{Does, Stores};
ghost use Rattle.moo_eval_frame.specs.Seen.{seen_done, IsKnownFailure};
ghost use Rattle.moo_eval_frame.specs.Outcome.{next};
ghost use Rattle.moo_eval_frame.specs.State.{Context};
ghost use Rattle.moo_world_table.specs.World.{World as WorldModel};
ghost use Rattle.moo_builtin.specs.Telling.{Faults};
ghost use Rattle.moo_eval_task.specs.Seen.{state_of};
ghost use Rattle.moo_eval_access.specs.SeenTarget.{steps_of};

use crate::leaves::try_element_value;
use crate::task::Task;
use moo_eval_access::{Step, drop_property, is_taken, rebuilt, set_variable, write_property};
use moo_eval_frame::{Activation, Failure};
use moo_eval_integer::try_set_arithmetic;
use moo_syntax_ast::Name;
use moo_syntax_node::Node;
use moo_value::Value;
use moo_world::World;

impl Task {
    /// Sets a variable to the integer of an operator, from integers alone, or to an element of a variable. Takes the
    /// assignment's ticks, and returns true. Returns false, and changes nothing, if that can't be or for another value.
    #[inline(always)]
    pub(crate) fn try_assign(&mut self, active: &mut Activation, name: &Name, value: &Node) -> bool
        ensures assigned { IsTrue result → (w : WorldModel) (c : Context) → Does Faults c (performs (assign (variable name.now) (source value.now))) (state_of self.old w active.old) (Ok next) (state_of self.new w active.new) }
        ensures kept { IsFalse result → (w : WorldModel) → state_of self.new w active.new ≡ state_of self.old w active.old }
        ensures ticks { self.new.ticks_left ≤ self.old.ticks_left }
    {
        match value {
            Node::Arithmetic(..) => self.try_set(active, name, value),
            Node::Index(base, place) => self.try_set_element(active, name, base, place),
            _ => false,
        }
    }

    // Sets a variable to `base[place]`, as `try_assign` does, if the base is a variable. Not inlined, so that nested
    // statements need no stack space for it.
    #[inline(never)]
    fn try_set_element(
        &mut self,
        active: &mut Activation,
        name: &Name,
        base: &Node,
        place: &Node,
    ) -> bool
        ensures assigned { IsTrue result → (w : WorldModel) (c : Context) → Does Faults c (performs (assign (variable name.now) (index (source base.now) (source place.now)))) (state_of self.old w active.old) (Ok next) (state_of self.new w active.new) }
        ensures kept { IsFalse result → (w : WorldModel) → state_of self.new w active.new ≡ state_of self.old w active.old }
        ensures ticks { self.new.ticks_left ≤ self.old.ticks_left }
    {
        let mut left = self.ticks_left.left() as u32;
        if left == 0 {
            return false;
        }
        left -= 1;
        let letters = &mut self.spare.letters;
        let Some(value) = try_element_value(letters, active, &mut left, base, place) else {
            return false;
        };
        if !active.variables.try_set(name, value) {
            return false;
        }
        self.ticks_left.leave(left);
        true
    }

    // Sets a variable to the integer of an operator, as `try_assign` does. Not inlined, so that nested statements need
    // no stack space for it.
    #[inline(never)]
    fn try_set(&mut self, active: &mut Activation, name: &Name, value: &Node) -> bool
        ensures assigned { IsTrue result → (w : WorldModel) (c : Context) → Does Faults c (performs (assign (variable name.now) (source value.now))) (state_of self.old w active.old) (Ok next) (state_of self.new w active.new) }
        ensures kept { IsFalse result → (w : WorldModel) → state_of self.new w active.new ≡ state_of self.old w active.old }
        ensures ticks { self.new.ticks_left ≤ self.old.ticks_left }
    {
        let mut left = self.ticks_left.left() as u32;
        if left == 0 {
            return false;
        }
        left -= 1;
        if !try_set_arithmetic(active, &mut left, name, value) {
            return false;
        }
        self.ticks_left.leave(left);
        true
    }

    /// Sets a property, or the part of it at the end of the steps. Fails as `rebuilt` and `write_property` do. A list
    /// that nothing but the property holds is changed in place. Not inlined, so that nested scatters need no stack
    /// space for it.
    #[inline(never)]
    pub fn store_property(
        &self,
        world: &mut World,
        active: &Activation,
        base: &Value,
        name: &Value,
        steps: Vec<Step>,
        value: Value,
    ) -> Result<(), Failure>
        ensures { (c : Context) → IsKnownFailure result → Stores Faults c (owned (value_tree base.now) (value_tree name.now)) (steps_of steps.items) (value_tree value) (state_of self.now world.old active.now) (seen_done result) (state_of self.now world.new active.now) }
    {
        if is_taken(&steps, &value) {
            drop_property(world, active.programmer, base, name);
        }
        let whole = rebuilt(self.alloc(), steps, value)?;
        write_property(world, active.programmer, base, name, whole)
    }

    /// Sets a variable, or the part of it at the end of the steps. Fails as `set_variable` does. Not inlined, so that
    /// nested scatters need no stack space for it.
    #[inline(never)]
    pub fn store_variable(
        &self,
        active: &mut Activation,
        name: &Name,
        steps: Vec<Step>,
        value: Value,
    ) -> Result<(), Failure>
        ensures { (c : Context) (w : WorldModel) → IsKnownFailure result → Stores Faults c (named name.now) (steps_of steps.items) (value_tree value) (state_of self.now w active.old) (seen_done result) (state_of self.now w active.new) }
    {
        set_variable(self.alloc(), &mut active.variables, name, steps, value)?;
        Ok(())
    }
}

/// Returns the name and the value, if the expression is an assignment to a variable.
pub fn as_set_variable(node: &Node) -> Option<(&Name, &Node)>
    ensures { IfSome result (λ p. source node.now ≡ assign (variable p.0.now) (source p.1.now)) }
{
    let Node::Assign(target, value) = node else {
        return None;
    };
    let Node::Variable(name) = target.as_ref() else {
        return None;
    };
    Some((name, value))
}
