//! Sets elements of lists in variables, and elements of these elements, to integers at once.
ghost use Rattle.std.specs.Prelude.{◌≡◌, ◌≤◌, None, Ok, IsTrue, IsFalse, IfOk, IfSome};
ghost use Rattle.moo_syntax_ast.specs.Tree.{performs};
ghost use Rattle.moo_syntax_node.specs.Source.{source};
ghost use Rattle.moo_world_table.specs.World.{World as WorldModel};
ghost use Rattle.moo_eval_frame.specs.Outcome.{next};
ghost use Rattle.moo_eval_frame.specs.State.{Context};
ghost use Rattle.moo_builtin.specs.Telling.{Faults};
ghost use Rattle.moo_eval_task.specs.Element.{sets_place, sets_inner};
ghost use Rattle.moo_eval_semantics.specs.Meaning.{Does};
ghost use Rattle.moo_eval_task.specs.Seen.{state_of};

use crate::nodes::may_be_integer;
use crate::task::Task;
use moo_eval_frame::Activation;
use moo_eval_integer::{try_put_inner_integer, try_put_integer};
use moo_syntax_ast::Name;
use moo_syntax_node::Node;
use std::alloc::AllocError;

impl Task {
    /// Runs `name[place] = value` in place by integers alone, takes its ticks, and returns true. Returns false, and
    /// changes nothing, if that can't be. Inlined, so that it needs no call.
    #[inline(always)]
    pub(crate) fn try_put(
        &mut self,
        active: &mut Activation,
        name: &Name,
        place: &Node,
        value: &Node,
    ) -> bool
        ensures put { IsTrue result → (w : WorldModel) (c : Context) → Does Faults c (performs (sets_place name.now (source place.now) (source value.now))) (state_of self.old w active.old) (Ok next) (state_of self.new w active.new) }
        ensures kept { IsFalse result → (w : WorldModel) → state_of self.new w active.new ≡ state_of self.old w active.old }
        ensures ticks { self.new.ticks_left ≤ self.old.ticks_left }
    {
        let mut left = self.ticks_left.left() as u32;
        if left == 0 || !may_be_integer(value) {
            return false;
        }
        left -= 1;
        if !try_put_integer(active, &mut left, name, place, value) {
            return false;
        }
        self.ticks_left.leave(left);
        true
    }

    /// Runs `name[outer][inner] = value` in place by integers alone, takes its ticks, and returns true. Returns false,
    /// and changes nothing, if that can't be, or for another expression. Err is out of memory; the variable may then
    /// hold an empty list.
    #[inline(always)]
    pub fn try_put_inner(
        &mut self,
        active: &mut Activation,
        node: &Node,
    ) -> Result<bool, AllocError>
        ensures put { IfOk result (λ done. IsTrue done → (w : WorldModel) (c : Context) → Does Faults c (performs (source node.now)) (state_of self.old w active.old) (Ok next) (state_of self.new w active.new)) }
        ensures kept { IfOk result (λ done. IsFalse done → (w : WorldModel) → state_of self.new w active.new ≡ state_of self.old w active.old) }
        ensures ticks { self.new.ticks_left ≤ self.old.ticks_left }
    {
        match as_set_inner(node) {
            Some((name, outer, inner, value)) => {
                self.put_inner(active, name, outer, inner, value)
            }
            None => Ok(false),
        }
    }

    // Runs `name[outer][inner] = value` as `try_put_inner` does. Not inlined, so that nested statements need no stack
    // space for it.
    #[inline(never)]
    fn put_inner(
        &mut self,
        active: &mut Activation,
        name: &Name,
        outer: &Node,
        inner: &Node,
        value: &Node,
    ) -> Result<bool, AllocError>
        ensures put { IfOk result (λ done. IsTrue done → (w : WorldModel) (c : Context) → Does Faults c (performs (sets_inner name.now (source outer.now) (source inner.now) (source value.now))) (state_of self.old w active.old) (Ok next) (state_of self.new w active.new)) }
        ensures kept { IfOk result (λ done. IsFalse done → (w : WorldModel) → state_of self.new w active.new ≡ state_of self.old w active.old) }
        ensures ticks { self.new.ticks_left ≤ self.old.ticks_left }
    {
        let mut left = self.ticks_left.left() as u32;
        if left == 0 {
            return Ok(false);
        }
        left -= 1;
        let alloc = self.alloc();
        let is_put = try_put_inner_integer(alloc, active, &mut left, name, outer, inner, value)?;
        if !is_put {
            return Ok(false);
        }
        self.ticks_left.leave(left);
        Ok(true)
    }
}

// Returns the variable, the places and the value, if the expression assigns to an element of an element of a variable.
#[inline(always)]
fn as_set_inner(node: &Node) -> Option<(&Name, &Node, &Node, &Node)>
    ensures { IfSome result (λ p. source node.now ≡ sets_inner p.0.now (source p.1.now) (source p.2.now) (source p.3.now)) }
{
    let Node::Assign(target, value) = node else {
        return None;
    };
    let Node::Index(element, inner) = target.as_ref() else {
        return None;
    };
    let Node::Index(base, outer) = element.as_ref() else {
        return None;
    };
    match base.as_ref() {
        Node::Variable(name) => Some((name, outer, inner, value)),
        _ => None,
    }
}
