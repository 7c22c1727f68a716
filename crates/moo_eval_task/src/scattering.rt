//! Deals the elements of a list to names.
ghost use Rattle.std.specs.Prelude.{◌≡◌, ◌≤◌, None, Result, Ok, Err, IsTrue, IsFalse, IfOk, IfErr, IfSome, map};
ghost use Rattle.moo_syntax_ast.specs.Tree.{assign, performs, list};
ghost use Rattle.moo_syntax_node.specs.Source.{source, source_items};
ghost use Rattle.moo_syntax_node.specs.Blocks.{named_items};
ghost use Rattle.moo_value.specs.Tree.{list_of};
ghost use Rattle.moo_value.specs.View.{tree as value_tree};
ghost use Rattle.moo_eval_access.specs.Target.{scattered};
ghost use Rattle.moo_eval_semantics.specs.Meaning.{Does, Puts, SetsDefaults};
ghost use Rattle.moo_eval_frame.specs.Outcome.{Failure as Failed, next};
ghost use Rattle.moo_eval_frame.specs.State.{Context};
ghost use Rattle.moo_eval_frame.specs.Seen.{failure_of, variables_of, HadMemoryIn};
ghost use Rattle.moo_eval_task.specs.Leaves.{GivesLeaf};
ghost use Rattle.moo_world_table.specs.World.{World as WorldModel};
ghost use Rattle.moo_eval_access.specs.State.{State};
ghost use Rattle.moo_builtin.specs.Telling.{Faults};
ghost use Rattle.moo_eval_task.specs.Seen.{state_of};
ghost use Rattle.moo_eval_control.specs.SeenScatter.{left_out_of};

use crate::task::Task;
use moo_eval_control::{LeftOut, deal, try_set_names};
use moo_eval_frame::{Activation, Failure};
use moo_syntax_ast::Name;
use moo_syntax_node::{Node, NodeItem};
use moo_value::{MooList, Value};
use std::alloc::AllocError;

impl Task {
    /// Sets these names to the elements of `args`, takes the ticks of `{x, y} = args`, and returns true. Returns false,
    /// and changes nothing, for another value or if that can't be done at once. Err is out of memory.
    #[inline(always)]
    pub fn try_scatter(
        &mut self,
        active: &mut Activation,
        names: &[Name],
        value: &Node,
    ) -> Result<bool, AllocError>
        ensures set { IfOk result (λ done. IsTrue done → (w : WorldModel) (c : Context) → Does Faults c (performs (assign (list (named_items names.now)) (source value.now))) (state_of self.old w active.old) (Ok next) (state_of self.new w active.new)) }
        ensures kept { IfOk result (λ done. IsFalse done → (w : WorldModel) → state_of self.new w active.new ≡ state_of self.old w active.old) }
        ensures ticks { self.new.ticks_left ≤ self.old.ticks_left }
    {
        let Some(list) = list_of_args(active, value) else {
            return Ok(false);
        };
        let left = self.ticks_left.left() as u32;
        if left < 2 {
            return Ok(false);
        }
        let dealt = try_set_names(active, names, &list)?;
        if !dealt {
            return Ok(false);
        }
        self.ticks_left.leave(left - 2);
        Ok(true)
    }

    /// Sets the names that get an element, and returns those with a default that get none. E_TYPE for a value that is
    /// no list, E_ARGS for a wrong count; then no name is set. Not inlined, so that nested scatters need no stack space
    /// for it.
    #[inline(never)]
    pub fn deal<'a>(
        &self,
        active: &mut Activation,
        items: &'a [NodeItem],
        value: &Value,
    ) -> Result<Vec<LeftOut<'a>>, Failure>
        ensures ok { IfOk result (λ defaults. (c : Context) (w : WorldModel) (o : Result (Unit {0}) Failed) (s : State) → SetsDefaults Faults c (map left_out_of defaults.items) (state_of self.now w active.new) o s → Puts Faults c (scattered (source_items items.now)) (value_tree value.now) (state_of self.now w active.old) o s) }
        ensures err { IfErr result (λ failure. HadMemoryIn failure → (c : Context) (w : WorldModel) → Puts Faults c (scattered (source_items items.now)) (value_tree value.now) (state_of self.now w active.old) (Err (failure_of failure)) (state_of self.now w active.new)) }
    {
        deal(self.alloc(), active, items, value)
    }
}

// Returns the list in `args`, if that is the node.
#[inline(always)]
fn list_of_args(active: &Activation, node: &Node) -> Option<MooList>
    ensures { IfSome result (λ list. GivesLeaf (variables_of active.now.variables) (source node.now) (list_of list)) }
{
    let Node::Variable(name) = node else {
        return None;
    };
    let Value::List(list) = active.variables.args_named(name)? else {
        return None;
    };
    match list.try_clone() {
        Ok(copy) => Some(copy),
        Err(_) => None,
    }
}
