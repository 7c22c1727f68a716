//! Calls built-in functions of one object at once, without a list of values.
ghost use Rattle.std.specs.Prelude.{◌≡◌, ◌≤◌, Ok, IfSome, IfNone};
ghost use Rattle.moo_value.specs.View.{tree};
ghost use Rattle.moo_syntax_ast.specs.Tree.{call, element, no_items};
ghost use Rattle.moo_syntax_node.specs.Source.{source};
ghost use Rattle.moo_eval_frame.specs.State.{Context};
ghost use Rattle.moo_builtin.specs.Telling.{Faults};
ghost use Rattle.moo_eval_semantics.specs.Meaning.{Computes};
ghost use Rattle.moo_eval_task.specs.Seen.{state_of};

use crate::property::object_of;
use crate::task::Task;
use moo_builtin_world::shown;
use moo_eval_frame::Activation;
use moo_syntax_function::Function;
use moo_syntax_node::{FunctionName, Node};
use moo_value::Value;
use moo_world::World;

impl Task {
    /// Calls `valid`, `is_player` or `parent` for an object, and takes the tick of the object, which is a literal or in
    /// a variable. `None` if that can't be, or for another function; then nothing has changed.
    #[inline(always)]
    pub fn try_shown(
        &mut self,
        world: &World,
        active: &Activation,
        name: &FunctionName,
        node: &Node,
    ) -> Option<Value>
        ensures some { IfSome result (λ v. (c : Context) → Computes Faults c (call name.now (element (source node.now) no_items)) (state_of self.old world.now active.now) (Ok (tree v)) (state_of self.new world.now active.now)) }
        ensures none { IfNone result (self.new ≡ self.old) }
        ensures ticks { self.new.ticks_left ≤ self.old.ticks_left }
    {
        let function = name.function()?;
        if !is_shown(function) {
            return None;
        }
        let object = object_of(active, node)?;
        let value = shown(function, object, world)?;
        if !self.ticks_left.take() {
            return None;
        }
        Some(value)
    }
}

// Is true for the functions that `shown` computes. `try_shown` tests this first, so that it reads no variable for
// another function.
#[inline(always)]
fn is_shown(function: Function) -> bool {
    matches!(
        function,
        Function::Valid | Function::IsPlayer | Function::Parent
    )
}
