//! Runs `x = {@x, a};` at once.
ghost use Rattle.std.specs.Prelude.{◌≡◌, ◌≤◌, Ok, IsTrue, IsFalse, IfOk};
ghost use Rattle.moo_syntax_ast.specs.Tree.{variable, assign, performs, list, splice, element, no_items};
ghost use Rattle.moo_syntax_node.specs.Source.{source};
ghost use Rattle.moo_eval_semantics.specs.Meaning.{Does};
ghost use Rattle.moo_world_table.specs.World.{World as WorldModel};
ghost use Rattle.moo_eval_frame.specs.Outcome.{next};
ghost use Rattle.moo_eval_frame.specs.State.{Context};
ghost use Rattle.moo_builtin.specs.Telling.{Faults};
ghost use Rattle.moo_eval_task.specs.Seen.{state_of};

use crate::leaves::try_value;
use crate::task::Task;
use moo_eval_frame::Activation;
use moo_syntax_ast::Name;
use moo_syntax_node::Node;
use std::alloc::AllocError;

impl Task {
    /// Appends a value to the list in a variable, takes the ticks of `name = {@name, last}`, and returns true. `last`
    /// is a variable, a literal or an element. Returns false, and changes nothing, if that can't be done at once. Err
    /// is out of memory.
    #[inline(always)]
    pub fn try_lengthen(
        &mut self,
        active: &mut Activation,
        name: &Name,
        last: &Node,
    ) -> Result<bool, AllocError>
        ensures lengthened { IfOk result (λ done. IsTrue done → (w : WorldModel) (c : Context) → Does Faults c (performs (assign (variable name.now) (list (splice (variable name.now) (element (source last.now) no_items))))) (state_of self.old w active.old) (Ok next) (state_of self.new w active.new)) }
        ensures kept { IfOk result (λ done. IsFalse done → (w : WorldModel) → state_of self.new w active.new ≡ state_of self.old w active.old) }
        ensures ticks { self.new.ticks_left ≤ self.old.ticks_left }
    {
        let mut left = self.ticks_left.left() as u32;
        if left < 3 {
            return Ok(false);
        }
        left -= 3;
        let Some(value) = try_value(&mut self.spare.letters, active, &mut left, last) else {
            return Ok(false);
        };
        let pushed = active.variables.try_push(self.alloc(), name, value)?;
        if !pushed {
            return Ok(false);
        }
        self.ticks_left.leave(left);
        Ok(true)
    }
}
