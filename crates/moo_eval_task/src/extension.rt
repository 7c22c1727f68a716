//! Runs `x = x + a;` at once.
ghost use Rattle.std.specs.Prelude.{◌≡◌, ◌≤◌, Ok, IsTrue, IsFalse, IfOk};
ghost use Rattle.moo_syntax_ast.specs.declared.operator.BinaryOperator.TheVariants.{Add};
ghost use Rattle.moo_syntax_ast.specs.Tree.{variable, binary, assign, performs};
ghost use Rattle.moo_syntax_node.specs.Source.{source};
ghost use Rattle.moo_world_table.specs.World.{World as WorldModel};
ghost use Rattle.moo_eval_frame.specs.Outcome.{next};
ghost use Rattle.moo_eval_frame.specs.State.{Context};
ghost use Rattle.moo_builtin.specs.Telling.{Faults};
ghost use Rattle.moo_eval_semantics.specs.Meaning.{Does};
ghost use Rattle.moo_eval_task.specs.Seen.{state_of};

use crate::leaves::try_value;
use crate::nodes::may_be_integer;
use crate::task::Task;
use moo_eval_frame::Activation;
use moo_eval_integer::try_add_integer;
use moo_syntax_ast::Name;
use moo_syntax_node::Node;
use moo_value::Value;
use std::alloc::AllocError;

impl Task {
    /// Runs `name = name + last` by integers alone, takes its ticks, and returns true. Returns false, and changes
    /// nothing, if that can't be.
    #[inline(always)]
    pub(crate) fn try_add(&mut self, active: &mut Activation, name: &Name, last: &Node) -> bool
        ensures added { IsTrue result → (w : WorldModel) (c : Context) → Does Faults c (performs (assign (variable name.now) (binary Add (variable name.now) (source last.now)))) (state_of self.old w active.old) (Ok next) (state_of self.new w active.new) }
        ensures kept { IsFalse result → (w : WorldModel) → state_of self.new w active.new ≡ state_of self.old w active.old }
        ensures ticks { self.new.ticks_left ≤ self.old.ticks_left }
    {
        if !may_be_integer(last) {
            return false;
        }
        self.try_sum(active, name, last)
    }

    // Adds an integer to a variable, as `try_add` does. Not inlined, so that nested statements need no stack space for
    // it.
    #[inline(never)]
    fn try_sum(&mut self, active: &mut Activation, name: &Name, last: &Node) -> bool
        ensures added { IsTrue result → (w : WorldModel) (c : Context) → Does Faults c (performs (assign (variable name.now) (binary Add (variable name.now) (source last.now)))) (state_of self.old w active.old) (Ok next) (state_of self.new w active.new) }
        ensures kept { IsFalse result → (w : WorldModel) → state_of self.new w active.new ≡ state_of self.old w active.old }
        ensures ticks { self.new.ticks_left ≤ self.old.ticks_left }
    {
        let mut left = self.ticks_left.left() as u32;
        if left == 0 {
            return false;
        }
        left -= 1;
        if !try_add_integer(active, &mut left, name, last) {
            return false;
        }
        self.ticks_left.leave(left);
        true
    }

    /// Appends a string to the one in a variable, takes the ticks of `name = name + last`, and returns true. `last` is
    /// a variable, a literal or an element. Returns false, and changes nothing, if that can't be done at once. Err is
    /// out of memory.
    #[inline(always)]
    pub fn try_extend(
        &mut self,
        active: &mut Activation,
        name: &Name,
        last: &Node,
    ) -> Result<bool, AllocError>
        ensures extended { IfOk result (λ done. IsTrue done → (w : WorldModel) (c : Context) → Does Faults c (performs (assign (variable name.now) (binary Add (variable name.now) (source last.now)))) (state_of self.old w active.old) (Ok next) (state_of self.new w active.new)) }
        ensures kept { IfOk result (λ done. IsFalse done → (w : WorldModel) → state_of self.new w active.new ≡ state_of self.old w active.old) }
        ensures ticks { self.new.ticks_left ≤ self.old.ticks_left }
    {
        let mut left = self.ticks_left.left() as u32;
        if left < 3 {
            return Ok(false);
        }
        left -= 3;
        let Some(Value::Str(last)) = try_value(&mut self.spare.letters, active, &mut left, last)
        else {
            return Ok(false);
        };
        let extended = active.variables.try_extend(self.alloc(), name, &last)?;
        if !extended {
            return Ok(false);
        }
        self.ticks_left.leave(left);
        Ok(true)
    }
}
