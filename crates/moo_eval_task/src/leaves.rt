//! Evaluates variables, literals and elements of variables.
ghost use Rattle.std.specs.Prelude.{◌≡◌, ◌≤◌, Option, Ok, Err, IfSome, IfNone};
ghost use Rattle.std.specs.Borrow.{Bor};
ghost use Rattle.moo_value.specs.Tree.{string as string_tree};
ghost use Rattle.moo_value.specs.View.{tree};
ghost use Rattle.moo_value.specs.declared.value.Value.{Value as ValueModel};
ghost use Rattle.moo_value.specs.declared.error_code.ErrorCode.TheVariants.{VariableNotFound};
ghost use Rattle.moo_syntax_ast.specs.Tree.{variable, index};
ghost use Rattle.moo_syntax_node.specs.Source.{source};
ghost use Rattle.moo_eval_frame.specs.State.{Context};
ghost use Rattle.moo_eval_frame.specs.Outcome.{fails, settled};
ghost use Rattle.moo_eval_frame.specs.Seen.{context_of, seen_value, trace_of, variables_of, IsKnown};
ghost use Rattle.moo_eval_integer.specs.Integers.{GivesValue};
ghost use Rattle.moo_eval_task.specs.Leaves.{GivesLeaf};
ghost use Rattle.moo_world_table.specs.World.{World};
ghost use Rattle.moo_builtin.specs.Telling.{Faults};
ghost use Rattle.moo_eval_semantics.specs.Meaning.{Evaluates};
ghost use Rattle.moo_eval_task.specs.Seen.{state_of};

use crate::task::Task;
use moo_eval_frame::{Activation, CallStack, Failure, Stop, settle};
use moo_eval_integer::{Letters, element_of};
use moo_syntax_ast::Name;
use moo_syntax_node::Node;
use moo_value::{ErrorCode, MooStr, Value};

impl Task {
    /// Returns the value of a variable, and takes its tick. A variable that isn't set has the error E_VARNF, which is
    /// raised if the frame has the d bit. The value doesn't depend on what `$` measures. Inlined, so that it needs no
    /// call.
    #[inline(always)]
    pub fn variable(
        &mut self,
        active: &Activation,
        stack: &CallStack<'_>,
        name: &Name,
    ) -> Result<Value, Stop>
        ensures meaning { (indexed : Option (Bor ValueModel)) (w : World) → IsKnown result → Evaluates Faults (context_of stack.now indexed) (variable name.now) (state_of self.old w active.now) (seen_value result) (state_of self.new w active.now) }
        ensures ticks { self.new.ticks_left ≤ self.old.ticks_left }
    {
        self.take_tick(active, stack)?;
        match active.variables.get(name) {
            Some(value) => Ok(value.try_clone()?),
            None => self.unset(active, stack),
        }
    }

    // Returns the outcome of a variable that isn't set.
    #[cold]
    #[inline(never)]
    fn unset(&self, active: &Activation, stack: &CallStack<'_>) -> Result<Value, Stop>
        ensures { IsKnown result → settled stack.now.running.d (trace_of stack.now active.now) (Err (fails VariableNotFound)) ≡ seen_value result }
    {
        let outcome = Err(Failure::Fails(ErrorCode::VariableNotFound));
        settle(self.alloc(), stack, active, outcome)
    }

    /// Returns the value of a variable or of a literal, and takes its tick. `None` for another node, for a variable
    /// that isn't set, or if ticks or memory are missing; then nothing has changed.
    #[inline(always)]
    pub fn try_leaf(&mut self, active: &Activation, node: &Node) -> Option<Value>
        ensures some { IfSome result (λ v. (w : World) (c : Context) → Evaluates Faults c (source node.now) (state_of self.old w active.now) (Ok (tree v)) (state_of self.new w active.now)) }
        ensures none { IfNone result (self.new ≡ self.old) }
        ensures ticks { self.new.ticks_left ≤ self.old.ticks_left }
    {
        let value = leaf_value(active, node)?;
        if !self.ticks_left.take() {
            return None;
        }
        Some(value)
    }
}

/// Returns the value of a variable, a literal or an element of a variable, and takes its ticks from `left`. `None` for
/// another node, if there is no such value, or if ticks or memory are missing. Then `left` may have fallen.
#[inline(always)]
pub(crate) fn try_value(
    letters: &mut Letters,
    active: &Activation,
    left: &mut u32,
    node: &Node,
) -> Option<Value>
    ensures value { IfSome result (λ v. GivesValue (variables_of active.now.variables) left.old (source node.now) (tree v) left.new) }
    ensures kept { IfNone result (letters.new ≡ letters.old) }
    ensures ticks { left.new ≤ left.old }
{
    if let Node::Index(base, place) = node {
        return try_element_value(letters, active, left, base, place);
    }
    if *left == 0 {
        return None;
    }
    let value = leaf_value(active, node)?;
    *left -= 1;
    Some(value)
}

/// Returns `base[place]`, and takes its ticks from `left`. `None` as `element_of`, and for a base that isn't a variable.
#[inline(always)]
pub(crate) fn try_element_value(
    letters: &mut Letters,
    active: &Activation,
    left: &mut u32,
    base: &Node,
    place: &Node,
) -> Option<Value>
    ensures value { IfSome result (λ v. GivesValue (variables_of active.now.variables) left.old (index (source base.now) (source place.now)) (tree v) left.new) }
    ensures kept { IfNone result (letters.new ≡ letters.old) }
    ensures ticks { left.new ≤ left.old }
{
    match base {
        Node::Variable(name) => element_of(letters, active, left, name, place),
        _ => None,
    }
}

/// Returns the value of a variable or of a literal. `None` for another node, for a variable that isn't set, or if
/// memory is missing.
#[inline(always)]
pub(crate) fn leaf_value(active: &Activation, node: &Node) -> Option<Value>
    ensures { IfSome result (λ v. GivesLeaf (variables_of active.now.variables) (source node.now) (tree v)) }
{
    match node {
        Node::Variable(name) => copied(active.variables.get(name)?),
        Node::Integer(number) => Some(Value::Int(*number)),
        Node::Object(number) => Some(Value::Obj(*number)),
        Node::Error(code) => Some(Value::Err(*code)),
        Node::Str(text) => copied_string(text.string()),
        _ => None,
    }
}

#[inline(always)]
fn copied_string(string: &MooStr) -> Option<Value>
    ensures { IfSome result (λ copy. tree copy ≡ string_tree string.now) }
{
    match string.try_clone() {
        Ok(copy) => Some(Value::Str(copy)),
        Err(_) => None,
    }
}

#[inline(always)]
fn copied(value: &Value) -> Option<Value>
    ensures { IfSome result (λ copy. tree copy ≡ tree value.now) }
{
    match value.try_clone() {
        Ok(copy) => Some(copy),
        Err(_) => None,
    }
}
