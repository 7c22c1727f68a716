//! Evaluates conditions, to learn only whether their values are true.
ghost use Rattle.std.specs.Prelude.{◌≡◌, ◌≤◌, Ok, Err, IfOk, IfErr};
ghost use Rattle.moo_value.specs.Tree.{Tree};
ghost use Rattle.moo_syntax_ast.specs.declared.operator.UnaryOperator.TheVariants.{Not};
ghost use Rattle.moo_syntax_ast.specs.Tree.{unary, binary, logic};
ghost use Rattle.moo_syntax_node.specs.Source.{source};
ghost use Rattle.moo_builtin_operator.specs.Truth.{is_true};
ghost use Rattle.moo_eval_frame.specs.Seen.{context_of, stop_of, HadMemory};
ghost use Rattle.moo_builtin.specs.Telling.{Faults};
ghost use Rattle.moo_eval_semantics.specs.Meaning.{Evaluates};
ghost use Rattle.moo_eval_task.specs.Seen.{state_of};

use crate::arithmetic::evaluate_tried;
use crate::operators::binary;
use moo_builtin_operator::is_true;
use moo_eval_frame::{Activation, CallStack, Stop};
use moo_eval_task::{Task, decides};
use moo_syntax_ast::operator::{BinaryOperator, LogicOperator, UnaryOperator};
use moo_syntax_node::Node;
use moo_value::Value;
use moo_world::World;

/// Returns whether the value of a condition is true. Inlined, so that a variable or a comparison of integers needs
/// no value.
#[cycle(evaluation)]
#[inline(always)]
pub(crate) fn passes(
    task: &mut Task,
    world: &mut World,
    active: &mut Activation,
    stack: &CallStack<'_>,
    indexed: Option<&Value>,
    test: &Node,
) -> Result<bool, Stop>
    ensures ok { IfOk result (λ b. (v : Tree) × Evaluates Faults (context_of stack.now indexed.entry) (source test.now) (state_of task.old world.old active.old) (Ok v) (state_of task.new world.new active.new) × (is_true v ≡ b)) }
    ensures err { IfErr result (λ stop. HadMemory stop → Evaluates Faults (context_of stack.now indexed.entry) (source test.now) (state_of task.old world.old active.old) (Err (stop_of stop)) (state_of task.new world.new active.new)) }
    ensures ticks { task.new.ticks_left ≤ task.old.ticks_left }
{
    if let Some(passes) = task.try_test(active, test) {
        return Ok(passes);
    }
    node_passes(task, world, active, stack, indexed, test)
}

// Returns whether the value of a condition that `try_test` has declined is true.
#[cycle(evaluation)]
#[inline(never)]
fn node_passes(
    task: &mut Task,
    world: &mut World,
    active: &mut Activation,
    stack: &CallStack<'_>,
    indexed: Option<&Value>,
    test: &Node,
) -> Result<bool, Stop>
    ensures ok { IfOk result (λ b. (v : Tree) × Evaluates Faults (context_of stack.now indexed.entry) (source test.now) (state_of task.old world.old active.old) (Ok v) (state_of task.new world.new active.new) × (is_true v ≡ b)) }
    ensures err { IfErr result (λ stop. HadMemory stop → Evaluates Faults (context_of stack.now indexed.entry) (source test.now) (state_of task.old world.old active.old) (Err (stop_of stop)) (state_of task.new world.new active.new)) }
    ensures ticks { task.new.ticks_left ≤ task.old.ticks_left }
{
    match test {
        Node::Logic(operator, left, right) => {
            logic_passes(task, world, active, stack, indexed, *operator, left, right)
        }
        Node::Unary(UnaryOperator::Not, operand) => {
            not_passes(task, world, active, stack, indexed, operand)
        }
        _ => {
            if let Some(passes) = task.try_comparison(active, test) {
                return Ok(passes);
            }
            if let Some(passes) = task.try_property_test(world, active, test) {
                return Ok(passes);
            }
            value_passes(task, world, active, stack, indexed, test)
        }
    }
}

// Returns whether the value of a condition that `try_comparison` and `try_property_test` have declined is true.
#[cycle(evaluation)]
#[inline(always)]
fn value_passes(
    task: &mut Task,
    world: &mut World,
    active: &mut Activation,
    stack: &CallStack<'_>,
    indexed: Option<&Value>,
    test: &Node,
) -> Result<bool, Stop>
    ensures ok { IfOk result (λ b. (v : Tree) × Evaluates Faults (context_of stack.now indexed.entry) (source test.now) (state_of task.old world.old active.old) (Ok v) (state_of task.new world.new active.new) × (is_true v ≡ b)) }
    ensures err { IfErr result (λ stop. HadMemory stop → Evaluates Faults (context_of stack.now indexed.entry) (source test.now) (state_of task.old world.old active.old) (Err (stop_of stop)) (state_of task.new world.new active.new)) }
    ensures ticks { task.new.ticks_left ≤ task.old.ticks_left }
{
    if let Node::Binary(operator, left, right) = test {
        return binary_passes(task, world, active, stack, indexed, *operator, left, right);
    }
    let value = evaluate_tried(task, world, active, stack, indexed, test)?;
    Ok(is_true(&value))
}

// Returns whether the value of an operator is true. Inlined, so that its value needn't be moved.
#[cycle(evaluation)]
#[inline(always)]
fn binary_passes(
    task: &mut Task,
    world: &mut World,
    active: &mut Activation,
    stack: &CallStack<'_>,
    indexed: Option<&Value>,
    operator: BinaryOperator,
    left: &Node,
    right: &Node,
) -> Result<bool, Stop>
    ensures ok { IfOk result (λ b. (v : Tree) × Evaluates Faults (context_of stack.now indexed.entry) (binary operator (source left.now) (source right.now)) (state_of task.old world.old active.old) (Ok v) (state_of task.new world.new active.new) × (is_true v ≡ b)) }
    ensures err { IfErr result (λ stop. HadMemory stop → Evaluates Faults (context_of stack.now indexed.entry) (binary operator (source left.now) (source right.now)) (state_of task.old world.old active.old) (Err (stop_of stop)) (state_of task.new world.new active.new)) }
    ensures ticks { task.new.ticks_left ≤ task.old.ticks_left }
{
    task.take_tick(active, stack)?;
    match binary(task, world, active, stack, indexed, operator, left, right) {
        Ok(value) => Ok(is_true(&value)),
        Err(failure) => {
            let value = task.settled(active, stack, failure)?;
            Ok(is_true(&value))
        }
    }
}

// Returns whether the value of `left && right` or `left || right` is true.
#[cycle(evaluation)]
#[inline(always)]
fn logic_passes(
    task: &mut Task,
    world: &mut World,
    active: &mut Activation,
    stack: &CallStack<'_>,
    indexed: Option<&Value>,
    operator: LogicOperator,
    left: &Node,
    right: &Node,
) -> Result<bool, Stop>
    ensures ok { IfOk result (λ b. (v : Tree) × Evaluates Faults (context_of stack.now indexed.entry) (logic operator (source left.now) (source right.now)) (state_of task.old world.old active.old) (Ok v) (state_of task.new world.new active.new) × (is_true v ≡ b)) }
    ensures err { IfErr result (λ stop. HadMemory stop → Evaluates Faults (context_of stack.now indexed.entry) (logic operator (source left.now) (source right.now)) (state_of task.old world.old active.old) (Err (stop_of stop)) (state_of task.new world.new active.new)) }
    ensures ticks { task.new.ticks_left ≤ task.old.ticks_left }
{
    task.take_tick(active, stack)?;
    let first = passes(task, world, active, stack, indexed, left)?;
    if decides(operator, first) {
        return Ok(first);
    }
    passes(task, world, active, stack, indexed, right)
}

// Returns whether the value of `!operand` is true.
#[cycle(evaluation)]
#[inline(always)]
fn not_passes(
    task: &mut Task,
    world: &mut World,
    active: &mut Activation,
    stack: &CallStack<'_>,
    indexed: Option<&Value>,
    operand: &Node,
) -> Result<bool, Stop>
    ensures ok { IfOk result (λ b. (v : Tree) × Evaluates Faults (context_of stack.now indexed.entry) (unary Not (source operand.now)) (state_of task.old world.old active.old) (Ok v) (state_of task.new world.new active.new) × (is_true v ≡ b)) }
    ensures err { IfErr result (λ stop. HadMemory stop → Evaluates Faults (context_of stack.now indexed.entry) (unary Not (source operand.now)) (state_of task.old world.old active.old) (Err (stop_of stop)) (state_of task.new world.new active.new)) }
    ensures ticks { task.new.ticks_left ≤ task.old.ticks_left }
{
    task.take_tick(active, stack)?;
    let passes = passes(task, world, active, stack, indexed, operand)?;
    Ok(!passes)
}
