//! Computes calls of `length` and `typeof` for a variable.
ghost use Rattle.std.specs.Prelude.{◌≡◌, ◌≤◌, Ok, Some, IfSome};
ghost use Rattle.moo_value.specs.Tree.{integer};
ghost use Rattle.moo_value.specs.View.{tree};
ghost use Rattle.moo_syntax_ast.specs.Tree.{call, variable, element, no_items};
ghost use Rattle.moo_syntax_function.specs.Names.{function_of};
ghost use Rattle.moo_syntax_node.specs.Source.{source, source_items};
ghost use Rattle.moo_builtin_operator.specs.Places.{length_of};
ghost use Rattle.moo_eval_frame.specs.Seen.{variables_of};
ghost use Rattle.moo_eval_integer.specs.Functions.{GivesFor};
ghost use Rattle.moo_eval_integer.specs.Integers.{GivesInteger};

use crate::ticks::take;
use moo_builtin_operator as operation;
use moo_builtin_value::type_number;
use moo_eval_frame::Activation;
use moo_syntax_ast::Name;
use moo_syntax_function::Function;
use moo_syntax_node::{FunctionName, Node, NodeItem};
use moo_value::Value;

/// Returns the integer of a call of `length` or `typeof` for a variable, and takes its ticks from `left`. `None` for
/// another call, for a variable that isn't set, or if ticks are missing. `None` too for `length` of a value that is
/// neither a string nor a list. Then `left` may have fallen.
#[inline(always)]
pub fn call_integer(
    active: &Activation,
    left: &mut u32,
    name: &FunctionName,
    items: &[NodeItem],
) -> Option<i32>
    ensures value { IfSome result (λ n. GivesInteger (variables_of active.now.variables) left.old (call name.now (source_items items.now)) n left.new) }
    ensures ticks { left.new ≤ left.old }
{
    let function = integer_function(name)?;
    let variable = as_one_variable(items)?;
    take(left)?;
    let held = active.variables.get(variable)?;
    take(left)?;
    integer_for(function, held)
}

// Returns the function of a name, if it is `length` or `typeof`.
#[inline(always)]
fn integer_function(name: &FunctionName) -> Option<Function>
    ensures { IfSome result (λ f. function_of name.now ≡ Some f) }
{
    match name.function() {
        Some(Function::Length) => Some(Function::Length),
        Some(Function::Typeof) => Some(Function::Typeof),
        _ => None,
    }
}

// Returns the variable, if it is the only item.
#[inline(always)]
fn as_one_variable(items: &[NodeItem]) -> Option<&Name>
    ensures { IfSome result (λ name. source_items items.now ≡ element (variable name.now) no_items) }
{
    match items {
        [NodeItem::Element(node)] => as_variable(node),
        _ => None,
    }
}

// Returns the variable that a node is.
#[inline(always)]
fn as_variable(node: &Node) -> Option<&Name>
    ensures { IfSome result (λ name. source node.now ≡ variable name.now) }
{
    match node {
        Node::Variable(name) => Some(name),
        _ => None,
    }
}

// Returns the integer that `length` or `typeof` gives for a value. `None` for another function, and for a value without
// a length.
#[inline(always)]
fn integer_for(function: Function, held: &Value) -> Option<i32>
    ensures { IfSome result (λ n. GivesFor function (tree held.now) n) }
{
    match function {
        Function::Length => length_in(held),
        Function::Typeof => Some(type_number(held)),
        _ => None,
    }
}

// Returns the length of a string or a list.
#[inline(always)]
fn length_in(held: &Value) -> Option<i32>
    ensures { IfSome result (λ n. length_of (tree held.now) ≡ Ok (integer n)) }
{
    match operation::length_of(held) {
        Ok(Value::Int(length)) => Some(length),
        _ => None,
    }
}
