//! Operands of `==` and `!=`, which are compared without a copy.
ghost use Rattle.std.specs.Prelude.{◌≡◌, ◌≤◌, Ok, Some, IfSome};
ghost use Rattle.moo_value.specs.Tree.{integer, string as string_tree};
ghost use Rattle.moo_value.specs.View.{tree};
ghost use Rattle.moo_syntax_ast.specs.Tree.{binary, index};
ghost use Rattle.moo_syntax_node.specs.Source.{source};
ghost use Rattle.moo_builtin_operator.specs.Operators.{binary_of};
ghost use Rattle.moo_builtin_operator.specs.Places.{index_of};
ghost use Rattle.moo_builtin_operator.specs.Truth.{equal, truth_value};
ghost use Rattle.moo_eval_frame.specs.Seen.{variables_of};
ghost use Rattle.moo_eval_integer.specs.Integers.{GivesInteger, GivesLeafValue, GivesValue};
ghost use Rattle.moo_eval_integer.specs.Operands.{operand_tree};

use crate::element::{elements_before, has_flat_place, value_at};
use crate::integer::{held_part, integer_of};
use crate::ticks::{take, take_three};
use moo_builtin_operator::is_equal;
use moo_eval_frame::Activation;
use moo_syntax_ast::operator::BinaryOperator;
use moo_syntax_node::Node;
use moo_value::{ErrorCode, MooStr, Value};

/// Holds an operand: an integer, an object, an error, the bytes of a string, or the value that a list is.
#[derive(Clone, Copy)]
pub(crate) enum Operand<'a> {
    Integer(i32),
    Object(i32),
    Error(ErrorCode),
    Text(&'a [u8]),
    List(&'a Value),
}

/// Returns whether the value of `==` or `!=` between two nodes is true, and takes its ticks from `left`. `None` for
/// another operator, or if a node isn't a literal, a variable or an element of one, at most three places deep. `None`
/// too if a place can't be computed from integers alone, if a node has no value, if a list is compared with another
/// type, or if ticks are missing. Then `left` may have fallen.
#[inline(always)]
pub fn compare_nodes(
    active: &Activation,
    left: &mut u32,
    operator: BinaryOperator,
    a: &Node,
    b: &Node,
) -> Option<bool>
    ensures value { IfSome result (λ passes. GivesValue (variables_of active.now.variables) left.old (binary operator (source a.now) (source b.now)) (truth_value passes) left.new) }
    ensures ticks { left.new ≤ left.old }
{
    if is_leaf(a) && is_leaf(b) {
        compare_leaves(active, left, operator, a, b)
    } else {
        compare_operands(active, left, operator, a, b)
    }
}

/// Returns the integer of `==` or `!=` between two variables or literals, and takes its ticks from `left`. `None` as
/// `compare_nodes`. Not inlined, so that operators between integers stay short.
#[inline(never)]
pub(crate) fn equality_integer(
    active: &Activation,
    left: &mut u32,
    operator: BinaryOperator,
    a: &Node,
    b: &Node,
) -> Option<i32>
    ensures value { IfSome result (λ n. GivesInteger (variables_of active.now.variables) left.old (binary operator (source a.now) (source b.now)) n left.new) }
    ensures ticks { left.new ≤ left.old }
{
    let passes = compare_leaves(active, left, operator, a, b)?;
    if passes { Some(1) } else { Some(0) }
}

/// Is true for `==` and `!=`.
#[inline(always)]
pub fn is_equality(operator: BinaryOperator) -> bool {
    matches!(operator, BinaryOperator::Equal | BinaryOperator::NotEqual)
}

/// Is true for a variable and for a literal. Picks the way of a comparison or an assignment; each way has the same meaning.
#[inline(always)]
pub fn is_leaf(node: &Node) -> bool {
    matches!(
        node,
        Node::Variable(_) | Node::Str(_) | Node::Integer(_) | Node::Object(_) | Node::Error(_)
    )
}

// Returns whether the value of `==` or `!=` between two variables or literals is true, as `compare_nodes` does.
#[inline(always)]
fn compare_leaves(
    active: &Activation,
    left: &mut u32,
    operator: BinaryOperator,
    a: &Node,
    b: &Node,
) -> Option<bool>
    ensures value { IfSome result (λ passes. GivesValue (variables_of active.now.variables) left.old (binary operator (source a.now) (source b.now)) (truth_value passes) left.new) }
    ensures ticks { left.new ≤ left.old }
{
    take_three(left)?;
    let a = leaf_operand(active, a)?;
    let b = leaf_operand(active, b)?;
    compared(operator, a, b)
}

// Returns whether the value of `==` or `!=` between two nodes is true, as `compare_nodes` does. Not inlined, so that a
// comparison of leaves stays short.
#[inline(never)]
fn compare_operands(
    active: &Activation,
    left: &mut u32,
    operator: BinaryOperator,
    a: &Node,
    b: &Node,
) -> Option<bool>
    ensures value { IfSome result (λ passes. GivesValue (variables_of active.now.variables) left.old (binary operator (source a.now) (source b.now)) (truth_value passes) left.new) }
    ensures ticks { left.new ≤ left.old }
{
    take(left)?;
    let a = operand_of(active, left, a)?;
    let b = operand_of(active, left, b)?;
    compared(operator, a, b)
}

// Returns whether the value of `==` or `!=` between two operands is true.
#[inline(always)]
fn compared(operator: BinaryOperator, a: Operand<'_>, b: Operand<'_>) -> Option<bool>
    ensures { IfSome result (λ passes. binary_of operator (operand_tree a.entry) (operand_tree b.entry) ≡ Ok (truth_value passes)) }
{
    let is_equal = compared_equal(a, b)?;
    match operator {
        BinaryOperator::Equal => Some(is_equal),
        BinaryOperator::NotEqual => Some(!is_equal),
        _ => None,
    }
}

// Returns whether two operands are equal, letters folded. `None` for a list and another type.
#[inline(always)]
fn compared_equal(a: Operand<'_>, b: Operand<'_>) -> Option<bool>
    ensures { IfSome result (λ is_equal. is_equal ≡ equal (operand_tree a.entry) (operand_tree b.entry)) }
{
    match (a, b) {
        (Operand::Integer(a), Operand::Integer(b)) => Some(a == b),
        (Operand::Object(a), Operand::Object(b)) => Some(a == b),
        (Operand::Error(a), Operand::Error(b)) => Some(a.number() == b.number()),
        (Operand::Text(a), Operand::Text(b)) => Some(a.eq_ignore_ascii_case(b)),
        (Operand::List(a), Operand::List(b)) => Some(is_equal(a, b)),
        (Operand::List(_), _) | (_, Operand::List(_)) => None,
        _ => Some(false),
    }
}

// Returns the operand that a node is, and takes its ticks from `left`.
#[inline(always)]
fn operand_of<'a>(active: &'a Activation, left: &mut u32, node: &'a Node) -> Option<Operand<'a>>
    ensures value { IfSome result (λ o. GivesValue (variables_of active.now.variables) left.old (source node.now) (operand_tree o) left.new) }
    ensures ticks { left.new ≤ left.old }
{
    match node {
        Node::Index(base, place) => element_operand(active, left, base, place),
        _ => {
            take(left)?;
            leaf_operand(active, node)
        }
    }
}

// Returns the operand that a variable or a literal is. Variables and strings are tested first, since a `match` over all
// nodes takes a table of jumps.
#[inline(always)]
fn leaf_operand<'a>(active: &'a Activation, node: &'a Node) -> Option<Operand<'a>>
    ensures { IfSome result (λ o. GivesLeafValue (variables_of active.now.variables) (source node.now) (operand_tree o)) }
{
    if let Node::Variable(name) = node {
        return held_operand(active.variables.get(name)?);
    }
    if let Node::Str(text) = node {
        return Some(Operand::Text(text.string().as_bytes()));
    }
    match node {
        Node::Integer(number) => Some(Operand::Integer(*number)),
        Node::Object(number) => Some(Operand::Object(*number)),
        Node::Error(code) => Some(Operand::Error(*code)),
        _ => None,
    }
}

// Returns the operand that an element of a list or a letter of a string is, and takes its ticks from `left`.
#[inline(never)]
fn element_operand<'a>(
    active: &'a Activation,
    left: &mut u32,
    base: &Node,
    place: &Node,
) -> Option<Operand<'a>>
    ensures value { IfSome result (λ o. GivesValue (variables_of active.now.variables) left.old (index (source base.now) (source place.now)) (operand_tree o) left.new) }
    ensures ticks { left.new ≤ left.old }
{
    if !has_flat_place(base, place) {
        return None;
    }
    take(left)?;
    let held = held_part(active, left, base)?;
    let place = integer_of(active, left, place)?;
    operand_at(held, place)
}

// Returns the operand at a place of a list or a string.
#[inline(always)]
fn operand_at(held: &Value, place: i32) -> Option<Operand<'_>>
    ensures { IfSome result (λ o. index_of (tree held.now) (integer place) ≡ Ok (operand_tree o)) }
{
    match held {
        Value::List(list) => held_operand(value_at(list, place)?),
        Value::Str(string) => Some(Operand::Text(letter_at(string, place)?)),
        _ => None,
    }
}

// Returns the letter at a place of a string.
#[inline(always)]
fn letter_at(string: &MooStr, place: i32) -> Option<&[u8]>
    ensures { IfSome result (λ letter. index_of (string_tree string.now) (integer place) ≡ Ok (string_tree letter.now)) }
{
    let index = elements_before(place)?;
    let bytes = string.as_bytes();
    if index >= bytes.len() {
        return None;
    }
    Some(&bytes[index..index + 1])
}

// Returns the operand that a value is.
#[inline(always)]
fn held_operand(held: &Value) -> Option<Operand<'_>>
    ensures { IfSome result (λ o. operand_tree o ≡ tree held.now) }
{
    match held {
        Value::Int(number) => Some(Operand::Integer(*number)),
        Value::Obj(number) => Some(Operand::Object(*number)),
        Value::Err(code) => Some(Operand::Error(*code)),
        Value::Str(string) => Some(Operand::Text(string.as_bytes())),
        Value::List(_) => Some(Operand::List(held)),
    }
}
