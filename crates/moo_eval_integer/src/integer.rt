//! Computes the integers of nodes.
ghost use Rattle.std.specs.Prelude.{◌≡◌, ◌≤◌, ◌<◌, ◌-◌, ℕ, ℤ, List, Option, Some, Ok, IfSome, IfNone, IsTrue, IsFalse};
ghost use Rattle.moo_value.specs.Tree.{Tree, integer, list_of};
ghost use Rattle.moo_value.specs.View.{tree};
ghost use Rattle.moo_value.specs.Compare.{folded};
ghost use Rattle.moo_syntax_ast.specs.declared.operator.BinaryOperator.TheVariants.{Add};
ghost use Rattle.moo_syntax_ast.specs.declared.tree.Literal.TheVariants.{Integer};
ghost use Rattle.moo_syntax_ast.specs.Tree.{literal, variable, binary, index};
ghost use Rattle.moo_syntax_node.specs.Source.{source};
ghost use Rattle.moo_builtin_operator.specs.Operators.{binary_of};
ghost use Rattle.moo_builtin_operator.specs.Truth.{is_true};
ghost use Rattle.moo_eval_slot.specs.Bindings.{bind, with_variable};
ghost use Rattle.moo_eval_frame.specs.Seen.{indexed_of, variables_of};
ghost use Rattle.moo_eval_integer.specs.Integers.{GivesInteger, GivesLeafInteger, GivesValue};

use crate::element::{integer_at, value_at};
use crate::function::call_integer;
use crate::operand::{equality_integer, is_equality, is_leaf};
use crate::ticks::{take, take_three};
use moo_eval_access::number_of;
use moo_eval_frame::Activation;
use moo_syntax_ast::Name;
use moo_syntax_ast::operator::BinaryOperator;
use moo_syntax_node::Node;
use moo_value::{MooList, Value};

/// Returns the integer of an operator between two nodes, and takes its ticks from `left`. `None` if a node isn't an
/// integer, a variable, an element, the length or the type of one, or such an operator. `None` too if one has another
/// value or none, if the operator may fail, or if ticks are missing. Then `left` may have fallen. For `==` and `!=` between
/// variables the values may be of any type.
#[cycle(integer)]
pub fn arithmetic_integer(
    active: &Activation,
    left: &mut u32,
    operator: BinaryOperator,
    a: &Node,
    b: &Node,
) -> Option<i32>
    ensures value { IfSome result (λ n. GivesInteger (variables_of active.now.variables) left.old (binary operator (source a.now) (source b.now)) n left.new) }
    ensures ticks { left.new ≤ left.old }
{
    if let Some(number) = leaves_integer(active, left, operator, a, b) {
        return Some(number);
    }
    nested_integer(active, left, operator, a, b)
}

// Returns the integer of an operator between two nodes, and takes its ticks from `left`. `None` as
// `arithmetic_integer`.
#[cycle(integer)]
#[inline(never)]
fn nested_integer(
    active: &Activation,
    left: &mut u32,
    operator: BinaryOperator,
    a: &Node,
    b: &Node,
) -> Option<i32>
    ensures value { IfSome result (λ n. GivesInteger (variables_of active.now.variables) left.old (binary operator (source a.now) (source b.now)) n left.new) }
    ensures ticks { left.new ≤ left.old }
{
    if is_equality(operator) && is_leaf(a) && is_leaf(b) {
        return equality_integer(active, left, operator, a, b);
    }
    take(left)?;
    let a = integer_of(active, left, a)?;
    let b = integer_of(active, left, b)?;
    number_of(operator, a, b)
}

// Returns the integer of an operator between two integers or variables whose slots are known, and takes its ticks from
// `left`. `None` if one has another value or none, if the operator may fail, or if ticks are missing. Then `left`
// stays. It tests the second node first, so that it reads no variable if the second is of another kind.
#[inline(always)]
fn leaves_integer(
    active: &Activation,
    left: &mut u32,
    operator: BinaryOperator,
    a: &Node,
    b: &Node,
) -> Option<i32>
    ensures value { IfSome result (λ n. GivesInteger (variables_of active.now.variables) left.old (binary operator (source a.now) (source b.now)) n left.new) }
    ensures kept { IfNone result (left.new ≡ left.old) }
    ensures ticks { left.new ≤ left.old }
{
    if let Node::Integer(b) = b {
        let a = leaf_integer(active, a)?;
        return operated(left, operator, a, *b);
    }
    if let Node::Variable(b) = b {
        let a = leaf_integer(active, a)?;
        let b = known_integer(active, b)?;
        return operated(left, operator, a, b);
    }
    None
}

// Returns the integer of an operator between two integers, and takes its tick and theirs from `left`. `None` if it may
// fail, or if ticks are missing. Then `left` stays.
#[inline(always)]
fn operated(left: &mut u32, operator: BinaryOperator, a: i32, b: i32) -> Option<i32>
    ensures number { IfSome result (λ n. binary_of operator (integer a) (integer b) ≡ Ok (integer n)) }
    ensures taken { IfSome result (λ n. (2 < left.old) × (left.new ≡ left.old - 3)) }
    ensures kept { IfNone result (left.new ≡ left.old) }
    ensures ticks { left.new ≤ left.old }
{
    let number = number_of(operator, a, b)?;
    take_three(left)?;
    Some(number)
}

// Returns the integer that is written out, or that a variable holds whose slot is known.
#[inline(always)]
fn leaf_integer(active: &Activation, node: &Node) -> Option<i32>
    ensures { IfSome result (λ n. GivesLeafInteger (variables_of active.now.variables) (source node.now) n) }
{
    if let Node::Variable(name) = node {
        return known_integer(active, name);
    }
    if let Node::Integer(number) = node {
        return Some(*number);
    }
    None
}

// Returns the integer that a variable holds, if its slot is known.
#[inline(always)]
fn known_integer(active: &Activation, name: &Name) -> Option<i32>
    ensures { IfSome result (λ n. variables_of active.now.variables (folded name.now) ≡ Some (integer n)) }
{
    integer_in(active.variables.get_known(name))
}

/// Adds the integer of a node to the one in a variable and returns true, and takes the ticks of the sum from `left`.
/// The variable has to hold an integer, and its slot has to be known. The node has to be computed from integers alone.
/// If not, it returns false and the variables stay, but `left` may have fallen.
#[inline(always)]
pub fn try_add_integer(active: &mut Activation, left: &mut u32, name: &Name, node: &Node) -> bool
    ensures added { IsTrue result → (n : ℤ) × GivesInteger (variables_of active.old.variables) left.old (binary Add (variable name.now) (source node.now)) n left.new × (variables_of active.new.variables ≡ with_variable (variables_of active.old.variables) (bind name.now (integer n))) }
    ensures kept { IsFalse result → variables_of active.new.variables ≡ variables_of active.old.variables }
    ensures programmer { active.new.programmer ≡ active.old.programmer }
    ensures ticks { left.new ≤ left.old }
{
    match addend(active, left, node) {
        Some(number) => active.variables.try_add_integer(name, number),
        None => false,
    }
}

/// Sets a variable to the integer of an operator and returns true, and takes the operator's ticks from `left`. The
/// operator has to be computed from integers alone, and the variable's slot has to be known. If not, it returns false
/// and the variables stay, but `left` may have fallen.
#[inline(always)]
pub fn try_set_arithmetic(active: &mut Activation, left: &mut u32, name: &Name, node: &Node) -> bool
    ensures set { IsTrue result → (n : ℤ) × GivesInteger (variables_of active.old.variables) left.old (source node.now) n left.new × (variables_of active.new.variables ≡ with_variable (variables_of active.old.variables) (bind name.now (integer n))) }
    ensures kept { IsFalse result → variables_of active.new.variables ≡ variables_of active.old.variables }
    ensures programmer { active.new.programmer ≡ active.old.programmer }
    ensures ticks { left.new ≤ left.old }
{
    match operator_integer(active, left, node) {
        Some(number) => active.variables.try_put_integer(name, number),
        None => false,
    }
}

// Returns the integer of an operator, and takes its ticks from `left`. `None` as `operand_integer`, and for another
// node.
#[inline(always)]
fn operator_integer(active: &Activation, left: &mut u32, node: &Node) -> Option<i32>
    ensures value { IfSome result (λ n. GivesInteger (variables_of active.now.variables) left.old (source node.now) n left.new) }
    ensures ticks { left.new ≤ left.old }
{
    match node {
        Node::Arithmetic(operator, a, b) => arithmetic_integer(active, left, *operator, a, b),
        Node::Binary(..) => operand_integer(active, left, node),
        _ => None,
    }
}

// Returns the integer of a node, and takes its ticks after those of a sum and of its first operand. `None` as
// `integer_of`.
#[inline(always)]
fn addend(active: &Activation, left: &mut u32, node: &Node) -> Option<i32>
    ensures value { IfSome result (λ n. (between : ℕ) × (1 < left.old) × (between ≡ left.old - 2) × GivesInteger (variables_of active.now.variables) between (source node.now) n left.new) }
    ensures ticks { left.new ≤ left.old }
{
    take(left)?;
    take(left)?;
    operand_integer(active, left, node)
}

/// Returns the integer of a node, as `integer_of` does, or of any operator between such nodes, and takes its ticks from
/// `left`. A statement calls it at most once for a node, so that the time is linear in its size. `None` as
/// `arithmetic_integer`.
#[cycle(operand)]
#[inline(always)]
pub(crate) fn operand_integer(active: &Activation, left: &mut u32, node: &Node) -> Option<i32>
    ensures value { IfSome result (λ n. GivesInteger (variables_of active.now.variables) left.old (source node.now) n left.new) }
    ensures ticks { left.new ≤ left.old }
{
    if let Node::Binary(operator, a, b) = node {
        if !may_be_integer(a) || !may_be_integer(b) {
            return None;
        }
        return binary_integer(active, left, *operator, a, b);
    }
    integer_of(active, left, node)
}

// Is true for a node that is often computed from integers alone.
#[inline(always)]
fn may_be_integer(node: &Node) -> bool {
    match node {
        Node::Integer(_) | Node::Variable(_) | Node::Arithmetic(..) | Node::Binary(..) => true,
        Node::Index(base, _) => matches!(base.as_ref(), Node::Variable(_) | Node::Index(..)),
        _ => false,
    }
}

// Returns the integer of an operator between two nodes, which may be such operators.
#[cycle(operand)]
#[inline(never)]
fn binary_integer(
    active: &Activation,
    left: &mut u32,
    operator: BinaryOperator,
    a: &Node,
    b: &Node,
) -> Option<i32>
    ensures value { IfSome result (λ n. GivesInteger (variables_of active.now.variables) left.old (binary operator (source a.now) (source b.now)) n left.new) }
    ensures ticks { left.new ≤ left.old }
{
    take(left)?;
    let first = operand_integer(active, left, a)?;
    let second = operand_integer(active, left, b)?;
    number_of(operator, first, second)
}

// Returns the integer of a node, and takes its ticks from `left`. `None` as `arithmetic_integer`. Inlined, so that an
// integer or a variable needs no call. Three tests are shorter than the table of jumps that a `match` over all nodes
// would be.
#[cycle(integer)]
#[inline(always)]
pub(crate) fn integer_of(active: &Activation, left: &mut u32, node: &Node) -> Option<i32>
    ensures value { IfSome result (λ n. GivesInteger (variables_of active.now.variables) left.old (source node.now) n left.new) }
    ensures ticks { left.new ≤ left.old }
{
    if let Node::Variable(name) = node {
        return variable_integer(active, left, name);
    }
    if let Node::Integer(number) = node {
        return literal_integer(left, *number);
    }
    if let Node::Arithmetic(operator, a, b) = node {
        return arithmetic_integer(active, left, *operator, a, b);
    }
    part_integer(active, left, node)
}

// Returns the integer of an element of a list, or the length or the type of a variable, and takes its ticks from
// `left`. Not inlined, so that operators between integers stay short.
#[cycle(integer)]
#[inline(never)]
fn part_integer(active: &Activation, left: &mut u32, node: &Node) -> Option<i32>
    ensures value { IfSome result (λ n. GivesInteger (variables_of active.now.variables) left.old (source node.now) n left.new) }
    ensures ticks { left.new ≤ left.old }
{
    match node {
        Node::Index(base, place) => element_integer(active, left, base, place),
        Node::Call(name, items) => call_integer(active, left, name, items),
        _ => None,
    }
}

// Returns the integer at a place of the list that a node holds, and takes its ticks from `left`.
#[cycle(integer)]
#[inline(always)]
fn element_integer(active: &Activation, left: &mut u32, base: &Node, place: &Node) -> Option<i32>
    ensures value { IfSome result (λ n. GivesInteger (variables_of active.now.variables) left.old (index (source base.now) (source place.now)) n left.new) }
    ensures ticks { left.new ≤ left.old }
{
    take(left)?;
    let list = held_list(active, left, base)?;
    let place = integer_of(active, left, place)?;
    integer_at(list, place)
}

// Returns the list in a variable, in an element of one, or in an element of such an element. Takes the node's ticks
// from `left`.
#[cycle(integer)]
#[inline(always)]
fn held_list<'a>(active: &'a Activation, left: &mut u32, node: &Node) -> Option<&'a MooList>
    ensures value { IfSome result (λ list. GivesValue (variables_of active.now.variables) left.old (source node.now) (list_of list.now) left.new) }
    ensures ticks { left.new ≤ left.old }
{
    match held_part(active, left, node)? {
        Value::List(list) => Some(list),
        _ => None,
    }
}

/// Returns the value of a variable, of an element of one, or of an element of such an element. Takes the node's ticks
/// from `left`. `None` as `arithmetic_integer`, and for another node.
#[cycle(integer)]
#[inline(always)]
pub(crate) fn held_part<'a>(
    active: &'a Activation,
    left: &mut u32,
    node: &Node,
) -> Option<&'a Value>
    ensures value { IfSome result (λ v. GivesValue (variables_of active.now.variables) left.old (source node.now) (tree v.now) left.new) }
    ensures ticks { left.new ≤ left.old }
{
    match node {
        Node::Variable(name) => held_value(active, left, name),
        Node::Index(base, place) => held_element(active, left, base, place),
        _ => None,
    }
}

// Returns the value at a place of the list that a node holds, and takes its ticks from `left`.
#[cycle(integer)]
#[inline(never)]
fn held_element<'a>(
    active: &'a Activation,
    left: &mut u32,
    base: &Node,
    place: &Node,
) -> Option<&'a Value>
    ensures value { IfSome result (λ v. GivesValue (variables_of active.now.variables) left.old (index (source base.now) (source place.now)) (tree v.now) left.new) }
    ensures ticks { left.new ≤ left.old }
{
    take(left)?;
    let list = held_list(active, left, base)?;
    let place = integer_of(active, left, place)?;
    value_at(list, place)
}

// Returns the value of a variable, and takes its tick from `left`.
#[inline(always)]
fn held_value<'a>(active: &'a Activation, left: &mut u32, name: &Name) -> Option<&'a Value>
    ensures value { IfSome result (λ v. GivesValue (variables_of active.now.variables) left.old (variable name.now) (tree v.now) left.new) }
    ensures ticks { left.new ≤ left.old }
{
    take(left)?;
    let value = active.variables.get(name)?;
    Some(value)
}

#[inline(always)]
fn literal_integer(left: &mut u32, number: i32) -> Option<i32>
    ensures value { IfSome result (λ n. (variables : List ℕ → Option Tree) → GivesInteger variables left.old (literal (Integer number)) n left.new) }
    ensures ticks { left.new ≤ left.old }
{
    take(left)?;
    Some(number)
}

#[inline(always)]
fn variable_integer(active: &Activation, left: &mut u32, name: &Name) -> Option<i32>
    ensures value { IfSome result (λ n. GivesInteger (variables_of active.now.variables) left.old (variable name.now) n left.new) }
    ensures ticks { left.new ≤ left.old }
{
    let number = held_integer(active, name)?;
    take(left)?;
    Some(number)
}

#[inline(always)]
fn held_integer(active: &Activation, name: &Name) -> Option<i32>
    ensures { IfSome result (λ n. variables_of active.now.variables (folded name.now) ≡ Some (integer n)) }
{
    integer_in(active.variables.get(name))
}

// Returns the integer that a value is.
#[inline(always)]
fn integer_in(value: Option<&Value>) -> Option<i32>
    ensures { IfSome result (λ n. indexed_of value.entry ≡ Some (integer n)) }
{
    match value {
        Some(Value::Int(number)) => Some(*number),
        _ => None,
    }
}

/// Returns whether an integer counts as true.
#[inline(always)]
pub fn counts_as_true(number: i32) -> bool
    ensures { result ≡ is_true (integer number) }
{
    number != 0
}
