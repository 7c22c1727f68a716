//! Reads elements of lists and letters of strings in variables, and sets elements to integers.
ghost use Rattle.std.specs.Prelude.{◌≡◌, ◌≤◌, suc, pos, Ok, IsTrue, IsFalse, IfOk, IfSome, IfNone};
ghost use Rattle.moo_value.specs.Tree.{integer, list_of, string as string_tree};
ghost use Rattle.moo_value.specs.View.{tree};
ghost use Rattle.moo_syntax_ast.specs.Tree.{variable, index};
ghost use Rattle.moo_syntax_node.specs.Source.{source};
ghost use Rattle.moo_builtin_operator.specs.Places.{index_of};
ghost use Rattle.moo_eval_frame.specs.Seen.{variables_of};
ghost use Rattle.moo_eval_integer.specs.Integers.{GivesInteger, GivesValue};
ghost use Rattle.moo_eval_integer.specs.Puts.{PutsInteger, PutsInner};

use crate::integer::{held_part, integer_of, operand_integer};
use crate::letters::Letters;
use crate::ticks::take;
use moo_eval_frame::Activation;
use moo_syntax_ast::Name;
use moo_syntax_node::Node;
use moo_value::{MooList, MooStr, Value};
use std::alloc::{AllocError, Global};

/// Returns `name[place]`, and takes its ticks from `left`. `None` if the place can't be computed from integers alone,
/// or is an element itself. `None` too if the variable isn't set, if the value has no such place, or if ticks or memory
/// are missing. Then `left` may have fallen. It declines an element as the place, so that the time for elements of
/// elements is linear in their number. Inlined, so that an element of a variable needs no call.
#[inline(always)]
pub fn element_of(
    letters: &mut Letters,
    active: &Activation,
    left: &mut u32,
    name: &Name,
    place: &Node,
) -> Option<Value>
    ensures value { IfSome result (λ v. GivesValue (variables_of active.now.variables) left.old (index (variable name.now) (source place.now)) (tree v) left.new) }
    ensures kept { IfNone result (letters.new ≡ letters.old) }
    ensures ticks { left.new ≤ left.old }
{
    if is_element(place) {
        return None;
    }
    take(left)?;
    let base = active.variables.get(name)?;
    take(left)?;
    let place = integer_of(active, left, place)?;
    element_at(letters, base, place)
}

/// Returns `base[place]`, and takes its ticks from `left`. The base is an element of a variable, or an element of such
/// an element. `None` as `element_of`, and for another base. No place may be an element, so that the time is linear.
pub fn inner_element_of(
    letters: &mut Letters,
    active: &Activation,
    left: &mut u32,
    base: &Node,
    place: &Node,
) -> Option<Value>
    ensures value { IfSome result (λ v. GivesValue (variables_of active.now.variables) left.old (index (source base.now) (source place.now)) (tree v) left.new) }
    ensures kept { IfNone result (letters.new ≡ letters.old) }
    ensures ticks { left.new ≤ left.old }
{
    if !has_flat_place(base, place) || is_variable(base) {
        return None;
    }
    take(left)?;
    let base = held_part(active, left, base)?;
    let place = integer_of(active, left, place)?;
    element_at(letters, base, place)
}

/// Is true if neither the place nor a place within the base is an element. The base has to be a variable, an element of
/// one or an element of such an element. So the time for elements of elements is linear in their number.
#[inline(always)]
pub(crate) fn has_flat_place(base: &Node, place: &Node) -> bool {
    !is_element(place) && is_flat_base(base)
}

// Is true for a variable, for an element of one and for an element of such an element, at places that are no elements.
#[inline(always)]
fn is_flat_base(base: &Node) -> bool {
    match base {
        Node::Variable(_) => true,
        Node::Index(outer, place) => !is_element(place) && is_variable_or_its_element(outer),
        _ => false,
    }
}

// Is true for a variable, and for an element of one at a place that is no element.
#[inline(always)]
fn is_variable_or_its_element(node: &Node) -> bool {
    match node {
        Node::Variable(_) => true,
        Node::Index(base, place) => !is_element(place) && is_variable(base),
        _ => false,
    }
}

#[inline(always)]
fn is_variable(node: &Node) -> bool {
    matches!(node, Node::Variable(_))
}

// Returns the element of a list, or the letter of a string, at a place. `None` if there is none, or if memory is
// missing.
#[inline(always)]
fn element_at(letters: &mut Letters, base: &Value, place: i32) -> Option<Value>
    ensures value { IfSome result (λ v. index_of (tree base.now) (integer place) ≡ Ok (tree v)) }
    ensures kept { IfNone result (letters.new ≡ letters.old) }
{
    let index = elements_before(place)?;
    match base {
        Value::List(list) => element_after(list, index),
        Value::Str(string) => letter_after(letters, string, index),
        _ => None,
    }
}

// Returns the element of a list that has this many elements before it. `None` if there is none, or if memory is
// missing.
#[inline(always)]
fn element_after(list: &MooList, index: usize) -> Option<Value>
    ensures { IfSome result (λ v. index_of (list_of list.now) (integer (pos (suc index))) ≡ Ok (tree v)) }
{
    let elements = list.elements();
    if index >= elements.len() {
        return None;
    }
    match elements[index].try_clone() {
        Ok(value) => Some(value),
        Err(_) => None,
    }
}

// Returns the letter of a string that has this many letters before it. `None` if there is none, or if memory is
// missing.
#[inline(always)]
fn letter_after(letters: &mut Letters, string: &MooStr, index: usize) -> Option<Value>
    ensures value { IfSome result (λ v. index_of (string_tree string.now) (integer (pos (suc index))) ≡ Ok (tree v)) }
    ensures kept { IfNone result (letters.new ≡ letters.old) }
{
    let bytes = string.as_bytes();
    if index >= bytes.len() {
        return None;
    }
    Some(Value::Str(letters.letter(bytes[index])?))
}

#[inline(always)]
fn is_element(node: &Node) -> bool {
    matches!(node, Node::Index(..))
}

/// Returns the value at a place of a list. `None` if there is no such place.
#[inline(always)]
pub(crate) fn value_at(list: &MooList, place: i32) -> Option<&Value>
    ensures { IfSome result (λ v. index_of (list_of list.now) (integer place) ≡ Ok (tree v.now)) }
{
    let index = elements_before(place)?;
    let elements = list.elements();
    if index >= elements.len() {
        return None;
    }
    Some(&elements[index])
}

/// Returns the integer at a place of a list. `None` if there is no such place or no integer there.
#[inline(always)]
pub(crate) fn integer_at(list: &MooList, place: i32) -> Option<i32>
    ensures { IfSome result (λ n. index_of (list_of list.now) (integer place) ≡ Ok (integer n)) }
{
    let index = elements_before(place)?;
    let elements = list.elements();
    if index >= elements.len() {
        return None;
    }
    match &elements[index] {
        Value::Int(number) => Some(*number),
        _ => None,
    }
}

/// Sets `name[place]` to a value and returns true, and takes the ticks of place and value from `left`. The variable has
/// to hold a list that nothing else shares, with an integer at the place. Place and value have to be computed from
/// integers alone. If not, it returns false and the variables stay, but `left` may have fallen.
pub fn try_put_integer(
    active: &mut Activation,
    left: &mut u32,
    name: &Name,
    place: &Node,
    value: &Node,
) -> bool
    ensures put { IsTrue result → PutsInteger (variables_of active.old.variables) left.old name.now (source place.now) (source value.now) left.new (variables_of active.new.variables) }
    ensures kept { IsFalse result → variables_of active.new.variables ≡ variables_of active.old.variables }
    ensures programmer { active.new.programmer ≡ active.old.programmer }
    ensures ticks { left.new ≤ left.old }
{
    let Some(place) = integer_of(active, left, place) else {
        return false;
    };
    let Some(number) = operand_integer(active, left, value) else {
        return false;
    };
    let Some(index) = elements_before(place) else {
        return false;
    };
    active.variables.try_put_element(name, index, number)
}

/// Sets `name[outer][inner]` to a value and returns true, and takes the ticks of places and value from `left`. The
/// inner list has to have an integer at its place, and nothing else may share it. Places and value have to be computed
/// from integers alone. If not, it returns false and the variables stay, but `left` may have fallen. Err is out of
/// memory; the variable may then hold an empty list.
pub fn try_put_inner_integer(
    alloc: Global,
    active: &mut Activation,
    left: &mut u32,
    name: &Name,
    outer: &Node,
    inner: &Node,
    value: &Node,
) -> Result<bool, AllocError>
    ensures put { IfOk result (λ done. IsTrue done → PutsInner (variables_of active.old.variables) left.old name.now (source outer.now) (source inner.now) (source value.now) left.new (variables_of active.new.variables)) }
    ensures kept { IfOk result (λ done. IsFalse done → variables_of active.new.variables ≡ variables_of active.old.variables) }
    ensures programmer { active.new.programmer ≡ active.old.programmer }
    ensures ticks { left.new ≤ left.old }
{
    let Some(outer) = index_of_place(active, left, outer) else {
        return Ok(false);
    };
    let Some(inner) = index_of_place(active, left, inner) else {
        return Ok(false);
    };
    let Some(number) = operand_integer(active, left, value) else {
        return Ok(false);
    };
    active
        .variables
        .try_put_inner(alloc, name, outer, inner, number)
}

// Returns how many elements come before the place that a node is, and takes its ticks from `left`.
#[inline(always)]
fn index_of_place(active: &Activation, left: &mut u32, place: &Node) -> Option<usize>
    ensures value { IfSome result (λ k. GivesInteger (variables_of active.now.variables) left.old (source place.now) (pos (suc k)) left.new) }
    ensures ticks { left.new ≤ left.old }
{
    let place = integer_of(active, left, place)?;
    elements_before(place)
}

/// Returns how many elements come before a place. `None` if the place is below 1.
#[inline(always)]
pub(crate) fn elements_before(place: i32) -> Option<usize>
    ensures { IfSome result (λ k. place ≡ pos (suc k)) }
{
    if place < 1 {
        return None;
    }
    Some(place as usize - 1)
}
