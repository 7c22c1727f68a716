//! Forms of expressions that the evaluator runs in place, as `{@x, e}` and `o.p = e`.
ghost use Rattle.std.specs.Prelude.{◌≡◌, None, IfSome, ◌<◌, ◌-◌, Some, ◌∷◌, []};
ghost use Rattle.moo_syntax_ast.specs.Tree.{variable, assign, list, splice, element, no_items, literal, property, Items, call, range};
ghost use Rattle.moo_syntax_node.specs.Source.{source, source_items, with_source};
ghost use Rattle.moo_eval_access.specs.Form.{form_source};
ghost use Rattle.moo_syntax_ast.specs.declared.tree.Literal.TheVariants.{Str};

use crate::target::as_property;
use moo_eval_frame::Variables;
use moo_syntax_ast::{Name, Text};
use moo_syntax_function::Function;
use moo_syntax_node::{FunctionName, Node, NodeItem};
use moo_value::Value;

/// Holds the parts of an expression whose value is a changed list.
#[derive(Clone, Copy)]
pub enum ListForm<'a> {
    /// `{@list, last}`
    Appended(&'a Node, &'a Node),
    /// `{first, @list}`
    Prepended(&'a Node, &'a Node),
    /// `{@list, ..}` with any number of items, but not `{@x, @x, ..}`, which is made in one step.
    Extended(&'a Node, &'a [NodeItem]),
    /// `f(list, ..)` for a built-in function that makes a list of a list, as `listappend`.
    Called(&'a FunctionName, &'a [NodeItem]),
    /// `list[low..high]`
    Part(&'a Node, &'a Node, &'a Node),
}

/// Returns the parts, if a node has one of these forms.
#[inline(always)]
pub fn list_form(node: &Node) -> Option<ListForm<'_>>
    ensures { IfSome result (λ form. source node.now ≡ form_source form) }
{
    match node {
        Node::List(items) => items_form(items),
        Node::Call(called, items) if makes_list(called) => Some(ListForm::Called(called, items)),
        Node::Range(base, low, high) => Some(ListForm::Part(base, low, high)),
        _ => None,
    }
}

// Returns the parts of a list with these items, if it has one of these forms.
#[inline(always)]
fn items_form(items: &[NodeItem]) -> Option<ListForm<'_>>
    ensures { IfSome result (λ form. list (source_items items.now) ≡ form_source form) }
{
    match items {
        [NodeItem::Splice(list), NodeItem::Element(last)] => Some(ListForm::Appended(list, last)),
        [NodeItem::Element(first), NodeItem::Splice(list)] => {
            Some(ListForm::Prepended(first, list))
        }
        [NodeItem::Splice(list), more @ ..] if !more.is_empty() && !is_repeated(list, more) => {
            Some(ListForm::Extended(list, more))
        }
        _ => None,
    }
}

/// Is true for an expression of a `ListForm`, and for a conditional expression one of whose two results is one. A range
/// counts if its base is a property, as in `o.l[2..$]`, or if it is one of the two results. Picks the way of an assignment;
/// each way has the same meaning.
#[inline(always)]
pub fn is_list_change(node: &Node) -> bool {
    match node {
        Node::List(items) => has_splice_at_end(items),
        Node::Call(called, _) => makes_list(called),
        Node::Conditional(_, first, second) => is_changed_list(first) || is_changed_list(second),
        Node::Range(base, _, _) => matches!(&**base, Node::Property(_, _)),
        _ => false,
    }
}

/// Is true if the value of a node is a list that may be changed in place once the variable with this name lets go of its
/// value. A range counts only while the variable holds a list: that of a string is computed at once. Picks the way of an
/// assignment; each way has the same meaning.
#[inline(always)]
pub fn is_own_change(variables: &Variables, name: &Name, value: &Node) -> bool {
    match value {
        Node::Range(base, _, _) => is_variable(name, base) && has_list(variables, name),
        _ => is_list_change(value),
    }
}

fn has_list(variables: &Variables, name: &Name) -> bool {
    matches!(variables.get(name), Some(Value::List(_)))
}

fn is_changed_list(node: &Node) -> bool {
    list_form(node).is_some()
}

// Is true for more than one item, if the first or the second is a splice.
#[inline(always)]
fn has_splice_at_end(items: &[NodeItem]) -> bool {
    match items {
        [NodeItem::Splice(_), _, ..] => true,
        [_, NodeItem::Splice(_)] => true,
        _ => false,
    }
}

// Returns whether the node is a variable, and the first item is a splice of it.
fn is_repeated(list: &Node, items: &[NodeItem]) -> bool {
    match (list, items) {
        (Node::Variable(name), [NodeItem::Splice(node), ..]) => is_variable(name, node),
        _ => false,
    }
}

fn is_variable(name: &Name, node: &Node) -> bool {
    match node {
        Node::Variable(own) => own.is_spelled_as(name),
        _ => false,
    }
}

/// Returns the literal string that a node is, if it is one.
#[inline(always)]
pub fn as_text(node: &Node) -> Option<&Text>
    ensures { IfSome result (λ text. source node.now ≡ literal (Str text.now)) }
{
    match node {
        Node::Str(text) => Some(text),
        _ => None,
    }
}

/// Returns the object, the name and the value, if the expression is an assignment to a property.
pub fn as_set_property(node: &Node) -> Option<(&Node, &Node, &Node)>
    ensures { IfSome result (λ p. source node.now ≡ assign (property (source p.0.now) (source p.1.now)) (source p.2.now)) }
{
    let Node::Assign(target, value) = node else {
        return None;
    };
    let (base, name) = as_property(target)?;
    Some((base, name, value))
}

// Is true for the functions that make a list of their first argument, with an element more, less or replaced.
#[inline(always)]
fn makes_list(called: &FunctionName) -> bool {
    matches!(
        called.function(),
        Some(
            Function::ListAppend
                | Function::ListInsert
                | Function::ListDelete
                | Function::ListSet
                | Function::SetAdd
                | Function::SetRemove
        )
    )
}
