//! Lowers statements of an expression. An assignment to a variable or to an element of one is a statement of its own.
ghost use Rattle.std.specs.Prelude.{◌≡◌, ◌∷◌, [], IfOk, IfSome};
ghost use Rattle.moo_syntax_ast.specs.declared.operator.BinaryOperator.TheVariants.{Add};
ghost use Rattle.moo_syntax_ast.specs.Tree as source_tree;
ghost use Rattle.moo_syntax_ast.specs.Tree.{Items};
ghost use Rattle.moo_syntax_ast.specs.View.{tree, with_item, items_of};
ghost use Rattle.moo_syntax_node.specs.Blocks.{source_statement, named_items};

use crate::expression::{copied_name, lower_boxed};
use crate::item::lower_items;
use moo_syntax_ast::operator::BinaryOperator;
use moo_syntax_ast::{Expr, Item, Name};
use moo_syntax_function::Function;
use moo_syntax_node::{FunctionName, NodeStmt};
use moo_value::MooStr;
use std::alloc::{AllocError, Global};

/// Returns the lowered statement of an expression. Err is out of memory.
pub(crate) fn lower_alone(alloc: Global, value: &Expr) -> Result<NodeStmt, AllocError>
    ensures { IfOk result (λ node. source_statement node ≡ source_tree.performs (tree value.now)) }
{
    let Expr::Assign(target, assigned) = value else {
        return Ok(NodeStmt::Expression(lower_boxed(alloc, value)?));
    };
    if let Some(name) = as_variable(target) {
        return lower_set(alloc, name, assigned);
    }
    if let Some((name, place)) = as_element_of_variable(target) {
        return lower_put(alloc, name, place, assigned);
    }
    if let Some(items) = as_list(target) {
        return lower_scatter(alloc, items, assigned);
    }
    Ok(NodeStmt::Expression(lower_boxed(alloc, value)?))
}

fn lower_set(alloc: Global, name: &Name, value: &Expr) -> Result<NodeStmt, AllocError>
    ensures { IfOk result (λ node. source_statement node ≡ source_tree.performs (source_tree.assign (source_tree.variable name.now) (tree value.now))) }
{
    let copy = copied_name(name)?;
    if let Some((called, items)) = as_call_with(name, value) {
        let called = FunctionName::try_new(called)?;
        if makes_list(&called) {
            return Ok(NodeStmt::Update(copy, called, lower_items(alloc, items)?));
        }
    }
    if let Some(last) = as_longer(name, value) {
        return Ok(NodeStmt::Lengthen(copy, lower_boxed(alloc, last)?));
    }
    match as_extended(name, value) {
        Some(last) => Ok(NodeStmt::Extend(copy, lower_boxed(alloc, last)?)),
        None => Ok(NodeStmt::Set(copy, lower_boxed(alloc, value)?)),
    }
}

// Is true for the functions whose first argument is a list, and whose value is that list with an element more or less.
fn makes_list(name: &FunctionName) -> bool {
    matches!(
        name.function(),
        Some(
            Function::ListAppend
                | Function::ListInsert
                | Function::ListDelete
                | Function::SetAdd
                | Function::SetRemove
        )
    )
}

fn lower_put(alloc: Global, name: &Name, place: &Expr, value: &Expr) -> Result<NodeStmt, AllocError>
    ensures { IfOk result (λ node. source_statement node ≡ source_tree.performs (source_tree.assign (source_tree.index (source_tree.variable name.now) (tree place.now)) (tree value.now))) }
{
    let name = copied_name(name)?;
    let place = lower_boxed(alloc, place)?;
    let value = lower_boxed(alloc, value)?;
    Ok(NodeStmt::Put(name, place, value))
}

fn lower_scatter(alloc: Global, items: &[Item], value: &Expr) -> Result<NodeStmt, AllocError>
    ensures { IfOk result (λ node. source_statement node ≡ source_tree.performs (source_tree.assign (source_tree.list (items_of items.now)) (tree value.now))) }
{
    let value = lower_boxed(alloc, value)?;
    match names_of(alloc, items)? {
        Some(names) => Ok(NodeStmt::ScatterNames(names, value)),
        None => Ok(NodeStmt::Scatter(lower_items(alloc, items)?, value)),
    }
}

// Returns the names of the variables, if each item is one.
fn names_of(alloc: Global, items: &[Item]) -> Result<Option<Vec<Name>>, AllocError>
    ensures { IfOk result (λ found. IfSome found (λ names. items_of items.now ≡ named_items names.items)) }
{
    let mut names = Vec::with_capacity(alloc, items.len())?;
    for item in items {
        let Some(name) = as_name(item) else {
            return Ok(None);
        };
        names.push(copied_name(name)?)?;
    }
    Ok(Some(names))
}

fn as_name(item: &Item) -> Option<&Name>
    ensures { IfSome result (λ name. (rest : Items) → with_item item.now rest ≡ source_tree.element (source_tree.variable name.now) rest) }
{
    as_variable(as_element(item)?)
}

fn as_list(expr: &Expr) -> Option<&[Item]>
    ensures { IfSome result (λ items. tree expr.now ≡ source_tree.list (items_of items.now)) }
{
    match expr {
        Expr::List(items) => Some(items),
        _ => None,
    }
}

fn as_variable(expr: &Expr) -> Option<&Name>
    ensures { IfSome result (λ name. tree expr.now ≡ source_tree.variable name.now) }
{
    match expr {
        Expr::Variable(name) => Some(name),
        _ => None,
    }
}

// Returns the variable and the place, if the expression is `x[a]`.
fn as_element_of_variable(expr: &Expr) -> Option<(&Name, &Expr)>
    ensures { IfSome result (λ p. tree expr.now ≡ source_tree.index (source_tree.variable p.0.now) (tree p.1.now)) }
{
    let Expr::Index(base, place) = expr else {
        return None;
    };
    let name = as_variable(base)?;
    Some((name, place))
}

// Returns the name and the arguments, if the expression is a call `f(x, a)` with this variable as its first argument.
fn as_call_with<'a>(name: &Name, value: &'a Expr) -> Option<(&'a MooStr, &'a [Item])>
    ensures { IfSome result (λ p. tree value.now ≡ source_tree.call p.0.now (items_of p.1.now)) }
{
    let Expr::Call(called, items) = value else {
        return None;
    };
    let (first, last) = two_items(items)?;
    let own = as_variable(as_element(first)?)?;
    as_element(last)?;
    if own.is_spelled_as(name) {
        Some((called, items))
    } else {
        None
    }
}

// Returns the last element, if the expression is a list of all elements of this variable and one more, `{@x, a}`.
fn as_longer<'a>(name: &Name, value: &'a Expr) -> Option<&'a Expr>
    ensures { IfSome result (λ last. tree value.now ≡ source_tree.list (source_tree.splice (source_tree.variable name.now) (source_tree.element (tree last.now) source_tree.no_items))) }
{
    let Expr::List(items) = value else {
        return None;
    };
    let (first, last) = two_items(items)?;
    let own = as_variable(as_splice(first)?)?;
    let last = as_element(last)?;
    if own.is_spelled_as(name) {
        Some(last)
    } else {
        None
    }
}

// Returns the second operand, if the expression is a sum whose first operand is this variable, `x + a`.
fn as_extended<'a>(name: &Name, value: &'a Expr) -> Option<&'a Expr>
    ensures { IfSome result (λ last. tree value.now ≡ source_tree.binary Add (source_tree.variable name.now) (tree last.now)) }
{
    let Expr::Binary(BinaryOperator::Add, first, last) = value else {
        return None;
    };
    let own = as_variable(first)?;
    if !own.is_spelled_as(name) {
        return None;
    }
    Some(last)
}

fn two_items(items: &[Item]) -> Option<(&Item, &Item)>
    ensures { IfSome result (λ p. items.now ≡ p.0.now ∷ p.1.now ∷ []) }
{
    let (first, rest) = items.split_first()?;
    let (second, rest) = rest.split_first()?;
    if rest.is_empty() {
        Some((first, second))
    } else {
        None
    }
}

fn as_splice(item: &Item) -> Option<&Expr>
    ensures { IfSome result (λ e. (rest : Items) → with_item item.now rest ≡ source_tree.splice (tree e.now) rest) }
{
    match item {
        Item::Splice(expr) => Some(expr),
        _ => None,
    }
}

fn as_element(item: &Item) -> Option<&Expr>
    ensures { IfSome result (λ e. (rest : Items) → with_item item.now rest ≡ source_tree.element (tree e.now) rest) }
{
    match item {
        Item::Element(expr) => Some(expr),
        _ => None,
    }
}
