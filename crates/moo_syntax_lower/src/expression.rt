//! Lowers expressions.
ghost use Rattle.std.specs.Prelude.{◌≡◌, IfOk};
ghost use Rattle.moo_syntax_ast.specs.Tree as source_tree;
ghost use Rattle.moo_syntax_ast.specs.View.{tree, items_of, codes_of};
ghost use Rattle.moo_syntax_node.specs.Source.{source, source_items};

use crate::item::{lower_codes, lower_items};
use moo_syntax_ast::operator::{BinaryOperator, LogicOperator};
use moo_syntax_ast::{Codes, Expr, Item, Literal, Name, Text};
use moo_syntax_function::Function;
use moo_syntax_node::{FunctionName, Node, NodeItem, constant_list};
use moo_value::MooStr;
use std::alloc::{AllocError, Global};

/// Returns a copy of a variable's name. Its hint is the first slot.
pub(crate) fn copied_name(name: &Name) -> Result<Name, AllocError>
    ensures { IfOk result (λ copy. copy ≡ name.now) }
{
    let text = name.text().try_clone()?;
    Ok(Name::new(text))
}

/// Returns the node of an expression of a program.
#[cycle(lowering)]
pub(crate) fn lower_expression(alloc: Global, expr: &Expr) -> Result<Node, AllocError>
    ensures { IfOk result (λ node. source node ≡ tree expr.now) }
{
    match expr {
        Expr::Literal(literal) => lower_literal(literal),
        Expr::Variable(name) => Ok(Node::Variable(copied_name(name)?)),
        Expr::Length => Ok(Node::Length),
        Expr::Unary(operator, a) => Ok(Node::Unary(*operator, lower_boxed(alloc, a)?)),
        Expr::Binary(operator, a, b) => lower_binary(alloc, *operator, a, b),
        Expr::Logic(operator, a, b) => lower_logic(alloc, *operator, a, b),
        Expr::Conditional(test, a, b) => lower_conditional(alloc, test, a, b),
        Expr::Index(base, place) => lower_index(alloc, base, place),
        Expr::Range(base, low, high) => lower_range(alloc, base, low, high),
        Expr::List(items) => list_node(alloc, lower_items(alloc, items)?),
        Expr::Property(base, name) => lower_property(alloc, base, name),
        Expr::VerbCall(base, name, items) => lower_verb_call(alloc, base, name, items),
        Expr::Call(name, items) => lower_call(alloc, name, items),
        Expr::Assign(target, value) => lower_assignment(alloc, target, value),
        Expr::Catch(body, codes, None) => lower_catch(alloc, body, codes),
        Expr::Catch(body, codes, Some(other)) => { lower_catch_or(alloc, body, codes, other) }
    }
}

/// Returns the node of an expression in a box.
#[cycle(lowering)]
pub(crate) fn lower_boxed(alloc: Global, expr: &Expr) -> Result<Box<Node>, AllocError>
    ensures { IfOk result (λ node. source node.value ≡ tree expr.now) }
{
    let node = lower_expression(alloc, expr)?;
    Ok(Box::new(alloc, node)?)
}

fn lower_literal(literal: &Literal) -> Result<Node, AllocError>
    ensures { IfOk result (λ node. source node ≡ source_tree.literal literal.now) }
{
    match literal {
        Literal::Integer(number) => Ok(Node::Integer(*number)),
        Literal::Object(number) => Ok(Node::Object(*number)),
        Literal::Error(error) => Ok(Node::Error(*error)),
        Literal::Str(text) => Ok(Node::Str(Text::new(text.string().try_clone()?))),
    }
}

// Returns the node of a list with these items.
fn list_node(alloc: Global, items: Vec<NodeItem>) -> Result<Node, AllocError>
    ensures { IfOk result (λ node. source node ≡ source_tree.list (source_items items.items)) }
{
    match constant_list(alloc, &items)? {
        Some(list) => Ok(Node::Constant(list)),
        None => Ok(Node::List(items)),
    }
}

#[cycle(lowering)]
fn lower_binary(
    alloc: Global,
    operator: BinaryOperator,
    a: &Expr,
    b: &Expr,
) -> Result<Node, AllocError>
    ensures { IfOk result (λ node. source node ≡ source_tree.binary operator (tree a.now) (tree b.now)) }
{
    let a = lower_boxed(alloc, a)?;
    let b = lower_boxed(alloc, b)?;
    if is_arithmetic(operator)
        && is_arithmetic_part(operator, &a)
        && is_arithmetic_part(operator, &b)
    {
        return Ok(Node::Arithmetic(operator, a, b));
    }
    Ok(Node::Binary(operator, a, b))
}

// Is true for the operators that give an integer for two integers, unless the divisor is 0: `+ - * / %`, comparisons.
fn is_arithmetic(operator: BinaryOperator) -> bool {
    !matches!(operator, BinaryOperator::Power | BinaryOperator::In)
}

// Is true if the value of an operand is computed from integers, variables, their elements at flat places and their
// lengths alone. What is compared by `==` or `!=` is most often no integer if it is an element, so that doesn't count.
fn is_arithmetic_part(operator: BinaryOperator, node: &Node) -> bool {
    match node {
        Node::Integer(_) | Node::Variable(_) | Node::Arithmetic(..) => true,
        Node::Index(base, place) => {
            !is_equality(operator) && is_variable(base) && is_flat_place(place)
        }
        Node::Call(name, items) => is_length(name) && is_one_variable(items),
        _ => false,
    }
}

fn is_equality(operator: BinaryOperator) -> bool {
    matches!(operator, BinaryOperator::Equal | BinaryOperator::NotEqual)
}

// Is true for a place that is computed by at most two operators of arithmetic from integers and variables, as in
// `l[i + 1 - k]`. So the time for an operand that turns out to be no integer is bounded.
fn is_flat_place(place: &Node) -> bool {
    match place {
        Node::Arithmetic(_, a, b) => is_flat_sum(a) && is_integer_or_variable(b)
            || is_integer_or_variable(a) && is_flat_sum(b),
        _ => is_integer_or_variable(place),
    }
}

// Is true for an integer, a variable, and an operator of arithmetic between two of these.
fn is_flat_sum(node: &Node) -> bool {
    match node {
        Node::Arithmetic(_, a, b) => is_integer_or_variable(a) && is_integer_or_variable(b),
        _ => is_integer_or_variable(node),
    }
}

fn is_integer_or_variable(node: &Node) -> bool {
    matches!(node, Node::Integer(_) | Node::Variable(_))
}

fn is_variable(node: &Node) -> bool {
    matches!(node, Node::Variable(_))
}

fn is_length(name: &FunctionName) -> bool {
    matches!(name.function(), Some(Function::Length))
}

fn is_one_variable(items: &[NodeItem]) -> bool {
    match items {
        [NodeItem::Element(node)] => is_variable(node),
        _ => false,
    }
}

#[cycle(lowering)]
fn lower_logic(
    alloc: Global,
    operator: LogicOperator,
    a: &Expr,
    b: &Expr,
) -> Result<Node, AllocError>
    ensures { IfOk result (λ node. source node ≡ source_tree.logic operator (tree a.now) (tree b.now)) }
{
    let a = lower_boxed(alloc, a)?;
    let b = lower_boxed(alloc, b)?;
    Ok(Node::Logic(operator, a, b))
}

#[cycle(lowering)]
fn lower_conditional(alloc: Global, test: &Expr, a: &Expr, b: &Expr) -> Result<Node, AllocError>
    ensures { IfOk result (λ node. source node ≡ source_tree.conditional (tree test.now) (tree a.now) (tree b.now)) }
{
    let test = lower_boxed(alloc, test)?;
    let a = lower_boxed(alloc, a)?;
    let b = lower_boxed(alloc, b)?;
    Ok(Node::Conditional(test, a, b))
}

#[cycle(lowering)]
fn lower_index(alloc: Global, base: &Expr, place: &Expr) -> Result<Node, AllocError>
    ensures { IfOk result (λ node. source node ≡ source_tree.index (tree base.now) (tree place.now)) }
{
    let base = lower_boxed(alloc, base)?;
    let place = lower_boxed(alloc, place)?;
    Ok(Node::Index(base, place))
}

#[cycle(lowering)]
fn lower_range(alloc: Global, base: &Expr, low: &Expr, high: &Expr) -> Result<Node, AllocError>
    ensures { IfOk result (λ node. source node ≡ source_tree.range (tree base.now) (tree low.now) (tree high.now)) }
{
    let base = lower_boxed(alloc, base)?;
    let low = lower_boxed(alloc, low)?;
    let high = lower_boxed(alloc, high)?;
    Ok(Node::Range(base, low, high))
}

#[cycle(lowering)]
fn lower_property(alloc: Global, base: &Expr, name: &Expr) -> Result<Node, AllocError>
    ensures { IfOk result (λ node. source node ≡ source_tree.property (tree base.now) (tree name.now)) }
{
    let base = lower_boxed(alloc, base)?;
    let name = lower_boxed(alloc, name)?;
    Ok(Node::Property(base, name))
}

#[cycle(lowering)]
fn lower_verb_call(
    alloc: Global,
    base: &Expr,
    name: &Expr,
    items: &[Item],
) -> Result<Node, AllocError>
    ensures { IfOk result (λ node. source node ≡ source_tree.verb_call (tree base.now) (tree name.now) (items_of items.now)) }
{
    let base = lower_boxed(alloc, base)?;
    let name = lower_boxed(alloc, name)?;
    let items = lower_items(alloc, items)?;
    let items = Box::new(alloc, items)?;
    Ok(Node::VerbCall(base, name, items))
}

#[cycle(lowering)]
fn lower_call(alloc: Global, name: &MooStr, items: &[Item]) -> Result<Node, AllocError>
    ensures { IfOk result (λ node. source node ≡ source_tree.call name.now (items_of items.now)) }
{
    let name = FunctionName::try_new(name)?;
    let items = lower_items(alloc, items)?;
    Ok(Node::Call(name, items))
}

#[cycle(lowering)]
fn lower_assignment(alloc: Global, target: &Expr, value: &Expr) -> Result<Node, AllocError>
    ensures { IfOk result (λ node. source node ≡ source_tree.assign (tree target.now) (tree value.now)) }
{
    let target = lower_boxed(alloc, target)?;
    let value = lower_boxed(alloc, value)?;
    Ok(Node::Assign(target, value))
}

#[cycle(lowering)]
fn lower_catch(alloc: Global, body: &Expr, codes: &Codes) -> Result<Node, AllocError>
    ensures { IfOk result (λ node. source node ≡ source_tree.catch (tree body.now) (codes_of codes.now)) }
{
    let body = lower_boxed(alloc, body)?;
    let codes = lower_codes(alloc, codes)?;
    let codes = Box::new(alloc, codes)?;
    Ok(Node::Catch(body, codes, None))
}

#[cycle(lowering)]
fn lower_catch_or(
    alloc: Global,
    body: &Expr,
    codes: &Codes,
    other: &Expr,
) -> Result<Node, AllocError>
    ensures { IfOk result (λ node. source node ≡ source_tree.catch_or (tree body.now) (codes_of codes.now) (tree other.now)) }
{
    let body = lower_boxed(alloc, body)?;
    let codes = lower_codes(alloc, codes)?;
    let codes = Box::new(alloc, codes)?;
    let other = lower_boxed(alloc, other)?;
    Ok(Node::Catch(body, codes, Some(other)))
}
