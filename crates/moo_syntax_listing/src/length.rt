//! The length of an expression in the full listing, computed without writing it.
//!
//! Each function returns how many bytes of the line are left after a part, or `None` if the part does not fit.
ghost use Rattle.std.specs.Prelude.{◌≡◌, ◌+◌, ◌<◌, count_by, length};
ghost use Rattle.std.specs.Fmt.{signed_decimal};
ghost use Rattle.moo_syntax_ast.specs.View.{tree, items_of, codes_of};
ghost use Rattle.moo_syntax_ast.specs.Listing.{binary_sign, is_compound, is_compound_base, constant_name, is_system_object};
ghost use Rattle.moo_syntax_listing.specs.Length.{Leaves, literal_length, is_escaped, listed_length, items_length, item_length, codes_length, selector_length, shown_base_length, length_in_parentheses};

use crate::shape::{constant_name, is_compound, is_compound_base, is_system_object};
use itoa::Buffer;
use moo_syntax_ast::operator::BinaryOperator;
use moo_syntax_ast::{Codes, Expr, Item, Literal};

#[cycle(length)]
pub(crate) fn expression(value: &Expr, room: usize) -> Option<usize>
    ensures { Leaves room (listed_length (tree value.now)) result }
{
    match value {
        Expr::Literal(literal) => literal_rest(literal, room),
        Expr::Variable(name) => room.checked_sub(name.len()),
        Expr::Length => room.checked_sub(1),
        Expr::Unary(_, operand) => operand_rest(operand, room.checked_sub(1)?),
        Expr::Binary(operator, left, right) => {
            let room = room.checked_sub(2 + operator_length(*operator))?;
            operand_rest(right, operand_rest(left, room)?)
        }
        Expr::Logic(_, left, right) => {
            operand_rest(right, operand_rest(left, room.checked_sub(4)?)?)
        }
        Expr::Conditional(test, yes, no) => {
            let room = operand_rest(test, room.checked_sub(6)?)?;
            operand_rest(no, operand_rest(yes, room)?)
        }
        Expr::Index(base, index) => expression(index, base_rest(base, room.checked_sub(2)?)?),
        Expr::Range(base, low, high) => {
            let room = base_rest(base, room.checked_sub(4)?)?;
            expression(high, expression(low, room)?)
        }
        Expr::List(items) => items_rest(items, room.checked_sub(2)?),
        Expr::Property(base, name) => shown_base_rest(base, name, selector_rest(name, room)?),
        Expr::VerbCall(base, name, arguments) => {
            let room = items_rest(arguments, room.checked_sub(2)?)?;
            shown_base_rest(base, name, selector_rest(name, room)?)
        }
        Expr::Call(name, arguments) => {
            let room = room.checked_sub(name.len())?;
            items_rest(arguments, room.checked_sub(2)?)
        }
        Expr::Assign(target, value) => {
            expression(value, operand_rest(target, room.checked_sub(3)?)?)
        }
        Expr::Catch(value, codes, None) => {
            codes_rest(codes, expression(value, room.checked_sub(5)?)?)
        }
        Expr::Catch(value, codes, Some(default)) => {
            let room = codes_rest(codes, expression(value, room.checked_sub(9)?)?)?;
            expression(default, room)
        }
    }
}

/// Subtracts a name after `.` or `:`, with its parentheses.
#[cycle(length)]
fn selector_rest(name: &Expr, room: usize) -> Option<usize>
    ensures { Leaves room (selector_length (constant_name (tree name.now)) (listed_length (tree name.now))) result }
{
    match constant_name(name) {
        Some(text) => room.checked_sub(1)?.checked_sub(text.len()),
        None => expression(name, room.checked_sub(3)?),
    }
}

/// Subtracts the base of a property or a verb, which is left out if the listing has `$` in its place.
#[cycle(length)]
fn shown_base_rest(base: &Expr, name: &Expr, room: usize) -> Option<usize>
    ensures { Leaves room (shown_base_length (constant_name (tree name.now)) (is_system_object (tree base.now)) (length_in_parentheses (is_compound_base (tree base.now)) (listed_length (tree base.now)))) result }
{
    if is_system_object(base) && constant_name(name).is_some() {
        Some(room)
    } else {
        base_rest(base, room)
    }
}

#[cycle(length)]
pub(crate) fn codes_rest(codes: &Codes, room: usize) -> Option<usize>
    ensures { Leaves room (codes_length (codes_of codes.now)) result }
{
    match codes {
        Codes::Any => room.checked_sub(3),
        Codes::Listed(items) => items_rest(items, room),
    }
}

/// Subtracts an operand, with its parentheses.
#[cycle(length)]
fn operand_rest(value: &Expr, room: usize) -> Option<usize>
    ensures { Leaves room (length_in_parentheses (is_compound (tree value.now)) (listed_length (tree value.now))) result }
{
    if is_compound(value) {
        expression(value, room.checked_sub(2)?)
    } else {
        expression(value, room)
    }
}

/// Subtracts the base of an index, a property or a verb, with its parentheses.
#[cycle(length)]
fn base_rest(value: &Expr, room: usize) -> Option<usize>
    ensures { Leaves room (length_in_parentheses (is_compound_base (tree value.now)) (listed_length (tree value.now))) result }
{
    if is_compound_base(value) {
        expression(value, room.checked_sub(2)?)
    } else {
        expression(value, room)
    }
}

#[cycle(length)]
fn items_rest(items: &[Item], room: usize) -> Option<usize>
    ensures { Leaves room (items_length (items_of items.now)) result }
{
    let Some((first, others)) = items.split_first() else {
        return Some(room);
    };
    let mut rest = item_rest(first, room)?;
    for other in others {
        rest = item_rest(other, rest.checked_sub(2)?)?;
    }
    Some(rest)
}

#[cycle(length)]
fn item_rest(item: &Item, room: usize) -> Option<usize>
    ensures { Leaves room (item_length item.now) result }
{
    match item {
        Item::Element(value) => expression(value, room),
        Item::Splice(value) => expression(value, room.checked_sub(1)?),
        Item::Optional(name) => room.checked_sub(1)?.checked_sub(name.len()),
        Item::Defaulted(name, value) => {
            expression(value, room.checked_sub(4)?.checked_sub(name.len())?)
        }
    }
}

fn operator_length(operator: BinaryOperator) -> usize
    ensures is { result ≡ length (binary_sign operator) }
    ensures short { result < 3 }
{
    match operator {
        BinaryOperator::Equal
        | BinaryOperator::NotEqual
        | BinaryOperator::LessOrEqual
        | BinaryOperator::GreaterOrEqual
        | BinaryOperator::In => 2,
        BinaryOperator::Add
        | BinaryOperator::Subtract
        | BinaryOperator::Multiply
        | BinaryOperator::Divide
        | BinaryOperator::Remainder
        | BinaryOperator::Power
        | BinaryOperator::Less
        | BinaryOperator::Greater => 1,
    }
}

fn literal_rest(literal: &Literal, room: usize) -> Option<usize>
    ensures { Leaves room (literal_length literal.now) result }
{
    match literal {
        Literal::Integer(number) => room.checked_sub(number_length(*number)),
        Literal::Object(number) => room.checked_sub(1)?.checked_sub(number_length(*number)),
        Literal::Error(error) => room.checked_sub(error.name().len()),
        Literal::Str(text) => {
            let rest = room.checked_sub(2)?.checked_sub(text.string().len())?;
            rest.checked_sub(escapes(text.string().as_bytes()))
        }
    }
}

fn number_length(number: i32) -> usize
    ensures { result ≡ length (signed_decimal number) }
{
    let mut buffer = Buffer::new();
    buffer.format(number).len()
}

fn is_escaped(byte: u8) -> bool
    ensures { result ≡ is_escaped byte }
{
    byte == b'"' || byte == b'\\'
}

/// Returns how many bytes of a string have a backslash before them in its literal.
fn escapes(bytes: &[u8]) -> usize
    ensures { result ≡ count_by is_escaped bytes.now }
{
    bytes.iter().filter(|byte| is_escaped(**byte)).count()
}
