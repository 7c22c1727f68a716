//! The text of expressions.
ghost use Rattle.std.specs.Prelude.{◌≡◌, ◌++◌, codes, OnOk};
ghost use Rattle.moo_syntax_token.specs.Spelling.{sign_text};
ghost use Rattle.moo_syntax_ast.specs.Tree.{binary, logic, conditional, index, range, list, verb_call, call, assign, catch, catch_or};
ghost use Rattle.moo_syntax_ast.specs.View.{tree, items_of, codes_of};
ghost use Rattle.moo_syntax_ast.specs.Listing.{is_compound, is_compound_base, in_parentheses, constant_name, is_system_object, selected};
ghost use Rattle.moo_unparse.specs.Parts.{needs, operator_part};
ghost use Rattle.moo_unparse.specs.Listings.{listed, listed_items, listed_codes};
ghost use Rattle.moo_unparse.specs.Items.{listed_item};

use crate::form::{Parentheses, Part, operator_part};
use crate::line::Line;
use crate::literal::write_literal;
use crate::operator::{write_binary_operator, write_logic_operator, write_unary_operator};
use moo_syntax_ast::operator::{BinaryOperator, LogicOperator};
use moo_syntax_ast::{Codes, Expr, Item, Name};
use moo_syntax_listing::shape::{constant_name, is_compound, is_compound_base, is_system_object};
use moo_syntax_token::Sign;
use moo_value::MooStr;
use std::alloc::AllocError;

#[cycle(listing)]
pub(crate) fn write_expression(
    parentheses: Parentheses,
    expr: &Expr,
    line: &mut Line,
) -> Result<(), AllocError>
    ensures { OnOk result (line.new ≡ line.old ++ listed parentheses (tree expr.now)) }
{
    match expr {
        Expr::Literal(literal) => write_literal(literal, line),
        Expr::Variable(name) => line.text(name.as_bytes()),
        Expr::Length => line.sign(Sign::Dollar),
        Expr::Unary(operator, operand) => {
            write_unary_operator(*operator, line)?;
            write_operand(parentheses, Part::Sign, operand, line)
        }
        Expr::Binary(operator, left, right) => write_binary(
            parentheses,
            *operator,
            left,
            right,
            line,
        ),
        Expr::Logic(operator, left, right) => write_logic(
            parentheses,
            *operator,
            left,
            right,
            line,
        ),
        Expr::Conditional(test, first, second) => {
            write_conditional(parentheses, test, first, second, line)
        }
        Expr::Index(base, place) => write_index(parentheses, base, place, line),
        Expr::Range(base, low, high) => write_range(parentheses, base, low, high, line),
        Expr::List(items) => write_list(parentheses, items, line),
        Expr::Property(base, name) => write_selected(parentheses, base, Sign::Dot, name, line),
        Expr::VerbCall(base, name, arguments) => write_verb_call(
            parentheses,
            base,
            name,
            arguments,
            line,
        ),
        Expr::Call(name, arguments) => write_call(parentheses, name, arguments, line),
        Expr::Assign(target, value) => write_assignment(parentheses, target, value, line),
        Expr::Catch(value, errors, None) => write_catch(parentheses, value, errors, line),
        Expr::Catch(value, errors, Some(default)) => write_catch_or(
            parentheses,
            value,
            errors,
            default,
            line,
        ),
    }
}

// Writes an expression, in parentheses if they are needed.
#[cycle(listing)]
fn write_in_parentheses(
    parentheses: Parentheses,
    are_needed: bool,
    expr: &Expr,
    line: &mut Line,
) -> Result<(), AllocError>
    ensures { OnOk result (line.new ≡ line.old ++ in_parentheses are_needed (listed parentheses (tree expr.now))) }
{
    if !are_needed {
        return write_expression(parentheses, expr, line);
    }
    line.sign(Sign::LeftParen)?;
    write_expression(parentheses, expr, line)?;
    line.sign(Sign::RightParen)
}

#[cycle(listing)]
fn write_operand(
    parentheses: Parentheses,
    least: Part,
    expr: &Expr,
    line: &mut Line,
) -> Result<(), AllocError>
    ensures { OnOk result (line.new ≡ line.old ++ in_parentheses (needs parentheses least (tree expr.now)) (listed parentheses (tree expr.now))) }
{
    write_in_parentheses(parentheses, parentheses.needs(least, expr), expr, line)
}

#[cycle(listing)]
fn write_base(parentheses: Parentheses, expr: &Expr, line: &mut Line) -> Result<(), AllocError>
    ensures { OnOk result (line.new ≡ line.old ++ in_parentheses (is_compound_base (tree expr.now)) (listed parentheses (tree expr.now))) }
{
    write_in_parentheses(parentheses, is_compound_base(expr), expr, line)
}

#[cycle(listing)]
fn write_binary(
    parentheses: Parentheses,
    operator: BinaryOperator,
    left: &Expr,
    right: &Expr,
    line: &mut Line,
) -> Result<(), AllocError>
    ensures { OnOk result (line.new ≡ line.old ++ listed parentheses (binary operator (tree left.now) (tree right.now))) }
{
    let part = operator_part(operator);
    write_operand(parentheses, part.left(), left, line)?;
    line.blank()?;
    write_binary_operator(operator, line)?;
    line.blank()?;
    write_operand(parentheses, part.right(), right, line)
}

#[cycle(listing)]
fn write_logic(
    parentheses: Parentheses,
    operator: LogicOperator,
    left: &Expr,
    right: &Expr,
    line: &mut Line,
) -> Result<(), AllocError>
    ensures { OnOk result (line.new ≡ line.old ++ listed parentheses (logic operator (tree left.now) (tree right.now))) }
{
    write_operand(parentheses, Part::Logic.left(), left, line)?;
    line.blank()?;
    write_logic_operator(operator, line)?;
    line.blank()?;
    write_operand(parentheses, Part::Logic.right(), right, line)
}

#[cycle(listing)]
fn write_conditional(
    parentheses: Parentheses,
    test: &Expr,
    first: &Expr,
    second: &Expr,
    line: &mut Line,
) -> Result<(), AllocError>
    ensures { OnOk result (line.new ≡ line.old ++ listed parentheses (conditional (tree test.now) (tree first.now) (tree second.now))) }
{
    write_operand(parentheses, Part::Logic, test, line)?;
    line.spaced_sign(Sign::Question)?;
    write_operand(parentheses, Part::Assignment, first, line)?;
    line.spaced_sign(Sign::Pipe)?;
    write_operand(parentheses, Part::Conditional, second, line)
}

#[cycle(listing)]
fn write_index(
    parentheses: Parentheses,
    base: &Expr,
    place: &Expr,
    line: &mut Line,
) -> Result<(), AllocError>
    ensures { OnOk result (line.new ≡ line.old ++ listed parentheses (index (tree base.now) (tree place.now))) }
{
    write_base(parentheses, base, line)?;
    line.sign(Sign::LeftBracket)?;
    write_expression(parentheses, place, line)?;
    line.sign(Sign::RightBracket)
}

#[cycle(listing)]
fn write_range(
    parentheses: Parentheses,
    base: &Expr,
    low: &Expr,
    high: &Expr,
    line: &mut Line,
) -> Result<(), AllocError>
    ensures { OnOk result (line.new ≡ line.old ++ listed parentheses (range (tree base.now) (tree low.now) (tree high.now))) }
{
    write_base(parentheses, base, line)?;
    line.sign(Sign::LeftBracket)?;
    write_expression(parentheses, low, line)?;
    line.sign(Sign::DotDot)?;
    write_expression(parentheses, high, line)?;
    line.sign(Sign::RightBracket)
}

#[cycle(listing)]
fn write_list(parentheses: Parentheses, items: &[Item], line: &mut Line) -> Result<(), AllocError>
    ensures { OnOk result (line.new ≡ line.old ++ listed parentheses (list (items_of items.now))) }
{
    line.sign(Sign::LeftBrace)?;
    write_items(parentheses, items, line)?;
    line.sign(Sign::RightBrace)
}

// Writes a property or a verb of the base, after this sign.
#[cycle(listing)]
fn write_selected(
    parentheses: Parentheses,
    base: &Expr,
    sign: Sign,
    name: &Expr,
    line: &mut Line,
) -> Result<(), AllocError>
    ensures { OnOk result (line.new ≡ line.old ++ selected (sign_text sign) (constant_name (tree name.now)) (is_system_object (tree base.now)) (in_parentheses (is_compound_base (tree base.now)) (listed parentheses (tree base.now))) (listed parentheses (tree name.now))) }
{
    match constant_name(name) {
        Some(text) if is_system_object(base) => {
            line.sign(Sign::Dollar)?;
            line.text(text.as_bytes())
        }
        Some(text) => {
            write_base(parentheses, base, line)?;
            line.sign(sign)?;
            line.text(text.as_bytes())
        }
        None => {
            write_base(parentheses, base, line)?;
            line.sign(sign)?;
            line.sign(Sign::LeftParen)?;
            write_expression(parentheses, name, line)?;
            line.sign(Sign::RightParen)
        }
    }
}

#[cycle(listing)]
fn write_verb_call(
    parentheses: Parentheses,
    base: &Expr,
    name: &Expr,
    arguments: &[Item],
    line: &mut Line,
) -> Result<(), AllocError>
    ensures { OnOk result (line.new ≡ line.old ++ listed parentheses (verb_call (tree base.now) (tree name.now) (items_of arguments.now))) }
{
    write_selected(parentheses, base, Sign::Colon, name, line)?;
    write_arguments(parentheses, arguments, line)
}

#[cycle(listing)]
fn write_call(
    parentheses: Parentheses,
    name: &MooStr,
    arguments: &[Item],
    line: &mut Line,
) -> Result<(), AllocError>
    ensures { OnOk result (line.new ≡ line.old ++ listed parentheses (call name.now (items_of arguments.now))) }
{
    line.text(name.as_bytes())?;
    write_arguments(parentheses, arguments, line)
}

#[cycle(listing)]
fn write_arguments(
    parentheses: Parentheses,
    arguments: &[Item],
    line: &mut Line,
) -> Result<(), AllocError>
    ensures { OnOk result (line.new ≡ line.old ++ codes "(" ++ listed_items parentheses (items_of arguments.now) ++ codes ")") }
{
    line.sign(Sign::LeftParen)?;
    write_items(parentheses, arguments, line)?;
    line.sign(Sign::RightParen)
}

#[cycle(listing)]
fn write_assignment(
    parentheses: Parentheses,
    target: &Expr,
    value: &Expr,
    line: &mut Line,
) -> Result<(), AllocError>
    ensures { OnOk result (line.new ≡ line.old ++ listed parentheses (assign (tree target.now) (tree value.now))) }
{
    write_in_parentheses(parentheses, is_compound(target), target, line)?;
    line.spaced_sign(Sign::Assign)?;
    write_expression(parentheses, value, line)
}

#[cycle(listing)]
fn write_catch(
    parentheses: Parentheses,
    value: &Expr,
    errors: &Codes,
    line: &mut Line,
) -> Result<(), AllocError>
    ensures { OnOk result (line.new ≡ line.old ++ listed parentheses (catch (tree value.now) (codes_of errors.now))) }
{
    write_caught(parentheses, value, errors, line)?;
    line.sign(Sign::Quote)
}

#[cycle(listing)]
fn write_catch_or(
    parentheses: Parentheses,
    value: &Expr,
    errors: &Codes,
    default: &Expr,
    line: &mut Line,
) -> Result<(), AllocError>
    ensures { OnOk result (line.new ≡ line.old ++ listed parentheses (catch_or (tree value.now) (codes_of errors.now) (tree default.now))) }
{
    write_caught(parentheses, value, errors, line)?;
    line.spaced_sign(Sign::Arrow)?;
    write_expression(parentheses, default, line)?;
    line.sign(Sign::Quote)
}

// Writes a catch up to the errors that it names.
#[cycle(listing)]
fn write_caught(
    parentheses: Parentheses,
    value: &Expr,
    errors: &Codes,
    line: &mut Line,
) -> Result<(), AllocError>
    ensures { OnOk result (line.new ≡ line.old ++ codes "`" ++ listed parentheses (tree value.now) ++ codes " ! " ++ listed_codes parentheses (codes_of errors.now)) }
{
    line.sign(Sign::Backquote)?;
    write_expression(parentheses, value, line)?;
    line.spaced_sign(Sign::Bang)?;
    write_codes(parentheses, errors, line)
}

#[cycle(listing)]
pub(crate) fn write_codes(
    parentheses: Parentheses,
    errors: &Codes,
    line: &mut Line,
) -> Result<(), AllocError>
    ensures { OnOk result (line.new ≡ line.old ++ listed_codes parentheses (codes_of errors.now)) }
{
    match errors {
        Codes::Any => line.any(),
        Codes::Listed(items) => write_items(parentheses, items, line),
    }
}

#[cycle(listing)]
fn write_items(parentheses: Parentheses, items: &[Item], line: &mut Line) -> Result<(), AllocError>
    ensures { OnOk result (line.new ≡ line.old ++ listed_items parentheses (items_of items.now)) }
{
    let Some((first, others)) = items.split_first() else {
        return Ok(());
    };
    write_item(parentheses, first, line)?;
    for item in others {
        line.sign(Sign::Comma)?;
        line.blank()?;
        write_item(parentheses, item, line)?;
    }
    Ok(())
}

#[cycle(listing)]
fn write_item(parentheses: Parentheses, item: &Item, line: &mut Line) -> Result<(), AllocError>
    ensures { OnOk result (line.new ≡ line.old ++ listed_item parentheses item.now) }
{
    match item {
        Item::Element(expr) => write_expression(parentheses, expr, line),
        Item::Splice(expr) => {
            line.sign(Sign::At)?;
            write_expression(parentheses, expr, line)
        }
        Item::Optional(name) => write_optional(name, line),
        Item::Defaulted(name, default) => {
            write_optional(name, line)?;
            line.spaced_sign(Sign::Assign)?;
            write_expression(parentheses, default, line)
        }
    }
}

fn write_optional(name: &Name, line: &mut Line) -> Result<(), AllocError>
    ensures { OnOk result (line.new ≡ line.old ++ codes "?" ++ name.now) }
{
    line.sign(Sign::Question)?;
    line.text(name.as_bytes())
}
