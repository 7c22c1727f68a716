//! The occurrences of variables in a program.
ghost use Rattle.std.specs.Prelude.{◌≡◌, ◌++◌, ◌∷◌, [], OnOk};
ghost use Rattle.moo_syntax_ast.specs.Tree.{verb_call, catch, catch_or};
ghost use Rattle.moo_syntax_ast.specs.View.{tree, items_of, codes_of, statement as tree_of, block, arms_of, handlers_of};
ghost use Rattle.moo_syntax_ast.specs.Slots.{variables, items_variables, item_variables, codes_variables, statement_variables, arms_variables, handlers_variables, handler_variables, block_variables};

use moo_syntax_ast::{Arm, Codes, Expr, Handler, Item, Name, Stmt};
use moo_value::MooStr;
use std::alloc::AllocError;

fn add_name(name: &Name, names: &mut Vec<MooStr>) -> Result<(), AllocError>
    ensures { OnOk result (names.new.items ≡ names.old.items ++ name.now ∷ []) }
{
    names.push(name.text().try_clone()?)?;
    Ok(())
}

#[cycle(variables)]
fn add_expression(value: &Expr, names: &mut Vec<MooStr>) -> Result<(), AllocError>
    ensures { OnOk result (names.new.items ≡ names.old.items ++ variables (tree value.now)) }
{
    match value {
        Expr::Literal(_) | Expr::Length => Ok(()),
        Expr::Variable(name) => add_name(name, names),
        Expr::Unary(_, operand) => add_expression(operand, names),
        Expr::Binary(_, first, second)
        | Expr::Logic(_, first, second)
        | Expr::Index(first, second)
        | Expr::Property(first, second)
        | Expr::Assign(first, second) => {
            add_expression(first, names)?;
            add_expression(second, names)
        }
        Expr::Conditional(first, second, third) | Expr::Range(first, second, third) => {
            add_expression(first, names)?;
            add_expression(second, names)?;
            add_expression(third, names)
        }
        Expr::List(items) => add_items(items, names),
        Expr::VerbCall(base, name, arguments) => add_verb_call(base, name, arguments, names),
        Expr::Call(_, arguments) => add_items(arguments, names),
        Expr::Catch(value, errors, None) => add_catch(value, errors, names),
        Expr::Catch(value, errors, Some(default)) => add_catch_or(value, errors, default, names),
    }
}

#[cycle(variables)]
fn add_verb_call(
    base: &Expr,
    name: &Expr,
    arguments: &[Item],
    names: &mut Vec<MooStr>,
) -> Result<(), AllocError>
    ensures { OnOk result (names.new.items ≡ names.old.items ++ variables (verb_call (tree base.now) (tree name.now) (items_of arguments.now))) }
{
    add_expression(base, names)?;
    add_expression(name, names)?;
    add_items(arguments, names)
}

#[cycle(variables)]
fn add_catch(value: &Expr, errors: &Codes, names: &mut Vec<MooStr>) -> Result<(), AllocError>
    ensures { OnOk result (names.new.items ≡ names.old.items ++ variables (catch (tree value.now) (codes_of errors.now))) }
{
    add_expression(value, names)?;
    add_codes(errors, names)
}

#[cycle(variables)]
fn add_catch_or(
    value: &Expr,
    errors: &Codes,
    default: &Expr,
    names: &mut Vec<MooStr>,
) -> Result<(), AllocError>
    ensures { OnOk result (names.new.items ≡ names.old.items ++ variables (catch_or (tree value.now) (codes_of errors.now) (tree default.now))) }
{
    add_catch(value, errors, names)?;
    add_expression(default, names)
}

#[cycle(variables)]
fn add_codes(errors: &Codes, names: &mut Vec<MooStr>) -> Result<(), AllocError>
    ensures { OnOk result (names.new.items ≡ names.old.items ++ codes_variables (codes_of errors.now)) }
{
    match errors {
        Codes::Any => Ok(()),
        Codes::Listed(items) => add_items(items, names),
    }
}

#[cycle(variables)]
fn add_items(items: &[Item], names: &mut Vec<MooStr>) -> Result<(), AllocError>
    ensures { OnOk result (names.new.items ≡ names.old.items ++ items_variables (items_of items.now)) }
{
    for item in items {
        add_item(item, names)?;
    }
    Ok(())
}

#[cycle(variables)]
fn add_item(item: &Item, names: &mut Vec<MooStr>) -> Result<(), AllocError>
    ensures { OnOk result (names.new.items ≡ names.old.items ++ item_variables item.now) }
{
    match item {
        Item::Element(value) | Item::Splice(value) => add_expression(value, names),
        Item::Optional(name) => add_name(name, names),
        Item::Defaulted(name, default) => {
            add_name(name, names)?;
            add_expression(default, names)
        }
    }
}

/// Appends the occurrences of variables in the statements, in the order of the program's text.
#[cycle(statements)]
pub(crate) fn add_block(statements: &[Stmt], names: &mut Vec<MooStr>) -> Result<(), AllocError>
    ensures { OnOk result (names.new.items ≡ names.old.items ++ block_variables (block statements.now)) }
{
    for statement in statements {
        add_statement(statement, names)?;
    }
    Ok(())
}

#[cycle(statements)]
fn add_statement(statement: &Stmt, names: &mut Vec<MooStr>) -> Result<(), AllocError>
    ensures { OnOk result (names.new.items ≡ names.old.items ++ statement_variables (tree_of statement.now)) }
{
    match statement {
        Stmt::Return(None) | Stmt::Break(_) | Stmt::Continue(_) => Ok(()),
        Stmt::Return(Some(value)) => add_expression(value, names),
        Stmt::Expression(value) => add_expression(value, names),
        Stmt::If(condition, body, arms) => {
            add_expression(condition, names)?;
            add_block(body, names)?;
            add_arms(arms, names)
        }
        Stmt::ForList(name, list, body) => {
            add_name(name, names)?;
            add_expression(list, names)?;
            add_block(body, names)
        }
        Stmt::ForRange(name, low, high, body) => {
            add_name(name, names)?;
            add_expression(low, names)?;
            add_expression(high, names)?;
            add_block(body, names)
        }
        Stmt::While(_, condition, body) => {
            add_expression(condition, names)?;
            add_block(body, names)
        }
        Stmt::TryExcept(body, handlers) => {
            add_block(body, names)?;
            add_handlers(handlers, names)
        }
        Stmt::TryFinally(body, cleanup) => {
            add_block(body, names)?;
            add_block(cleanup, names)
        }
    }
}

#[cycle(statements)]
fn add_arms(arms: &[Arm], names: &mut Vec<MooStr>) -> Result<(), AllocError>
    ensures { OnOk result (names.new.items ≡ names.old.items ++ arms_variables (arms_of arms.now)) }
{
    for arm in arms {
        match arm {
            Arm::ElseIf(condition, body) => {
                add_expression(condition, names)?;
                add_block(body, names)?;
            }
            Arm::Else(body) => return add_block(body, names),
        }
    }
    Ok(())
}

#[cycle(statements)]
fn add_handlers(handlers: &[Handler], names: &mut Vec<MooStr>) -> Result<(), AllocError>
    ensures { OnOk result (names.new.items ≡ names.old.items ++ handlers_variables (handlers_of handlers.now)) }
{
    for handler in handlers {
        add_handler(handler, names)?;
    }
    Ok(())
}

#[cycle(statements)]
fn add_handler(handler: &Handler, names: &mut Vec<MooStr>) -> Result<(), AllocError>
    ensures { OnOk result (names.new.items ≡ names.old.items ++ handler_variables handler.now) }
{
    match handler {
        Handler::Except(errors, body) => {
            add_codes(errors, names)?;
            add_block(body, names)
        }
        Handler::ExceptAs(name, errors, body) => {
            add_name(name, names)?;
            add_codes(errors, names)?;
            add_block(body, names)
        }
    }
}
