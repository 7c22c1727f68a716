//! The check that the lines of the full listing fit strings.
ghost use Rattle.std.specs.Prelude.{◌≡◌, ◌+◌, ◌↔◌, Some, None, IsTrue, length};
ghost use Rattle.moo_syntax_ast.specs.View.{tree, codes_of, statement as tree_of, block, arms_of, handlers_of};
ghost use Rattle.moo_syntax_ast.specs.Listing.{head, elseif_head, except_head, listing};
ghost use Rattle.moo_syntax_listing.specs.Length.{Leaves, codes_length, label_length, head_length, fits, block_fits, below_fits, arms_fit, handlers_fit, handler_fits};
ghost use Rattle.moo_syntax_ast.specs.Limits.{AllFit};

use crate::length::{codes_rest, expression};
use moo_syntax_ast::{Arm, Codes, Expr, Handler, Name, Stmt};
use moo_value::{MooStr, WEIGHT_LIMIT};

/// The greatest number of bytes of a line.
const ROOM: usize = WEIGHT_LIMIT as usize - 1;

/// Is true if each line of the full listing fits a string.
pub fn fit_lines(statements: &[Stmt]) -> bool
    ensures { IsTrue result ↔ AllFit (listing (block statements.now)) }
{
    block_fits(statements)
}

#[cycle(lines)]
fn block_fits(statements: &[Stmt]) -> bool
    ensures { result ≡ block_fits (block statements.now) }
{
    for statement in statements {
        if !head_fits(statement) || !below_fits(statement) {
            return false;
        }
    }
    true
}

#[cycle(lines)]
fn below_fits(statement: &Stmt) -> bool
    ensures { result ≡ below_fits (tree_of statement.now) }
{
    match statement {
        Stmt::If(_, body, arms) => block_fits(body) && arms_fit(arms),
        Stmt::ForList(_, _, body) => block_fits(body),
        Stmt::ForRange(_, _, _, body) => block_fits(body),
        Stmt::While(_, _, body) => block_fits(body),
        Stmt::TryExcept(body, handlers) => block_fits(body) && handlers_fit(handlers),
        Stmt::TryFinally(body, cleanup) => block_fits(body) && block_fits(cleanup),
        Stmt::Return(_) | Stmt::Expression(_) | Stmt::Break(_) | Stmt::Continue(_) => true,
    }
}

/// Is true if the lines of the further arms of an `if` fit strings.
#[cycle(lines)]
fn arms_fit(arms: &[Arm]) -> bool
    ensures { result ≡ arms_fit (arms_of arms.now) }
{
    for arm in arms {
        match arm {
            Arm::ElseIf(condition, body) => {
                if !elseif_fits(condition) {
                    return false;
                }
                if !block_fits(body) {
                    return false;
                }
            }
            Arm::Else(body) => return block_fits(body),
        }
    }
    true
}

#[cycle(lines)]
fn handlers_fit(handlers: &[Handler]) -> bool
    ensures { result ≡ handlers_fit (handlers_of handlers.now) }
{
    for handler in handlers {
        if !handler_fits(handler) {
            return false;
        }
    }
    true
}

#[cycle(lines)]
fn handler_fits(handler: &Handler) -> bool
    ensures { result ≡ handler_fits handler.now }
{
    match handler {
        Handler::Except(codes, body) => except_fits(codes) && block_fits(body),
        Handler::ExceptAs(name, codes, body) => except_as_fits(name, codes) && block_fits(body),
    }
}

fn elseif_fits(condition: &Expr) -> bool
    ensures { result ≡ fits (elseif_head (tree condition.now)) }
{
    expression(condition, ROOM - 9).is_some()
}

fn except_fits(codes: &Codes) -> bool
    ensures { result ≡ fits (except_head None (codes_of codes.now)) }
{
    codes_rest(codes, ROOM - 9).is_some()
}

fn except_as_fits(name: &Name, codes: &Codes) -> bool
    ensures { result ≡ fits (except_head (Some name.now) (codes_of codes.now)) }
{
    except_as_rest(name, codes, ROOM).is_some()
}

fn except_as_rest(name: &Name, codes: &Codes, room: usize) -> Option<usize>
    ensures { Leaves room (10 + length name.now + codes_length (codes_of codes.now)) result }
{
    codes_rest(codes, room.checked_sub(10)?.checked_sub(name.len())?)
}

/// Is true if the first line of the statement fits a string.
fn head_fits(statement: &Stmt) -> bool
    ensures { result ≡ fits (head (tree_of statement.now)) }
{
    head_rest(statement, ROOM).is_some()
}

fn head_rest(statement: &Stmt, room: usize) -> Option<usize>
    ensures { Leaves room (head_length (tree_of statement.now)) result }
{
    match statement {
        Stmt::Return(None) => room.checked_sub(7),
        Stmt::Return(Some(value)) => expression(value, room.checked_sub(8)?),
        Stmt::Expression(value) => expression(value, room.checked_sub(1)?),
        Stmt::If(condition, ..) => expression(condition, room.checked_sub(5)?),
        Stmt::ForList(name, list, _) => {
            expression(list, room.checked_sub(10)?.checked_sub(name.len())?)
        }
        Stmt::ForRange(name, low, high, _) => {
            let room = room.checked_sub(12)?.checked_sub(name.len())?;
            expression(high, expression(low, room)?)
        }
        Stmt::While(name, condition, _) => {
            expression(condition, label_rest(name, room.checked_sub(8)?)?)
        }
        Stmt::Break(name) => label_rest(name, room.checked_sub(6)?),
        Stmt::Continue(name) => label_rest(name, room.checked_sub(9)?),
        Stmt::TryExcept(..) | Stmt::TryFinally(..) => room.checked_sub(3),
    }
}

/// Subtracts a loop's name, if there is one, and the blank before it.
fn label_rest(name: &Option<MooStr>, room: usize) -> Option<usize>
    ensures { Leaves room (label_length name.now) result }
{
    match name {
        None => Some(room),
        Some(name) => room.checked_sub(1)?.checked_sub(name.len()),
    }
}
