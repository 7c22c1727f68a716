//! Lowers statements.
ghost use Rattle.std.specs.Prelude.{◌≡◌, IfOk};
ghost use Rattle.moo_syntax_ast.specs.Tree.{Handlers};
ghost use Rattle.moo_syntax_ast.specs.View.{statement as statement_of, block, arms_of, with_handler, handlers_of};
ghost use Rattle.moo_syntax_node.specs.Blocks.{source_statement, source_block, source_arm_list, source_handler_list, with_source_handler};

use crate::assignment::lower_alone;
use crate::expression::{copied_name, lower_boxed};
use crate::item::lower_codes;
use moo_syntax_ast::{Arm, Handler, Stmt};
use moo_syntax_node::{NodeArm, NodeHandler, NodeStmt};
use moo_value::MooStr;
use std::alloc::{AllocError, Global};

/// Returns the lowered statements of a program's statements, in order. Err is out of memory.
#[cycle(block)]
pub fn lower_block(alloc: Global, statements: &[Stmt]) -> Result<Vec<NodeStmt>, AllocError>
    ensures { IfOk result (λ nodes. source_block nodes.items ≡ block statements.now) }
{
    let mut nodes = Vec::with_capacity(alloc, statements.len())?;
    for statement in statements {
        let node = lower_statement(alloc, statement)?;
        nodes.push(node)?;
    }
    Ok(nodes)
}

#[cycle(block)]
fn lower_statement(alloc: Global, statement: &Stmt) -> Result<NodeStmt, AllocError>
    ensures { IfOk result (λ node. source_statement node ≡ statement_of statement.now) }
{
    match statement {
        Stmt::Return(None) => Ok(NodeStmt::Return(None)),
        Stmt::Return(Some(value)) => { Ok(NodeStmt::Return(Some(lower_boxed(alloc, value)?))) }
        Stmt::Expression(value) => lower_alone(alloc, value),
        Stmt::If(test, body, arms) => Ok(NodeStmt::If(
            lower_boxed(alloc, test)?,
            lower_block(alloc, body)?,
            lower_arms(alloc, arms)?,
        )),
        Stmt::ForList(name, list, body) => Ok(NodeStmt::ForList(
            copied_name(name)?,
            lower_boxed(alloc, list)?,
            lower_block(alloc, body)?,
        )),
        Stmt::ForRange(name, low, high, body) => Ok(NodeStmt::ForRange(
            copied_name(name)?,
            lower_boxed(alloc, low)?,
            lower_boxed(alloc, high)?,
            lower_block(alloc, body)?,
        )),
        Stmt::While(name, test, body) => Ok(NodeStmt::While(
            copied_label(name)?,
            lower_boxed(alloc, test)?,
            lower_block(alloc, body)?,
        )),
        Stmt::Break(name) => Ok(NodeStmt::Break(copied_label(name)?)),
        Stmt::Continue(name) => Ok(NodeStmt::Continue(copied_label(name)?)),
        Stmt::TryExcept(body, handlers) => Ok(NodeStmt::TryExcept(
            lower_block(alloc, body)?,
            lower_handlers(alloc, handlers)?,
        )),
        Stmt::TryFinally(body, cleanup) => Ok(NodeStmt::TryFinally(
            lower_block(alloc, body)?,
            lower_block(alloc, cleanup)?,
        )),
    }
}

// Returns a copy of a loop's name, if it has one.
fn copied_label(name: &Option<MooStr>) -> Result<Option<MooStr>, AllocError>
    ensures { IfOk result (λ copy. copy ≡ name.now) }
{
    match name {
        Some(name) => Ok(Some(name.try_clone()?)),
        None => Ok(None),
    }
}

// Lowers the further arms of an `if`, up to the first `else`.
#[cycle(block)]
fn lower_arms(alloc: Global, arms: &[Arm]) -> Result<Vec<NodeArm>, AllocError>
    ensures { IfOk result (λ nodes. source_arm_list nodes.items ≡ arms_of arms.now) }
{
    let mut nodes = Vec::new(alloc);
    for arm in arms {
        match arm {
            Arm::ElseIf(test, body) => {
                let test = lower_boxed(alloc, test)?;
                let body = lower_block(alloc, body)?;
                nodes.push(NodeArm::ElseIf(test, body))?;
            }
            Arm::Else(body) => {
                let body = lower_block(alloc, body)?;
                nodes.push(NodeArm::Else(body))?;
                return Ok(nodes);
            }
        }
    }
    Ok(nodes)
}

#[cycle(block)]
fn lower_handlers(alloc: Global, handlers: &[Handler]) -> Result<Vec<NodeHandler>, AllocError>
    ensures { IfOk result (λ nodes. source_handler_list nodes.items ≡ handlers_of handlers.now) }
{
    let mut nodes = Vec::with_capacity(alloc, handlers.len())?;
    for handler in handlers {
        let node = lower_handler(alloc, handler)?;
        nodes.push(node)?;
    }
    Ok(nodes)
}

#[cycle(block)]
fn lower_handler(alloc: Global, handler: &Handler) -> Result<NodeHandler, AllocError>
    ensures { IfOk result (λ node. (rest : Handlers) → with_source_handler node rest ≡ with_handler handler.now rest) }
{
    match handler {
        Handler::Except(codes, body) => {
            let codes = lower_codes(alloc, codes)?;
            let body = lower_block(alloc, body)?;
            Ok(NodeHandler::Except(codes, body))
        }
        Handler::ExceptAs(name, codes, body) => {
            let name = copied_name(name)?;
            let codes = lower_codes(alloc, codes)?;
            let body = lower_block(alloc, body)?;
            Ok(NodeHandler::ExceptAs(name, codes, body))
        }
    }
}
