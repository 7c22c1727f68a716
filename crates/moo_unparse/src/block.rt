//! The lines of statements.
ghost use Rattle.std.specs.Prelude.{◌≡◌, ◌++◌, ◌∷◌, [], IfOk, OnOk};
ghost use Rattle.moo_syntax_token.specs.Words.{keyword_text};
ghost use Rattle.moo_syntax_ast.specs.View.{statement as tree_of, block, arms_of, handlers_of};
ghost use Rattle.moo_unparse.specs.Lines.{handler_lines};
ghost use Rattle.moo_unparse.specs.Listings.{deeper, below, lines as listed_lines, arm_lines, handlers_lines};

use crate::form::Form;
use crate::head::{elseif_line, except_as_line, except_line, head_line, keyword_line};
use crate::line::Line;
use moo_syntax_ast::{Arm, Handler, Stmt};
use moo_syntax_token::Keyword;
use std::alloc::{AllocError, Global};

// Returns the margin of the lines within a statement that has this margin.
fn deeper(alloc: Global, form: Form, margin: &Line) -> Result<Line, AllocError>
    ensures { IfOk result (λ line. line ≡ deeper form margin.now) }
{
    let mut line = margin.try_clone(alloc)?;
    if form.indent {
        line.text(b"  ")?;
    }
    Ok(line)
}

/// Writes the lines of statements, each after the margin.
#[cycle(lines)]
pub(crate) fn write_block(
    alloc: Global,
    form: Form,
    margin: &Line,
    statements: &[Stmt],
    lines: &mut Vec<Line>,
) -> Result<(), AllocError>
    ensures { OnOk result (lines.new.items ≡ lines.old.items ++ listed_lines form margin.now (block statements.now)) }
{
    for statement in statements {
        lines.push(head_line(alloc, form.parentheses, margin, statement)?)?;
        write_below(alloc, form, margin, statement, lines)?;
    }
    Ok(())
}

#[cycle(lines)]
fn write_below(
    alloc: Global,
    form: Form,
    margin: &Line,
    statement: &Stmt,
    lines: &mut Vec<Line>,
) -> Result<(), AllocError>
    ensures { OnOk result (lines.new.items ≡ lines.old.items ++ below form margin.now (tree_of statement.now)) }
{
    match statement {
        Stmt::If(_, body, arms) => {
            write_within(alloc, form, margin, body, lines)?;
            write_arms(alloc, form, margin, arms, lines)
        }
        Stmt::ForList(_, _, body) => write_body(alloc, form, margin, body, Keyword::EndFor, lines),
        Stmt::ForRange(_, _, _, body) => write_body(
            alloc,
            form,
            margin,
            body,
            Keyword::EndFor,
            lines,
        ),
        Stmt::While(_, _, body) => write_body(alloc, form, margin, body, Keyword::EndWhile, lines),
        Stmt::TryExcept(body, handlers) => {
            write_within(alloc, form, margin, body, lines)?;
            write_handlers(alloc, form, margin, handlers, lines)
        }
        Stmt::TryFinally(body, cleanup) => {
            write_body(alloc, form, margin, body, Keyword::Finally, lines)?;
            write_body(alloc, form, margin, cleanup, Keyword::EndTry, lines)
        }
        Stmt::Return(_) | Stmt::Expression(_) | Stmt::Break(_) | Stmt::Continue(_) => Ok(()),
    }
}

// Writes statements within another, with two more blanks before their lines if the form indents.
#[cycle(lines)]
fn write_within(
    alloc: Global,
    form: Form,
    margin: &Line,
    statements: &[Stmt],
    lines: &mut Vec<Line>,
) -> Result<(), AllocError>
    ensures { OnOk result (lines.new.items ≡ lines.old.items ++ listed_lines form (deeper form margin.now) (block statements.now)) }
{
    let deeper = deeper(alloc, form, margin)?;
    write_block(alloc, form, &deeper, statements, lines)
}

// Writes statements, and after them the line of a keyword.
#[cycle(lines)]
fn write_body(
    alloc: Global,
    form: Form,
    margin: &Line,
    body: &[Stmt],
    end: Keyword,
    lines: &mut Vec<Line>,
) -> Result<(), AllocError>
    ensures { OnOk result (lines.new.items ≡ lines.old.items ++ (listed_lines form (deeper form margin.now) (block body.now) ++ (margin.now ++ keyword_text end) ∷ [])) }
{
    write_within(alloc, form, margin, body, lines)?;
    lines.push(keyword_line(alloc, margin, end)?)?;
    Ok(())
}

#[cycle(lines)]
fn write_arms(
    alloc: Global,
    form: Form,
    margin: &Line,
    arms: &[Arm],
    lines: &mut Vec<Line>,
) -> Result<(), AllocError>
    ensures { OnOk result (lines.new.items ≡ lines.old.items ++ arm_lines form margin.now (arms_of arms.now)) }
{
    for arm in arms {
        match arm {
            Arm::ElseIf(condition, body) => {
                lines.push(elseif_line(alloc, form.parentheses, margin, condition)?)?;
                write_within(alloc, form, margin, body, lines)?;
            }
            Arm::Else(body) => {
                lines.push(keyword_line(alloc, margin, Keyword::Else)?)?;
                return write_body(alloc, form, margin, body, Keyword::EndIf, lines);
            }
        }
    }
    lines.push(keyword_line(alloc, margin, Keyword::EndIf)?)?;
    Ok(())
}

#[cycle(lines)]
fn write_handlers(
    alloc: Global,
    form: Form,
    margin: &Line,
    handlers: &[Handler],
    lines: &mut Vec<Line>,
) -> Result<(), AllocError>
    ensures { OnOk result (lines.new.items ≡ lines.old.items ++ handlers_lines form margin.now (handlers_of handlers.now)) }
{
    for handler in handlers {
        write_handler(alloc, form, margin, handler, lines)?;
    }
    lines.push(keyword_line(alloc, margin, Keyword::EndTry)?)?;
    Ok(())
}

#[cycle(lines)]
fn write_handler(
    alloc: Global,
    form: Form,
    margin: &Line,
    handler: &Handler,
    lines: &mut Vec<Line>,
) -> Result<(), AllocError>
    ensures { OnOk result (lines.new.items ≡ lines.old.items ++ handler_lines form margin.now handler.now) }
{
    match handler {
        Handler::Except(errors, body) => {
            lines.push(except_line(alloc, form.parentheses, margin, errors)?)?;
            write_within(alloc, form, margin, body, lines)
        }
        Handler::ExceptAs(name, errors, body) => {
            lines.push(except_as_line(alloc, form.parentheses, margin, name, errors)?)?;
            write_within(alloc, form, margin, body, lines)
        }
    }
}
