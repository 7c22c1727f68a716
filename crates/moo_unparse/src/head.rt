//! The first lines of statements, arms and handlers.
ghost use Rattle.std.specs.Prelude.{◌≡◌, ◌++◌, codes, Some, None, IfOk, OnOk};
ghost use Rattle.moo_syntax_token.specs.Words.{keyword_text};
ghost use Rattle.moo_syntax_ast.specs.View.{tree, codes_of, statement as tree_of};
ghost use Rattle.moo_syntax_ast.specs.Listing.{labelled};
ghost use Rattle.moo_unparse.specs.Listings.{listed, listed_codes, head, elseif_head, except_head};

use crate::expression::{write_codes, write_expression};
use crate::form::Parentheses;
use crate::line::Line;
use moo_syntax_ast::{Codes, Expr, Name, Stmt};
use moo_syntax_token::{Keyword, Sign};
use moo_value::MooStr;
use std::alloc::{AllocError, Global};

/// Returns the line of a keyword alone.
pub(crate) fn keyword_line(
    alloc: Global,
    margin: &Line,
    keyword: Keyword,
) -> Result<Line, AllocError>
    ensures { IfOk result (λ line. line ≡ margin.now ++ keyword_text keyword) }
{
    let mut line = margin.begin(alloc)?;
    line.keyword(keyword)?;
    Ok(line)
}

pub(crate) fn head_line(
    alloc: Global,
    parentheses: Parentheses,
    margin: &Line,
    statement: &Stmt,
) -> Result<Line, AllocError>
    ensures { IfOk result (λ line. line ≡ margin.now ++ head parentheses (tree_of statement.now)) }
{
    let mut line = margin.begin(alloc)?;
    write_head(parentheses, statement, &mut line)?;
    Ok(line)
}

pub(crate) fn elseif_line(
    alloc: Global,
    parentheses: Parentheses,
    margin: &Line,
    condition: &Expr,
) -> Result<Line, AllocError>
    ensures { IfOk result (λ line. line ≡ margin.now ++ elseif_head parentheses (tree condition.now)) }
{
    let mut line = margin.begin(alloc)?;
    line.keyword(Keyword::ElseIf)?;
    write_condition(parentheses, condition, &mut line)?;
    Ok(line)
}

pub(crate) fn except_line(
    alloc: Global,
    parentheses: Parentheses,
    margin: &Line,
    errors: &Codes,
) -> Result<Line, AllocError>
    ensures { IfOk result (λ line. line ≡ margin.now ++ except_head parentheses None (codes_of errors.now)) }
{
    let mut line = margin.begin(alloc)?;
    line.keyword(Keyword::Except)?;
    write_errors(parentheses, errors, &mut line)?;
    Ok(line)
}

pub(crate) fn except_as_line(
    alloc: Global,
    parentheses: Parentheses,
    margin: &Line,
    name: &Name,
    errors: &Codes,
) -> Result<Line, AllocError>
    ensures { IfOk result (λ line. line ≡ margin.now ++ except_head parentheses (Some name.now) (codes_of errors.now)) }
{
    let mut line = margin.begin(alloc)?;
    line.keyword(Keyword::Except)?;
    line.blank()?;
    line.text(name.as_bytes())?;
    write_errors(parentheses, errors, &mut line)?;
    Ok(line)
}

fn write_errors(parentheses: Parentheses, errors: &Codes, line: &mut Line) -> Result<(), AllocError>
    ensures { OnOk result (line.new ≡ line.old ++ codes " (" ++ listed_codes parentheses (codes_of errors.now) ++ codes ")") }
{
    line.blank()?;
    line.sign(Sign::LeftParen)?;
    write_codes(parentheses, errors, line)?;
    line.sign(Sign::RightParen)
}

fn write_condition(
    parentheses: Parentheses,
    condition: &Expr,
    line: &mut Line,
) -> Result<(), AllocError>
    ensures { OnOk result (line.new ≡ line.old ++ codes " (" ++ listed parentheses (tree condition.now) ++ codes ")") }
{
    line.blank()?;
    line.sign(Sign::LeftParen)?;
    write_expression(parentheses, condition, line)?;
    line.sign(Sign::RightParen)
}

fn write_label(label: &Option<MooStr>, line: &mut Line) -> Result<(), AllocError>
    ensures { OnOk result (line.new ≡ line.old ++ labelled label.now) }
{
    let Some(name) = label else {
        return Ok(());
    };
    line.blank()?;
    line.text(name.as_bytes())
}

// Writes `for x in`.
fn write_for(name: &Name, line: &mut Line) -> Result<(), AllocError>
    ensures { OnOk result (line.new ≡ line.old ++ codes "for " ++ name.now ++ codes " in") }
{
    line.keyword(Keyword::For)?;
    line.blank()?;
    line.text(name.as_bytes())?;
    line.blank()?;
    line.keyword(Keyword::In)
}

fn write_range(
    parentheses: Parentheses,
    low: &Expr,
    high: &Expr,
    line: &mut Line,
) -> Result<(), AllocError>
    ensures { OnOk result (line.new ≡ line.old ++ codes " [" ++ listed parentheses (tree low.now) ++ codes ".." ++ listed parentheses (tree high.now) ++ codes "]") }
{
    line.blank()?;
    line.sign(Sign::LeftBracket)?;
    write_expression(parentheses, low, line)?;
    line.sign(Sign::DotDot)?;
    write_expression(parentheses, high, line)?;
    line.sign(Sign::RightBracket)
}

fn write_return(parentheses: Parentheses, value: &Expr, line: &mut Line) -> Result<(), AllocError>
    ensures { OnOk result (line.new ≡ line.old ++ codes "return " ++ listed parentheses (tree value.now) ++ codes ";") }
{
    line.keyword(Keyword::Return)?;
    line.blank()?;
    write_expression(parentheses, value, line)?;
    line.sign(Sign::Semicolon)
}

// Writes a keyword with a label and a semicolon.
fn write_jump(keyword: Keyword, label: &Option<MooStr>, line: &mut Line) -> Result<(), AllocError>
    ensures { OnOk result (line.new ≡ line.old ++ keyword_text keyword ++ labelled label.now ++ codes ";") }
{
    line.keyword(keyword)?;
    write_label(label, line)?;
    line.sign(Sign::Semicolon)
}

fn write_head(parentheses: Parentheses, statement: &Stmt, line: &mut Line) -> Result<(), AllocError>
    ensures { OnOk result (line.new ≡ line.old ++ head parentheses (tree_of statement.now)) }
{
    match statement {
        Stmt::Return(None) => {
            line.keyword(Keyword::Return)?;
            line.sign(Sign::Semicolon)
        }
        Stmt::Return(Some(value)) => write_return(parentheses, value, line),
        Stmt::Expression(value) => {
            write_expression(parentheses, value, line)?;
            line.sign(Sign::Semicolon)
        }
        Stmt::If(condition, ..) => {
            line.keyword(Keyword::If)?;
            write_condition(parentheses, condition, line)
        }
        Stmt::ForList(name, list, _) => {
            write_for(name, line)?;
            write_condition(parentheses, list, line)
        }
        Stmt::ForRange(name, low, high, _) => {
            write_for(name, line)?;
            write_range(parentheses, low, high, line)
        }
        Stmt::While(label, condition, _) => {
            line.keyword(Keyword::While)?;
            write_label(label, line)?;
            write_condition(parentheses, condition, line)
        }
        Stmt::Break(label) => write_jump(Keyword::Break, label, line),
        Stmt::Continue(label) => write_jump(Keyword::Continue, label, line),
        Stmt::TryExcept(..) | Stmt::TryFinally(..) => line.keyword(Keyword::Try),
    }
}
