//! The parser's entry points.
ghost use Rattle.std.specs.Prelude.{◌≡◌, ◌≤◌, length, drop, ℕ, List, IfOk, IfErr, MatchOption};
ghost use Rattle.moo_syntax_token.specs.Lexing.{IsReading};
ghost use Rattle.moo_syntax_grammar.specs.Tokens.{words};
ghost use Rattle.moo_syntax_ast.specs.View.{block};
ghost use Rattle.moo_syntax_ast.specs.Limits.{IsWithinLimits};
ghost use Rattle.moo_syntax_grammar.specs.Texts.{IsParsed, HasText};
ghost use Rattle.moo_syntax.specs.Programs.{Blames, line_of};
ghost use Rattle.moo_syntax.specs.Places.{IsCalled};
ghost use Rattle.moo_syntax.specs.Stops.{StopsBy, IsStuckAt, CallsUnknown, IsWhole};

use crate::brackets::bracket_too_many;
use crate::statement::statements;
use crate::syntax_fault::{SyntaxFault, SyntaxFaultKind};
use crate::{Cursor, Fault};
use moo_syntax_ast::{MOST_NODES, Stmt};
use moo_syntax_grammar::Names;
use moo_syntax_listing::fit_lines;
use moo_syntax_lower::{lower_block, variable_names};
use moo_syntax_program::Program;
use moo_syntax_token::{NameInterner, Sign, Spot, tokens_with};
use moo_value::MooStr;
use std::alloc::{AllocError, Global};

/// Parses the text of these lines. Returns its program, or the first fault with its line.
pub fn parse(alloc: Global, lines: &[MooStr], names: Names) -> Result<Program, SyntaxFault>
    ensures program { IfOk result (λ p. IsParsed names lines.now p) }
    ensures fault { IfErr result (λ f. Blames names lines.now f.line f.kind) }
{
    parse_with(alloc, &mut NameInterner::new(alloc), lines, names)
}

/// Parses as `parse` does, with the strings of names from a cache.
pub fn parse_with(
    alloc: Global,
    known: &mut NameInterner,
    lines: &[MooStr],
    names: Names,
) -> Result<Program, SyntaxFault>
    ensures program { IfOk result (λ p. IsParsed names lines.now p) }
    ensures fault { IfErr result (λ f. Blames names lines.now f.line f.kind) }
{
    let Ok(spots) = tokens_with(alloc, known, lines) else {
        return Err(SyntaxFault {
            line: lines.len(),
            kind: SyntaxFaultKind::Memory,
        });
    };
    let statements = match read(alloc, &spots, names) {
        Ok(statements) => statements,
        Err(stop) => return Err(blame(lines, &spots, stop, names)),
    };
    match program_of(alloc, statements) {
        Ok(program) => Ok(program),
        Err(_) => Err(SyntaxFault {
            line: lines.len(),
            kind: SyntaxFaultKind::Memory,
        }),
    }
}

// Makes the program of these statements: lowers them, and finds their variables. Err is out of memory.
fn program_of(alloc: Global, statements: Vec<Stmt>) -> Result<Program, AllocError>
    requires limits { IsWithinLimits (block statements.items) }
    requires text { HasText (block statements.items) }
    ensures { IfOk result (λ p. p ≡ block statements.items) }
{
    let body = lower_block(alloc, &statements)?;
    let names = variable_names(alloc, &statements)?;
    Program::try_new(alloc, statements, body, names)
}

/// The place at which the parser stopped, and its fault.
#[derive(Drop)]
struct Stop {
    at: usize,
    fault: Fault,
}

/// Parses the statements of these tokens.
fn read(alloc: Global, spots: &[Spot], names: Names) -> Result<Vec<Stmt>, Stop>
    ensures program { IfOk result (λ found. IsWhole names (words spots.now) (block found.items)) }
    ensures stopped { IfErr result (λ s. StopsBy names spots.now s.at s.fault) }
{
    if let Some(at) = bracket_too_many(spots) {
        return Err(Stop {
            at,
            fault: Fault::TooDeep,
        });
    }
    let mut tokens = Cursor { spots, at: 0 };
    let found = match statements(alloc, &mut tokens, &mut Vec::new(alloc), names, MOST_NODES) {
        Ok(found) => found,
        Err(fault) => return Err(Stop {
            at: tokens.at,
            fault,
        }),
    };
    if tokens.at < spots.len() {
        return Err(Stop {
            at: tokens.at,
            fault: Fault::Unexpected,
        });
    }
    if !fit_lines(&found) {
        return Err(Stop {
            at: tokens.at,
            fault: Fault::TooDeep,
        });
    }
    Ok(found)
}

/// Makes the fault of the text from the place at which the parser stopped.
fn blame(lines: &[MooStr], spots: &[Spot], stop: Stop, names: Names) -> SyntaxFault
    requires reading { IsReading lines.now spots.now }
    requires stopped { StopsBy names spots.now stop.at stop.fault }
    ensures { Blames names lines.now result.line result.kind }
{
    let line = line_at(lines, spots, stop.at);
    match stop.fault {
        Fault::Unexpected => unexpected(lines, spots, stop.at),
        Fault::BadTarget => SyntaxFault {
            line,
            kind: SyntaxFaultKind::BadTarget,
        },
        Fault::BadLoopName => SyntaxFault {
            line,
            kind: SyntaxFaultKind::BadLoopName,
        },
        Fault::UnknownFunction => unknown(lines, spots, stop.at, names),
        Fault::TooDeep => SyntaxFault {
            line,
            kind: SyntaxFaultKind::TooDeep,
        },
        Fault::Memory => SyntaxFault {
            line,
            kind: SyntaxFaultKind::Memory,
        },
    }
}

/// Makes the fault of a place at which no program continues.
fn unexpected(lines: &[MooStr], spots: &[Spot], at: usize) -> SyntaxFault
    requires reading { IsReading lines.now spots.now }
    requires stuck { IsStuckAt spots.now at }
    ensures { (names : Names) → Blames names lines.now result.line result.kind }
{
    let line = line_at(lines, spots, at);
    let tokens = Cursor { spots, at };
    if tokens.is_at_bad() {
        return SyntaxFault {
            line,
            kind: SyntaxFaultKind::BadToken,
        };
    }
    SyntaxFault {
        line,
        kind: SyntaxFaultKind::Unexpected,
    }
}

/// Makes the fault of a parenthesis after a name that may not be called.
fn unknown(lines: &[MooStr], spots: &[Spot], at: usize, names: Names) -> SyntaxFault
    requires reading { IsReading lines.now spots.now }
    requires calls { CallsUnknown names spots.now at }
    ensures { Blames names lines.now result.line result.kind }
{
    match called_name(spots, at) {
        Ok(Some(name)) => SyntaxFault {
            line: line_at(lines, spots, at - 1),
            kind: SyntaxFaultKind::UnknownFunction(name),
        },
        Ok(None) => unreachable!(),
        Err(_) => SyntaxFault {
            line: line_at(lines, spots, at),
            kind: SyntaxFaultKind::Memory,
        },
    }
}

/// Returns the name that a parenthesis at this place calls, or `None` if it calls none.
fn called_name(spots: &[Spot], at: usize) -> Result<Option<MooStr>, Fault>
    requires { at ≤ length spots.now }
    ensures { IfOk result (λ found. MatchOption found ((name : List ℕ) → ¬ IsCalled spots.now at name) (λ name. IsCalled spots.now at name)) }
{
    let Some(before) = at.checked_sub(1) else {
        return Ok(None);
    };
    let mut tokens = Cursor { spots, at: before };
    let Some(name) = tokens.take_name()? else {
        return Ok(None);
    };
    if tokens.take(Sign::LeftParen) {
        Ok(Some(name))
    } else {
        Ok(None)
    }
}

/// Returns the line of the token at this place, or the last line of the text if no token is left.
fn line_at(lines: &[MooStr], spots: &[Spot], at: usize) -> usize
    ensures { result ≡ line_of lines.now (drop at spots.now) }
{
    match spots.get(at) {
        Some(spot) => spot.line,
        None => lines.len(),
    }
}
