//! The parser of statements, by recursive descent. `loops` holds the names of the loops around a statement, the
//! innermost last; each function leaves it unchanged.
ghost use Rattle.std.specs.Prelude.{◌≡◌, ◌<◌, ◌+◌, ◌∷◌, true, false, reverse, IfOk, IfErr, OnOk};
ghost use Rattle.moo_syntax_ast.specs.View.{root, block, arms_of, handlers_of, statement as tree_of};
ghost use Rattle.moo_syntax_grammar.specs.Grammar as grammar;
ghost use Rattle.moo_syntax_grammar.specs.Grammar.{stmt};
ghost use Rattle.moo_syntax_grammar.specs.Predictive as choices;
ghost use Rattle.moo_syntax.specs.Outcome.{Moves, IsRead, IsReadBy, HasFailed, HasFailedBy};
ghost use Rattle.moo_syntax.specs.Statements.{IsHandler, after_range, performing};

use crate::jump::{jump, name_copy};
use crate::{Cursor, Fault, Node, Place, below, codes, expression};
use moo_syntax_ast::{Arm, Handler, Name, Stmt};
use moo_syntax_grammar::Names;
use moo_syntax_token::{Keyword, Sign};
use moo_value::MooStr;
use std::alloc::Global;

/// Parses statements up to a token that begins none. A path of them has at most `room` nodes.
#[cycle(statements)]
pub fn statements(
    alloc: Global,
    tokens: &mut Cursor,
    loops: &mut Vec<Option<MooStr>>,
    names: Names,
    room: u32,
) -> Result<Vec<Stmt>, Fault>
    ensures moves { Moves tokens.old tokens.new }
    ensures loops { OnOk result (loops.new.items ≡ loops.old.items) }
    ensures read { IfOk result (λ v. IsRead names (grammar.statements (reverse loops.old.items)) room tokens.old tokens.new (block v.items)) }
    ensures failed { IfErr result (λ f. HasFailed names (grammar.statements (reverse loops.old.items)) room tokens.old tokens.new f) }
{
    let mut found = Vec::with_capacity(alloc, 2)?;
    while tokens.is_at_statement() {
        if tokens.take(Sign::Semicolon) {
            continue;
        }
        let next = statement(alloc, tokens, loops, names, room)?;
        found.push(next)?;
    }
    Ok(found)
}

#[cycle(statements)]
fn statement(
    alloc: Global,
    tokens: &mut Cursor,
    loops: &mut Vec<Option<MooStr>>,
    names: Names,
    room: u32,
) -> Result<Stmt, Fault>
    ensures moves { Moves tokens.old tokens.new }
    ensures loops { OnOk result (loops.new.items ≡ loops.old.items) }
    ensures read { IfOk result (λ v. IsRead names (grammar.statement (reverse loops.old.items)) room tokens.old tokens.new (tree_of v)) }
    ensures failed { IfErr result (λ f. HasFailed names (grammar.statement (reverse loops.old.items)) room tokens.old tokens.new f) }
{
    if tokens.take_keyword(Keyword::If) {
        return branches(alloc, tokens, loops, names, room);
    }
    if tokens.take_keyword(Keyword::For) {
        return for_loop(alloc, tokens, loops, names, room);
    }
    if tokens.take_keyword(Keyword::While) {
        return while_loop(alloc, tokens, loops, names, room);
    }
    if tokens.is_at_keyword(Keyword::Break) {
        return Ok(Stmt::Break(jump(tokens, Keyword::Break, loops, room)?));
    }
    if tokens.is_at_keyword(Keyword::Continue) {
        return Ok(Stmt::Continue(jump(tokens, Keyword::Continue, loops, room)?));
    }
    if tokens.take_keyword(Keyword::Return) {
        return returned(alloc, tokens, names, room);
    }
    if tokens.take_keyword(Keyword::Try) {
        return attempt(alloc, tokens, loops, names, room);
    }
    performed(alloc, tokens, names, room)
}

/// Parses an `if` after its keyword.
#[cycle(statements)]
fn branches(
    alloc: Global,
    tokens: &mut Cursor,
    loops: &mut Vec<Option<MooStr>>,
    names: Names,
    room: u32,
) -> Result<Stmt, Fault>
    ensures moves { Moves tokens.old tokens.new }
    ensures loops { OnOk result (loops.new.items ≡ loops.old.items) }
    ensures read { IfOk result (λ s. IsReadBy names stmt (λ g. choices.after_if (reverse loops.old.items)) room 1 tokens.old tokens.new (tree_of s)) }
    ensures failed { IfErr result (λ f. HasFailedBy names false stmt (λ g. choices.after_if (reverse loops.old.items)) room 1 tokens.old tokens.new f) }
{
    let room_below = below(room)?;
    let condition = in_parens(alloc, tokens, names, room_below)?;
    let body = statements(alloc, tokens, loops, names, room_below)?;
    let further = arms(alloc, tokens, loops, names, room_below)?;
    tokens.expect_keyword(Keyword::EndIf)?;
    Ok(Stmt::If(condition.tree, body, further))
}

/// Parses the further arms of an `if` after its first statements.
#[cycle(statements)]
fn arms(
    alloc: Global,
    tokens: &mut Cursor,
    loops: &mut Vec<Option<MooStr>>,
    names: Names,
    room: u32,
) -> Result<Vec<Arm>, Fault>
    ensures moves { Moves tokens.old tokens.new }
    ensures loops { OnOk result (loops.new.items ≡ loops.old.items) }
    ensures read { IfOk result (λ v. IsRead names (grammar.arms (reverse loops.old.items)) room tokens.old tokens.new (arms_of v.items)) }
    ensures failed { IfErr result (λ f. HasFailed names (grammar.arms (reverse loops.old.items)) room tokens.old tokens.new f) }
{
    let mut found = Vec::new(alloc);
    while tokens.take_keyword(Keyword::ElseIf) {
        let condition = in_parens(alloc, tokens, names, room)?;
        let body = statements(alloc, tokens, loops, names, room)?;
        found.push(Arm::ElseIf(condition.tree, body))?;
    }
    if !tokens.take_keyword(Keyword::Else) {
        return Ok(found);
    }
    let last = statements(alloc, tokens, loops, names, room)?;
    found.push(Arm::Else(last))?;
    Ok(found)
}

/// Parses a `for` after its keyword.
#[cycle(statements)]
fn for_loop(
    alloc: Global,
    tokens: &mut Cursor,
    loops: &mut Vec<Option<MooStr>>,
    names: Names,
    room: u32,
) -> Result<Stmt, Fault>
    ensures moves { Moves tokens.old tokens.new }
    ensures loops { OnOk result (loops.new.items ≡ loops.old.items) }
    ensures read { IfOk result (λ s. IsReadBy names stmt (λ g. choices.after_for (reverse loops.old.items)) room 1 tokens.old tokens.new (tree_of s)) }
    ensures failed { IfErr result (λ f. HasFailedBy names false stmt (λ g. choices.after_for (reverse loops.old.items)) room 1 tokens.old tokens.new f) }
{
    let room_below = below(room)?;
    let Some(name) = tokens.take_name()? else {
        return Err(Fault::Unexpected);
    };
    tokens.expect_keyword(Keyword::In)?;
    if tokens.take(Sign::LeftBracket) {
        return for_range(alloc, tokens, loops, name, names, room_below);
    }
    let list = in_parens(alloc, tokens, names, room_below)?;
    let own = Some(name.try_clone()?);
    let body = within(alloc, tokens, loops, own, names, room_below)?;
    tokens.expect_keyword(Keyword::EndFor)?;
    let variable = Name::new(name);
    Ok(Stmt::ForList(variable, list.tree, body))
}

/// Parses a `for` over a range after its bracket.
#[cycle(statements)]
fn for_range(
    alloc: Global,
    tokens: &mut Cursor,
    loops: &mut Vec<Option<MooStr>>,
    name: MooStr,
    names: Names,
    room: u32,
) -> Result<Stmt, Fault>
    ensures moves { Moves tokens.old tokens.new }
    ensures loops { OnOk result (loops.new.items ≡ loops.old.items) }
    ensures read { IfOk result (λ s. IsReadBy names stmt (λ g. after_range (reverse loops.old.items) name) (room + 1) 1 tokens.old tokens.new (tree_of s)) }
    ensures failed { IfErr result (λ f. HasFailedBy names true stmt (λ g. after_range (reverse loops.old.items) name) (room + 1) 1 tokens.old tokens.new f) }
{
    let place = Place {
        inside: false,
        names,
    };
    let low = expression(alloc, tokens, place, room)?;
    tokens.expect(Sign::DotDot)?;
    let high = expression(alloc, tokens, place, room)?;
    tokens.expect(Sign::RightBracket)?;
    let own = Some(name.try_clone()?);
    let body = within(alloc, tokens, loops, own, names, room)?;
    tokens.expect_keyword(Keyword::EndFor)?;
    let variable = Name::new(name);
    Ok(Stmt::ForRange(variable, low.tree, high.tree, body))
}

/// Parses a `while` after its keyword.
#[cycle(statements)]
fn while_loop(
    alloc: Global,
    tokens: &mut Cursor,
    loops: &mut Vec<Option<MooStr>>,
    names: Names,
    room: u32,
) -> Result<Stmt, Fault>
    ensures moves { Moves tokens.old tokens.new }
    ensures loops { OnOk result (loops.new.items ≡ loops.old.items) }
    ensures read { IfOk result (λ s. IsReadBy names stmt (λ g. choices.after_while (reverse loops.old.items)) room 1 tokens.old tokens.new (tree_of s)) }
    ensures failed { IfErr result (λ f. HasFailedBy names false stmt (λ g. choices.after_while (reverse loops.old.items)) room 1 tokens.old tokens.new f) }
{
    let room_below = below(room)?;
    let name = tokens.take_name()?;
    let condition = in_parens(alloc, tokens, names, room_below)?;
    let own = name_copy(&name)?;
    let body = within(alloc, tokens, loops, own, names, room_below)?;
    tokens.expect_keyword(Keyword::EndWhile)?;
    Ok(Stmt::While(name, condition.tree, body))
}

/// Parses the statements of a loop.
#[cycle(statements)]
fn within(
    alloc: Global,
    tokens: &mut Cursor,
    loops: &mut Vec<Option<MooStr>>,
    own: Option<MooStr>,
    names: Names,
    room: u32,
) -> Result<Vec<Stmt>, Fault>
    ensures moves { Moves tokens.old tokens.new }
    ensures loops { OnOk result (loops.new.items ≡ loops.old.items) }
    ensures read { IfOk result (λ v. IsRead names (grammar.statements (own ∷ reverse loops.old.items)) room tokens.old tokens.new (block v.items)) }
    ensures failed { IfErr result (λ f. HasFailed names (grammar.statements (own ∷ reverse loops.old.items)) room tokens.old tokens.new f) }
{
    loops.push(own)?;
    let body = statements(alloc, tokens, loops, names, room)?;
    let _own = loops.pop();
    Ok(body)
}

/// Parses a `try` after its keyword.
#[cycle(statements)]
fn attempt(
    alloc: Global,
    tokens: &mut Cursor,
    loops: &mut Vec<Option<MooStr>>,
    names: Names,
    room: u32,
) -> Result<Stmt, Fault>
    ensures moves { Moves tokens.old tokens.new }
    ensures loops { OnOk result (loops.new.items ≡ loops.old.items) }
    ensures read { IfOk result (λ s. IsReadBy names stmt (λ g. choices.after_try (reverse loops.old.items)) room 1 tokens.old tokens.new (tree_of s)) }
    ensures failed { IfErr result (λ f. HasFailedBy names false stmt (λ g. choices.after_try (reverse loops.old.items)) room 1 tokens.old tokens.new f) }
{
    let room_below = below(room)?;
    let body = statements(alloc, tokens, loops, names, room_below)?;
    if tokens.take_keyword(Keyword::Finally) {
        let cleanup = statements(alloc, tokens, loops, names, room_below)?;
        tokens.expect_keyword(Keyword::EndTry)?;
        return Ok(Stmt::TryFinally(body, cleanup));
    }
    let handlers = handlers(alloc, tokens, loops, names, room_below)?;
    tokens.expect_keyword(Keyword::EndTry)?;
    Ok(Stmt::TryExcept(body, handlers))
}

#[cycle(statements)]
fn handlers(
    alloc: Global,
    tokens: &mut Cursor,
    loops: &mut Vec<Option<MooStr>>,
    names: Names,
    room: u32,
) -> Result<Vec<Handler>, Fault>
    ensures moves { Moves tokens.old tokens.new }
    ensures loops { OnOk result (loops.new.items ≡ loops.old.items) }
    ensures read { IfOk result (λ v. IsRead names (grammar.handlers (reverse loops.old.items)) room tokens.old tokens.new (handlers_of v.items)) }
    ensures failed { IfErr result (λ f. HasFailed names (grammar.handlers (reverse loops.old.items)) room tokens.old tokens.new f) }
{
    let mut found = Vec::new(alloc);
    loop {
        let next = handler(alloc, tokens, loops, names, room)?;
        found.push(next)?;
        if !tokens.is_at_keyword(Keyword::Except) {
            return Ok(found);
        }
    }
}

#[cycle(statements)]
fn handler(
    alloc: Global,
    tokens: &mut Cursor,
    loops: &mut Vec<Option<MooStr>>,
    names: Names,
    room: u32,
) -> Result<Handler, Fault>
    ensures moves { Moves tokens.old tokens.new }
    ensures loops { OnOk result (loops.new.items ≡ loops.old.items) }
    ensures forward { IfOk result (λ _. tokens.old.at < tokens.new.at) }
    ensures read { IfOk result (λ h. IsHandler names (reverse loops.old.items) room tokens.old tokens.new h) }
    ensures failed { IfErr result (λ f. HasFailed names (grammar.handlers (reverse loops.old.items)) room tokens.old tokens.new f) }
{
    tokens.expect_keyword(Keyword::Except)?;
    let name = tokens.take_name()?;
    tokens.expect(Sign::LeftParen)?;
    let place = Place {
        inside: false,
        names,
    };
    let caught = codes(alloc, tokens, place, room)?;
    tokens.expect(Sign::RightParen)?;
    let body = statements(alloc, tokens, loops, names, room)?;
    match name {
        Some(name) => {
            let variable = Name::new(name);
            Ok(Handler::ExceptAs(variable, caught.codes, body))
        }
        None => Ok(Handler::Except(caught.codes, body)),
    }
}

/// Parses an expression in parentheses.
fn in_parens(alloc: Global, tokens: &mut Cursor, names: Names, room: u32) -> Result<Node, Fault>
    ensures moves { Moves tokens.old tokens.new }
    ensures read { IfOk result (λ n. IsRead names grammar.in_parens room tokens.old tokens.new (root n.tree)) }
    ensures failed { IfErr result (λ f. HasFailed names grammar.in_parens room tokens.old tokens.new f) }
{
    tokens.expect(Sign::LeftParen)?;
    let place = Place {
        inside: false,
        names,
    };
    let inner = expression(alloc, tokens, place, room)?;
    tokens.expect(Sign::RightParen)?;
    Ok(inner)
}

/// Parses a `return` after its keyword.
fn returned(alloc: Global, tokens: &mut Cursor, names: Names, room: u32) -> Result<Stmt, Fault>
    ensures moves { Moves tokens.old tokens.new }
    ensures read { IfOk result (λ s. IsReadBy names stmt (λ g. choices.after_return) room 1 tokens.old tokens.new (tree_of s)) }
    ensures failed { IfErr result (λ f. HasFailedBy names false stmt (λ g. choices.after_return) room 1 tokens.old tokens.new f) }
{
    let room_below = below(room)?;
    if tokens.take(Sign::Semicolon) {
        return Ok(Stmt::Return(None));
    }
    let place = Place {
        inside: false,
        names,
    };
    let value = expression(alloc, tokens, place, room_below)?;
    tokens.expect(Sign::Semicolon)?;
    Ok(Stmt::Return(Some(value.tree)))
}

/// Parses an expression as a statement. The limit counts the statement's own node only after the semicolon is read.
fn performed(alloc: Global, tokens: &mut Cursor, names: Names, room: u32) -> Result<Stmt, Fault>
    ensures moves { Moves tokens.old tokens.new }
    ensures read { IfOk result (λ s. IsReadBy names stmt (λ g. performing) room 0 tokens.old tokens.new (tree_of s)) }
    ensures failed { IfErr result (λ f. HasFailedBy names true stmt (λ g. performing) room 0 tokens.old tokens.new f) }
{
    let place = Place {
        inside: false,
        names,
    };
    let value = expression(alloc, tokens, place, room)?;
    tokens.expect(Sign::Semicolon)?;
    if value.height >= room {
        return Err(Fault::TooDeep);
    }
    Ok(Stmt::Expression(value.tree))
}
