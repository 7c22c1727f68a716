//! The parser of primary expressions: constants, names, calls, lists and catches.
ghost use Rattle.std.specs.Prelude.{true, false, IfOk, IfErr};
ghost use Rattle.moo_syntax_token.specs.declared.token.Token.TheVariants as token;
ghost use Rattle.moo_syntax_ast.specs.Limits.{height};
ghost use Rattle.moo_syntax_ast.specs.View.{root, codes_of};
ghost use Rattle.moo_syntax_grammar.specs.Grammar.{expression, primary, arguments, members, codes, expr, items};
ghost use Rattle.moo_syntax_grammar.specs.Predictive.{named, braced, dollar, after_dollar, guarded};
ghost use Rattle.moo_syntax.specs.Outcome.{Moves, IsRead, IsReadBy, HasFailed, HasFailedBy, IsAfter};

use crate::cursor::Cursor;
use crate::fault::Fault;
use crate::levels::expression;
use crate::make::{below, beside, constant, name_constant, node_over};
use crate::members::{arguments, members};
use crate::node::{Caught, Node};
use crate::place::Place;
use crate::rules::expect_callable;
use moo_syntax_ast::{Codes, Expr, Literal, Name};
use moo_syntax_token::{Keyword, Sign};
use moo_value::MooStr;
use std::alloc::Global;

/// Parses a primary expression. A path of it has at most `room` nodes.
#[cycle(parser)]
pub fn primary(alloc: Global, tokens: &mut Cursor, place: Place, room: u32) -> Result<Node, Fault>
    ensures moves { Moves tokens.old tokens.new }
    ensures read { IfOk result (λ n. IsRead place.names (primary place.inside) room tokens.old tokens.new (root n.tree)) }
    ensures failed { IfErr result (λ f. HasFailed place.names (primary place.inside) room tokens.old tokens.new f) }
{
    if let Some(literal) = tokens.take_literal()? {
        return node_over(alloc, Expr::Literal(literal), 0, room);
    }
    if let Some(name) = tokens.take_name()? {
        return named(alloc, tokens, name, place, room);
    }
    if tokens.take(Sign::LeftParen) {
        let inner = expression(alloc, tokens, place, room)?;
        tokens.expect(Sign::RightParen)?;
        return Ok(inner);
    }
    braced(alloc, tokens, place, room)
}

#[cycle(parser)]
fn named(
    alloc: Global,
    tokens: &mut Cursor,
    name: MooStr,
    place: Place,
    room: u32,
) -> Result<Node, Fault>
    requires { IsAfter (token.Name name) tokens.old }
    ensures moves { Moves tokens.old tokens.new }
    ensures read { IfOk result (λ n. IsReadBy place.names expr (λ g. named g place.inside name) room 1 tokens.old tokens.new (root n.tree)) }
    ensures failed { IfErr result (λ f. HasFailedBy place.names false expr (λ g. named g place.inside name) room 1 tokens.old tokens.new f) }
{
    if !tokens.is_at(Sign::LeftParen) {
        let variable = Name::new(name);
        return node_over(alloc, Expr::Variable(variable), 0, room);
    }
    expect_callable(place.names, &name)?;
    tokens.expect(Sign::LeftParen)?;
    let members = arguments(alloc, tokens, place, false, below(room)?)?;
    tokens.expect(Sign::RightParen)?;
    node_over(alloc, Expr::Call(name, members.items), members.height, room)
}

#[cycle(parser)]
fn braced(alloc: Global, tokens: &mut Cursor, place: Place, room: u32) -> Result<Node, Fault>
    ensures moves { Moves tokens.old tokens.new }
    ensures read { IfOk result (λ n. IsReadBy place.names expr (λ g. braced place.inside) room 0 tokens.old tokens.new (root n.tree)) }
    ensures failed { IfErr result (λ f. HasFailedBy place.names true expr (λ g. braced place.inside) room 0 tokens.old tokens.new f) }
{
    if !tokens.take(Sign::LeftBrace) {
        return dollar(alloc, tokens, place, room);
    }
    let members = arguments(alloc, tokens, place, true, below(room)?)?;
    tokens.expect(Sign::RightBrace)?;
    tokens.require(members.optional, Sign::Assign)?;
    node_over(alloc, Expr::List(members.items), members.height, room)
}

#[cycle(parser)]
fn dollar(alloc: Global, tokens: &mut Cursor, place: Place, room: u32) -> Result<Node, Fault>
    ensures moves { Moves tokens.old tokens.new }
    ensures read { IfOk result (λ n. IsReadBy place.names expr (λ g. dollar place.inside) room 0 tokens.old tokens.new (root n.tree)) }
    ensures failed { IfErr result (λ f. HasFailedBy place.names true expr (λ g. dollar place.inside) room 0 tokens.old tokens.new f) }
{
    if tokens.take(Sign::Dollar) {
        return after_dollar(alloc, tokens, place, room);
    }
    guarded(alloc, tokens, place, room)
}

#[cycle(parser)]
fn after_dollar(alloc: Global, tokens: &mut Cursor, place: Place, room: u32) -> Result<Node, Fault>
    ensures moves { Moves tokens.old tokens.new }
    ensures read { IfOk result (λ n. IsReadBy place.names expr (λ g. after_dollar place.inside) room 1 tokens.old tokens.new (root n.tree)) }
    ensures failed { IfErr result (λ f. HasFailedBy place.names false expr (λ g. after_dollar place.inside) room 1 tokens.old tokens.new f) }
{
    let Some(name) = tokens.take_name()? else {
        if !place.inside {
            return Err(Fault::Unexpected);
        }
        return node_over(alloc, Expr::Length, 0, room);
    };
    let object = constant(alloc, Literal::Object(0))?;
    let name = name_constant(alloc, name)?;
    if !tokens.take(Sign::LeftParen) {
        return node_over(alloc, Expr::Property(object.tree, name.tree), 1, room);
    }
    let members = arguments(alloc, tokens, place, false, beside(1, room)?)?;
    tokens.expect(Sign::RightParen)?;
    let height = members.height.max(1);
    let items = Box::new(alloc, members.items)?;
    node_over(
        alloc,
        Expr::VerbCall(object.tree, name.tree, items),
        height,
        room,
    )
}

#[cycle(parser)]
fn guarded(alloc: Global, tokens: &mut Cursor, place: Place, room: u32) -> Result<Node, Fault>
    ensures moves { Moves tokens.old tokens.new }
    ensures read { IfOk result (λ n. IsReadBy place.names expr (λ g. guarded place.inside) room 0 tokens.old tokens.new (root n.tree)) }
    ensures failed { IfErr result (λ f. HasFailedBy place.names true expr (λ g. guarded place.inside) room 0 tokens.old tokens.new f) }
{
    tokens.expect(Sign::Backquote)?;
    let room_below = below(room)?;
    let tried = expression(alloc, tokens, place, room_below)?;
    tokens.expect(Sign::Bang)?;
    let caught = codes(alloc, tokens, place, room_below)?;
    let codes = Box::new(alloc, caught.codes)?;
    if !tokens.take(Sign::Arrow) {
        tokens.expect(Sign::Quote)?;
        let height = tried.height.max(caught.height);
        return node_over(alloc, Expr::Catch(tried.tree, codes, None), height, room);
    }
    let instead = expression(alloc, tokens, place, room_below)?;
    tokens.expect(Sign::Quote)?;
    let height = tried.height.max(caught.height).max(instead.height);
    node_over(
        alloc,
        Expr::Catch(tried.tree, codes, Some(instead.tree)),
        height,
        room,
    )
}

/// Parses the errors of a catch: `ANY`, or items.
#[cycle(parser)]
pub fn codes(alloc: Global, tokens: &mut Cursor, place: Place, room: u32) -> Result<Caught, Fault>
    ensures moves { Moves tokens.old tokens.new }
    ensures read { IfOk result (λ v. IsRead place.names (codes place.inside) room tokens.old tokens.new (codes_of v.codes)) }
    ensures failed { IfErr result (λ f. HasFailed place.names (codes place.inside) room tokens.old tokens.new f) }
{
    if tokens.take_keyword(Keyword::Any) {
        return Ok(Caught {
            codes: Codes::Any,
            height: 0,
        });
    }
    let members = members(alloc, tokens, place, false, room)?;
    Ok(Caught {
        codes: Codes::Listed(members.items),
        height: members.height,
    })
}
