//! The parser of properties, verb calls and indices after a base.
ghost use Rattle.std.specs.Prelude.{◌+◌, ◌≤◌, true, false, IfOk, IfErr};
ghost use Rattle.moo_syntax_ast.specs.Limits.{height};
ghost use Rattle.moo_syntax_ast.specs.View.{root};
ghost use Rattle.moo_syntax_grammar.specs.Grammar.{expression, postfix, suffixes, primary, arguments, members, expr, items};
ghost use Rattle.moo_syntax_grammar.specs.Predictive.{grammar, after_dot, after_colon, after_bracket};
ghost use Rattle.moo_syntax.specs.Outcome.{Moves, IsRead, IsReadBy, HasFailed, HasFailedBy, IsNamed, IsUnnamed};

use crate::cursor::Cursor;
use crate::fault::Fault;
use crate::levels::expression;
use crate::make::{beside, name_constant, node_over};
use crate::members::arguments;
use crate::node::Node;
use crate::place::Place;
use crate::primary::primary;
use moo_syntax_ast::Expr;
use moo_syntax_token::Sign;
use std::alloc::Global;

/// Parses a primary expression with its suffixes. A path of it has at most `room` nodes.
#[cycle(parser)]
pub fn postfix(alloc: Global, tokens: &mut Cursor, place: Place, room: u32) -> Result<Node, Fault>
    ensures moves { Moves tokens.old tokens.new }
    ensures read { IfOk result (λ n. IsRead place.names (postfix place.inside) room tokens.old tokens.new (root n.tree)) }
    ensures failed { IfErr result (λ f. HasFailed place.names (postfix place.inside) room tokens.old tokens.new f) }
{
    let base = primary(alloc, tokens, place, room)?;
    suffixes(alloc, tokens, base, place, room)
}

#[cycle(parser)]
fn suffixes(
    alloc: Global,
    tokens: &mut Cursor,
    base: Node,
    place: Place,
    room: u32,
) -> Result<Node, Fault>
    requires { base.height ≤ room }
    ensures moves { Moves tokens.old tokens.new }
    ensures read { IfOk result (λ n. IsReadBy place.names expr (λ g. grammar g (suffixes place.inside (root base.tree))) room (height (root base.tree)) tokens.old tokens.new (root n.tree)) }
    ensures failed { IfErr result (λ f. HasFailedBy place.names true expr (λ g. grammar g (suffixes place.inside (root base.tree))) room (height (root base.tree)) tokens.old tokens.new f) }
{
    if tokens.take(Sign::Dot) {
        return after_dot(alloc, tokens, base, place, room);
    }
    if tokens.take(Sign::Colon) {
        return after_colon(alloc, tokens, base, place, room);
    }
    if tokens.take(Sign::LeftBracket) {
        return after_bracket(alloc, tokens, base, place, room);
    }
    Ok(base)
}

#[cycle(parser)]
fn after_dot(
    alloc: Global,
    tokens: &mut Cursor,
    base: Node,
    place: Place,
    room: u32,
) -> Result<Node, Fault>
    requires { base.height ≤ room }
    ensures moves { Moves tokens.old tokens.new }
    ensures read { IfOk result (λ n. IsReadBy place.names expr (λ g. after_dot place.inside (root base.tree)) room (height (root base.tree) + 1) tokens.old tokens.new (root n.tree)) }
    ensures failed { IfErr result (λ f. HasFailedBy place.names false expr (λ g. after_dot place.inside (root base.tree)) room (height (root base.tree) + 1) tokens.old tokens.new f) }
{
    let room_beside = beside(base.height, room)?;
    let name = member_name(alloc, tokens, place, room_beside)?;
    let height = base.height.max(name.height);
    let base = node_over(alloc, Expr::Property(base.tree, name.tree), height, room)?;
    suffixes(alloc, tokens, base, place, room)
}

#[cycle(parser)]
fn after_colon(
    alloc: Global,
    tokens: &mut Cursor,
    base: Node,
    place: Place,
    room: u32,
) -> Result<Node, Fault>
    requires { base.height ≤ room }
    ensures moves { Moves tokens.old tokens.new }
    ensures read { IfOk result (λ n. IsReadBy place.names expr (λ g. after_colon place.inside (root base.tree)) room (height (root base.tree) + 1) tokens.old tokens.new (root n.tree)) }
    ensures failed { IfErr result (λ f. HasFailedBy place.names false expr (λ g. after_colon place.inside (root base.tree)) room (height (root base.tree) + 1) tokens.old tokens.new f) }
{
    let room_beside = beside(base.height, room)?;
    let name = member_name(alloc, tokens, place, room_beside)?;
    tokens.expect(Sign::LeftParen)?;
    let members = arguments(alloc, tokens, place, false, room_beside)?;
    tokens.expect(Sign::RightParen)?;
    let height = base.height.max(name.height).max(members.height);
    let items = Box::new(alloc, members.items)?;
    let base = node_over(
        alloc,
        Expr::VerbCall(base.tree, name.tree, items),
        height,
        room,
    )?;
    suffixes(alloc, tokens, base, place, room)
}

#[cycle(parser)]
fn member_name(alloc: Global, tokens: &mut Cursor, place: Place, room: u32) -> Result<Node, Fault>
    ensures moves { Moves tokens.old tokens.new }
    ensures read { IfOk result (λ n. IsNamed place.names place.inside room tokens.old tokens.new (root n.tree)) }
    ensures failed { IfErr result (λ f. IsUnnamed place.names place.inside room tokens.old tokens.new f) }
{
    if let Some(name) = tokens.take_name()? {
        return name_constant(alloc, name);
    }
    tokens.expect(Sign::LeftParen)?;
    let name = expression(alloc, tokens, place, room)?;
    tokens.expect(Sign::RightParen)?;
    Ok(name)
}

#[cycle(parser)]
fn after_bracket(
    alloc: Global,
    tokens: &mut Cursor,
    base: Node,
    place: Place,
    room: u32,
) -> Result<Node, Fault>
    requires { base.height ≤ room }
    ensures moves { Moves tokens.old tokens.new }
    ensures read { IfOk result (λ n. IsReadBy place.names expr (λ g. after_bracket place.inside (root base.tree)) room (height (root base.tree) + 1) tokens.old tokens.new (root n.tree)) }
    ensures failed { IfErr result (λ f. HasFailedBy place.names false expr (λ g. after_bracket place.inside (root base.tree)) room (height (root base.tree) + 1) tokens.old tokens.new f) }
{
    let room_beside = beside(base.height, room)?;
    let index = Place {
        inside: true,
        names: place.names,
    };
    let low = expression(alloc, tokens, index, room_beside)?;
    if tokens.take(Sign::DotDot) {
        let high = expression(alloc, tokens, index, room_beside)?;
        tokens.expect(Sign::RightBracket)?;
        let height = base.height.max(low.height).max(high.height);
        let base = node_over(
            alloc,
            Expr::Range(base.tree, low.tree, high.tree),
            height,
            room,
        )?;
        return suffixes(alloc, tokens, base, place, room);
    }
    tokens.expect(Sign::RightBracket)?;
    let height = base.height.max(low.height);
    let base = node_over(alloc, Expr::Index(base.tree, low.tree), height, room)?;
    suffixes(alloc, tokens, base, place, room)
}
