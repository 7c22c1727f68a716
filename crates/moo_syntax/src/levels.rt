//! A parser of expressions by recursive descent: a function for each level of the grammar.
ghost use Rattle.std.specs.Prelude.{◌≡◌, ◌≤◌, ◌+◌, true, false, IfOk, IfErr};
ghost use Rattle.moo_syntax_token.specs.declared.sign.Sign.TheVariants.{Minus};
ghost use Rattle.moo_syntax_ast.specs.Limits.{height};
ghost use Rattle.moo_syntax_ast.specs.View.{root};
ghost use Rattle.moo_syntax_grammar.specs.Tokens.{is_sign, next_passes};
ghost use Rattle.moo_syntax_grammar.specs.declared.level.Level.TheVariants.{Logic, Relation, Sum, Product};
ghost use Rattle.moo_syntax_grammar.specs.Grammar.{expression, conditional, chain, more, operand, power, unary, postfix, expr};
ghost use Rattle.moo_syntax_grammar.specs.Predictive.{grammar};
ghost use Rattle.moo_syntax.specs.Cursor.{left};
ghost use Rattle.moo_syntax.specs.Outcome.{Moves, IsRead, IsReadBy, HasFailed, HasFailedBy, raising};

use crate::cursor::Cursor;
use crate::fault::Fault;
use crate::make::{after_minuses, below, beside, join, negate_times, node_over};
use crate::node::Node;
use crate::place::Place;
use crate::postfix::postfix;
use crate::rules::expect_target;
use moo_syntax_ast::Expr;
use moo_syntax_ast::operator::{BinaryOperator, UnaryOperator};
use moo_syntax_grammar::Level;
use moo_syntax_token::Sign;
use std::alloc::Global;

/// Parses an expression. A path of it has at most `room` nodes.
#[cycle(parser)]
pub fn expression(
    alloc: Global,
    tokens: &mut Cursor,
    place: Place,
    room: u32,
) -> Result<Node, Fault>
    ensures moves { Moves tokens.old tokens.new }
    ensures read { IfOk result (λ n. IsRead place.names (expression place.inside) room tokens.old tokens.new (root n.tree)) }
    ensures failed { IfErr result (λ f. HasFailed place.names (expression place.inside) room tokens.old tokens.new f) }
{
    let target = conditional(alloc, tokens, place, room)?;
    if !tokens.is_at(Sign::Assign) {
        return Ok(target);
    }
    expect_target(&target.tree)?;
    tokens.expect(Sign::Assign)?;
    let room_beside = beside(target.height, room)?;
    let value = expression(alloc, tokens, place, room_beside)?;
    let height = target.height.max(value.height);
    node_over(alloc, Expr::Assign(target.tree, value.tree), height, room)
}

#[cycle(parser)]
fn conditional(alloc: Global, tokens: &mut Cursor, place: Place, room: u32) -> Result<Node, Fault>
    ensures moves { Moves tokens.old tokens.new }
    ensures read { IfOk result (λ n. IsRead place.names (conditional place.inside) room tokens.old tokens.new (root n.tree)) }
    ensures failed { IfErr result (λ f. HasFailed place.names (conditional place.inside) room tokens.old tokens.new f) }
{
    let test = logic(alloc, tokens, place, room)?;
    if !tokens.take(Sign::Question) {
        return Ok(test);
    }
    let room_beside = beside(test.height, room)?;
    let yes = expression(alloc, tokens, place, room_beside)?;
    tokens.expect(Sign::Pipe)?;
    let no = conditional(alloc, tokens, place, room_beside)?;
    let height = test.height.max(yes.height).max(no.height);
    node_over(
        alloc,
        Expr::Conditional(test.tree, yes.tree, no.tree),
        height,
        room,
    )
}

#[cycle(parser)]
fn logic(alloc: Global, tokens: &mut Cursor, place: Place, room: u32) -> Result<Node, Fault>
    ensures moves { Moves tokens.old tokens.new }
    ensures read { IfOk result (λ n. IsRead place.names (chain place.inside Logic) room tokens.old tokens.new (root n.tree)) }
    ensures failed { IfErr result (λ f. HasFailed place.names (chain place.inside Logic) room tokens.old tokens.new f) }
{
    let front = relation(alloc, tokens, place, room)?;
    more(alloc, tokens, Level::Logic, front, place, room)
}

#[cycle(parser)]
#[inline(always)]
fn relation(alloc: Global, tokens: &mut Cursor, place: Place, room: u32) -> Result<Node, Fault>
    ensures moves { Moves tokens.old tokens.new }
    ensures read { IfOk result (λ n. IsRead place.names (chain place.inside Relation) room tokens.old tokens.new (root n.tree)) }
    ensures failed { IfErr result (λ f. HasFailed place.names (chain place.inside Relation) room tokens.old tokens.new f) }
{
    let front = sum(alloc, tokens, place, room)?;
    more(alloc, tokens, Level::Relation, front, place, room)
}

#[cycle(parser)]
#[inline(always)]
fn sum(alloc: Global, tokens: &mut Cursor, place: Place, room: u32) -> Result<Node, Fault>
    ensures moves { Moves tokens.old tokens.new }
    ensures read { IfOk result (λ n. IsRead place.names (chain place.inside Sum) room tokens.old tokens.new (root n.tree)) }
    ensures failed { IfErr result (λ f. HasFailed place.names (chain place.inside Sum) room tokens.old tokens.new f) }
{
    let front = product(alloc, tokens, place, room)?;
    more(alloc, tokens, Level::Sum, front, place, room)
}

#[cycle(parser)]
#[inline(always)]
fn product(alloc: Global, tokens: &mut Cursor, place: Place, room: u32) -> Result<Node, Fault>
    ensures moves { Moves tokens.old tokens.new }
    ensures read { IfOk result (λ n. IsRead place.names (chain place.inside Product) room tokens.old tokens.new (root n.tree)) }
    ensures failed { IfErr result (λ f. HasFailed place.names (chain place.inside Product) room tokens.old tokens.new f) }
{
    let front = power(alloc, tokens, place, room)?;
    more(alloc, tokens, Level::Product, front, place, room)
}

// Parses the rest of a chain after its first operand, which is usually empty.
#[cycle(parser)]
#[inline(always)]
fn more(
    alloc: Global,
    tokens: &mut Cursor,
    level: Level,
    front: Node,
    place: Place,
    room: u32,
) -> Result<Node, Fault>
    requires { front.height ≤ room }
    ensures moves { Moves tokens.old tokens.new }
    ensures read { IfOk result (λ n. IsReadBy place.names expr (λ g. grammar g (more place.inside level (root front.tree))) room (height (root front.tree)) tokens.old tokens.new (root n.tree)) }
    ensures failed { IfErr result (λ f. HasFailedBy place.names true expr (λ g. grammar g (more place.inside level (root front.tree))) room (height (root front.tree)) tokens.old tokens.new f) }
{
    if !tokens.is_at_operator(level) {
        return Ok(front);
    }
    further(alloc, tokens, level, front, place, room)
}

#[cycle(parser)]
#[inline(never)]
fn further(
    alloc: Global,
    tokens: &mut Cursor,
    level: Level,
    front: Node,
    place: Place,
    room: u32,
) -> Result<Node, Fault>
    requires { front.height ≤ room }
    ensures moves { Moves tokens.old tokens.new }
    ensures read { IfOk result (λ n. IsReadBy place.names expr (λ g. grammar g (more place.inside level (root front.tree))) room (height (root front.tree)) tokens.old tokens.new (root n.tree)) }
    ensures failed { IfErr result (λ f. HasFailedBy place.names true expr (λ g. grammar g (more place.inside level (root front.tree))) room (height (root front.tree)) tokens.old tokens.new f) }
{
    let mut joined = front;
    while let Some(operator) = tokens.take_operator(level) {
        let room_beside = beside(joined.height, room)?;
        let next = operand(alloc, tokens, level, place, room_beside)?;
        joined = join(alloc, operator, joined, next, room)?;
    }
    Ok(joined)
}

#[cycle(parser)]
fn operand(
    alloc: Global,
    tokens: &mut Cursor,
    level: Level,
    place: Place,
    room: u32,
) -> Result<Node, Fault>
    ensures moves { Moves tokens.old tokens.new }
    ensures read { IfOk result (λ n. IsRead place.names (operand place.inside level) room tokens.old tokens.new (root n.tree)) }
    ensures failed { IfErr result (λ f. HasFailed place.names (operand place.inside level) room tokens.old tokens.new f) }
{
    match level {
        Level::Logic => relation(alloc, tokens, place, room),
        Level::Relation => sum(alloc, tokens, place, room),
        Level::Sum => product(alloc, tokens, place, room),
        Level::Product => power(alloc, tokens, place, room),
    }
}

#[cycle(parser)]
#[inline(always)]
fn power(alloc: Global, tokens: &mut Cursor, place: Place, room: u32) -> Result<Node, Fault>
    ensures moves { Moves tokens.old tokens.new }
    ensures read { IfOk result (λ n. IsRead place.names (power place.inside) room tokens.old tokens.new (root n.tree)) }
    ensures failed { IfErr result (λ f. HasFailed place.names (power place.inside) room tokens.old tokens.new f) }
{
    let base = unary(alloc, tokens, place, room)?;
    if !tokens.take(Sign::Caret) {
        return Ok(base);
    }
    raised(alloc, tokens, base, place, room)
}

// Parses the rest of a power after its sign.
#[cycle(parser)]
#[inline(never)]
fn raised(
    alloc: Global,
    tokens: &mut Cursor,
    base: Node,
    place: Place,
    room: u32,
) -> Result<Node, Fault>
    requires { base.height ≤ room }
    ensures moves { Moves tokens.old tokens.new }
    ensures read { IfOk result (λ n. IsReadBy place.names expr (λ g. raising place.inside (root base.tree)) room (base.height + 1) tokens.old tokens.new (root n.tree)) }
    ensures failed { IfErr result (λ f. HasFailedBy place.names false expr (λ g. raising place.inside (root base.tree)) room (base.height + 1) tokens.old tokens.new f) }
{
    let room_beside = beside(base.height, room)?;
    let exponent = power(alloc, tokens, place, room_beside)?;
    let height = base.height.max(exponent.height);
    node_over(
        alloc,
        Expr::Binary(BinaryOperator::Power, base.tree, exponent.tree),
        height,
        room,
    )
}

#[cycle(parser)]
#[inline(always)]
fn unary(alloc: Global, tokens: &mut Cursor, place: Place, room: u32) -> Result<Node, Fault>
    ensures moves { Moves tokens.old tokens.new }
    ensures read { IfOk result (λ n. IsRead place.names (unary place.inside) room tokens.old tokens.new (root n.tree)) }
    ensures failed { IfErr result (λ f. HasFailed place.names (unary place.inside) room tokens.old tokens.new f) }
{
    if !tokens.is_at(Sign::Minus) {
        return unsigned(alloc, tokens, place, room);
    }
    let minuses = tokens.take_minuses();
    let operand = unsigned(alloc, tokens, place, after_minuses(minuses, room))?;
    negate_times(alloc, minuses, operand, room)
}

#[cycle(parser)]
fn unsigned(alloc: Global, tokens: &mut Cursor, place: Place, room: u32) -> Result<Node, Fault>
    requires { next_passes (is_sign Minus) (left tokens.old) ≡ false }
    ensures moves { Moves tokens.old tokens.new }
    ensures read { IfOk result (λ n. IsRead place.names (unary place.inside) room tokens.old tokens.new (root n.tree)) }
    ensures failed { IfErr result (λ f. HasFailed place.names (unary place.inside) room tokens.old tokens.new f) }
{
    if tokens.take(Sign::Bang) {
        let operand = unary(alloc, tokens, place, below(room)?)?;
        let height = operand.height;
        return node_over(
            alloc,
            Expr::Unary(UnaryOperator::Not, operand.tree),
            height,
            room,
        );
    }
    postfix(alloc, tokens, place, room)
}
