//! The parser of the items of lists, the arguments of calls and the pieces of scatters.
ghost use Rattle.std.specs.Prelude.{true, IfOk, IfErr};
ghost use Rattle.moo_syntax_ast.specs.Limits.{height};
ghost use Rattle.moo_syntax_ast.specs.View.{items_of};
ghost use Rattle.moo_syntax_grammar.specs.Grammar.{expression, arguments, members, items};
ghost use Rattle.moo_syntax_grammar.specs.Predictive.{after_question};
ghost use Rattle.moo_syntax.specs.Outcome.{Moves, IsRead, HasFailed, HasFailedBy, IsMember, IsPiece};

use crate::cursor::Cursor;
use crate::fault::Fault;
use crate::levels::expression;
use crate::make::below;
use crate::node::{Member, Members, Node};
use crate::place::Place;
use moo_syntax_ast::{Item, Name};
use moo_syntax_token::Sign;
use std::alloc::Global;

/// Parses the items of a call or of braces, which may be none. `?` pieces are allowed if `optional` is true.
#[cycle(parser)]
pub fn arguments(
    alloc: Global,
    tokens: &mut Cursor,
    place: Place,
    optional: bool,
    room: u32,
) -> Result<Members, Fault>
    ensures moves { Moves tokens.old tokens.new }
    ensures read { IfOk result (λ v. IsRead place.names (arguments place.inside optional) room tokens.old tokens.new (items_of v.items.items)) }
    ensures failed { IfErr result (λ f. HasFailed place.names (arguments place.inside optional) room tokens.old tokens.new f) }
{
    if tokens.is_at_closer() {
        return Ok(Members::new(alloc));
    }
    members(alloc, tokens, place, optional, room)
}

/// Parses one item or more, with commas between them. `?` pieces are allowed if `optional` is true.
#[cycle(parser)]
pub fn members(
    alloc: Global,
    tokens: &mut Cursor,
    place: Place,
    optional: bool,
    room: u32,
) -> Result<Members, Fault>
    ensures moves { Moves tokens.old tokens.new }
    ensures read { IfOk result (λ v. IsRead place.names (members place.inside optional) room tokens.old tokens.new (items_of v.items.items)) }
    ensures failed { IfErr result (λ f. HasFailed place.names (members place.inside optional) room tokens.old tokens.new f) }
{
    let mut found = Members::begun(alloc)?;
    loop {
        let next = member(alloc, tokens, place, optional, room)?;
        found.push(next)?;
        if !tokens.take(Sign::Comma) {
            return Ok(found);
        }
    }
}

#[cycle(parser)]
fn member(
    alloc: Global,
    tokens: &mut Cursor,
    place: Place,
    optional: bool,
    room: u32,
) -> Result<Member, Fault>
    ensures moves { Moves tokens.old tokens.new }
    ensures read { IfOk result (λ m. IsMember place.names place.inside optional room tokens.old tokens.new m.item) }
    ensures failed { IfErr result (λ f. HasFailed place.names (members place.inside optional) room tokens.old tokens.new f) }
{
    if tokens.take(Sign::At) {
        let Node { tree, height } = expression(alloc, tokens, place, room)?;
        return Ok(Member {
            item: Item::Splice(tree),
            height,
        });
    }
    if tokens.take_where(optional, Sign::Question) {
        return after_question(alloc, tokens, place, room);
    }
    let Node { tree, height } = expression(alloc, tokens, place, room)?;
    Ok(Member {
        item: Item::Element(tree),
        height,
    })
}

#[cycle(parser)]
fn after_question(
    alloc: Global,
    tokens: &mut Cursor,
    place: Place,
    room: u32,
) -> Result<Member, Fault>
    ensures moves { Moves tokens.old tokens.new }
    ensures read { IfOk result (λ m. IsPiece place.names place.inside room tokens.old tokens.new m.item) }
    ensures failed { IfErr result (λ f. HasFailedBy place.names true items (λ g. after_question place.inside) room 0 tokens.old tokens.new f) }
{
    let Some(name) = tokens.take_name()? else {
        return Err(Fault::Unexpected);
    };
    below(room)?;
    let variable = Box::new(alloc, Name::new(name))?;
    if !tokens.take(Sign::Assign) {
        return Ok(Member {
            item: Item::Optional(variable),
            height: 1,
        });
    }
    let Node { tree, height } = expression(alloc, tokens, place, room)?;
    Ok(Member {
        item: Item::Defaulted(variable, tree),
        height,
    })
}
