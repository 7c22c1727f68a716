//! The built-in functions over the world.
ghost use Rattle.std.specs.Prelude.{◌≡◌};
ghost use Rattle.moo_value.specs.View.{trees};
ghost use Rattle.moo_builtin_world.specs.Answers.{Does, DoesSome, GivesSome, LacksOnly, LacksOnlySome};
ghost use Rattle.moo_builtin_world.specs.Calls.{is_of_world, looking, changing, answer, world_answer, ChangeMayLack, MayLack};

use crate::giving::{add_property, set_property_info};
use crate::made::TYPE_MISMATCH;
use crate::objects::{change_parent, children, is_player, max_object, parent, players, valid};
use crate::properties::{
    clear_property, delete_property, is_clear_property, properties, property_info,
};
use crate::verb_changes::{add_verb, delete_verb, set_verb_args, set_verb_info};
use crate::verbs::{verb_args, verb_info, verbs};
use moo_builtin_operator::OperationFault;
use moo_syntax_function::Function;
use moo_value::Value;
use moo_world::World;
use std::alloc::Global;

/// Calls a function that reads or changes the world, for a programmer. The arguments fit its row of the table
/// (`refusal`). The function's own tests come first, and the programmer's right last. After an error or lack of
/// memory the world is as it was. `None`, with nothing changed, for any other function.
#[inline(always)]
pub fn call_world(
    alloc: Global,
    function: Function,
    args: &[Value],
    world: &mut World,
    programmer: i32,
) -> Option<Result<Value, OperationFault>>
    ensures answer { DoesSome result world.old world.new (world_answer function world.old programmer (trees args.now)) }
    ensures memory { LacksOnlySome result (MayLack function world.old programmer (trees args.now)) }
{
    if !is_of_world(function) {
        return None;
    }
    Some(answer(alloc, function, args, world, programmer))
}

#[inline(always)]
fn is_of_world(function: Function) -> bool
    ensures { result ≡ is_of_world function }
{
    match function {
        Function::Valid
        | Function::Parent
        | Function::Children
        | Function::MaxObject
        | Function::Players
        | Function::IsPlayer
        | Function::Properties
        | Function::PropertyInfo
        | Function::IsClearProperty
        | Function::Verbs
        | Function::VerbInfo
        | Function::VerbArgs
        | Function::Chparent
        | Function::AddProperty
        | Function::SetPropertyInfo
        | Function::ClearProperty
        | Function::DeleteProperty
        | Function::AddVerb
        | Function::SetVerbInfo
        | Function::SetVerbArgs
        | Function::DeleteVerb => true,
        _ => false,
    }
}

#[inline(always)]
fn answer(
    alloc: Global,
    function: Function,
    args: &[Value],
    world: &mut World,
    programmer: i32,
) -> Result<Value, OperationFault>
    ensures answer { Does result world.old world.new (answer function world.old programmer (trees args.now)) }
    ensures memory { LacksOnly result (MayLack function world.old programmer (trees args.now)) }
{
    match look(alloc, function, args, world, programmer) {
        Some(answer) => answer,
        None => change(alloc, function, args, world, programmer),
    }
}

#[inline(always)]
fn look(
    alloc: Global,
    function: Function,
    args: &[Value],
    world: &World,
    programmer: i32,
) -> Option<Result<Value, OperationFault>>
    ensures { GivesSome result (looking function world.now programmer (trees args.now)) }
{
    Some(match function {
        Function::Valid => valid(args, world),
        Function::Parent => parent(args, world),
        Function::Children => children(alloc, args, world),
        Function::MaxObject => max_object(args, world),
        Function::Players => players(alloc, args, world),
        Function::IsPlayer => is_player(args, world),
        Function::Properties => properties(alloc, args, world, programmer),
        Function::PropertyInfo => property_info(alloc, args, world, programmer),
        Function::IsClearProperty => is_clear_property(args, world, programmer),
        Function::Verbs => verbs(alloc, args, world, programmer),
        Function::VerbInfo => verb_info(alloc, args, world, programmer),
        Function::VerbArgs => verb_args(alloc, args, world, programmer),
        _ => return None,
    })
}

#[inline(never)]
fn change(
    alloc: Global,
    function: Function,
    args: &[Value],
    world: &mut World,
    programmer: i32,
) -> Result<Value, OperationFault>
    ensures answer { Does result world.old world.new (changing function world.old programmer (trees args.now)) }
    ensures memory { LacksOnly result (ChangeMayLack function world.old programmer (trees args.now)) }
{
    match function {
        Function::Chparent => change_parent(alloc, args, world, programmer),
        Function::AddProperty => add_property(alloc, args, world, programmer),
        Function::SetPropertyInfo => set_property_info(alloc, args, world, programmer),
        Function::ClearProperty => clear_property(args, world, programmer),
        Function::DeleteProperty => delete_property(alloc, args, world, programmer),
        Function::AddVerb => add_verb(args, world, programmer),
        Function::SetVerbInfo => set_verb_info(args, world, programmer),
        Function::SetVerbArgs => set_verb_args(args, world, programmer),
        Function::DeleteVerb => delete_verb(args, world, programmer),
        _ => Err(TYPE_MISMATCH),
    }
}
