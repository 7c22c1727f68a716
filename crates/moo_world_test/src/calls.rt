// The calls of the world by their names.
use crate::args::Args;
use moo_syntax_program::Program;
use moo_value::{ErrorCode, Value};
use moo_world::{ObjectSpecifier, PrepositionSpecifier, VerbArgs, World, WorldFault};
use std::alloc::Global;

const NO_COMMAND: VerbArgs = VerbArgs {
    direct: ObjectSpecifier::None,
    preposition: PrepositionSpecifier::None,
    indirect: ObjectSpecifier::None,
};

/// What a call is answered, 0 for nothing; E_ARGS if there is no such call.
pub fn answer(
    world: &mut World,
    alloc: Global,
    call: &str,
    args: &Args,
) -> Result<Value, WorldFault> {
    if let Some(value) = make(world, alloc, call, args)? {
        return Ok(value);
    }
    change(world, alloc, call, args)?;
    Ok(Value::Int(0))
}

fn make(
    world: &mut World,
    alloc: Global,
    call: &str,
    args: &Args,
) -> Result<Option<Value>, WorldFault> {
    match call {
        "create" => {
            let o = world.create(alloc, args.number(0), args.number(1))?;
            Ok(Some(Value::Obj(o)))
        }
        "add_verb" => Ok(Some(add_verb(world, alloc, args)?)),
        _ => Ok(None),
    }
}

fn add_verb(world: &mut World, alloc: Global, args: &Args) -> Result<Value, WorldFault> {
    let names = args.string(alloc, 1)?;
    let index = world.add_verb(
        args.number(0),
        names,
        args.number(2),
        args.verb_perms(3),
        NO_COMMAND,
    )?;
    Ok(Value::Int(i32::try_from(index).unwrap_or(-1)))
}

fn change(world: &mut World, alloc: Global, call: &str, args: &Args) -> Result<(), WorldFault> {
    if let Some(answer) = change_object(world, alloc, call, args) {
        return answer;
    }
    if let Some(answer) = change_property(world, alloc, call, args) {
        return answer;
    }
    match change_verb(world, alloc, call, args) {
        Some(answer) => answer,
        None => Err(WorldFault::Raise(ErrorCode::Arguments)),
    }
}

fn change_object(
    world: &mut World,
    alloc: Global,
    call: &str,
    args: &Args,
) -> Option<Result<(), WorldFault>> {
    let o = args.number(0);
    match call {
        "recycle" => Some(world.recycle_bare(alloc, o)),
        "chparent" => Some(world.chparent(alloc, o, args.number(1))),
        "move" => Some(world.move_bare(o, args.number(1))),
        "set_player" => Some(world.set_player(o, args.is_on(1))),
        _ => None,
    }
}

fn change_property(
    world: &mut World,
    alloc: Global,
    call: &str,
    args: &Args,
) -> Option<Result<(), WorldFault>> {
    let (o, name) = (args.number(0), args.bytes(1));
    match call {
        "set" => Some(set(world, args)),
        "clear" => Some(world.clear_property(o, name)),
        "add_property" => Some(add_property(world, alloc, args)),
        "delete_property" => Some(world.delete_property(alloc, o, name)),
        "set_info" => Some(world.set_property_info(
            alloc,
            o,
            name,
            args.number(2),
            args.prop_perms(3),
            None,
        )),
        "rename" => Some(rename(world, alloc, args)),
        _ => None,
    }
}

fn set(world: &mut World, args: &Args) -> Result<(), WorldFault> {
    let value = args.value(2)?;
    world.set(args.number(0), args.bytes(1), value)
}

fn add_property(world: &mut World, alloc: Global, args: &Args) -> Result<(), WorldFault> {
    let name = args.string(alloc, 1)?;
    let value = args.value(2)?;
    world.add_property(
        alloc,
        args.number(0),
        name,
        value,
        args.number(3),
        args.prop_perms(4),
    )
}

fn rename(world: &mut World, alloc: Global, args: &Args) -> Result<(), WorldFault> {
    let name = args.string(alloc, 4)?;
    let perms = args.prop_perms(3);
    world.set_property_info(
        alloc,
        args.number(0),
        args.bytes(1),
        args.number(2),
        perms,
        Some(name),
    )
}

fn change_verb(
    world: &mut World,
    alloc: Global,
    call: &str,
    args: &Args,
) -> Option<Result<(), WorldFault>> {
    let (o, index) = (args.number(0), args.index(1));
    match call {
        "delete_verb" => Some(world.delete_verb(o, index)),
        "set_verb_info" => Some(set_verb_info(world, alloc, args)),
        "set_verb_args" => Some(world.set_verb_args(o, index, args.verb_args(2))),
        "set_program" => Some(set_program(world, alloc, args)),
        "clear_program" => Some(world.set_program(o, index, None)),
        _ => None,
    }
}

fn set_verb_info(world: &mut World, alloc: Global, args: &Args) -> Result<(), WorldFault> {
    let names = args.string(alloc, 2)?;
    world.set_verb_info(
        args.number(0),
        args.index(1),
        names,
        args.number(3),
        args.verb_perms(4),
    )
}

// A program without statements.
fn no_statements(alloc: Global) -> Result<Program, WorldFault> {
    Ok(Program::empty(alloc)?)
}

fn set_program(world: &mut World, alloc: Global, args: &Args) -> Result<(), WorldFault> {
    let program = no_statements(alloc)?;
    world.set_program(args.number(0), args.index(1), Some(program))
}
