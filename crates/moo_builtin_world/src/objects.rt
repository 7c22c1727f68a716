//! Functions on objects and their parents: 'Fundamental Operations on Objects' and 'Operations on Player Objects' of
//! the LambdaMOO Programmer's Manual, 'Functions over the world' of docs/reference/language.md. Arguments that don't fit the
//! function's row raise E_TYPE; no call has such arguments.
ghost use Rattle.std.specs.Prelude.{◌≡◌, ◌<◌, ◌∷◌, [], IfOk, IfSome, map, pos, All};
ghost use Rattle.moo_value.specs.Tree.{object};
ghost use Rattle.moo_value.specs.View.{tree, trees};
ghost use Rattle.moo_builtin_value.specs.TextAnswers.{Gives};
ghost use Rattle.moo_world_table.specs.World.{most};
ghost use Rattle.moo_builtin_world.specs.Objects.{valid, parent, children, max_object, listed_players, is_player, reparented, change_parent};
ghost use Rattle.moo_builtin_world.specs.Answers.{Does};
ghost use Rattle.moo_builtin_world.specs.Calls.{Shows};
ghost use Rattle.moo_syntax_function.specs.declared.function.Function.TheVariants as function;

use crate::allowed::may_reparent;
use crate::made::{INVALID_ARGUMENT, TYPE_MISMATCH, changed, listed, refused, truth};
use moo_builtin_operator::OperationFault;
use moo_syntax_function::Function;
use moo_value::Value;
use moo_world::World;
use moo_world_tree::Below;
use std::alloc::{AllocError, Global};

/// Returns what `valid`, `is_player` or `parent` gives for an object. `None` for another function, and for an object
/// that the function refuses.
#[inline(always)]
pub fn shown(function: Function, o: i32, world: &World) -> Option<Value>
    ensures { IfSome result (λ v. Shows function world.now o (tree v)) }
{
    match function {
        Function::Valid => Some(truth(world.valid(o))),
        Function::IsPlayer => shown_player(o, world),
        Function::Parent => shown_parent(o, world),
        _ => None,
    }
}

#[inline(always)]
fn shown_player(o: i32, world: &World) -> Option<Value>
    ensures { IfSome result (λ v. Shows function.IsPlayer world.now o (tree v)) }
{
    if !world.valid(o) {
        return None;
    }
    let object = world.object(o)?;
    Some(truth(object.flags().player))
}

#[inline(always)]
fn shown_parent(o: i32, world: &World) -> Option<Value>
    ensures { IfSome result (λ v. Shows function.Parent world.now o (tree v)) }
{
    if !world.valid(o) {
        return None;
    }
    let parent = world.parent(o)?;
    Some(Value::Obj(parent))
}

/// Computes `valid(o)`: 1 if o is an object of the world, else 0.
pub fn valid(args: &[Value], world: &World) -> Result<Value, OperationFault>
    ensures { Gives result (valid world.now (trees args.now)) }
{
    match args {
        [Value::Obj(o)] => Ok(truth(world.valid(*o))),
        _ => Err(TYPE_MISMATCH),
    }
}

/// Computes `parent(o)`: the parent of an object, #-1 for none. E_INVARG if o is no object.
pub fn parent(args: &[Value], world: &World) -> Result<Value, OperationFault>
    ensures { Gives result (parent world.now (trees args.now)) }
{
    match args {
        [Value::Obj(o)] => match world.parent(*o) {
            Some(up) => Ok(Value::Obj(up)),
            None => Err(INVALID_ARGUMENT),
        },
        _ => Err(TYPE_MISMATCH),
    }
}

/// Computes `children(o)`: the list of an object's children, the newest last. E_INVARG if o is no object, E_QUOTA for
/// a list past its limits.
pub fn children(alloc: Global, args: &[Value], world: &World) -> Result<Value, OperationFault>
    ensures { Gives result (children world.now (trees args.now)) }
{
    match args {
        [Value::Obj(o)] => children_of(alloc, *o, world),
        _ => Err(TYPE_MISMATCH),
    }
}

fn children_of(alloc: Global, o: i32, world: &World) -> Result<Value, OperationFault>
    ensures { Gives result (children world.now (object o ∷ [])) }
{
    let Some(below) = world.children(o) else {
        return Err(INVALID_ARGUMENT);
    };
    match numbered(alloc, below) {
        Ok(values) => listed(alloc, values),
        Err(AllocError) => Err(OperationFault::Memory),
    }
}

fn numbered(alloc: Global, numbers: Below<'_>) -> Result<Vec<Value>, AllocError>
    requires { All (λ y. y < most) numbers }
    ensures { IfOk result (λ v. trees v.items ≡ map (λ y. object (pos y)) numbers.entry) }
{
    let mut values = Vec::new(alloc);
    for number in numbers {
        values.push(Value::Obj(number as i32))?;
    }
    Ok(values)
}

/// Computes `max_object()`: the highest number that was given out, also to an object that was recycled since; #-1 for
/// none.
pub fn max_object(args: &[Value], world: &World) -> Result<Value, OperationFault>
    ensures { Gives result (max_object world.now (trees args.now)) }
{
    match args {
        [] => Ok(Value::Obj(world.max_object())),
        _ => Err(TYPE_MISMATCH),
    }
}

/// Computes `players()`: the list of all players, the newest last. E_QUOTA for a list past its limits.
pub fn players(alloc: Global, args: &[Value], world: &World) -> Result<Value, OperationFault>
    ensures { Gives result (listed_players world.now (trees args.now)) }
{
    match args {
        [] => players_of(alloc, world),
        _ => Err(TYPE_MISMATCH),
    }
}

fn players_of(alloc: Global, world: &World) -> Result<Value, OperationFault>
    ensures { Gives result (listed_players world.now []) }
{
    match objects(alloc, world.players()) {
        Ok(values) => listed(alloc, values),
        Err(AllocError) => Err(OperationFault::Memory),
    }
}

fn objects(alloc: Global, numbers: &[i32]) -> Result<Vec<Value>, AllocError>
    ensures { IfOk result (λ v. trees v.items ≡ map (λ o. object o) numbers.now) }
{
    let mut values = Vec::new(alloc);
    for number in numbers {
        values.push(Value::Obj(*number))?;
    }
    Ok(values)
}

/// Computes `is_player(o)`: 1 if an object is a player, else 0. E_INVARG if o is no object.
pub fn is_player(args: &[Value], world: &World) -> Result<Value, OperationFault>
    ensures { Gives result (is_player world.now (trees args.now)) }
{
    match args {
        [Value::Obj(o)] => match world.object(*o) {
            Some(object) => Ok(truth(object.flags().player)),
            None => Err(INVALID_ARGUMENT),
        },
        _ => Err(TYPE_MISMATCH),
    }
}

/// Runs `chparent(o, to)`: gives an object another parent, or none for #-1, and returns 0. Raises E_INVARG if one of
/// the two is no object, and E_RECMOVE if `to` is o or below it. Raises E_INVARG if names of properties would clash,
/// and E_QUOTA if an object would have too many properties. Last raises E_PERM for a programmer who doesn't own o or
/// may not inherit from `to`.
pub fn change_parent(
    alloc: Global,
    args: &[Value],
    world: &mut World,
    programmer: i32,
) -> Result<Value, OperationFault>
    ensures { Does result world.old world.new (change_parent world.old programmer (trees args.now)) }
{
    match args {
        [Value::Obj(o), Value::Obj(to)] => reparent(alloc, *o, *to, world, programmer),
        _ => Err(TYPE_MISMATCH),
    }
}

fn reparent(
    alloc: Global,
    o: i32,
    to: i32,
    world: &mut World,
    programmer: i32,
) -> Result<Value, OperationFault>
    ensures { Does result world.old world.new (reparented world.old programmer o to) }
{
    if !may_reparent(o, to, world, programmer) {
        return refused(world.try_chparent(alloc, o, to));
    }
    changed(world.chparent(alloc, o, to))
}
