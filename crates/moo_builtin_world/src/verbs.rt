//! Functions that inspect verbs: 'Operations on Verbs' of the LambdaMOO Programmer's Manual, 'Functions over the
//! world' of docs/reference/language.md. Arguments that don't fit the function's row raise E_TYPE; no call has such arguments.
ghost use Rattle.std.specs.Prelude.{◌≡◌, ◌∷◌, [], IfOk, map};
ghost use Rattle.moo_value.specs.Tree.{object, string, list_of};
ghost use Rattle.moo_value.specs.View.{tree, trees};
ghost use Rattle.moo_builtin_operator.specs.Answer.{limited};
ghost use Rattle.moo_builtin_value.specs.TextAnswers.{Gives};
ghost use Rattle.moo_builtin_world.specs.Verbs.{listed_verbs, verb_place, chosen, info_of_verb, args_of_verb, told_of_verb, chosen_info, verb_info, chosen_args, verb_args};

use crate::allowed::numbered_verb;
use crate::made::{INVALID_ARGUMENT, PERMISSION, TYPE_MISMATCH, VERB_NOT_FOUND, listed};
use moo_builtin_operator::{OperationFault, before_place};
use moo_value::{MooStr, Value};
use moo_world::{Rights, World};
use moo_world_object::{Need, Object, Verb};
use moo_world_text::{object_specifier_text, preposition_specifier_text, verb_perms_text};
use std::alloc::{AllocError, Global};

/// Computes `verbs(o)`: the list of the names of an object's own verbs, one string for each, in their order. Raises
/// E_INVARG if o is no object, E_PERM for a programmer who may not read it, and E_QUOTA for a list past its limits.
pub fn verbs(
    alloc: Global,
    args: &[Value],
    world: &World,
    programmer: i32,
) -> Result<Value, OperationFault>
    ensures { Gives result (listed_verbs world.now programmer (trees args.now)) }
{
    match args {
        [Value::Obj(o)] => verbs_of(alloc, *o, world, programmer),
        _ => Err(TYPE_MISMATCH),
    }
}

fn verbs_of(alloc: Global, o: i32, world: &World, programmer: i32) -> Result<Value, OperationFault>
    ensures { Gives result (listed_verbs world.now programmer (object o ∷ [])) }
{
    let Some(object) = world.object(o) else {
        return Err(INVALID_ARGUMENT);
    };
    if !Rights::may_read_object(world, programmer, o) {
        return Err(PERMISSION);
    }
    match names_of(alloc, object.verbs()) {
        Ok(names) => listed(alloc, names),
        Err(AllocError) => Err(OperationFault::Memory),
    }
}

fn names_of(alloc: Global, verbs: &[Verb]) -> Result<Vec<Value>, AllocError>
    ensures { IfOk result (λ v. trees v.items ≡ map (λ v. string v.names) verbs.now) }
{
    let mut values = Vec::new(alloc);
    for verb in verbs {
        values.push(Value::Str(verb.names.try_clone()?))?;
    }
    Ok(values)
}

/// Returns the place, counted from 0, of an object's first verb that a string matches, or of the one at a place
/// counted from 1. `None` if o is no object or has no such verb.
pub fn chosen(o: i32, choice: &Value, world: &World) -> Option<usize>
    ensures { result ≡ chosen world.now o (tree choice.now) }
{
    let object = world.object(o)?;
    verb_place(object, choice)
}

fn verb_place(object: &Object, choice: &Value) -> Option<usize>
    ensures { result ≡ verb_place object.now.verbs (tree choice.now) }
{
    match choice {
        Value::Str(name) => object.verb_position(Need::Any, name.as_bytes()),
        Value::Int(place) => before_place(*place, object.verbs().len()),
        _ => None,
    }
}

/// Computes `verb_info(o, v)`: `{owner, perms, names}`, where perms has the letters of `rwxd` that are set. Raises
/// E_VERBNF if v is none of o's verbs, E_PERM for a programmer who may not read the verb, and E_QUOTA for a list past
/// its limits.
pub fn verb_info(
    alloc: Global,
    args: &[Value],
    world: &World,
    programmer: i32,
) -> Result<Value, OperationFault>
    ensures { Gives result (verb_info world.now programmer (trees args.now)) }
{
    match args {
        [Value::Obj(o), choice] => chosen_info(alloc, *o, choice, world, programmer),
        _ => Err(TYPE_MISMATCH),
    }
}

#[tactic(auto, unfolding(crate::specs::Verbs::chosen_info))]
fn chosen_info(
    alloc: Global,
    o: i32,
    choice: &Value,
    world: &World,
    programmer: i32,
) -> Result<Value, OperationFault>
    ensures { Gives result (chosen_info world.now programmer o (tree choice.now)) }
{
    match chosen(o, choice, world) {
        Some(index) => info_at(alloc, o, index, world, programmer),
        None => Err(VERB_NOT_FOUND),
    }
}

fn info_at(
    alloc: Global,
    o: i32,
    index: usize,
    world: &World,
    programmer: i32,
) -> Result<Value, OperationFault>
    ensures { Gives result (told_of_verb world.now programmer o info_of_verb index) }
{
    if !Rights::may_read_verb(world, programmer, o, index) {
        return Err(PERMISSION);
    }
    match numbered_verb(o, index, world) {
        Some(verb) => info_value(alloc, verb),
        None => Err(VERB_NOT_FOUND),
    }
}

fn info_value(alloc: Global, verb: &Verb) -> Result<Value, OperationFault>
    ensures { Gives result (limited (info_of_verb verb.now)) }
{
    match info_elements(alloc, verb) {
        Ok(elements) => listed(alloc, elements),
        Err(AllocError) => Err(OperationFault::Memory),
    }
}

fn info_elements(alloc: Global, verb: &Verb) -> Result<Vec<Value>, AllocError>
    ensures { IfOk result (λ v. list_of (trees v.items) ≡ info_of_verb verb.now) }
{
    let perms = verb_perms_text(alloc, verb.perms)?;
    let names = verb.names.try_clone()?;
    let elements = [Value::Obj(verb.owner), Value::Str(perms), Value::Str(names)];
    Ok(Vec::from_array(alloc, elements)?)
}

/// Computes `verb_args(o, v)`: `{dobj, prep, iobj}`, the preposition with all its forms. Raises E_VERBNF if v is none
/// of o's verbs, and E_PERM for a programmer who may not read the verb.
pub fn verb_args(
    alloc: Global,
    args: &[Value],
    world: &World,
    programmer: i32,
) -> Result<Value, OperationFault>
    ensures { Gives result (verb_args world.now programmer (trees args.now)) }
{
    match args {
        [Value::Obj(o), choice] => chosen_args(alloc, *o, choice, world, programmer),
        _ => Err(TYPE_MISMATCH),
    }
}

#[tactic(auto, unfolding(crate::specs::Verbs::chosen_args))]
fn chosen_args(
    alloc: Global,
    o: i32,
    choice: &Value,
    world: &World,
    programmer: i32,
) -> Result<Value, OperationFault>
    ensures { Gives result (chosen_args world.now programmer o (tree choice.now)) }
{
    match chosen(o, choice, world) {
        Some(index) => args_at(alloc, o, index, world, programmer),
        None => Err(VERB_NOT_FOUND),
    }
}

fn args_at(
    alloc: Global,
    o: i32,
    index: usize,
    world: &World,
    programmer: i32,
) -> Result<Value, OperationFault>
    ensures { Gives result (told_of_verb world.now programmer o args_of_verb index) }
{
    if !Rights::may_read_verb(world, programmer, o, index) {
        return Err(PERMISSION);
    }
    match numbered_verb(o, index, world) {
        Some(verb) => args_value(alloc, verb),
        None => Err(VERB_NOT_FOUND),
    }
}

fn args_value(alloc: Global, verb: &Verb) -> Result<Value, OperationFault>
    ensures { Gives result (limited (args_of_verb verb.now)) }
{
    match args_elements(alloc, verb) {
        Ok(elements) => listed(alloc, elements),
        Err(AllocError) => Err(OperationFault::Memory),
    }
}

fn args_elements(alloc: Global, verb: &Verb) -> Result<Vec<Value>, AllocError>
    ensures { IfOk result (λ v. list_of (trees v.items) ≡ args_of_verb verb.now) }
{
    let direct = text(alloc, object_specifier_text(verb.args.direct))?;
    let preposition = text(alloc, preposition_specifier_text(verb.args.preposition))?;
    let indirect = text(alloc, object_specifier_text(verb.args.indirect))?;
    Ok(Vec::from_array(alloc, [direct, preposition, indirect])?)
}

fn text(alloc: Global, bytes: &[u8]) -> Result<Value, AllocError>
    ensures { IfOk result (λ v. tree v ≡ string bytes.now) }
{
    match MooStr::try_from_bytes(alloc, bytes) {
        Ok(text) => Ok(Value::Str(text)),
        Err(_) => Err(AllocError),
    }
}
