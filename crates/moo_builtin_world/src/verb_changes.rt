//! Functions that add, change and delete verbs: 'Operations on Verbs' of the LambdaMOO Programmer's Manual,
//! 'Functions over the world' of docs/reference/language.md. Arguments that don't fit the function's row raise E_TYPE; no call
//! has such arguments.
ghost use Rattle.moo_value.specs.View.{tree, trees};
ghost use Rattle.moo_builtin_world.specs.Answers.{Does, IsNeverLacking};
ghost use Rattle.moo_builtin_world.specs.Order.{given};
ghost use Rattle.moo_builtin_world.specs.Forms.{given_verb, given_args};
ghost use Rattle.moo_builtin_world.specs.Verbs.{without_chosen, deleted, delete_verb, with_chosen_info, info_given, set_verb_info, with_chosen_args, args_given, set_verb_args, with_new_verb, add_verb};

use crate::allowed::{may_add, may_change_verb};
use crate::forms::{GivenVerb, given_args, given_verb};
use crate::made::{TYPE_MISMATCH, VERB_NOT_FOUND, changed, permitted};
use crate::verbs::chosen;
use moo_builtin_operator::OperationFault;
use moo_value::Value;
use moo_world::{Rights, VerbArgs, World};

/// Runs `delete_verb(o, v)`: deletes a verb, and returns 0. Raises E_VERBNF if v is none of o's verbs, and E_PERM for
/// a programmer who may not write o. Allocates nothing.
pub fn delete_verb(
    args: &[Value],
    world: &mut World,
    programmer: i32,
) -> Result<Value, OperationFault>
    ensures answer { Does result world.old world.new (delete_verb world.old programmer (trees args.now)) }
    ensures memory { IsNeverLacking result }
{
    match args {
        [Value::Obj(o), choice] => delete_chosen(*o, choice, world, programmer),
        _ => Err(TYPE_MISMATCH),
    }
}

#[tactic(auto, unfolding(crate::specs::Verbs::deleted))]
fn delete_chosen(
    o: i32,
    choice: &Value,
    world: &mut World,
    programmer: i32,
) -> Result<Value, OperationFault>
    ensures answer { Does result world.old world.new (deleted world.old programmer o (tree choice.now)) }
    ensures memory { IsNeverLacking result }
{
    match chosen(o, choice, world) {
        Some(index) => delete_at(o, index, world, programmer),
        None => Err(VERB_NOT_FOUND),
    }
}

fn delete_at(
    o: i32,
    index: usize,
    world: &mut World,
    programmer: i32,
) -> Result<Value, OperationFault>
    ensures answer { Does result world.old world.new (without_chosen world.old programmer o index) }
    ensures memory { IsNeverLacking result }
{
    let is_allowed = Rights::may_write_object(world, programmer, o);
    permitted(world.try_verb(o, index), is_allowed)?;
    changed(world.delete_verb(o, index))
}

/// Runs `set_verb_info(o, v, {owner, perms, names})`: gives a verb an owner, permissions and names, and returns 0.
/// Raises E_TYPE or E_INVARG for the list, E_VERBNF if v is none of o's verbs, and E_INVARG for names without a word.
/// Last raises E_PERM for a programmer who may not write the verb or who, not being a wizard, gives it another owner.
pub fn set_verb_info(
    args: &[Value],
    world: &mut World,
    programmer: i32,
) -> Result<Value, OperationFault>
    ensures { Does result world.old world.new (set_verb_info world.old programmer (trees args.now)) }
{
    match args {
        [Value::Obj(o), choice, info] => {
            let given = given_verb(info)?;
            set_info(*o, choice, given, world, programmer)
        }
        _ => Err(TYPE_MISMATCH),
    }
}

#[tactic(auto, unfolding(crate::specs::Verbs::info_given))]
fn set_info(
    o: i32,
    choice: &Value,
    given: GivenVerb,
    world: &mut World,
    programmer: i32,
) -> Result<Value, OperationFault>
    ensures { Does result world.old world.new (info_given world.old programmer o (tree choice.now) given) }
{
    match chosen(o, choice, world) {
        Some(index) => set_info_at(o, index, given, world, programmer),
        None => Err(VERB_NOT_FOUND),
    }
}

fn set_info_at(
    o: i32,
    index: usize,
    given: GivenVerb,
    world: &mut World,
    programmer: i32,
) -> Result<Value, OperationFault>
    ensures { Does result world.old world.new (with_chosen_info world.old programmer o given index) }
{
    let is_allowed = may_change_verb(o, index, given.owner, world, programmer);
    permitted(world.try_set_verb_info(o, index, &given.names), is_allowed)?;
    changed(world.set_verb_info(o, index, given.names, given.owner, given.perms))
}

/// Runs `set_verb_args(o, v, {dobj, prep, iobj})`: gives a verb other specifiers, and returns 0. Raises E_TYPE or
/// E_INVARG for the list, E_VERBNF if v is none of o's verbs, and E_PERM for a programmer who may not write the verb.
/// Allocates nothing.
pub fn set_verb_args(
    args: &[Value],
    world: &mut World,
    programmer: i32,
) -> Result<Value, OperationFault>
    ensures answer { Does result world.old world.new (set_verb_args world.old programmer (trees args.now)) }
    ensures memory { IsNeverLacking result }
{
    match args {
        [Value::Obj(o), choice, specifiers] => {
            let given = given_args(specifiers)?;
            set_args(*o, choice, given, world, programmer)
        }
        _ => Err(TYPE_MISMATCH),
    }
}

#[tactic(auto, unfolding(crate::specs::Verbs::args_given))]
fn set_args(
    o: i32,
    choice: &Value,
    given: VerbArgs,
    world: &mut World,
    programmer: i32,
) -> Result<Value, OperationFault>
    ensures answer { Does result world.old world.new (args_given world.old programmer o (tree choice.now) given) }
    ensures memory { IsNeverLacking result }
{
    match chosen(o, choice, world) {
        Some(index) => set_args_at(o, index, given, world, programmer),
        None => Err(VERB_NOT_FOUND),
    }
}

fn set_args_at(
    o: i32,
    index: usize,
    given: VerbArgs,
    world: &mut World,
    programmer: i32,
) -> Result<Value, OperationFault>
    ensures answer { Does result world.old world.new (with_chosen_args world.old programmer o given index) }
    ensures memory { IsNeverLacking result }
{
    let is_allowed = Rights::may_write_verb(world, programmer, o, index);
    permitted(world.try_verb(o, index), is_allowed)?;
    changed(world.set_verb_args(o, index, given))
}

/// Runs `add_verb(o, {owner, perms, names}, {dobj, prep, iobj})`: adds a verb without a program after the others, and
/// returns 0. Raises E_TYPE or E_INVARG for the first list, then for the second. Raises E_INVARG if o is no object or
/// the names are without a word, and E_QUOTA for too many verbs. Last raises E_PERM for a programmer who may not
/// write o or who, not being a wizard, names another owner.
pub fn add_verb(args: &[Value], world: &mut World, programmer: i32) -> Result<Value, OperationFault>
    ensures { Does result world.old world.new (add_verb world.old programmer (trees args.now)) }
{
    match args {
        [Value::Obj(o), info, specifiers] => {
            let given = given_verb(info)?;
            let args = given_args(specifiers)?;
            put_verb(*o, given, args, world, programmer)
        }
        _ => Err(TYPE_MISMATCH),
    }
}

fn put_verb(
    o: i32,
    given: GivenVerb,
    args: VerbArgs,
    world: &mut World,
    programmer: i32,
) -> Result<Value, OperationFault>
    ensures { Does result world.old world.new (with_new_verb world.old programmer o given args) }
{
    let is_allowed = may_add(o, given.owner, world, programmer);
    permitted(world.try_add_verb(o, &given.names), is_allowed)?;
    changed(world.add_verb(o, given.names, given.owner, given.perms, args))
}
