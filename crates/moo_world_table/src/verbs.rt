//! The verbs of one object.

ghost use Rattle.std.specs.Prelude.{◌≡◌, ◌<◌, ◌≤◌, length, OnOk, OnErr, Option, Some, None, slice_get};
ghost use Rattle.std.specs.Option.{option_copied, option_map, unwrap_or};
ghost use Rattle.moo_world_object.specs.Verbs.{with_verb_info, with_args, with_program};
ghost use Rattle.moo_world_table.specs.World.{nothing, most, programs_of, programs_in};
ghost use Rattle.moo_world_table.specs.Verbs.{has_program};
ghost use Rattle.moo_world_table.specs.Changes.{with_verb, without_verb, with_changed_verb};

use moo_syntax_program::Program;
use moo_value::MooStr;
use moo_world_object::{Object, Verb, VerbArgs, VerbPerms};
use std::alloc::AllocError;

/// Returns the verbs of the object at a number.
pub fn verbs_of(slot: &Option<Object>) -> &[Verb]
    ensures { result.now ≡ (unwrap_or slot.now nothing).verbs }
{
    match slot {
        Some(object) => object.verbs(),
        None => &[],
    }
}

/// Returns the verb at a place of the object at a number. Places count from 0.
pub fn verb_in(slot: &Option<Object>, index: usize) -> Option<&Verb>
    ensures { option_copied result ≡ slice_get (unwrap_or slot.now nothing).verbs index }
{
    match slot {
        Some(object) => object.verb(index),
        None => None,
    }
}

/// Appends a verb to those of an object. If memory runs out, nothing changes.
pub fn add_verb_in(slot: &mut Option<Object>, verb: Verb) -> Result<(), AllocError>
    ensures ok { OnOk result (slot.new ≡ option_map (with_verb verb) slot.old) }
    ensures err { OnErr result (slot.new ≡ slot.old) }
{
    match slot {
        Some(object) => object.add_verb(verb),
        None => Ok(()),
    }
}

/// Removes the verb at a place of an object. Later verbs move up.
pub fn remove_verb_in(slot: &mut Option<Object>, index: usize)
    requires { index < length (unwrap_or slot.old nothing).verbs }
    ensures { slot.new ≡ option_map (without_verb index) slot.old }
{
    if let Some(object) = slot {
        object.delete_verb(index);
    }
}

/// Gives the verb at a place other names, another owner and other permissions.
pub fn set_verb_info_in(
    slot: &mut Option<Object>,
    index: usize,
    names: MooStr,
    owner: i32,
    perms: VerbPerms,
)
    requires { index < length (unwrap_or slot.old nothing).verbs }
    ensures { slot.new ≡ option_map (with_changed_verb index (with_verb_info names owner perms)) slot.old }
{
    if let Some(object) = slot {
        object.set_verb_info(index, names, owner, perms);
    }
}

/// Gives the verb at a place other specifiers.
pub fn set_verb_args_in(slot: &mut Option<Object>, index: usize, args: VerbArgs)
    requires { index < length (unwrap_or slot.old nothing).verbs }
    ensures { slot.new ≡ option_map (with_changed_verb index (with_args args)) slot.old }
{
    if let Some(object) = slot {
        object.set_verb_args(index, args);
    }
}

/// Gives the verb at a place another program, or none.
pub fn set_program_in(slot: &mut Option<Object>, index: usize, program: Option<Program>)
    requires { index < length (unwrap_or slot.old nothing).verbs }
    ensures { slot.new ≡ option_map (with_changed_verb index (with_program program)) slot.old }
{
    if let Some(object) = slot {
        object.set_program(index, program);
    }
}

/// Returns whether the verb at a place has a program; an empty program counts.
pub fn has_program(slot: &Option<Object>, index: usize) -> bool
    ensures { result ≡ has_program (unwrap_or slot.now nothing).verbs index }
{
    match verb_in(slot, index) {
        Some(verb) => verb.program.is_some(),
        None => false,
    }
}

/// Returns how many programs the verbs of the object at a number have.
pub fn programs_on(slot: &Option<Object>) -> usize
    ensures { result ≡ programs_of (unwrap_or slot.now nothing).verbs }
{
    count_programs(verbs_of(slot))
}

fn count_programs(verbs: &[Verb]) -> usize
    ensures { result ≡ programs_of verbs.now }
{
    let mut programs = 0;
    for verb in verbs {
        programs += usize::from(verb.program.is_some());
    }
    programs
}

/// Returns how many programs the verbs of all objects have together.
pub fn all_programs(objects: &[Option<Object>]) -> usize
    requires { programs_in objects.now ≤ most }
    ensures { result ≡ programs_in objects.now }
{
    let mut programs = 0;
    for slot in objects {
        programs += programs_on(slot);
    }
    programs
}
