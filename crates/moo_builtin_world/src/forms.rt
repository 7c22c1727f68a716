//! Parses the lists that give the info of a property or a verb, or the specifiers of a verb.
ghost use Rattle.std.specs.Prelude.{◌≡◌};
ghost use Rattle.moo_value.specs.View.{tree, trees};
ghost use Rattle.moo_builtin_world.specs.Answers.{Reads, IsNeverLacking};
ghost use Rattle.moo_builtin_world.specs.Forms.{given_property, property_in, given_verb, verb_in, given_args, args_in, specifiers};
ghost use Rattle.moo_world_text.specs.Specifiers.{object_specifier_of, preposition_specifier_of};

use crate::made::{INVALID_ARGUMENT, TYPE_MISMATCH};
use moo_builtin_operator::OperationFault;
use moo_value::{MooStr, Value};
use moo_world::{PropPerms, VerbArgs, VerbPerms};
use moo_world_text::{
    object_specifier_from_text, preposition_specifier_from_text, prop_perms_from_text,
    verb_perms_from_text,
};
use std::alloc::AllocError;

/// The new info of a property; without a name it keeps its own.
#[derive(Drop)]
pub struct GivenProperty {
    pub owner: i32,
    pub perms: PropPerms,
    pub name: Option<MooStr>,
}

/// The new info of a verb.
#[derive(Drop)]
pub struct GivenVerb {
    pub owner: i32,
    pub perms: VerbPerms,
    pub names: MooStr,
}

/// Parses `{owner, perms}` or `{owner, perms, name}`. E_TYPE for another value, E_INVARG for a text that isn't
/// permissions.
pub fn given_property(value: &Value) -> Result<GivenProperty, OperationFault>
    ensures { Reads result (given_property (tree value.now)) }
{
    match value {
        Value::List(list) => property_in(list.elements()),
        _ => Err(TYPE_MISMATCH),
    }
}

fn property_in(elements: &[Value]) -> Result<GivenProperty, OperationFault>
    ensures { Reads result (property_in (trees elements.now)) }
{
    match elements {
        [Value::Obj(owner), Value::Str(perms)] => {
            let Some(perms) = prop_perms_from_text(perms.as_bytes()) else {
                return Err(INVALID_ARGUMENT);
            };
            Ok(GivenProperty {
                owner: *owner,
                perms,
                name: None,
            })
        }
        [Value::Obj(owner), Value::Str(perms), Value::Str(name)] => {
            let Some(perms) = prop_perms_from_text(perms.as_bytes()) else {
                return Err(INVALID_ARGUMENT);
            };
            match name.try_clone() {
                Ok(name) => Ok(GivenProperty {
                    owner: *owner,
                    perms,
                    name: Some(name),
                }),
                Err(AllocError) => Err(OperationFault::Memory),
            }
        }
        _ => Err(TYPE_MISMATCH),
    }
}

/// Parses `{owner, perms, names}`. E_TYPE for another value, E_INVARG for a text that isn't permissions.
#[tactic(auto, unfolding(crate::specs::Forms::given_verb))]
pub fn given_verb(value: &Value) -> Result<GivenVerb, OperationFault>
    ensures { Reads result (given_verb (tree value.now)) }
{
    match value {
        Value::List(list) => verb_in(list.elements()),
        _ => Err(TYPE_MISMATCH),
    }
}

fn verb_in(elements: &[Value]) -> Result<GivenVerb, OperationFault>
    ensures { Reads result (verb_in (trees elements.now)) }
{
    match elements {
        [Value::Obj(owner), Value::Str(perms), Value::Str(names)] => {
            let Some(perms) = verb_perms_from_text(perms.as_bytes()) else {
                return Err(INVALID_ARGUMENT);
            };
            match names.try_clone() {
                Ok(names) => Ok(GivenVerb {
                    owner: *owner,
                    perms,
                    names,
                }),
                Err(AllocError) => Err(OperationFault::Memory),
            }
        }
        _ => Err(TYPE_MISMATCH),
    }
}

/// Parses `{dobj, prep, iobj}`. E_TYPE for another value, E_INVARG for a text that is no specifier.
#[tactic(auto, unfolding(crate::specs::Forms::given_args))]
pub fn given_args(value: &Value) -> Result<VerbArgs, OperationFault>
    ensures answer { Reads result (given_args (tree value.now)) }
    ensures memory { IsNeverLacking result }
{
    match value {
        Value::List(list) => args_in(list.elements()),
        _ => Err(TYPE_MISMATCH),
    }
}

fn args_in(elements: &[Value]) -> Result<VerbArgs, OperationFault>
    ensures answer { Reads result (args_in (trees elements.now)) }
    ensures memory { IsNeverLacking result }
{
    match elements {
        [
            Value::Str(direct),
            Value::Str(preposition),
            Value::Str(indirect),
        ] => {
            match specifiers(
                direct.as_bytes(),
                preposition.as_bytes(),
                indirect.as_bytes(),
            ) {
                Some(args) => Ok(args),
                None => Err(INVALID_ARGUMENT),
            }
        }
        _ => Err(TYPE_MISMATCH),
    }
}

fn specifiers(direct: &[u8], preposition: &[u8], indirect: &[u8]) -> Option<VerbArgs>
    ensures { result ≡ specifiers (object_specifier_of direct.now) (preposition_specifier_of preposition.now) (object_specifier_of indirect.now) }
{
    let direct = object_specifier_from_text(direct)?;
    let preposition = preposition_specifier_from_text(preposition)?;
    let indirect = object_specifier_from_text(indirect)?;
    Some(VerbArgs {
        direct,
        preposition,
        indirect,
    })
}
