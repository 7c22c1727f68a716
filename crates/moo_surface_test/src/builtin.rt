//! The surface of `moo_builtin`.
use moo_builtin::{Caller, Function, Kind, OperationFault, Outcome, Row};
use moo_syntax::SyntaxFault;
use moo_value::{ErrorCode, MooStr, Value};
use moo_world::World;
use std::alloc::Global;

pub fn call_plain(
    alloc: Global,
    name: &MooStr,
    args: &mut [Value],
    world: &mut World,
    programmer: i32,
    moment: u32,
) -> Outcome {
    let caller = Caller { programmer, moment };
    moo_builtin::call_plain(alloc, name, args, world, caller)
}

pub fn call_found(
    alloc: Global,
    function: Option<Function>,
    args: &mut [Value],
    world: &mut World,
    caller: Caller,
) -> Outcome {
    moo_builtin::call_found(alloc, function, args, world, caller)
}

/// Returns the value, if there is one.
pub fn value(outcome: Outcome) -> Option<Value> {
    match outcome {
        Outcome::Value(value) => Some(value),
        Outcome::Raise(_error, _message, _value) => None,
        Outcome::Memory => None,
    }
}

/// Returns the name of a function, and the kind of any number of arguments more.
pub fn named(function: Function) -> (&'static str, Option<Kind>) {
    let Row {
        name,
        needed: _,
        optional: _,
        more,
    } = function.row();
    (name, more)
}

pub fn kind_at(function: Function, place: usize) -> Kind {
    function.kind_at(place)
}

/// Returns the number of a kind.
pub fn kind(kind: Kind) -> u8 {
    match kind {
        Kind::Any => 0,
        Kind::Integer => 1,
        Kind::Error => 2,
        Kind::Text => 3,
        Kind::List => 4,
        Kind::TextOrList => 5,
        Kind::ValidObject => 6,
        Kind::AnyObject => 7,
        Kind::Verb => 8,
        Kind::PropertyInfo => 9,
        Kind::PropertyChange => 10,
        Kind::VerbInfo => 11,
        Kind::VerbArguments => 12,
        Kind::Lines => 13,
    }
}

pub fn verb_code(
    alloc: Global,
    args: &[Value],
    world: &World,
    programmer: i32,
) -> Result<Value, OperationFault> {
    moo_builtin::verb_code(alloc, args, world, programmer)
}

pub fn told_fault(alloc: Global, fault: &SyntaxFault) -> Result<Value, OperationFault> {
    moo_builtin::told_fault(alloc, fault)
}

/// Returns the error that an operation raises, if it raises one.
pub fn raised(fault: OperationFault) -> Option<ErrorCode> {
    match fault {
        OperationFault::Raise(error) => Some(error),
        OperationFault::Memory => None,
    }
}
