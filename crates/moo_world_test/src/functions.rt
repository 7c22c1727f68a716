// Calls of the plain built-in functions.
use moo_builtin::{Caller, call_plain};
use moo_builtin_value::Outcome;
use moo_value::{MooStr, Value};
use moo_world::{World, WorldFault};
use std::alloc::Global;

/// What a programmer's call of a function is answered, at the moment 0.
pub fn function_answer(
    world: &mut World,
    alloc: Global,
    name: &str,
    args: &mut [Value],
    programmer: i32,
) -> Result<Value, WorldFault> {
    let name = MooStr::try_from_bytes(alloc, name.as_bytes()).map_err(|_| WorldFault::Memory)?;
    let caller = Caller {
        programmer,
        moment: 0,
    };
    match call_plain(alloc, &name, args, world, caller) {
        Outcome::Value(value) => Ok(value),
        Outcome::Raise(error, _, _) => Err(WorldFault::Raise(error)),
        Outcome::Memory => Err(WorldFault::Memory),
    }
}
