// Rows of calls. Each line is a call with its arguments, and after ` = ` the literal of what it answers, an error for a
// raise and 0 for nothing: `get #2 "size" = 7`. A line that begins with an object's number is a call of a built-in function
// by that programmer.
use crate::args::Args;
use crate::calls::answer;
use crate::functions::function_answer;
use moo_value::Value;
use moo_world::{World, WorldFault};
use std::alloc::Global;

/// The first row that isn't answered so. Each is run on the world that those before it left.
pub fn first_wrong<'a>(
    world: &mut World,
    alloc: Global,
    rows: &'a str,
) -> Result<Option<&'a str>, WorldFault> {
    for row in rows.lines() {
        if !is_answered(world, alloc, row)? {
            return Ok(Some(row));
        }
    }
    Ok(None)
}

fn is_answered(world: &mut World, alloc: Global, row: &str) -> Result<bool, WorldFault> {
    let Some((call, expected)) = row.split_once(" = ") else {
        return Ok(row.is_empty());
    };
    let literal = literal(alloc, run(world, alloc, call))?;
    Ok(literal.as_slice() == expected.as_bytes())
}

/// Runs a call.
pub fn run(world: &mut World, alloc: Global, call: &str) -> Result<Value, WorldFault> {
    let (first, others) = call.split_once(' ').unwrap_or((call, ""));
    let args = Args::read(alloc, others)?;
    match first.strip_prefix('#') {
        Some(programmer) => by_programmer(world, alloc, programmer, others),
        None => answer(world, alloc, first, &args),
    }
}

fn by_programmer(
    world: &mut World,
    alloc: Global,
    programmer: &str,
    call: &str,
) -> Result<Value, WorldFault> {
    let programmer = programmer.parse::<i32>().unwrap_or(0);
    let (function, others) = call.split_once(' ').unwrap_or((call, ""));
    let mut args = Args::read(alloc, others)?;
    function_answer(world, alloc, function, args.values_mut(), programmer)
}

fn literal(alloc: Global, answer: Result<Value, WorldFault>) -> Result<Vec<u8>, WorldFault> {
    let value = match answer {
        Ok(value) => value,
        Err(WorldFault::Raise(error)) => Value::Err(error),
        Err(WorldFault::Memory) => return Err(WorldFault::Memory),
    };
    Ok(value.to_literal(alloc)?)
}
