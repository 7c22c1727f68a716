// A command of nearly a million bytes: no connection sends so long a line.
use crate::answers::string;
use crate::worlds::world;
use moo_command::parse_command;
use moo_value::MooStr;
use std::alloc::{AllocError, Global};
use std::test::Fail;

// A line of nearly a million bytes.
fn a_long_line(alloc: Global) -> Result<MooStr, AllocError> {
    let mut line = Vec::new(alloc);
    line.push(b':')?;
    for place in 0..999_000 {
        line.push(if place % 1_000 == 0 { b' ' } else { b'a' })?;
    }
    string(alloc, &line)
}

// Whether the words of such a line, joined, are a string again.
fn is_a_long_line_parsed(alloc: Global) -> Result<bool, AllocError> {
    let world = world(alloc, "")?;
    let line = a_long_line(alloc)?;
    let found = parse_command(alloc, &world, 1, &line)?;
    Ok(found.args.len() == 999 && found.dobjstr.len() == 998_999)
}

#[test]
fn a_long_line_is_parsed(rt: HostRuntime) -> Result<(), Fail> {
    if !is_a_long_line_parsed(rt.alloc())? {
        return Err(Fail::new("a long line"));
    }
    Ok(())
}
