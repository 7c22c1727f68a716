// Worlds that rows make. A row is an object, with its number as it comes: its parent, its place and its name. A number is
// one digit, or `-1`.
use moo_value::{MooStr, Value};
use moo_world::{World, WorldFault};
use std::alloc::{AllocError, Global};

/// A world of these objects.
pub fn world(alloc: Global, objects: &str) -> Result<World, AllocError> {
    let mut world = World::empty(alloc);
    match add_rows(&mut world, alloc, objects) {
        Ok(()) => Ok(world),
        Err(_) => Err(AllocError),
    }
}

fn add_rows(world: &mut World, alloc: Global, objects: &str) -> Result<(), WorldFault> {
    for row in objects.lines() {
        let parts: Vec<&str> = row.split('|').collect(alloc)?;
        add_object(world, alloc, &parts)?;
    }
    Ok(())
}

fn add_object(world: &mut World, alloc: Global, parts: &[&str]) -> Result<(), WorldFault> {
    let [parent, place, name] = parts else {
        return Err(WorldFault::Memory);
    };
    let o = world.create(alloc, number(parent), 0)?;
    world.set(o, b"name", Value::Str(string(alloc, name)?))?;
    if number(place) >= 0 {
        world.move_bare(o, number(place))?;
    }
    Ok(())
}

fn digit(text: &str) -> Option<i32> {
    match text.as_bytes() {
        [digit] if digit.is_ascii_digit() => Some(i32::from(digit.wrapping_sub(b'0'))),
        _ => None,
    }
}

fn number(text: &str) -> i32 {
    match digit(text) {
        Some(number) => number,
        None => -1,
    }
}

fn string(alloc: Global, text: &str) -> Result<MooStr, WorldFault> {
    match MooStr::try_from_bytes(alloc, text.as_bytes()) {
        Ok(string) => Ok(string),
        Err(_) => Err(WorldFault::Memory),
    }
}
