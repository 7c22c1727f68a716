//! The object that a text names to a player (docs/reference/commands.md, "Objects"). Nothing here allocates memory.
ghost use Rattle.std.specs.Prelude.{◌≡◌};
ghost use Rattle.moo_command.specs.Objects.{matched, room_of, named, named_near, near};

use crate::named::{Extent, Found, found_near};
use crate::numbered::numbered;
use moo_world::World;
use moo_world_object::same_name;

/// Returns the object that a text names to a player. Returns -1 for an empty text, -2 if it names several objects, -3
/// if it names none.
pub fn match_object(world: &World, player: i32, text: &[u8]) -> i32
    ensures { result ≡ matched world.now player text.now }
{
    if text.is_empty() {
        return -1;
    }
    match numbered(world, text) {
        Some(o) => o,
        None => named(world, player, text),
    }
}

/// Returns the location of a player, or -1.
pub fn room_of(world: &World, player: i32) -> i32
    ensures { result ≡ room_of world.now player }
{
    world.location(player).unwrap_or(-1)
}

/// Returns the object that a text without a number names: the player, its location, or an object near the player.
fn named(world: &World, player: i32, text: &[u8]) -> i32
    ensures { result ≡ named world.now player text.now }
{
    if same_name(text, b"me") {
        return player;
    }
    if same_name(text, b"here") {
        return room_of(world, player);
    }
    named_near(world, player, text)
}

/// Returns the object of this name near the player. A whole match wins over a prefix.
fn named_near(world: &World, player: i32, text: &[u8]) -> i32
    ensures { result ≡ named_near world.now text.now (near world.now player) }
{
    let room = room_of(world, player);
    match found_near(world, player, room, text, Extent::Whole) {
        Found::Nothing => found_near(world, player, room, text, Extent::Beginning).number(),
        found => found.number(),
    }
}
