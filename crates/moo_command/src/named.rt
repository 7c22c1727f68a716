//! Objects near a player, by their names.
ghost use Rattle.std.specs.Prelude.{◌≡◌, ◌<◌, All, Some, codes, ◌++◌};
ghost use Rattle.std.specs.List.{list_any};
ghost use Rattle.moo_value.specs.View.{tree};
ghost use Rattle.moo_world_table.specs.World.{thing_of, most};
ghost use Rattle.moo_world_table.specs.Properties.{read};
ghost use Rattle.moo_command.specs.Objects.{contents_of, names_of, named_by, strings_in};
ghost use Rattle.moo_world_object.specs.Patterns.{begins};
ghost use Rattle.moo_command.specs.Inner.{covers, with_found, with_all_found, found_among, number_found, is_covered};

use moo_value::Value;
use moo_world::{Below, World};
use moo_world_object::same_name;

/// Whether a text must match a whole name or only its beginning.
#[derive(Clone, Copy)]
pub(crate) enum Extent {
    Whole,
    Beginning,
}

/// The matches so far.
#[derive(Clone, Copy)]
pub(crate) enum Found {
    Nothing,
    One(i32),
    Several,
}

impl Found {
    /// Returns the object number that a match returns, or -2 for several objects, -3 for none.
    pub(crate) fn number(self) -> i32
        ensures { result ≡ number_found self }
    {
        match self {
            Found::Nothing => -3,
            Found::One(o) => o,
            Found::Several => -2,
        }
    }

    /// Returns the matches with one more object, which may be the one that was found before.
    fn with(self, o: i32) -> Found
        ensures { result ≡ with_found self o }
    {
        match self {
            Found::Nothing => Found::One(o),
            Found::One(other) if other == o => self,
            Found::One(_) | Found::Several => Found::Several,
        }
    }
}

/// Returns the matches in the contents of the player and of the room.
pub(crate) fn found_near(
    world: &World,
    player: i32,
    room: i32,
    text: &[u8],
    extent: Extent,
) -> Found
    ensures { result ≡ found_among (named_by world.now (covers extent text.now) (contents_of world.now player ++ contents_of world.now room)) }
{
    let found = found_in(world, player, text, extent, Found::Nothing);
    found_in(world, room, text, extent, found)
}

/// Returns the matches with those in the contents of `place`.
fn found_in(world: &World, place: i32, text: &[u8], extent: Extent, before: Found) -> Found
    ensures { result ≡ with_all_found before (named_by world.now (covers extent text.now) (contents_of world.now place)) }
{
    match world.contents(place) {
        Some(contents) => found_among(world, contents, text, extent, before),
        None => before,
    }
}

/// Returns the matches with those among these objects.
fn found_among(
    world: &World,
    contents: Below<'_>,
    text: &[u8],
    extent: Extent,
    before: Found,
) -> Found
    requires { All (λ y. y < most) contents }
    ensures { result ≡ with_all_found before (named_by world.now (covers extent text.now) contents.entry) }
{
    let mut found = before;
    for x in contents {
        if is_named(world, x, text, extent) {
            found = found.with(x as i32);
        }
    }
    found
}

/// Returns whether the text matches the name or an alias of an object.
fn is_named(world: &World, x: usize, text: &[u8], extent: Extent) -> bool
    requires { x < most }
    ensures { result ≡ list_any (covers extent text.now) (names_of world.now x) }
{
    covers(extent, text, name_of(world, x)) || is_alias(world, x, text, extent)
}

/// Returns the name of an object.
fn name_of(world: &World, x: usize) -> &[u8]
    requires { x < most }
    ensures { result.now ≡ (thing_of world.now.objects x).name }
{
    match world.object(x as i32) {
        Some(object) => object.name().as_bytes(),
        None => b"",
    }
}

/// Returns whether the text matches a string in the list of an object's property `aliases`.
fn is_alias(world: &World, x: usize, text: &[u8], extent: Extent) -> bool
    requires { x < most }
    ensures { result ≡ list_any (covers extent text.now) (strings_in (read world.now x (codes "aliases"))) }
{
    world.is_well_formed();
    match world.property_value(x as i32, b"aliases") {
        Some(value) => is_covered_in(value, text, extent),
        None => false,
    }
}

/// Returns whether a value is a list with a string that the text matches.
fn is_covered_in(value: &Value, text: &[u8], extent: Extent) -> bool
    ensures { result ≡ list_any (covers extent text.now) (strings_in (Some (tree value.now))) }
{
    match value {
        Value::List(list) => has_covered(list.elements(), text, extent),
        _ => false,
    }
}

/// Returns whether the text matches one of the strings among values.
fn has_covered(values: &[Value], text: &[u8], extent: Extent) -> bool
    ensures { result ≡ list_any (λ value. is_covered extent text.now (tree value)) values.now }
{
    values.iter().any(|value| is_covered(value, text, extent))
}

/// Returns whether a value is a string that the text matches.
fn is_covered(value: &Value, text: &[u8], extent: Extent) -> bool
    ensures { result ≡ is_covered extent text.now (tree value.now) }
{
    match value {
        Value::Str(name) => covers(extent, text, name.as_bytes()),
        _ => false,
    }
}

/// Returns whether a text is a name, or the beginning of one, with letters folded.
fn covers(extent: Extent, text: &[u8], name: &[u8]) -> bool
    ensures { result ≡ covers extent text.now name.now }
{
    match extent {
        Extent::Whole => same_name(text, name),
        Extent::Beginning => begins(text, name),
    }
}

/// Returns whether a text is the beginning of a name, with letters folded.
fn begins(text: &[u8], name: &[u8]) -> bool
    ensures { result ≡ begins text.now name.now }
{
    text.len() <= name.len() && same_name(text, &name[..text.len()])
}
