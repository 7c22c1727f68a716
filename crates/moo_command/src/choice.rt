//! The choice of the verb that a command runs (docs/reference/commands.md, "Choosing a verb"). Nothing here allocates
//! memory.
ghost use Rattle.std.specs.Prelude.{◌≡◌, ◌<◌, ◌∷◌, ◌&&◌, ℕ, false, get_or, length, slice_get, IfSome};
ghost use Rattle.std.specs.Option.{option_and_then, unwrap_or};
ghost use Rattle.std.specs.List.{filter_map, position};
ghost use Rattle.moo_world_tree.specs.Forest.{ancestors};
ghost use Rattle.moo_world_table.specs.World.{most, nothing};
ghost use Rattle.moo_world.specs.Calls.{number_of};
ghost use Rattle.moo_world_object.specs.declared.verb.Verb.{Verb as VerbModel};
ghost use Rattle.moo_command.specs.Choice.{agrees, takes, is_meant, chosen, chosen_on, meant_on, meant_in};
ghost use Rattle.moo_command.specs.Seen.{command_of};

use crate::command::Command;
use crate::matching::room_of;
use moo_syntax_ast::NameKey;
use moo_world::{VerbAt, World};
use moo_world_object::{Need, Object, ObjectSpecifier, PrepositionSpecifier, Verb, fits_names};
use moo_world_tree::Forest;

/// The verb that a command runs, and the object on which it was found.
#[derive(Clone, Copy)]
pub struct Chosen {
    pub this: i32,
    pub found: VerbAt,
}

/// Returns the verb that a player's command runs. Searches the player, the room, and the direct and indirect objects
/// in this order, each with its ancestors. A verb is chosen if its names match and its specifiers agree.
pub fn choose_verb(world: &World, player: i32, command: &Command) -> Option<Chosen>
    ensures { result ≡ chosen world.now player (command_of command.now) }
{
    let room = room_of(world, player);
    let key = NameKey::new(command.verb.as_bytes());
    first_chosen(
        world,
        command,
        &key,
        &[player, room, command.dobj, command.iobj],
    )
}

/// A search on an object and its ancestors for the verb of a command, whose name has this key.
#[derive(Clone, Copy)]
struct Wanted<'a> {
    command: &'a Command,
    key: &'a NameKey<'a>,
    looked_on: i32,
}

/// Returns the verb on the first of these objects that has one.
fn first_chosen(
    world: &World,
    command: &Command,
    key: &NameKey<'_>,
    places: &[i32],
) -> Option<Chosen>
    requires { key.now ≡ command.now.verb }
    ensures { result ≡ slice_get (filter_map (chosen_on world.now (command_of command.now)) places.now) 0 }
{
    for place in places {
        if let Some(chosen) = chosen_on(world, command, key, *place) {
            return Some(chosen);
        }
    }
    None
}

/// Returns the verb on one object, or on the nearest of its ancestors that has one.
fn chosen_on(world: &World, command: &Command, key: &NameKey<'_>, looked_on: i32) -> Option<Chosen>
    requires { key.now ≡ command.now.verb }
    ensures { result ≡ chosen_on world.now (command_of command.now) looked_on }
{
    let (definer, index) = meant_on(world, command, key, looked_on)?;
    let found = VerbAt {
        definer: definer as i32,
        index,
    };
    Some(Chosen {
        this: looked_on,
        found,
    })
}

fn meant_on(
    world: &World,
    command: &Command,
    key: &NameKey<'_>,
    looked_on: i32,
) -> Option<(usize, usize)>
    requires { key.now ≡ command.now.verb }
    ensures value { result ≡ option_and_then (meant_on world.now (command_of command.now) looked_on) (number_of world.now.objects looked_on) }
    ensures low { IfSome result (λ found. found.0 < most) }
{
    world.is_well_formed();
    let x = valid_number(world, looked_on)?;
    let wanted = Wanted {
        command,
        key,
        looked_on,
    };
    nearest_meant(world.objects(), world.inheritance(), x, &wanted)
}

/// Returns the number of a valid object.
fn valid_number(world: &World, o: i32) -> Option<usize>
    ensures value { result ≡ number_of world.now.objects o }
    ensures inside { IfSome result (λ x. x < length world.now.objects) }
{
    if world.valid(o) {
        usize::try_from(o).ok()
    } else {
        None
    }
}

/// Returns the nearest verb that agrees, as the number of its object and its index.
fn nearest_meant(
    objects: &[Option<Object>],
    tree: &Forest,
    x: usize,
    wanted: &Wanted<'_>,
) -> Option<(usize, usize)>
    requires many { length objects.now ≡ length tree.now }
    requires first { x < length objects.now }
    requires key { wanted.now.key.now ≡ wanted.now.command.now.verb }
    ensures value { result ≡ slice_get (filter_map (meant_in objects.now (command_of wanted.now.command.now) wanted.now.looked_on) (x ∷ ancestors tree.now x)) 0 }
    ensures low { IfSome result (λ found. found.0 < length objects.now) }
{
    let mut at = x;
    if let Some(index) = meant_in(&objects[x], wanted) {
        return Some((x, index));
    }
    for _ in 0..objects.len() {
        match tree.above(at) {
            Some(up) => at = up,
            None => return None,
        }
        if let Some(index) = meant_in(&objects[at], wanted) {
            return Some((at, index));
        }
    }
    None
}

/// Returns the index of the first verb of an object that agrees.
fn meant_in(slot: &Option<Object>, wanted: &Wanted<'_>) -> Option<usize>
    requires { wanted.now.key.now ≡ wanted.now.command.now.verb }
    ensures { result ≡ position (is_meant (command_of wanted.now.command.now) wanted.now.looked_on) (unwrap_or slot.now nothing).verbs }
{
    match slot {
        Some(object) => position_meant(object, wanted),
        None => None,
    }
}

// Finds the first verb whose name matches by the key, and looks at no verb before it.
fn position_meant(object: &Object, wanted: &Wanted<'_>) -> Option<usize>
    requires { wanted.now.key.now ≡ wanted.now.command.now.verb }
    ensures { result ≡ position (is_meant (command_of wanted.now.command.now) wanted.now.looked_on) object.now.verbs }
{
    let verbs = object.verbs();
    let first = object
        .verb_position_named(Need::Any, wanted.key)
        .unwrap_or(verbs.len());
    position_from(verbs, first, wanted)
}

// Returns the index of the first verb that agrees, if none before this one does.
fn position_from(verbs: &[Verb], first: usize, wanted: &Wanted<'_>) -> Option<usize>
    requires before { (k : ℕ) (v : VerbModel) → k < length verbs.now → k < first → is_meant (command_of wanted.now.command.now) wanted.now.looked_on (get_or verbs.now k v) ≡ false }
    ensures { result ≡ position (is_meant (command_of wanted.now.command.now) wanted.now.looked_on) verbs.now }
{
    for i in first..verbs.len() {
        if is_meant(wanted, &verbs[i]) {
            return Some(i);
        }
    }
    None
}

/// Returns whether the name matches a verb, and its specifiers agree. The specifiers come first, since they are quicker
/// to compare.
fn is_meant(wanted: &Wanted<'_>, verb: &Verb) -> bool
    ensures { result ≡ is_meant (command_of wanted.now.command.now) wanted.now.looked_on verb.now }
{
    agree(wanted, verb) && fits_names(verb.names.as_bytes(), wanted.command.verb.as_bytes())
}

/// Returns whether a verb's specifiers agree with the command.
fn agree(wanted: &Wanted<'_>, verb: &Verb) -> bool
    ensures { result ≡ (agrees verb.now.args.direct wanted.now.looked_on wanted.now.command.now.dobj && takes verb.now.args.preposition wanted.now.command.now.prep && agrees verb.now.args.indirect wanted.now.looked_on wanted.now.command.now.iobj) }
{
    let Wanted {
        command,
        looked_on,
        ..
    } = *wanted;
    agrees(verb.args.direct, looked_on, command.dobj)
        && takes(verb.args.preposition, command.prep)
        && agrees(verb.args.indirect, looked_on, command.iobj)
}

fn agrees(specifier: ObjectSpecifier, looked_on: i32, object: i32) -> bool
    ensures { result ≡ agrees specifier looked_on object }
{
    match specifier {
        ObjectSpecifier::None => object == -1,
        ObjectSpecifier::This => object == looked_on,
        ObjectSpecifier::Any => true,
    }
}

fn takes(specifier: PrepositionSpecifier, preposition: i32) -> bool
    ensures { result ≡ takes specifier preposition }
{
    let number = specifier.number();
    number == -2 || number == preposition
}
