//! Look-ups along the ancestors of an object: verbs whose names match, and values through clear cells.

ghost use Rattle.std.specs.Prelude.{◌≡◌, ◌<◌, ◌∷◌, length, slice_get, None, Some, IfSome};
ghost use Rattle.std.specs.Option.{option_map, option_copied, option_and_then, unwrap_or};
ghost use Rattle.std.specs.List.{filter_map, position};
ghost use Rattle.moo_value.specs.Compare.{folded};
ghost use Rattle.moo_value.specs.View.{tree};
ghost use Rattle.moo_world_tree.specs.Forest.{ancestors};
ghost use Rattle.moo_world_object.specs.Verbs.{fits_verb};
ghost use Rattle.moo_world_object.specs.declared.verb.Need.TheVariants as need;
ghost use Rattle.moo_world_table.specs.World.{nothing};
ghost use Rattle.moo_world_table.specs.Verbs.{verb_at, verb_at_place};
ghost use Rattle.moo_world_table.specs.Properties.{value_in, value_at};

use crate::verbs;
use moo_syntax_ast::NameKey;
use moo_value::Value;
use moo_world_object::{Need, Object, Verb, cell_at};
use moo_world_tree::Forest;

/// Returns the nearest verb that matches.
#[inline(always)]
pub fn nearest_verb(
    objects: &[Option<Object>],
    tree: &Forest,
    x: usize,
    name: &NameKey<'_>,
    need: Need,
) -> Option<(usize, usize)>
    requires many { length objects.now ≡ length tree.now }
    requires first { x < length objects.now }
    ensures value { result ≡ slice_get (filter_map (verb_at objects.now need name.now) (x ∷ ancestors tree.now x)) 0 }
    ensures low { IfSome result (λ found. found.0 < length objects.now) }
{
    let mut at = x;
    if let Some(index) = verb_in(&objects[x], name, need) {
        return Some((x, index));
    }
    for _ in 0..objects.len() {
        match tree.above(at) {
            Some(up) => at = up,
            None => return None,
        }
        if let Some(index) = verb_in(&objects[at], name, need) {
            return Some((at, index));
        }
    }
    None
}

/// Returns the nearest verb that can be called by a name, and the object that has it.
#[tactic(auto, using(crate::proofs::Called::verb_placed))]
#[inline(always)]
pub fn nearest_called<'a>(
    objects: &'a [Option<Object>],
    tree: &Forest,
    x: usize,
    name: &NameKey<'_>,
) -> Option<(usize, &'a Verb)>
    requires many { length objects.now ≡ length tree.now }
    requires first { x < length objects.now }
    ensures value { option_map (λ found. (found.0, found.1.now)) result ≡ option_and_then (verb_at_place objects.now) (slice_get (filter_map (verb_at objects.now need.Call name.now) (x ∷ ancestors tree.now x)) 0) }
    ensures low { IfSome result (λ found. found.0 < length objects.now) }
{
    let (definer, index) = nearest_verb(objects, tree, x, name, Need::Call)?;
    let verb = verbs::verb_in(&objects[definer], index)?;
    Some((definer, verb))
}

// Returns the place of the first verb that a name matches, of the object at a number. For a call only executable verbs
// count.
#[inline(always)]
fn verb_in(slot: &Option<Object>, name: &NameKey<'_>, need: Need) -> Option<usize>
    ensures { result ≡ position (fits_verb need name.now) (unwrap_or slot.now nothing).verbs }
{
    match slot {
        Some(object) => object.verb_position_named(need, name),
        None => None,
    }
}

/// Returns the value for a definition that is nearest to `x` on its way up.
pub fn nearest_value<'a>(
    objects: &'a [Option<Object>],
    parents: &Forest,
    x: usize,
    definer: usize,
    name: &[u8],
) -> Option<&'a Value>
    requires many { length objects.now ≡ length parents.now }
    requires first { x < length objects.now }
    ensures { option_map tree (option_copied result) ≡ slice_get (filter_map (value_at objects.now (definer, folded name.now)) (x ∷ ancestors parents.now x)) 0 }
{
    let mut at = x;
    if let Some(value) = value_in(&objects[x], definer, name) {
        return Some(value);
    }
    for _ in 0..objects.len() {
        match parents.above(at) {
            Some(up) => at = up,
            None => return None,
        }
        if let Some(value) = value_in(&objects[at], definer, name) {
            return Some(value);
        }
    }
    None
}

/// Returns the value of the cell for a definition.
pub fn value_in<'a>(slot: &'a Option<Object>, definer: usize, name: &[u8]) -> Option<&'a Value>
    ensures { option_map tree (option_copied result) ≡ value_in slot.now (definer, folded name.now) }
{
    match slot {
        Some(object) => cell_at(object.cells(), definer, name)?.value(),
        None => None,
    }
}
