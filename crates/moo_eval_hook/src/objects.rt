//! Numbers of objects, and their places in the trees.
ghost use Rattle.std.specs.Prelude.{◌≡◌, negsuc};
ghost use Rattle.std.specs.Ordering.{int_eq};
ghost use Rattle.moo_eval_semantics.specs.Objects.{is_place, parent, location, first_inside};

use moo_world::World;

/// Returns whether a number is #-1, for nowhere.
pub(crate) fn is_nowhere(o: i32) -> bool
    ensures { result ≡ int_eq o (negsuc 0) }
{
    o == -1
}

/// Returns whether a number is that of an object, or #-1 for nowhere.
pub(crate) fn is_place(world: &World, o: i32) -> bool
    ensures { result ≡ is_place world.now o }
{
    o == -1 || world.valid(o)
}

/// Returns the parent of an object, #-1 for none.
pub(crate) fn parent(world: &World, o: i32) -> i32
    ensures { result ≡ parent world.now o }
{
    world.parent(o).unwrap_or(-1)
}

/// Returns the object that an object is in, #-1 for nowhere.
pub(crate) fn location(world: &World, o: i32) -> i32
    ensures { result ≡ location world.now o }
{
    world.location(o).unwrap_or(-1)
}

/// Returns the first of the contents of an object, if it has any.
pub(crate) fn first_inside(world: &World, o: i32) -> Option<i32>
    ensures { result ≡ first_inside world.now o }
{
    let contents = world.contents(o)?;
    let first = contents.first()?;
    Some(first as i32)
}
