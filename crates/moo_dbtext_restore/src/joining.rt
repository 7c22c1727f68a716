//! The places of recorded objects in the trees of parents and of locations.

ghost use Rattle.std.specs.Prelude.{◌<◌, ◌^◌, length, map, IfOk};
ghost use Rattle.std.specs.Option.{option_map};
ghost use Rattle.moo_dbtext_object.specs.Objects.{object_of};
ghost use Rattle.moo_dbtext_restore.specs.First.{IsFirst};
ghost use Rattle.moo_dbtext_restore.specs.Faults.{IsJoinedWell};
ghost use Rattle.moo_dbtext_restore.specs.Links.{IsSound};

use crate::first::least_of;
use crate::link::Link;
use crate::nodes::{first_unsound, nodes_of};
use crate::records::{parent_links, place_links};
use moo_dbtext_object::ObjectRecord;
use std::alloc::{AllocError, Global};

/// Returns the first object whose place in the tree of parents or of locations is unsound. Such an object is right
/// below a number that is no object's, has no end of ancestors, or has a list that differs from the objects right
/// below it.
pub(crate) fn first_misjoined(
    alloc: Global,
    objects: &[Option<ObjectRecord>],
) -> Result<Option<usize>, AllocError>
    ensures { IfOk result (λ x. IsFirst (IsJoinedWell (map (option_map object_of) objects.now)) (length objects.now) x) }
{
    let parents = parent_links(alloc, objects)?;
    let places = place_links(alloc, objects)?;
    let in_parents = first_unsound_in(alloc, &parents)?;
    let in_places = first_unsound_in(alloc, &places)?;
    Ok(least_of(in_parents, in_places))
}

pub(crate) fn first_unsound_in(
    alloc: Global,
    links: &[Option<Link>],
) -> Result<Option<usize>, AllocError>
    requires { length links.now < 2 ^ 63 }
    ensures { IfOk result (λ x. IsFirst (IsSound links.now) (length links.now) x) }
{
    let nodes = nodes_of(alloc, links)?;
    first_unsound(alloc, links, &nodes)
}
