//! The links in the records of objects.

ghost use Rattle.std.specs.Prelude.{◌≡◌, IfOk, map};
ghost use Rattle.std.specs.Option.{option_map};
ghost use Rattle.moo_dbtext_object.specs.Objects.{object_of};
ghost use Rattle.moo_dbtext_restore.specs.Records.{parent_link, place_link, parent_links_of, place_links_of};

use crate::link::Link;
use moo_dbtext_object::ObjectRecord;
use std::alloc::{AllocError, Global};

fn parent_link(object: &ObjectRecord) -> Link
    ensures { result ≡ parent_link (object_of object.now) }
{
    Link {
        above: object.parent,
        first: object.child,
        next: object.sibling,
    }
}

fn place_link(object: &ObjectRecord) -> Link
    ensures { result ≡ place_link (object_of object.now) }
{
    Link {
        above: object.location,
        first: object.contents,
        next: object.next,
    }
}

/// Returns the links of the objects in the tree of parents.
pub(crate) fn parent_links(
    alloc: Global,
    objects: &[Option<ObjectRecord>],
) -> Result<Vec<Option<Link>>, AllocError>
    ensures { IfOk result (λ links. links.items ≡ parent_links_of (map (option_map object_of) objects.now)) }
{
    let mut links = Vec::with_capacity(alloc, objects.len())?;
    for object in objects {
        links.push(match object {
            Some(object) => Some(parent_link(object)),
            None => None,
        })?;
    }
    Ok(links)
}

/// Returns the links of the objects in the tree of locations.
pub(crate) fn place_links(
    alloc: Global,
    objects: &[Option<ObjectRecord>],
) -> Result<Vec<Option<Link>>, AllocError>
    ensures { IfOk result (λ links. links.items ≡ place_links_of (map (option_map object_of) objects.now)) }
{
    let mut links = Vec::with_capacity(alloc, objects.len())?;
    for object in objects {
        links.push(match object {
            Some(object) => Some(place_link(object)),
            None => None,
        })?;
    }
    Ok(links)
}
