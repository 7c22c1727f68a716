//! The first object whose number of cells is wrong.

ghost use Rattle.std.specs.Prelude.{◌≡◌, None, length, slice_index_or};
ghost use Rattle.std.specs.Option.{option_map};
ghost use Rattle.moo_dbtext_object.specs.Objects.{object_of};
ghost use Rattle.moo_dbtext_restore.specs.First.{IsFirst};
ghost use Rattle.moo_dbtext_restore.specs.Faults.{HasItsCells};
ghost use Rattle.moo_dbtext_restore.specs.Records.{names_in, cells_in, parent_links};
ghost use Rattle.moo_dbtext_restore.specs.Names.{with_objects, WhereEnded};
ghost use Rattle.moo_dbtext_restore.specs.Tours.{IsTour};

use crate::first::least_of;
use crate::tour::Visit;
use moo_dbtext_object::ObjectRecord;

/// Returns the first object that has more or fewer cells than definitions on it and its ancestors, among those whose
/// ancestors end.
pub(crate) fn first_miscounted(objects: &[Option<ObjectRecord>], tour: &[Visit]) -> Option<usize>
    requires { IsTour (parent_links (with_objects objects.now)) tour.now }
    ensures { let r = with_objects objects.now in IsFirst (WhereEnded r (HasItsCells r)) (length objects.now) result }
{
    // The number of definitions on the current object and its ancestors.
    let mut definitions: u128 = 0;
    let mut first = None;
    for visit in tour {
        match *visit {
            Visit::Enter(x) => {
                definitions += name_count(objects, x) as u128;
                if definitions != cell_count(objects, x) as u128 {
                    first = least_of(first, Some(x));
                }
            }
            Visit::Leave(x) => definitions -= name_count(objects, x) as u128,
        }
    }
    first
}

fn name_count(objects: &[Option<ObjectRecord>], x: usize) -> usize
    ensures { result ≡ length (names_in (option_map object_of (slice_index_or objects.now x None))) }
{
    match objects.get(x) {
        Some(Some(object)) => object.names.len(),
        _ => 0,
    }
}

fn cell_count(objects: &[Option<ObjectRecord>], x: usize) -> usize
    ensures { result ≡ length (cells_in (option_map object_of (slice_index_or objects.now x None))) }
{
    match objects.get(x) {
        Some(Some(object)) => object.cells.len(),
        _ => 0,
    }
}
