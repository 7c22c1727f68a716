//! The first object that defines a name twice, or a name that an ancestor defines.

ghost use Rattle.std.specs.Prelude.{◌≡◌, ◌++◌, ◌∷◌, ℕ, List, [], length, map, IfOk, slice_index_or};
ghost use Rattle.std.specs.List.{list_any};
ghost use Rattle.std.specs.Option.{option_map};
ghost use Rattle.moo_value.specs.Compare.{folded};
ghost use Rattle.moo_world_object.specs.Names.{same_name};
ghost use Rattle.moo_dbtext_object.specs.Objects.{object_of};
ghost use Rattle.moo_dbtext_restore.specs.First.{IsFirst};
ghost use Rattle.moo_dbtext_restore.specs.Faults.{HasOwnNames};
ghost use Rattle.moo_dbtext_restore.specs.Records.{names_in, parent_links};
ghost use Rattle.moo_dbtext_restore.specs.Names.{with_objects, WhereEnded, AreMet, clashes_with, rows_of};
ghost use Rattle.moo_dbtext_restore.specs.Tours.{IsTour};

use crate::first::least_of;
use crate::tour::Visit;
use moo_dbtext_object::ObjectRecord;
use moo_value::MooStr;
use std::alloc::{AllocError, Global};
use std::collections::BTreeMap;

/// Returns the first object that defines a name twice, or a name that an ancestor defines, among those whose
/// ancestors end.
pub(crate) fn first_misnamed(
    alloc: Global,
    objects: &[Option<ObjectRecord>],
    tour: &[Visit],
) -> Result<Option<usize>, AllocError>
    requires { IsTour (parent_links (with_objects objects.now)) tour.now }
    ensures { IfOk result (λ x. let r = with_objects objects.now in IsFirst (WhereEnded r (HasOwnNames r)) (length objects.now) x) }
{
    let names = folded_rows(alloc, objects)?;
    let mut met = BTreeMap::new(alloc);
    let mut fresh = Vec::new(alloc);
    let mut first = None;
    for visit in tour {
        match *visit {
            Visit::Enter(x) => {
                if meet_all(&mut met, &mut fresh, row_at(&names, x))? {
                    first = least_of(first, Some(x));
                }
            }
            Visit::Leave(x) => forget_all(&mut met, &mut fresh, row_at(&names, x)),
        }
    }
    Ok(first)
}

// Returns the names that each object defines, with letters folded.
fn folded_rows(
    alloc: Global,
    objects: &[Option<ObjectRecord>],
) -> Result<Vec<Vec<MooStr>>, AllocError>
    ensures { IfOk result (λ rows. rows_of rows.items ≡ map (λ o. map folded (names_in o)) (map (option_map object_of) objects.now)) }
{
    let mut rows = Vec::new(alloc);
    for object in objects {
        rows.push(match object {
            Some(object) => folded_names(alloc, &object.names)?,
            None => Vec::new(alloc),
        })?;
    }
    Ok(rows)
}

fn folded_names(alloc: Global, names: &[MooStr]) -> Result<Vec<MooStr>, AllocError>
    ensures { IfOk result (λ all. all.items ≡ map folded names.now) }
{
    let mut all = Vec::new(alloc);
    for name in names {
        all.push(folded_name(alloc, name)?)?;
    }
    Ok(all)
}

fn folded_name(alloc: Global, name: &MooStr) -> Result<MooStr, AllocError>
    ensures { IfOk result (λ s. s ≡ folded name.now) }
{
    let mut bytes = Vec::new(alloc);
    for byte in name.as_bytes() {
        bytes.push(byte.to_ascii_lowercase())?;
    }
    // A string with its letters folded is still a string, so only memory can run out.
    MooStr::try_from_vec(alloc, bytes).map_err(|_| AllocError)
}

fn row_at(rows: &[Vec<MooStr>], x: usize) -> &[MooStr]
    ensures { result.now ≡ slice_index_or (rows_of rows.now) x [] }
{
    match rows.get(x) {
        Some(row) => row.as_slice(),
        None => &[],
    }
}

// Adds names, the last one first, and returns whether one of them was there before.
fn meet_all<'a>(
    met: &mut BTreeMap<&'a [u8], ()>,
    fresh: &mut Vec<bool>,
    names: &'a [MooStr],
) -> Result<bool, AllocError>
    ensures { (above : List (List ℕ)) → AreMet met.old fresh.old.items above
        → IfOk result (λ clash. (clash ≡ clashes_with names.now above) × AreMet met.new fresh.new.items (names.now ++ above)) }
{
    let mut clash = false;
    for i in (0..names.len()).rev() {
        if meet(met, fresh, names[i].as_bytes())? {
            clash = true;
        }
    }
    Ok(clash)
}

// Adds a name, and returns whether it was there before.
fn meet<'a>(
    met: &mut BTreeMap<&'a [u8], ()>,
    fresh: &mut Vec<bool>,
    name: &'a [u8],
) -> Result<bool, AllocError>
    ensures { (above : List (List ℕ)) → AreMet met.old fresh.old.items above
        → IfOk result (λ known. (known ≡ list_any (same_name name.now) above) × AreMet met.new fresh.new.items (name.now ∷ above)) }
{
    let known = met.contains_key(&name);
    if !known {
        met.insert(name, ())?;
    }
    fresh.push(!known)?;
    Ok(known)
}

// Removes the names that were added last.
fn forget_all<'a>(met: &mut BTreeMap<&'a [u8], ()>, fresh: &mut Vec<bool>, names: &'a [MooStr])
    ensures { (above : List (List ℕ)) → AreMet met.old fresh.old.items (names.now ++ above) → AreMet met.new fresh.new.items above }
{
    for name in names {
        forget(met, fresh, name.as_bytes());
    }
}

// Removes the name that was added last.
fn forget<'a>(met: &mut BTreeMap<&'a [u8], ()>, fresh: &mut Vec<bool>, name: &'a [u8])
    ensures { (above : List (List ℕ)) → AreMet met.old fresh.old.items (name.now ∷ above) → AreMet met.new fresh.new.items above }
{
    let is_new = fresh.pop().unwrap_or(false);
    if is_new {
        met.remove(&name);
    }
}
