//! Objects made of their records, each with the cells for the definitions on it and its ancestors.

ghost use Rattle.std.specs.Prelude.{◌≡◌, ◌++◌, List, [], None, length, map, IfOk, OnOk, slice_index_or, slice_set};
ghost use Rattle.std.specs.Option.{option_map, unwrap_or};
ghost use Rattle.moo_value.specs.Compare.{folded};
ghost use Rattle.moo_world_object.specs.Cells.{Key};
ghost use Rattle.moo_world_table.specs.World.{nothing, object_of, with_cells};
ghost use Rattle.moo_world_table.specs.Restoring.{rekeyed};
ghost use Rattle.moo_dbtext_object.specs.Objects as recorded;
ghost use Rattle.moo_dbtext_restore.specs.First.{IsFirst};
ghost use Rattle.moo_dbtext_restore.specs.Faults.{HasItsCells};
ghost use Rattle.moo_dbtext_restore.specs.Records.{names_in, cells_in, parent_links};
ghost use Rattle.moo_dbtext_restore.specs.Names.{with_objects};
ghost use Rattle.moo_dbtext_restore.specs.Plain.{plain_at, plain_object, plain_objects, programs_by_object, keys_on};
ghost use Rattle.moo_dbtext_restore.specs.Keyed.{AreKeyed};
ghost use Rattle.moo_dbtext_restore.specs.Tours.{IsTour};

use crate::rows::{make_row, make_verbs, share_names};
use crate::tour::Visit;
use moo_dbtext_object::ObjectRecord;
use moo_syntax_program::Program;
use moo_value::MooStr;
use moo_world_object::Object;
use std::alloc::{AllocError, Global};

/// Returns the objects of these records, with the programs of their verbs. Each has a cell for each definition on it
/// and its ancestors.
pub(crate) fn make_objects(
    alloc: Global,
    objects: &[Option<ObjectRecord>],
    programs: &[Vec<Option<Program>>],
    tour: &[Visit],
) -> Result<Vec<Option<Object>>, AllocError>
    requires tour { IsTour (parent_links (with_objects objects.now)) tour.now }
    requires counts { let r = with_objects objects.now in IsFirst (HasItsCells r) (length objects.now) None }
    ensures { IfOk result (λ made. AreKeyed (parent_links (with_objects objects.now)) (plain_objects objects.now (programs_by_object programs.now)) made.items) }
{
    let mut made = no_objects(alloc, objects.len())?;
    let mut way = Vec::new(alloc);
    for visit in tour {
        match *visit {
            Visit::Enter(x) => {
                add_definitions(&mut way, x, names_at(objects, x))?;
                let object = make_at(alloc, objects, programs, x, &way)?;
                put(&mut made, x, object);
            }
            Visit::Leave(x) => drop_definitions(&mut way, x, names_at(objects, x)),
        }
    }
    Ok(made)
}

fn no_objects(alloc: Global, many: usize) -> Result<Vec<Option<Object>>, AllocError>
    ensures { IfOk result (λ made. length made.items ≡ many) }
{
    let mut made = Vec::with_capacity(alloc, many)?;
    for _ in 0..many {
        made.push(None)?;
    }
    Ok(made)
}

fn names_at(objects: &[Option<ObjectRecord>], x: usize) -> &[MooStr]
    ensures { result.now ≡ names_in (option_map recorded.object_of (slice_index_or objects.now x None)) }
{
    match objects.get(x) {
        Some(Some(object)) => object.names.as_slice(),
        _ => &[],
    }
}

// Pushes the definitions of an object, the first name last.
fn add_definitions(
    way: &mut Vec<(usize, MooStr)>,
    x: usize,
    names: &[MooStr],
) -> Result<(), AllocError>
    ensures { OnOk result (keys_on way.new.items ≡ map (λ name. (x, folded name)) names.now ++ keys_on way.old.items) }
{
    for i in (0..names.len()).rev() {
        way.push((x, names[i].try_clone()?))?;
    }
    Ok(())
}

// Pops the definitions of an object.
fn drop_definitions(way: &mut Vec<(usize, MooStr)>, x: usize, names: &[MooStr])
    ensures { (above : List Key) → keys_on way.old.items ≡ map (λ name. (x, folded name)) names.now ++ above → keys_on way.new.items ≡ above }
{
    for _ in names {
        let _definition = way.pop();
    }
}

fn put(made: &mut Vec<Option<Object>>, x: usize, object: Option<Object>)
    ensures { made.new.items ≡ slice_set made.old.items x object }
{
    if x < made.len() {
        made[x] = object;
    }
}

// Returns object `x`, with a cell for each definition on the way up from it.
fn make_at(
    alloc: Global,
    objects: &[Option<ObjectRecord>],
    programs: &[Vec<Option<Program>>],
    x: usize,
    way: &[(usize, MooStr)],
) -> Result<Option<Object>, AllocError>
    requires { length (cells_in (option_map recorded.object_of (slice_index_or objects.now x None))) ≡ length way.now }
    ensures { IfOk result (λ o. let plain = plain_at (slice_index_or objects.now x None) (slice_index_or (programs_by_object programs.now) x []) in
        o ≡ with_cells plain (rekeyed (keys_on way.now) (unwrap_or plain nothing).cells)) }
{
    match objects.get(x) {
        Some(Some(object)) => {
            let programs = programs_at(programs, x);
            Ok(Some(make_object(alloc, object, programs, way)?))
        }
        _ => Ok(None),
    }
}

fn programs_at(programs: &[Vec<Option<Program>>], x: usize) -> &[Option<Program>]
    ensures { result.now ≡ slice_index_or (programs_by_object programs.now) x [] }
{
    match programs.get(x) {
        Some(row) => row.as_slice(),
        None => &[],
    }
}

fn make_object(
    alloc: Global,
    object: &ObjectRecord,
    programs: &[Option<Program>],
    way: &[(usize, MooStr)],
) -> Result<Object, AllocError>
    requires { length object.now.cells.items ≡ length way.now }
    ensures { IfOk result (λ o. let plain = plain_object object.now programs.now in o ≡ record plain { cells = rekeyed (keys_on way.now) plain.cells }) }
{
    Ok(Object::from_parts(
        object.name.try_clone()?,
        object.owner,
        object.flags,
        make_verbs(alloc, &object.verbs, programs)?,
        share_names(alloc, &object.names)?,
        make_row(alloc, &object.cells, way)?,
    ))
}
