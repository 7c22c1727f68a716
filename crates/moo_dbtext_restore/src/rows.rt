//! The verbs and the cells of an object, made of its records.

ghost use Rattle.std.specs.Prelude.{◌≡◌, None, length, map, IfOk, slice_index_or};
ghost use Rattle.std.specs.Option.{option_map};
ghost use Rattle.moo_value.specs.Compare.{folded};
ghost use Rattle.moo_value.specs.View.{tree};
ghost use Rattle.moo_world_table.specs.Restoring.{rekeyed};
ghost use Rattle.moo_dbtext_restore.specs.Plain.{plain_verb, plain_verbs, plain_cell, keys_on};

use moo_dbtext_object::{PropertyRecord, VerbRecord};
use moo_syntax_program::Program;
use moo_value::MooStr;
use moo_world_object::{PropCell, Row, Verb};
use std::alloc::{AllocError, Global};

/// Returns verbs with their programs. A verb past the last program has none.
pub(crate) fn make_verbs(
    alloc: Global,
    verbs: &[VerbRecord],
    programs: &[Option<Program>],
) -> Result<Vec<Verb>, AllocError>
    ensures { IfOk result (λ made. made.items ≡ plain_verbs verbs.now programs.now) }
{
    let mut made = Vec::with_capacity(alloc, verbs.len())?;
    for i in 0..verbs.len() {
        made.push(make_verb(&verbs[i], program_at(programs, i)?)?)?;
    }
    Ok(made)
}

fn make_verb(verb: &VerbRecord, program: Option<Program>) -> Result<Verb, AllocError>
    ensures { IfOk result (λ v. v ≡ plain_verb verb.now program) }
{
    Ok(Verb {
        names: verb.names.try_clone()?,
        owner: verb.owner,
        perms: verb.perms,
        args: verb.args,
        program,
    })
}

fn program_at(programs: &[Option<Program>], i: usize) -> Result<Option<Program>, AllocError>
    ensures { IfOk result (λ p. p ≡ slice_index_or programs.now i None) }
{
    match programs.get(i) {
        Some(Some(program)) => Ok(Some(program.try_clone()?)),
        _ => Ok(None),
    }
}

/// Returns names that share the bytes of these.
pub(crate) fn share_names(alloc: Global, names: &[MooStr]) -> Result<Vec<MooStr>, AllocError>
    ensures { IfOk result (λ all. all.items ≡ names.now) }
{
    let mut all = Vec::with_capacity(alloc, names.len())?;
    for name in names {
        all.push(name.try_clone()?)?;
    }
    Ok(all)
}

/// Returns cells for the definitions on a way up, which has the nearest one last.
pub(crate) fn make_row(
    alloc: Global,
    cells: &[PropertyRecord],
    way: &[(usize, MooStr)],
) -> Result<Row, AllocError>
    requires { length way.now ≡ length cells.now }
    ensures { IfOk result (λ row. row ≡ rekeyed (keys_on way.now) (map plain_cell cells.now)) }
{
    let mut row = Vec::with_capacity(alloc, cells.len())?;
    for i in 0..cells.len() {
        row.push(make_cell(&cells[i], &way[way.len() - 1 - i])?)?;
    }
    Ok(Row::from_cells(row))
}

// Returns a cell for the definition of a name on an object.
fn make_cell(cell: &PropertyRecord, definition: &(usize, MooStr)) -> Result<PropCell, AllocError>
    ensures { IfOk result (λ c. c ≡ record { definer = definition.now.0; name = folded definition.now.1; owner = cell.now.owner; perms = cell.now.perms; value = option_map tree cell.now.value }) }
{
    let value = match &cell.value {
        Some(value) => Some(value.try_clone()?),
        None => None,
    };
    let name = definition.1.try_clone()?;
    Ok(PropCell::new(definition.0, name, value, cell.owner, cell.perms))
}
