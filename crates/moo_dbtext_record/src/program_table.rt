//! The programs of verbs, by object and verb.
ghost use Rattle.std.specs.Prelude.{◌≡◌, map, slice_index_or, Some, None, IfOk, MatchOption};
ghost use Rattle.moo_dbtext_object.specs.Objects.{object_of};
ghost use Rattle.moo_dbtext_record.specs.Sparing.{marks_of};
ghost use Rattle.moo_dbtext_record.specs.Programs.{entry_at, source_of, row_of, table_of, blank_row, is_open_in, is_open, with_source_in, with_source};

use moo_dbtext_object::ObjectRecord;
use moo_value::MooStr;
use std::alloc::{AllocError, Global};

/// The lines of a program.
pub type Source = Vec<MooStr>;

/// Returns a row for the verbs of an object, none of which has a program yet.
pub(crate) fn no_programs(
    alloc: Global,
    object: &ObjectRecord,
) -> Result<Vec<Option<Source>>, AllocError>
    ensures { IfOk result (λ row. row_of row ≡ blank_row (object_of object.now)) }
{
    let mut row = Vec::with_capacity(alloc, object.verbs.len())?;
    for verb in &object.verbs {
        row.push(None)?;
    }
    Ok(row)
}

fn is_open_in(row: &[Option<Source>], verb: usize) -> bool
    ensures { result ≡ is_open_in verb (map source_of row.now) }
{
    if verb >= row.len() {
        return false;
    }
    row[verb].is_none()
}

/// Returns whether the verb exists and has no program.
pub(crate) fn is_open(table: &[Vec<Option<Source>>], object: usize, verb: usize) -> bool
    ensures { result ≡ is_open object verb (map row_of table.now) }
{
    if object >= table.len() {
        return false;
    }
    is_open_in(&table[object], verb)
}

fn source_in(row: &[Option<Source>], verb: usize) -> Option<&[MooStr]>
    ensures { MatchOption result (slice_index_or (map source_of row.now) verb None ≡ None) (λ s. slice_index_or (map source_of row.now) verb None ≡ Some s.now) }
{
    match row.get(verb) {
        Some(Some(source)) => Some(source.as_slice()),
        _ => None,
    }
}

/// Returns the lines of a verb's program, if it has one.
pub(crate) fn source_at(
    table: &[Vec<Option<Source>>],
    object: usize,
    verb: usize,
) -> Option<&[MooStr]>
    ensures { MatchOption result (entry_at (map row_of table.now) object verb ≡ None) (λ s. entry_at (map row_of table.now) object verb ≡ Some s.now) }
{
    match table.get(object) {
        Some(row) => source_in(row, verb),
        None => None,
    }
}

fn put_source_in(row: &mut Vec<Option<Source>>, verb: usize, source: Source)
    ensures { row_of row.new ≡ with_source_in verb source.items (row_of row.old) }
{
    if verb >= row.len() {
        return;
    }
    row[verb] = Some(source);
}

/// Gives a verb its program, if the verb exists.
pub(crate) fn put_source(
    table: &mut Vec<Vec<Option<Source>>>,
    object: usize,
    verb: usize,
    source: Source,
)
    ensures { table_of table.new ≡ with_source object verb source.items (table_of table.old) }
{
    if object >= table.len() {
        return;
    }
    put_source_in(&mut table[object], verb, source);
}

/// Drops the lines of a verb's program, if it has one. The table still has an empty program for it.
pub(crate) fn drop_source(
    alloc: Global,
    table: &mut Vec<Vec<Option<Source>>>,
    object: usize,
    verb: usize,
)
    ensures { marks_of (table_of table.new) ≡ marks_of (table_of table.old) }
{
    let Some(_) = source_at(table, object, verb) else {
        return;
    };
    put_source(table, object, verb, Vec::new(alloc));
}
