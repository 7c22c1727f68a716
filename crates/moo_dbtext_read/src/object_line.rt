//! The lines that name objects.
ghost use Rattle.std.specs.Prelude.{◌≡◌, ◌+◌, map, length, take, option_map, IfSome};
ghost use Rattle.std.specs.List.{flat_map};
ghost use Rattle.moo_value.specs.Tree.{elements_of};
ghost use Rattle.moo_value.specs.View.{tree, trees};
ghost use Rattle.moo_dbtext_object.specs.Lines.{Line};
ghost use Rattle.moo_dbtext_object.specs.ValueLines.{value_lines, elements_lines};
ghost use Rattle.moo_dbtext_object.specs.Objects.{object_of, object_lines, cell_of, cell_lines};
ghost use Rattle.moo_dbtext_read.specs.Objects.{entry_length};
ghost use Rattle.moo_dbtext_record.specs.Texts.{objects_lines};
ghost use Rattle.moo_dbtext_record.specs.Writing.{no_notes};

use moo_dbtext_object::{ObjectRecord, PropertyRecord};
use moo_value::Value;

/// Returns the number of lines of a value, or `None` if it doesn't fit 64 bits.
#[cycle(values)]
fn lines_of_value(value: &Value) -> Option<u64>
    ensures { IfSome result (λ n. n ≡ length (value_lines (tree value.now))) }
{
    match value {
        Value::List(list) => lines_of_values(list.elements())?.checked_add(2),
        Value::Int(_) => Some(2),
        Value::Obj(_) => Some(2),
        Value::Str(_) => Some(2),
        Value::Err(_) => Some(2),
    }
}

#[cycle(values)]
fn lines_of_values(values: &[Value]) -> Option<u64>
    ensures { IfSome result (λ n. n ≡ length (elements_lines (elements_of (trees values.now)))) }
{
    let mut lines: u64 = 0;
    for value in values {
        lines = lines.checked_add(lines_of_value(value)?)?;
    }
    Some(lines)
}

fn lines_of_cell(cell: &PropertyRecord) -> Option<u64>
    ensures { IfSome result (λ n. n ≡ length (cell_lines (cell_of cell.now))) }
{
    match &cell.value {
        Some(value) => lines_of_value(value)?.checked_add(2),
        None => Some(3),
    }
}

fn lines_of_cells(cells: &[PropertyRecord]) -> Option<u64>
    ensures { IfSome result (λ n. n ≡ length (flat_map cell_lines (map cell_of cells.now))) }
{
    let mut lines: u64 = 0;
    for cell in cells {
        lines = lines.checked_add(lines_of_cell(cell)?)?;
    }
    Some(lines)
}

fn lines_of_object(object: &ObjectRecord) -> Option<u64>
    ensures { IfSome result (λ n. (note : Line) → n ≡ length (object_lines (object_of object.now) note)) }
{
    let verbs = (object.verbs.len() as u64).checked_mul(4)?;
    let names = object.names.len() as u64;
    let cells = lines_of_cells(&object.cells)?;
    let lines = verbs
        .checked_add(names)?
        .checked_add(cells)?
        .checked_add(13)?;
    Some(lines)
}

fn lines_of_entry(entry: &Option<ObjectRecord>) -> Option<u64>
    ensures { IfSome result (λ n. n ≡ entry_length (option_map object_of entry.now)) }
{
    match entry {
        Some(object) => {
            let lines = lines_of_object(object)?.checked_add(1)?;
            Some(lines)
        }
        None => Some(1),
    }
}

fn lines_of_entries(entries: &[Option<ObjectRecord>]) -> Option<u64>
    ensures { IfSome result (λ n. n ≡ length (objects_lines 0 (map (option_map object_of) entries.now) no_notes)) }
{
    let mut lines: u64 = 0;
    for entry in entries {
        lines = lines.checked_add(lines_of_entry(entry)?)?;
    }
    Some(lines)
}

/// Returns the number of the line that names object `x`, in a text with so many players and these objects. Returns
/// `None` if `x` is past the objects, or if the number doesn't fit 64 bits.
pub(crate) fn line_of_object(
    players: usize,
    objects: &[Option<ObjectRecord>],
    x: usize,
) -> Option<u64>
    ensures { IfSome result (λ n. n ≡ 6 + players + length (objects_lines 0 (take x (map (option_map object_of) objects.now)) no_notes)) }
{
    if x > objects.len() {
        return None;
    }
    let lines = lines_of_entries(&objects[..x])?
        .checked_add(players as u64)?
        .checked_add(6)?;
    Some(lines)
}
