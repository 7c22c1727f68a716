//! Programs by object and verb.
ghost use Rattle.std.specs.Prelude.{◌≡◌, ℕ, Some, None, slice_index_or, OnOk};
ghost use Rattle.moo_dbtext_record.specs.Programs.{entry_at};
ghost use Rattle.moo_dbtext_read.specs.Says.{programs_of};

use moo_syntax_program::Program;
use std::alloc::{AllocError, Global};

fn put_in(row: &mut Vec<Option<Program>>, verb: usize, program: Program) -> Result<(), AllocError>
    ensures there { OnOk result (slice_index_or row.new.items verb None ≡ Some program) }
    ensures others { OnOk result ((v : ℕ) → (v ≡ verb → ⊥) → slice_index_or row.new.items v None ≡ slice_index_or row.old.items v None) }
{
    while row.len() <= verb {
        row.push(None)?;
    }
    row[verb] = Some(program);
    Ok(())
}

/// Gives a verb its program, and adds rows as needed.
pub(crate) fn put_program(
    alloc: Global,
    rows: &mut Vec<Vec<Option<Program>>>,
    object: usize,
    verb: usize,
    program: Program,
) -> Result<(), AllocError>
    ensures there { OnOk result (entry_at (programs_of rows.new) object verb ≡ Some program) }
    ensures others { OnOk result ((o v : ℕ) → (o ≡ object → v ≡ verb → ⊥) → entry_at (programs_of rows.new) o v ≡ entry_at (programs_of rows.old) o v) }
{
    while rows.len() <= object {
        rows.push(Vec::new(alloc))?;
    }
    put_in(&mut rows[object], verb, program)
}
