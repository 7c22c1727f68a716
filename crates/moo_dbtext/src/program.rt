//! Writers of the programs of a world, each as its full listing.

ghost use Rattle.std.specs.Prelude.{◌≡◌, ◌++◌, map, OnOk};
ghost use Rattle.std.specs.List.{All, flat_map};
ghost use Rattle.moo_syntax_ast.specs.Listing.{listing};
ghost use Rattle.moo_dbtext_object.specs.Lines.{unlines};
ghost use Rattle.moo_dbtext_record.specs.Programs.{program_lines};
ghost use Rattle.moo_dbtext_record.specs.Writing.{verb_programs, row_programs, table_programs};
ghost use Rattle.moo_dbtext_restore.specs.Says.{program_of};
ghost use Rattle.moo_dbtext.specs.Held.{IsHeldBlock, IsHeldProgram, HoldsProgram, HoldsPrograms};
ghost use Rattle.moo_dbtext.specs.Texts.{source_of, row_of, row_at};

use moo_dbtext_object::put_line;
use moo_dbtext_record::put_program_line;
use moo_syntax_program::Program;
use moo_unparse::write_full;
use moo_world::{Object, Verb};
use moo_world_table::verbs::verbs_of;
use std::alloc::{AllocError, Global};

fn put_listing(
    alloc: Global,
    out: &mut Vec<u8>,
    object: usize,
    verb: usize,
    program: &Program,
) -> Result<(), AllocError>
    ensures lines { OnOk result (out.new.items ≡ out.old.items ++ unlines (program_lines (record { object = object; verb = verb; source = listing program.now }))) }
    ensures held { OnOk result (IsHeldBlock program.now) }
{
    let _statements = program.statements();
    put_program_line(out, object, verb)?;
    write_full(alloc, program, out)?;
    put_line(out, b".")
}

fn put_verb_program(
    alloc: Global,
    out: &mut Vec<u8>,
    object: usize,
    number: usize,
    verb: &Verb,
) -> Result<(), AllocError>
    ensures lines { OnOk result (out.new.items ≡ out.old.items ++ unlines (flat_map program_lines (verb_programs object number (source_of verb.now.program)))) }
    ensures held { OnOk result (IsHeldProgram verb.now.program) }
{
    match &verb.program {
        None => Ok(()),
        Some(program) => put_listing(alloc, out, object, number, program),
    }
}

fn put_row(
    alloc: Global,
    out: &mut Vec<u8>,
    object: usize,
    verbs: &[Verb],
) -> Result<(), AllocError>
    ensures lines { OnOk result (out.new.items ≡ out.old.items ++ unlines (flat_map program_lines (row_programs object 0 (row_of (map program_of verbs.now))))) }
    ensures held { OnOk result (All HoldsProgram verbs.now) }
{
    for (number, verb) in verbs.iter().enumerate() {
        put_verb_program(alloc, out, object, number, verb)?;
    }
    Ok(())
}

/// Appends the programs, in rising order of object and verb.
pub(crate) fn put_programs(
    alloc: Global,
    out: &mut Vec<u8>,
    objects: &[Option<Object>],
) -> Result<(), AllocError>
    ensures lines { OnOk result (out.new.items ≡ out.old.items ++ unlines (flat_map program_lines (table_programs 0 (map row_at objects.now)))) }
    ensures held { OnOk result (All HoldsPrograms objects.now) }
{
    for (number, slot) in objects.iter().enumerate() {
        put_row(alloc, out, number, verbs_of(slot))?;
    }
    Ok(())
}
