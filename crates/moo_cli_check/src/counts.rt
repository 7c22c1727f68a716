//! The counts of a saved world that `moo check` writes.
ghost use Rattle.std.specs.Prelude.{◌≡◌, ◌++◌, IfOk, OnOk};
ghost use Rattle.std.specs.Fmt.{decimal};
ghost use Rattle.moo_dbtext_read.specs.Saved.{saved_of};
ghost use Rattle.moo_cli_check.specs.Database.{counts_line};

use itoa::Buffer;
use moo_dbtext_read::Saved;
use moo_world_table::verbs::all_programs;
use std::alloc::{AllocError, Global};

/// Returns the line with the numbers of objects, programs and connections. Recycled objects count too. Fails only if
/// memory runs out.
pub fn counts_line(alloc: Global, saved: &Saved) -> Result<Vec<u8>, AllocError>
    ensures { IfOk result (λ line. line.items ≡ counts_line (saved_of saved.now)) }
{
    saved.world.is_well_formed();
    let objects = saved.world.objects();
    let mut line = Vec::new(alloc);
    put_count(&mut line, objects.len(), b" objects, ")?;
    put_count(&mut line, all_programs(objects), b" programs, ")?;
    put_count(&mut line, saved.connected.len(), b" connected\n")?;
    Ok(line)
}

fn put_count(line: &mut Vec<u8>, count: usize, words: &[u8]) -> Result<(), AllocError>
    ensures { OnOk result (line.new.items ≡ line.old.items ++ (decimal count ++ words.now)) }
{
    let mut buffer = Buffer::new();
    line.extend_from_slice(buffer.format(count).as_bytes())?;
    line.extend_from_slice(words)
}
