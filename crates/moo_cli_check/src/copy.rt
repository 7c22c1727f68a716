//! `moo copy`: writes a database in its canonical form.
ghost use Rattle.std.specs.Prelude.{◌≡◌, ◌⊎◌, IfErr, IfOk};
ghost use Rattle.std.specs.Io.KnownBytes.{Keeps};
ghost use Rattle.moo_dbtext.specs.Canonical.{canonical};
ghost use Rattle.moo_dbtext_read.specs.Saved.{saved_of};
ghost use Rattle.moo_cli_check.specs.Database.{IsAnswered, ShowsDatabase};
ghost use Rattle.moo_cli_io.specs.GivingUp.{HasGivenUp};
ghost use Rattle.moo_cli_io.specs.Refused.{IsEarned};
ghost use Rattle.moo_cli_io.specs.Watching.{HasFailed};

use crate::loading::load;
use moo_cli_io::{ExitReason, Watch, report_fault, show};
use moo_dbtext::write_db;
use moo_dbtext_read::Saved;
use std::alloc::Global;
use std::io::{Read, Write};
use std::mem::forget;

/// Reads a database from the input, writes its canonical text, and returns the exit status 0. If the database is
/// refused, writes why in a line, and returns 1. If the input or the output fails, returns 3; if memory runs out,
/// returns 4. These are reported in a line if the output still takes it.
///
/// The memory of what was read is leaked, because the process ends soon.
pub fn run_copy<I: Read, O: Write>(alloc: Global, input: &mut I, output: &mut O) -> u8
    ensures { ShowsDatabase canonical (I.remaining input.old) (O.contents output.old) (O.contents output.new) result }
{
    copy_watched(alloc, input, output, &mut Watch::new())
}

/// Copies a database as `run_copy` does, and records failures of the input, the output and memory in `watch`.
pub fn copy_watched<I: Read, O: Write>(
    alloc: Global,
    input: &mut I,
    output: &mut O,
    watch: &mut Watch,
) -> u8
    ensures { IsAnswered canonical (I.remaining input.old) (O.contents output.old) (O.contents output.new) result ⊎ HasGivenUp (O.contents output.old) (O.contents output.new) watch.new result }
{
    match copied(alloc, input, output, watch) {
        Ok(status) => status,
        Err(refusal) => refusal.report_watched(output, watch),
    }
}

fn copied<I: Read, O: Write>(
    alloc: Global,
    input: &mut I,
    output: &mut O,
    watch: &mut Watch,
) -> Result<u8, ExitReason>
    ensures answered { IfOk result (λ status. IsAnswered canonical (I.remaining input.old) (O.contents output.old) (O.contents output.new) status) }
    ensures earned { IfErr result (IsEarned watch.new) }
    ensures silent { IfErr result (λ r. HasFailed watch.new ⊎ Keeps (O.contents output.old) (O.contents output.new)) }
{
    let loaded = load(alloc, input, watch)?;
    match loaded {
        Ok(saved) => {
            let text = canonical_text(alloc, &saved, watch)?;
            forget(saved);
            show(&text, output, watch)
        }
        Err(fault) => report_fault(alloc, fault, output, watch),
    }
}

fn canonical_text(alloc: Global, saved: &Saved, watch: &mut Watch) -> Result<Vec<u8>, ExitReason>
    ensures text { IfOk result (λ text. text.items ≡ canonical (saved_of saved.now)) }
    ensures earned { IfErr result (IsEarned watch.new) }
{
    let Ok(text) = write_db(alloc, saved) else {
        return Err(watch.lack());
    };
    Ok(text)
}
