//! `moo check`: counts what a database holds.
ghost use Rattle.std.specs.Prelude.{◌⊎◌, IfErr, IfOk};
ghost use Rattle.std.specs.Io.KnownBytes.{Keeps};
ghost use Rattle.moo_cli_check.specs.Database.{counts_line, IsAnswered, ShowsDatabase};
ghost use Rattle.moo_cli_io.specs.GivingUp.{HasGivenUp};
ghost use Rattle.moo_cli_io.specs.Refused.{IsEarned};
ghost use Rattle.moo_cli_io.specs.Watching.{HasFailed};

use crate::counts::counts_line;
use crate::loading::load;
use moo_cli_io::{ExitReason, Watch, report_fault, show};
use std::alloc::Global;
use std::io::{Read, Write};
use std::mem::forget;

/// Reads a database from the input, writes how many objects, programs and connections it has, and returns the exit
/// status 0. If the database is refused, writes why in a line, and returns 1. If the input or the output fails,
/// returns 3; if memory runs out, returns 4. These are reported in a line if the output still takes it.
///
/// The memory of what was read is leaked, because the process ends soon.
pub fn run_check<I: Read, O: Write>(alloc: Global, input: &mut I, output: &mut O) -> u8
    ensures { ShowsDatabase counts_line (I.remaining input.old) (O.contents output.old) (O.contents output.new) result }
{
    check_watched(alloc, input, output, &mut Watch::new())
}

/// Checks a database as `run_check` does, and records failures of the input, the output and memory in `watch`.
pub fn check_watched<I: Read, O: Write>(
    alloc: Global,
    input: &mut I,
    output: &mut O,
    watch: &mut Watch,
) -> u8
    ensures { IsAnswered counts_line (I.remaining input.old) (O.contents output.old) (O.contents output.new) result ⊎ HasGivenUp (O.contents output.old) (O.contents output.new) watch.new result }
{
    match checked(alloc, input, output, watch) {
        Ok(status) => status,
        Err(refusal) => refusal.report_watched(output, watch),
    }
}

fn checked<I: Read, O: Write>(
    alloc: Global,
    input: &mut I,
    output: &mut O,
    watch: &mut Watch,
) -> Result<u8, ExitReason>
    ensures answered { IfOk result (λ status. IsAnswered counts_line (I.remaining input.old) (O.contents output.old) (O.contents output.new) status) }
    ensures earned { IfErr result (IsEarned watch.new) }
    ensures silent { IfErr result (λ r. HasFailed watch.new ⊎ Keeps (O.contents output.old) (O.contents output.new)) }
{
    let loaded = load(alloc, input, watch)?;
    match loaded {
        Ok(saved) => {
            let Ok(line) = counts_line(alloc, &saved) else {
                return Err(watch.lack());
            };
            forget(saved);
            show(&line, output, watch)
        }
        Err(fault) => report_fault(alloc, fault, output, watch),
    }
}
