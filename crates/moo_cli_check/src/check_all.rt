//! `moo check --all`: counts what a database holds, or reports every program of it that is refused.
ghost use Rattle.std.specs.Prelude.{◌≡◌, ◌⊎◌, IfErr, IfOk};
ghost use Rattle.std.specs.Io.KnownBytes.{Appends, Keeps};
ghost use Rattle.moo_cli_io.specs.GivingUp.{HasGivenUp};
ghost use Rattle.moo_cli_io.specs.Refused.{IsEarned};
ghost use Rattle.moo_cli_io.specs.Watching.{HasFailed};
ghost use Rattle.moo_cli_check.specs.Answers.{LacksMemory};
ghost use Rattle.moo_cli_check.specs.Shown.{IsAnswered, ShowsAll, survey_text};

use crate::counts_line;
use crate::readers::{Answer, survey};
use crate::told::survey_text;
use moo_cli_io::{ExitReason, Watch, report_fault, show};
use moo_dbtext_read::{DbFault, DbFaultKind};
use std::alloc::Global;
use std::io::{Read, Write};
use std::mem::forget;

/// The exit status if a database is refused.
const REFUSED: u8 = 1;

/// Reads a database from the input, writes how many objects, programs and connections it has, and returns the exit
/// status 0. If it is refused, writes a line for each refused program, in order, and then how many they are, or the
/// line of the first other fault; returns 1. If the input or the output fails, returns 3; if memory runs out, returns
/// 4. These are reported in a line if the output still takes it.
///
/// The memory of what was read is leaked, because the process ends soon.
pub fn run_check_all<I: Read, O: Write>(alloc: Global, input: &mut I, output: &mut O) -> u8
    ensures { ShowsAll (I.remaining input.old) (O.contents output.old) (O.contents output.new) result }
{
    check_all_watched(alloc, input, output, &mut Watch::new())
}

/// Checks a database as `run_check_all` does, and records failures of the input, the output and memory in `watch`.
pub fn check_all_watched<I: Read, O: Write>(
    alloc: Global,
    input: &mut I,
    output: &mut O,
    watch: &mut Watch,
) -> u8
    ensures { IsAnswered (I.remaining input.old) (O.contents output.old) (O.contents output.new) result ⊎ HasGivenUp (O.contents output.old) (O.contents output.new) watch.new result }
{
    match surveyed(alloc, input, output, watch) {
        Ok(status) => status,
        Err(refusal) => refusal.report_watched(output, watch),
    }
}

fn surveyed<I: Read, O: Write>(
    alloc: Global,
    input: &mut I,
    output: &mut O,
    watch: &mut Watch,
) -> Result<u8, ExitReason>
    ensures answered { IfOk result (λ status. IsAnswered (I.remaining input.old) (O.contents output.old) (O.contents output.new) status) }
    ensures earned { IfErr result (IsEarned watch.new) }
    ensures silent { IfErr result (λ r. HasFailed watch.new ⊎ Keeps (O.contents output.old) (O.contents output.new)) }
{
    match survey(alloc, input, watch)? {
        Answer::Checked(Ok(saved)) => {
            let Ok(line) = counts_line(alloc, &saved) else {
                return Err(watch.lack());
            };
            forget(saved);
            show(&line, output, watch)
        }
        Answer::Checked(Err(fault)) => report_fault(alloc, fault, output, watch),
        Answer::Surveyed(faults, end) => report_all(alloc, &faults, end, output, watch),
    }
}

// Running out of memory is a refusal of the program's own.
fn report_all<O: Write>(
    alloc: Global,
    faults: &[DbFault],
    end: Option<DbFault>,
    output: &mut O,
    watch: &mut Watch,
) -> Result<u8, ExitReason>
    ensures reported { IfOk result (λ status. (status ≡ 1) × (LacksMemory end → ⊥) × Appends (O.contents output.old) (O.contents output.new) (survey_text faults.now end)) }
    ensures earned { IfErr result (IsEarned watch.new) }
    ensures silent { IfErr result (λ r. HasFailed watch.new ⊎ Keeps (O.contents output.old) (O.contents output.new)) }
{
    if let Some(
        DbFault {
            kind: DbFaultKind::Memory,
            ..
        },
    ) = end
    {
        return Err(watch.lack());
    }
    let Ok(text) = survey_text(alloc, faults, end) else {
        return Err(watch.lack());
    };
    watch.write(output, &text)?;
    Ok(REFUSED)
}
