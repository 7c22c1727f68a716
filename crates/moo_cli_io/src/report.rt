//! Writes what a database holds, or why it is refused.
ghost use Rattle.std.specs.Prelude.{◌≡◌, ◌≢◌, ◌⊎◌, IfErr, IfOk};
ghost use Rattle.std.specs.Io.KnownBytes.{Appends, Keeps};
ghost use Rattle.moo_cli_io.specs.Refused.{IsEarned};
ghost use Rattle.moo_cli_io.specs.Told.{fault_line};
ghost use Rattle.moo_cli_io.specs.Watching.{HasFailed};

use crate::exit_reason::ExitReason;
use crate::told::fault_line;
use crate::watch::Watch;
use moo_dbtext_record::{DbFault, DbFaultKind};
use std::alloc::Global;
use std::io::Write;

/// The exit status if a database is refused.
const REFUSED: u8 = 1;

/// Writes a text, and returns the exit status 0. Returns the refusal if the output fails.
pub fn show<O: Write>(text: &[u8], output: &mut O, watch: &mut Watch) -> Result<u8, ExitReason>
    ensures shown { IfOk result (λ status. (status ≡ 0) × Appends (O.contents output.old) (O.contents output.new) text.now) }
    ensures earned { IfErr result (IsEarned watch.new) }
    ensures silent { IfErr result (λ r. HasFailed watch.new ⊎ Keeps (O.contents output.old) (O.contents output.new)) }
{
    watch.write(output, text)?;
    Ok(0)
}

/// Writes a line that says why a database is refused, and returns the exit status 1. Returns a refusal if the output
/// fails or memory runs out, and also if the fault itself is `Memory`.
pub fn report_fault<O: Write>(
    alloc: Global,
    fault: DbFault,
    output: &mut O,
    watch: &mut Watch,
) -> Result<u8, ExitReason>
    ensures reported { IfOk result (λ status. (status ≡ 1) × (fault.kind ≢ DbFaultKind.Memory) × Appends (O.contents output.old) (O.contents output.new) (fault_line fault)) }
    ensures earned { IfErr result (IsEarned watch.new) }
    ensures silent { IfErr result (λ r. HasFailed watch.new ⊎ Keeps (O.contents output.old) (O.contents output.new)) }
{
    if let DbFaultKind::Memory = fault.kind {
        return Err(watch.lack());
    }
    let Ok(line) = fault_line(alloc, fault) else {
        return Err(watch.lack());
    };
    watch.write(output, &line)?;
    Ok(REFUSED)
}
