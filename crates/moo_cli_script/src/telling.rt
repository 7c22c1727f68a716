//! The line that reports why a script ends.
ghost use Rattle.std.specs.Prelude.{◌≡◌, IfErr, IfOk};
ghost use Rattle.std.specs.Io.KnownBytes.{Appends};
ghost use Rattle.moo_cli_io.specs.Refused.{IsEarned};
ghost use Rattle.moo_cli_script.specs.Works.{IsSilent};
ghost use Rattle.moo_cli_script.specs.Told.{cause_line, cause_status, opening_line, opening_status, refused_line, refused_status, stop_line, stop_status};

use crate::print_bad_line;
use crate::script::Refused;
use moo_checkpoint::OpenFault;
use moo_cli_io::{ExitReason, Watch, report_fault};
use moo_server_core::Cause;
use std::alloc::Global;
use std::io::Write;

/// The reason why a script ends at a line.
#[derive(Clone, Copy)]
pub(crate) enum Stop {
    /// The line has no form.
    BadLine,
    /// What the line asks for is refused.
    Refused(Refused),
}

/// Prints why a script ends at the line of this number, counted from 1, and returns the exit status. Returns the refusal if
/// the output fails or memory runs out.
pub(crate) fn report_stop<O: Write>(
    alloc: Global,
    stop: Stop,
    number: u64,
    output: &mut O,
    watch: &mut Watch,
) -> Result<u8, ExitReason>
    ensures reported { IfOk result (λ status. (status ≡ stop_status stop) × Appends (O.contents output.old) (O.contents output.new) (stop_line number stop)) }
    ensures earned { IfErr result (IsEarned watch.new) }
    ensures silent { IfErr result (λ r. IsSilent watch.new (O.contents output.old) (O.contents output.new)) }
{
    match stop {
        Stop::BadLine => {
            print_bad_line(number, output, watch)?;
            Ok(5)
        }
        Stop::Refused(refused) => report_refused(alloc, refused, output, watch),
    }
}

/// Prints why a line isn't done, and returns the exit status. Returns the refusal if the output fails or memory runs out.
fn report_refused<O: Write>(
    alloc: Global,
    refused: Refused,
    output: &mut O,
    watch: &mut Watch,
) -> Result<u8, ExitReason>
    ensures reported { IfOk result (λ status. (status ≡ refused_status refused) × Appends (O.contents output.old) (O.contents output.new) (refused_line refused)) }
    ensures earned { IfErr result (IsEarned watch.new) }
    ensures silent { IfErr result (λ r. IsSilent watch.new (O.contents output.old) (O.contents output.new)) }
{
    match refused {
        Refused::Event(cause) => {
            watch.write(output, cause_line(cause))?;
            Ok(cause_status(cause))
        }
        Refused::Opening(fault) => report_opening(alloc, fault, output, watch),
        Refused::NoSuchImage => {
            watch.write(output, b"refused: NoSuchImage\n")?;
            Ok(5)
        }
    }
}

/// Prints why there is no server, and returns the exit status. Returns the refusal if the output fails or memory runs out.
pub(crate) fn report_opening<O: Write>(
    alloc: Global,
    fault: OpenFault,
    output: &mut O,
    watch: &mut Watch,
) -> Result<u8, ExitReason>
    ensures reported { IfOk result (λ status. (status ≡ opening_status fault) × Appends (O.contents output.old) (O.contents output.new) (opening_line fault)) }
    ensures earned { IfErr result (IsEarned watch.new) }
    ensures silent { IfErr result (λ r. IsSilent watch.new (O.contents output.old) (O.contents output.new)) }
{
    match fault {
        OpenFault::Db(fault) => report_fault(alloc, fault, output, watch),
        OpenFault::Device => {
            watch.write(output, b"refused: Device\n")?;
            Ok(3)
        }
        OpenFault::Memory => {
            watch.write(output, b"refused: Memory\n")?;
            Ok(4)
        }
    }
}

fn cause_line(cause: Cause) -> &'static [u8]
    ensures { result.now ≡ cause_line cause }
{
    match cause {
        Cause::NoSuchConnection => b"refused: NoSuchConnection\n",
        Cause::ConnectionInUse => b"refused: ConnectionInUse\n",
        Cause::ClockBack => b"refused: ClockBack\n",
        Cause::Memory => b"refused: Memory\n",
        Cause::Halted => b"refused: Halted\n",
        Cause::Closed => b"refused: Closed\n",
    }
}

fn cause_status(cause: Cause) -> u8
    ensures { result ≡ cause_status cause }
{
    match cause {
        Cause::Memory => 4,
        _ => 5,
    }
}
