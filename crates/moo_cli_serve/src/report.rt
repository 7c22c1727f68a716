//! The lines that a server prints: the addresses on which it listens, and why it ends.
ghost use Rattle.std.specs.Prelude.{◌≡◌, [], IfErr, IfOk, OnOk};
ghost use Rattle.std.specs.Io.KnownBytes.{Appends};
ghost use Rattle.moo_cli_io.specs.Watching.{Remembers};
ghost use Rattle.moo_cli_serve.specs.Printed.{IsToldAs, Prints, end_line, line_of, listening_line};
ghost use Rattle.moo_cli_serve.specs.Program.{end_status};
ghost use Rattle.moo_cli_serve.specs.Service.{IsOutside};
ghost use Rattle.moo_cli_serve.specs.Status.{fault_status};
ghost use Rattle.moo_cli_serve.specs.declared.fault.ServeFault as ending;
ghost use Rattle.moo_cli_serve.specs.declared.fault.ServeFault.TheVariants as the;
ghost use Rattle.moo_checkpoint.specs.declared.open_fault.OpenFault.TheVariants as opening;

use crate::fault::ServeFault;
use log::{Log, warn};
use moo_checkpoint::OpenFault;
use moo_cli_io::{Watch, fault_line};
use moo_cli_sockets::SocketsFault;
use moo_dbtext_record::DbFault;
use moo_server_core::Cause;
use std::alloc::Global;
use std::io;
use std::io::Write;
use std::net::SocketAddr;

/// The exit status of a server that must save and has not.
const UNSAVED: u8 = 3;

/// Prints the address on which a server listens. Fails if the output fails, or if memory runs out.
pub(crate) fn report_address<O: Write>(
    alloc: Global,
    output: &mut O,
    address: SocketAddr,
    watch: &mut Watch,
) -> Result<(), ServeFault>
    ensures text { OnOk result (Appends (O.contents output.old) (O.contents output.new) (listening_line address)) }
    ensures outside { IfErr result IsOutside }
    ensures nothing { IfErr result (λ _. Prints (O.contents output.old) (O.contents output.new) watch.new []) }
{
    let line = format!(in alloc; "listening on {address}\n")?;
    match watch.print(output, line.as_bytes()) {
        Ok(()) => Ok(()),
        Err(error) => Err(ServeFault::Output(error)),
    }
}

/// Returns the exit status of a server that was served to its end. Prints a line if it should have saved and hasn't.
pub(crate) fn end_status<R: Log, O: Write>(
    rt: &R,
    output: &mut O,
    must_save: bool,
    is_saved: bool,
    watch: &mut Watch,
) -> u8
    ensures status { result ≡ end_status must_save is_saved }
    ensures text { Prints (O.contents output.old) (O.contents output.new) watch.new (end_line must_save is_saved) }
    ensures remembers { Remembers watch.old watch.new }
{
    if is_saved || !must_save {
        return 0;
    }
    if let Err(error) = watch.print(output, b"refused: Device\n") {
        report_output(rt, &error);
    }
    UNSAVED
}

/// Prints why a server ends, in the words of the program's other commands, and returns the exit status. If memory runs out
/// for the line of a database, that is the reason. If the output fails only now, logs that too.
pub(crate) fn report_fault<R: Log, O: Write>(
    rt: &R,
    alloc: Global,
    output: &mut O,
    fault: ServeFault,
    watch: &mut Watch,
) -> u8
    ensures told { (told : ending.ServeFault) × IsToldAs fault told × (result ≡ fault_status told)
        × Prints (O.contents output.old) (O.contents output.new) watch.new (line_of told) }
    ensures remembers { Remembers watch.old watch.new }
{
    match fixed_line(&fault) {
        Ok(line) => {
            let printed = watch.print(output, line);
            if !matches!(fault, ServeFault::Output(_)) {
                report_printed(rt, printed);
            }
            fault.status()
        }
        Err(refused) => report_refused(rt, alloc, output, refused, watch),
    }
}

// Prints why a database is refused, or that memory ran out for that line. Returns the exit status.
fn report_refused<R: Log, O: Write>(
    rt: &R,
    alloc: Global,
    output: &mut O,
    fault: DbFault,
    watch: &mut Watch,
) -> u8
    ensures told { (told : ending.ServeFault) × IsToldAs (the.Open (opening.Db fault)) told × (result ≡ fault_status told)
        × Prints (O.contents output.old) (O.contents output.new) watch.new (line_of told) }
    ensures remembers { Remembers watch.old watch.new }
{
    match fault_line(alloc, fault) {
        Ok(line) => {
            report_printed(rt, watch.print(output, &line));
            1
        }
        Err(_) => {
            report_printed(rt, watch.print(output, b"refused: Memory\n"));
            4
        }
    }
}

// Returns the line of a fault, or the fault of a database, whose line needs memory.
fn fixed_line(fault: &ServeFault) -> Result<&'static [u8], DbFault>
    ensures line { IfOk result (λ line. line.now ≡ line_of fault.now) }
    ensures refused { IfErr result (λ refused. fault.now ≡ the.Open (opening.Db refused)) }
{
    match fault {
        ServeFault::Open(OpenFault::Db(refused)) => Err(*refused),
        ServeFault::Open(OpenFault::Device)
        | ServeFault::Sockets(SocketsFault::Device(_) | SocketsFault::Web(_))
        | ServeFault::Output(_) => Ok(b"refused: Device\n"),
        ServeFault::Open(OpenFault::Memory)
        | ServeFault::Sockets(SocketsFault::Memory)
        | ServeFault::Refused(Cause::Memory)
        | ServeFault::Memory => Ok(b"refused: Memory\n"),
        ServeFault::Refused(Cause::NoSuchConnection) => Ok(b"refused: NoSuchConnection\n"),
        ServeFault::Refused(Cause::ConnectionInUse) => Ok(b"refused: ConnectionInUse\n"),
        ServeFault::Refused(Cause::ClockBack) => Ok(b"refused: ClockBack\n"),
        ServeFault::Refused(Cause::Halted) => Ok(b"refused: Halted\n"),
        ServeFault::Refused(Cause::Closed) => Ok(b"refused: Closed\n"),
    }
}

// Logs that the output failed, if it did.
fn report_printed<R: Log>(rt: &R, printed: io::Result<()>) {
    if let Err(error) = printed {
        report_output(rt, &error);
    }
}

/// Logs why the output failed.
pub(crate) fn report_output<R: Log>(rt: &R, error: &io::Error) {
    warn!(rt; target: "moo::serve", "standard output: {error}");
}
