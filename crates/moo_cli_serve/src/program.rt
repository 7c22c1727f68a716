//! The command `moo serve`.
ghost use Rattle.std.specs.Prelude.{ℕ, List, IfErr, IfOk, OnOk};
ghost use Rattle.std.specs.Io.KnownBytes.{Appends};
ghost use Rattle.std.specs.declared.net.socket_addr.SocketAddr.{SocketAddr};
ghost use Rattle.moo_cli_io.specs.declared.watch.Watch as watching;
ghost use Rattle.moo_cli_serve.specs.Printed.{MayListen, Prints, listening_line};
ghost use Rattle.moo_cli_serve.specs.Program.{FailsFile, NoDisk, ServesFile, ShowsService, TellsSaved};
ghost use Rattle.moo_cli_serve.specs.Service.{Fails, Serves};

use crate::fault::ServeFault;
use crate::limits::Limits;
use crate::listening::Web;
use crate::report::{end_status, report_address, report_fault, report_output};
use crate::serving::Serving;
use log::{Log, info, warn};
use moo_checkpoint::OpenFault;
use moo_cli_file_disk::{FileDisk, Watched};
use moo_cli_io::Watch;
use moo_cli_sockets::SocketsFault;
use moo_cli_telnet::Telnet;
use moo_disk::Disk;
use moo_server_core::StartApplication;
use std::alloc::Global;
use std::io;
use std::io::{ErrorKind, Write};
use std::net::{IpAddr, Net, SocketAddr};
use std::rt::{Clock, Files};

/// The parameters of a server.
#[derive(Clone, Copy, Debug)]
pub struct Served<'a> {
    /// The path of the database file.
    pub db: &'a str,
    /// The address on which it listens.
    pub host: IpAddr,
    /// The port, or 0 for any that is free.
    pub port: u16,
    /// The port for browsers, if they are served.
    pub web: Option<Web<'a>>,
    /// The greatest number of rounds.
    pub rounds: u64,
    /// The limits for connections.
    pub limits: Limits,
    /// Whether standard input and output are the operator's own connection.
    pub has_console: bool,
    /// The most lines on logins in a second, or 0 for none.
    pub login_lines: u64,
    /// Whether the commands of telnet are dropped from what clients send.
    pub has_telnet: bool,
    /// Whether a server that ends without a last checkpoint has ended badly.
    pub must_save: bool,
}

/// Serves a database file as `serve_watched` does, and returns the program's exit status.
pub fn run_serve<S: StartApplication, R: Net + Clock + Log, F: Files + Drop, O: Write>(
    rt: &R,
    files: F,
    alloc: Global,
    output: &mut O,
    served: Served<'_>,
) -> u8
    ensures { (watch : watching.Watch) × ShowsService S.layer F F.File F.Dir served.entry.limits served.entry.rounds served.entry.must_save
        (O.contents output.old) (O.contents output.new) watch result }
{
    serve_watched::<S, R, F, O>(rt, files, alloc, output, served, &mut Watch::new())
}

/// Serves a database file until the server is closed or the rounds are over, and returns the program's exit status. Prints the
/// line `listening on ADDRESS`, and a line with the reason if it ends before. Everything else goes to the log. If the server must
/// save and ends without a last checkpoint, the status is 3, and the last line is `refused: Device`. Records in `watch` whether
/// the output has failed.
pub fn serve_watched<S: StartApplication, R: Net + Clock + Log, F: Files + Drop, O: Write>(
    rt: &R,
    files: F,
    alloc: Global,
    output: &mut O,
    served: Served<'_>,
    watch: &mut Watch,
) -> u8
    ensures { ShowsService S.layer F F.File F.Dir served.entry.limits served.entry.rounds served.entry.must_save
        (O.contents output.old) (O.contents output.new) watch.new result }
{
    match serve_file::<S, R, F, O>(rt, files, alloc, output, served, watch) {
        Ok(is_saved) => end_status(rt, output, served.must_save, is_saved, watch),
        Err(fault) => {
            report_reason(rt, served, &fault);
            report_fault(rt, alloc, output, fault, watch)
        }
    }
}

// Serves the database file.
fn serve_file<S: StartApplication, R: Net + Clock + Log, F: Files + Drop, O: Write>(
    rt: &R,
    files: F,
    alloc: Global,
    output: &mut O,
    served: Served<'_>,
    watch: &mut Watch,
) -> Result<bool, ServeFault>
    ensures served { IfOk result (ServesFile S.layer F F.File F.Dir served.entry.limits served.entry.rounds) }
    ensures ended { IfErr result (FailsFile S.layer F F.File F.Dir served.entry.limits served.entry.rounds) }
    ensures listening { OnOk result ((address : SocketAddr) × Appends (O.contents output.old) (O.contents output.new) (listening_line address)) }
    ensures printed { IfErr result (λ _. (first : List ℕ) × MayListen first × Prints (O.contents output.old) (O.contents output.new) watch.new first) }
{
    match FileDisk::open(alloc, files, served.db) {
        Ok(disk) => {
            report_spare(rt, &disk);
            serve_disk::<S, FileDisk<F>, R, O>(rt, alloc, disk, output, served, watch)
        }
        Err(error) => Err(no_disk(rt, served, error)),
    }
}

/// Serves the database of a disk, and prints the line with the address. Returns whether the server is closed and its last
/// checkpoint is done, or the reason if it ends before the server is closed or the rounds are over.
pub fn serve_disk<S: StartApplication, D: Disk + Watched + Drop, R: Net + Clock + Log, O: Write>(
    rt: &R,
    alloc: Global,
    disk: D,
    output: &mut O,
    served: Served<'_>,
    watch: &mut Watch,
) -> Result<bool, ServeFault>
    ensures served { IfOk result (λ saved. (serves : Serves S.layer D.kind disk served.entry.limits served.entry.rounds) × TellsSaved S.layer D.kind serves saved) }
    ensures ended { IfErr result (Fails S.layer D.kind disk served.entry.limits served.entry.rounds) }
    ensures listening { OnOk result ((address : SocketAddr) × Appends (O.contents output.old) (O.contents output.new) (listening_line address)) }
    ensures printed { IfErr result (λ _. (first : List ℕ) × MayListen first × Prints (O.contents output.old) (O.contents output.new) watch.new first) }
{
    let mut serving = Serving::<S, D>::open(
        rt,
        alloc,
        disk,
        served.host,
        served.port,
        served.web,
        served.limits,
        served.has_console,
        served.login_lines,
        served.has_telnet.then_some(Telnet::new()),
    )?;
    let address = serving.address()?;
    info!(rt; target: "moo::serve", "listening on {address} over {}", served.db);
    report_address(alloc, output, address, watch)?;
    serving.serve(rt, served.rounds)?;
    let is_saved = serving.is_saved();
    report_unsaved(rt, served, is_saved, serving.is_closed());
    Ok(is_saved)
}

// Logs it if the last checkpoint failed. Of a server that must save, logs it also if there was none because the rounds are
// over.
fn report_unsaved<R: Log>(rt: &R, served: Served<'_>, is_saved: bool, is_closed: bool) {
    if !is_saved && (is_closed || served.must_save) {
        warn!(rt; target: "moo::serve", "NOT SAVED: {} has nothing that happened since its last checkpoint", served.db);
    }
}

// Returns why there is no disk, and logs the system's reason.
fn no_disk<R: Log>(rt: &R, served: Served<'_>, error: io::Error) -> ServeFault
    ensures { NoDisk result }
{
    if error.kind() == ErrorKind::OutOfMemory {
        return ServeFault::Memory;
    }
    warn!(rt; target: "moo::serve", "{}: {error}", served.db);
    ServeFault::Open(OpenFault::Device)
}

// Logs a warning if no spare can be made, since then every checkpoint will fail.
fn report_spare<R: Log, F: Files + Drop>(rt: &R, disk: &FileDisk<F>) {
    if let Err(reason) = disk.try_checkpoint() {
        warn!(rt; target: "moo::serve", "no checkpoint can be made: {}: {}", reason.path, reason.error);
    }
}

// Logs the reason of a fault, in the system's words if a device failed.
fn report_reason<R: Log>(rt: &R, served: Served<'_>, fault: &ServeFault) {
    match fault {
        ServeFault::Sockets(SocketsFault::Device(error)) => {
            let address = SocketAddr::from((served.host, served.port));
            warn!(rt; target: "moo::serve", "{address}: {error}");
        }
        ServeFault::Sockets(SocketsFault::Web(error)) => report_no_web(rt, served, error),
        ServeFault::Output(error) => report_output(rt, error),
        // The reason of a disk was logged when it failed.
        ServeFault::Open(OpenFault::Device) => {}
        other => warn!(rt; target: "moo::serve", "{}: {other}", served.db),
    }
}

fn report_no_web<R: Log>(rt: &R, served: Served<'_>, error: &io::Error) {
    if let Some(web) = served.web {
        let address = SocketAddr::from((served.host, web.port));
        warn!(rt; target: "moo::serve", "{address}: {error}");
    }
}
