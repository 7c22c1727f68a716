//! The begin of a server over a disk, and what is logged of the disk.
ghost use Rattle.std.specs.Prelude.{IfErr, IfOk};
ghost use Rattle.moo_server_core.specs.Server.{Follows, with_disk};
ghost use Rattle.moo_cli_serve.specs.Service.{IsBegunFrom, LeavesUnbegun};

use crate::coming::time;
use crate::fault::ServeFault;
use log::{Log, info, warn};
use moo_cli_file_disk::{News, Watched};
use moo_disk::Disk;
use moo_server_core::{ServerCore as Server, StartApplication};
use std::alloc::Global;
use std::rt::Clock;
use std::time::Duration;

// Opens a server over a disk. Logs the reason if the disk can't be read.
pub(crate) fn begin<S: StartApplication, D: Disk + Watched, L: Log>(
    rt: &L,
    alloc: Global,
    disk: &mut D,
    moment: u32,
) -> Result<Server<S>, ServeFault>
    ensures begun { IfOk result (λ server. IsBegunFrom S.layer D.kind disk.old moment server disk.new) }
    ensures follows { IfOk result (λ server. Follows S.layer D.kind (with_disk server disk.new)) }
    ensures refused { IfErr result (LeavesUnbegun D.kind disk.old disk.new) }
{
    match Server::<S>::open(alloc, disk, moment) {
        Ok(server) => Ok(server),
        Err(fault) => {
            report_failure(rt, disk);
            Err(ServeFault::Open(fault))
        }
    }
}

// Logs the end of a checkpoint and how long it took, if the last call of the disk ended one. Before the events of the
// round the disk had made so many calls, and it was this time. `began` is when the open checkpoint began, if there is
// one.
pub(crate) fn report_checkpoint<D: Watched, L: Clock + Log>(
    rt: &L,
    disk: &D,
    calls: u64,
    before: Duration,
    began: &mut Option<Duration>,
) {
    if disk.calls() == calls {
        return;
    }
    let start = began.unwrap_or(before);
    *began = None;
    match disk.news() {
        News::Went => *began = Some(start),
        News::Written(bytes) => {
            let millis = time(rt).saturating_sub(start).as_millis();
            info!(rt; target: "moo::serve", "checkpoint done: {bytes} bytes in {millis} ms");
        }
        News::Failed(file, error) => {
            warn!(rt; target: "moo::serve", "checkpoint failed: {file}: {error}");
        }
    }
}

// Logs why the disk failed, if it did.
fn report_failure<D: Watched, L: Log>(rt: &L, disk: &D) {
    if let News::Failed(file, error) = disk.news() {
        warn!(rt; target: "moo::serve", "{file}: {error}");
    }
}
