//! The start of a life: a server, and the text of the world that it begins from.
ghost use Rattle.std.specs.Prelude.{◌≡◌, ◌≢◌, ◌↔◌, ◌+◌, length, IfOk, IfErr};
ghost use Rattle.moo_dbtext_record.specs.declared.fault.DbFault.{DbFault};
ghost use Rattle.moo_dbtext_record.specs.declared.fault.DbFaultKind.TheVariants as kind;
ghost use Rattle.moo_disk.specs.Disk.{KeepsMain, KeepsSpare, OnlyReads, ReadsBelow};
ghost use Rattle.moo_dbtext_read.specs.Refusals.{Refuses as RefusesText};
ghost use Rattle.moo_dbtext_read.specs.Saved.{Saved};
ghost use Rattle.moo_checkpoint.specs.Recovering.{CountsDevice};
ghost use Rattle.moo_server_core.specs.Lives.{IsOpen, IsSound};

use crate::{ServerCore, StartApplication};
use moo_checkpoint::{OpenFault, recover};
use moo_dbtext::write_db;
use moo_disk::Disk;
use std::alloc::Global;

/// Opens a server over a disk. Returns it and the canonical text of the world that it begins from. Writes nothing.
pub(crate) fn open<S: StartApplication, D: Disk>(
    alloc: Global,
    disk: &mut D,
    moment: u32,
) -> Result<(ServerCore<S>, Vec<u8>), OpenFault>
    ensures opened { IfOk result (λ given. IsOpen S.layer D.kind disk.old disk.new moment given.0 given.1.items) }
    ensures refused { D.kind.honest disk.old → IfErr result (λ e. (f : DbFault) → e ≡ OpenFault.Db f
        → RefusesText (D.kind.view disk.old).main_text f × (f.kind ≢ kind.Memory)) }
    ensures accepted { D.kind.honest disk.old → (s : Saved) → S.layer.meaning.Spells (D.kind.view disk.old).main_text s → IfErr result IsSound }
    ensures device { CountsDevice (D.kind.honest disk.old) (D.kind.failures disk.old) (D.kind.failures disk.new) result }
    ensures main { D.kind.honest disk.old → KeepsMain (D.kind.view disk.old) (D.kind.view disk.new) }
    ensures spare { D.kind.honest disk.old → KeepsSpare (D.kind.view disk.old) (D.kind.view disk.new) }
    ensures reads { OnlyReads D.kind 65536 disk.old disk.new }
    ensures few { D.kind.honest disk.old → ReadsBelow D.kind 65536 (length (D.kind.view disk.old).main_text + 1) disk.old disk.new }
    ensures honest { D.kind.honest disk.old ↔ D.kind.honest disk.new }
{
    let saved = recover(alloc, disk)?;
    let text = write_db(alloc, &saved)?;
    let server = ServerCore::<S>::start(alloc, saved, moment)?;
    Ok((server, text))
}
