//! The start of a server: from the saved world that a disk holds, with the hooks of the start.
ghost use Rattle.std.specs.Prelude.{◌≡◌, ◌≢◌, ◌↔◌, ◌+◌, length, IfOk, IfErr, None};
ghost use Rattle.moo_dbtext_record.specs.declared.fault.DbFault.{DbFault};
ghost use Rattle.moo_dbtext_record.specs.declared.fault.DbFaultKind.TheVariants as kind;
ghost use Rattle.moo_disk.specs.Disk.{KeepsMain, KeepsSpare, OnlyReads, ReadsBelow};
ghost use Rattle.moo_dbtext_read.specs.Saved as saving;
ghost use Rattle.moo_dbtext_read.specs.Saved.{saved_of, SpellsSavedWithin};
ghost use Rattle.moo_server_core.specs.Application.{silence};
ghost use Rattle.moo_server_core.specs.Meaning.{Begins};
ghost use Rattle.moo_dbtext_read.specs.Refusals.{Refuses as RefusesText};
ghost use Rattle.moo_checkpoint.specs.Recovering.{CountsDevice};
ghost use Rattle.moo_server_core.specs.Calls.{Opened};

use crate::{ServerCore, StartApplication};
use moo_checkpoint::{OpenFault, recover};
use moo_dbtext_read::Saved;
use moo_disk::Disk;
use std::alloc::{AllocError, Global};

impl<S: StartApplication> ServerCore<S> {
    ghost use Rattle.moo_server_core.specs.Server.{Follows, IsAlive, state_of, under_way_of, waiting_of, with_disk};

    /// Opens a server that starts from the world that a disk's main text spells. `moment` is in seconds. Writes nothing.
    pub fn open<D: Disk>(
        alloc: Global,
        disk: &mut D,
        moment: u32,
    ) -> Result<ServerCore<S>, OpenFault>
        // It begins from a saved world that main spells within the limits of database texts.
        ensures opened { IfOk result (λ server. (s : saving.Saved) × (D.kind.honest disk.old → SpellsSavedWithin (D.kind.view disk.old).main_text s)
            × Opened S.layer D.kind server disk.old disk.new s moment) }
        ensures follows { IfOk result (λ server. Follows S.layer D.kind (with_disk server disk.new)) }
        // If the text is refused, the fault says why. Running out of memory is a fault of its own.
        ensures refused { D.kind.honest disk.old → IfErr result (λ e. (f : DbFault) → e ≡ OpenFault.Db f
            → RefusesText (D.kind.view disk.old).main_text f × (f.kind ≢ kind.Memory)) }
        // A text that spells a saved world within the limits is refused only if the device fails or memory runs out.
        ensures accepted { D.kind.honest disk.old → (s : saving.Saved) → SpellsSavedWithin (D.kind.view disk.old).main_text s
            → IfErr result (λ e. (f : DbFault) → e ≢ OpenFault.Db f) }
        // The fault is the device's exactly if the device failed in this call.
        ensures device { CountsDevice (D.kind.honest disk.old) (D.kind.failures disk.old) (D.kind.failures disk.new) result }
        // Nothing is written, and no call is made but `read_main`, for 65,536 bytes each time, at places that rise.
        ensures reads { OnlyReads D.kind 65536 disk.old disk.new }
        // On an honest disk each place is one of main's bytes or its end, so there is at most one read more than bytes.
        ensures few { D.kind.honest disk.old → ReadsBelow D.kind 65536 (length (D.kind.view disk.old).main_text + 1) disk.old disk.new }
        ensures main { D.kind.honest disk.old → KeepsMain (D.kind.view disk.old) (D.kind.view disk.new) }
        ensures spare { D.kind.honest disk.old → KeepsSpare (D.kind.view disk.old) (D.kind.view disk.new) }
        ensures has_spare { D.kind.has_spare disk.old → D.kind.has_spare disk.new }
        ensures honest { D.kind.honest disk.old ↔ D.kind.honest disk.new }
    {
        let saved = recover(alloc, disk)?;
        let server = ServerCore::<S>::start(alloc, saved, moment)?;
        Ok(server)
    }

    /// Starts a server from a saved world, with the hooks of the start. `moment` is in seconds. Fails only if memory
    /// runs out.
    pub fn start(alloc: Global, saved: Saved, moment: u32) -> Result<ServerCore<S>, AllocError>
        ensures begins { IfOk result (λ server. Begins S.layer.meaning (saved_of saved) moment (waiting_of S.layer server) (state_of S.layer server)) }
        ensures alive { IfOk result (λ server. IsAlive server) }
        ensures no_checkpoint { IfOk result (λ server. server.writing ≡ None) }
        ensures still { IfOk result (λ server. under_way_of S.layer server ≡ silence) }
    {
        let (sessions, asked) = S::start(alloc, saved, moment)?;
        Ok(ServerCore::over(sessions, asked, moment))
    }
}
