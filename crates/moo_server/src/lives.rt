//! Lives of a server, one after another.
ghost use Rattle.std.specs.Prelude.{IfErr, IfOk};
ghost use Rattle.moo_disk.specs.Disk.{LeavesOnly};
ghost use Rattle.moo_dbtext_read.specs.Saved.{Saved, SpellsSavedWithin};
ghost use Rattle.moo_server_core.specs.Lives.{EndsAt, SoFar};
ghost use Rattle.moo_server.specs.Live.{live_layer};

use crate::MooApplication;
use moo_disk::CrashDisk;
use moo_server_core::{Life, LifeBegin, LivesFault};
use std::alloc::Global;

/// Runs lives one after another, each over the disk that the one before it left. Returns the disk that is left too,
/// also with a fault.
///
/// If a life can't begin or end, the fault names it, and nothing is returned of those before it.
pub fn run_lives_on<D: CrashDisk + Drop>(
    alloc: Global,
    disk: D,
    lives: &[Life],
) -> Result<(D, Vec<LifeBegin>), (D, LivesFault)>
    // Suppose that the disk is honest, that a crash leaves only its main text, and that this spells a saved world
    // within the limits. Then these lives were lived, this is returned of them, and they left the disk that is
    // returned.
    ensures lives { D.kind.honest disk → (s : Saved) → SpellsSavedWithin (D.kind.view disk).main_text s → LeavesOnly (D.kind.view disk).main_text (D.kind.view disk)
        → IfOk result (λ given. SoFar live_layer D.kind D.images lives.now given.1.items disk given.0) }
    // At a fault the lives before that of its place were lived. That one met what the fault says, and left the disk
    // that is returned. Only running out of memory ends lives without a reason of theirs.
    ensures fault { D.kind.honest disk → (s : Saved) → SpellsSavedWithin (D.kind.view disk).main_text s → LeavesOnly (D.kind.view disk).main_text (D.kind.view disk)
        → IfErr result (λ given. EndsAt live_layer D.kind D.images lives.now disk given.0 given.1) }
{
    moo_server_core::run_lives_on::<MooApplication, D>(alloc, disk, lives)
}

/// Runs lives as `run_lives_on` does, and drops the disk that is left.
pub fn run_lives<D: CrashDisk + Drop>(
    alloc: Global,
    disk: D,
    lives: &[Life],
) -> Result<Vec<LifeBegin>, LivesFault>
    // Suppose that the disk is honest, that a crash leaves only its main text, and that this spells a saved world
    // within the limits. Then these lives were lived, and this is returned of them.
    ensures lives { D.kind.honest disk → (s : Saved) → SpellsSavedWithin (D.kind.view disk).main_text s → LeavesOnly (D.kind.view disk).main_text (D.kind.view disk)
        → IfOk result (λ begins. (left : D) × SoFar live_layer D.kind D.images lives.now begins.items disk left) }
    // At a fault the lives before that of its place were lived, and that one met what the fault says. Only running out
    // of memory ends lives without a reason of theirs.
    ensures fault { D.kind.honest disk → (s : Saved) → SpellsSavedWithin (D.kind.view disk).main_text s → LeavesOnly (D.kind.view disk).main_text (D.kind.view disk)
        → IfErr result (λ fault. (left : D) × EndsAt live_layer D.kind D.images lives.now disk left fault) }
{
    moo_server_core::run_lives::<MooApplication, D>(alloc, disk, lives)
}
