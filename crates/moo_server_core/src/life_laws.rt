//! Laws of one run, and of lives one after another.
ghost use Rattle.std.specs.Prelude.{◌↔◌, ℕ, List, []};
ghost use Rattle.moo_disk.specs.Disk.{LeavesOnly};
ghost use Rattle.moo_disk.specs.Memory.{memory_kind};
ghost use Rattle.moo_disk.specs.StopAt.{inner_of, stopping_kind};
ghost use Rattle.moo_disk.specs.declared.stop_at.StopAt.{StopAt};
ghost use Rattle.moo_server_core.specs.Server.{Follows, with_disk};
ghost use Rattle.moo_server_core.specs.declared.server_core.ServerCore.{ServerCore};
ghost use Rattle.moo_server_core.specs.Lives.{LifeRun, Lives};
ghost use Rattle.moo_server_core.specs.Runs.{HaveOneResult, OneRun};
ghost use Rattle.moo_server_core.specs.Marks.{BeginFromKept};

use crate::Application;
use moo_disk::CrashDisk;

/// Shows that a run has one result, if each input and each start has one. The saved world, the moment, the events and
/// their reports then determine the output, the worlds that are marked, and the state after the run.
#[tactic(none)]
pub fn one_run<S: Application>()
    ensures { HaveOneResult S.layer.meaning S.layer.meaning → OneRun S.layer.meaning S.layer.meaning }
{}

/// Shows from which worlds lives begin, over an honest disk whose first crash leaves only its main text. Each life after
/// the first begins from the world at a mark of an earlier life, or from one that an earlier life began from. It never
/// begins from one before the mark of the last report done of any earlier life. Suppose that a crash ended the life
/// before it, and that this one was the first or began after a crash. Then the new life begins from a mark of that life,
/// or, if none of its checkpoints was reported done, from the world that it began from.
#[tactic(none)]
pub fn lives_begin_from_marks<S: Application, D: CrashDisk>()
    ensures { (first last : D) (runs : List (LifeRun S D)) (texts left : List (List ℕ))
        → LeavesOnly (D.kind.view first).main_text (D.kind.view first)
        → Lives S.layer D.kind D.images first texts runs left last
        → BeginFromKept S.layer [] runs }
{}

/// Shows that between two calls a disk in memory may be wrapped in one that stops, and be taken out of it.
#[tactic(none)]
pub fn a_stopping_disk_goes_on<S: Application>()
    ensures { (server : ServerCore S) (disk : StopAt)
        → Follows S.layer memory_kind (with_disk server (inner_of disk))
        ↔ Follows S.layer stopping_kind (with_disk server disk) }
{}
