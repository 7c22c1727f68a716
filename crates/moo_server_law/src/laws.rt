//! What holds between the events of a server, and of its lives one after another.
ghost use Rattle.std.specs.Prelude.{ℕ, List, []};
ghost use Rattle.moo_disk.specs.Disk.{LeavesOnly};
ghost use Rattle.moo_server_core.specs.Lives.{LifeRun, Lives};
ghost use Rattle.moo_server_core.specs.Marks.{BeginFromKept};
ghost use Rattle.moo_server.specs.Live.{live_layer};
ghost use Rattle.moo_server.specs.declared.moo_application.MooApplication.{MooApplication};
ghost use Rattle.moo_server_law.specs.Laws.{NothingIsDue, NumbersRise};

pub mod runs;
pub mod sessions;

use moo_disk::CrashDisk;
use moo_server::MooApplication;

/// While a connection is open, no checkpoint is due between two events. So bytes for a connection that is leaving take no memory.
#[tactic(none)]
pub fn nothing_is_due_while_a_connection_is_open()
    ensures { NothingIsDue }
{}

/// In a run from a start, each mark names the players who are connected then, in the order of the numbers of their connections.
#[tactic(none)]
pub fn marks_name_players_by_rising_numbers()
    ensures { NumbersRise }
{}

/// Let lives follow one another over an honest disk, whose first crash leaves its main text alone. Each life after the
/// first begins from the world at a mark of an earlier life, or from that which an earlier life began from. It never
/// begins from a world before the mark of the last checkpoint that any earlier life reported done. If a crash ended a
/// life that began after a crash, or was the first, the next begins from a mark of that life. If none of that life's
/// checkpoints was reported done, it may begin from the world that this life began from.
#[tactic(none)]
pub fn lives_begin_from_marks<D: CrashDisk>()
    ensures { (first last : D) (runs : List (LifeRun MooApplication D)) (texts left : List (List ℕ))
        → LeavesOnly (D.kind.view first).main_text (D.kind.view first)
        → Lives live_layer D.kind D.images first texts runs left last
        → BeginFromKept live_layer [] runs }
{
    moo_server_core::laws::lives_begin_from_marks::<MooApplication, D>();
}
