//! Laws of a server over a disk, for all events and all moments of a stop.
ghost use Rattle.std.specs.Prelude.{◌≡◌, ℕ, List, []};
ghost use Rattle.moo_dbtext_read.specs.Saved.{Saved, SpellsSavedWithin};
ghost use Rattle.moo_server_core.specs.Meaning.{Entry};
ghost use Rattle.moo_server_core.specs.Server.{state_of, with_disk};
ghost use Rattle.moo_server_core.specs.Calls.{Call, Calls, Lent, One, Opened, StartsAgain, Stopped, lent};
ghost use Rattle.moo_server_core.specs.declared.server_core.ServerCore.{ServerCore};
ghost use Rattle.moo_server.specs.Live.{live_layer};
ghost use Rattle.moo_server.specs.declared.moo_application.MooApplication.{MooApplication};

use crate::MooApplication;
use moo_disk::Disk;

/// Proves that starting again reads exactly the object world that the meaning gives after some prefix of the events.
/// This holds for every list of connections' bytes, hang-ups, moments and flush turns, in whatever calls they come. It
/// holds for a stop before or within any disk call. The prefix holds every event up to a mark whose checkpoint was
/// reported done in a call that has returned. If none was, starting again may read the world that was read at the
/// start.
///
/// Main then spells that world as a database text within the limits. So `recover` and `Server::open` return it, or
/// report that the device failed or that memory ran out.
pub fn starting_again_reads_a_prefix<D: Disk, E: Disk, F: Disk>()
    ensures { (stopped : Stopped live_layer D.kind E.kind) (found : F)
        → F.kind.honest found → (F.kind.view found).main_text ≡ stopped.left
        → StartsAgain live_layer F.kind (state_of live_layer stopped.start) stopped.saved stopped.entries stopped.later found }
{
    moo_server_core::laws::a_stopped_server_starts_again::<MooApplication, D, E, F>();
}

/// Proves what `starting_again_reads_a_prefix` does for a stop at any moment since the start began, inside the start
/// too. Starting again reads the world that was read at the start, or the world after a prefix of the events.
pub fn starting_again_reads_a_prefix_since_the_start<D: Disk, E: Disk, F: Disk>()
    ensures { (start end : ServerCore MooApplication) (first opened : D) (last : Lent D E) (calls : List (Call MooApplication (Lent D E)))
        (entries : List (Entry Saved)) (saved : Saved) (moment : ℕ)
        → D.kind.honest first → Opened live_layer D.kind start first opened saved moment
        → ((c : List ℕ) → (D.kind.view first).may_leave c → SpellsSavedWithin c saved)
        → Calls live_layer D.kind E.kind (with_disk start (One opened)) calls (with_disk end last) entries
        → (found : F) → F.kind.honest found
        → ((lent D.kind E.kind).view last).left_since (D.kind.view first).clock (F.kind.view found).main_text
        → StartsAgain live_layer F.kind (state_of live_layer start) saved [] entries found }
{
    moo_server_core::laws::starting_again_reads_a_prefix_since_the_start::<
        MooApplication,
        D,
        E,
        F,
    >();
}

pub use moo_server_core::laws::{
    a_failing_disk_goes_on, a_failing_disk_is_handed_on, a_refused_start_loses_nothing,
    a_report_comes, a_report_done_is_durable, a_start_reads_a_prefix,
    a_start_reads_a_prefix_since_the_start, a_stop_at_any_moment, a_stop_since_the_start,
    a_stopped_server_starts_again, a_stopping_disk_goes_on, a_stopping_disk_is_handed_on,
    all_output_is_handed_out, calls_are_one_life, lives_begin_from_marks, one_run,
    output_may_be_taken,
};
