//! Laws of every list of calls. The disk of each call has one of two types. The second may be a wrapper of the first,
//! such as one that makes a call fail.
ghost use Rattle.std.specs.Prelude.{◌≡◌, ◌⊎◌, ◌↔◌, ◌++◌, ◌+◌, ◌/◌, ◌≤◌, ◌∷◌, [], length, Some, ℕ, List};
ghost use Rattle.moo_disk.specs.Disk.{KeepsMain};
ghost use Rattle.moo_disk.specs.FailAt.{failing_kind, inner_of};
ghost use Rattle.moo_disk.specs.declared.fail_at.FailAt.{FailAt};
ghost use Rattle.moo_dbtext_read.specs.Saved.{Saved, SpellsSavedWithin};
ghost use Rattle.moo_server_core.specs.Application.{then_out};
ghost use Rattle.moo_server_core.specs.Traces.{Done};
ghost use Rattle.moo_server_core.specs.Crash.{IsOneOf, last_of, since_done, texts_of_marks};
ghost use Rattle.moo_server_core.specs.Turns.{HasReport, flushes};
ghost use Rattle.moo_server_core.specs.Meaning.{Entry, out_of};
ghost use Rattle.moo_server_core.specs.Server.{Follows, IsAlive, Lived, Same, state_of, traces_under, waiting_of, with_disk};
ghost use Rattle.moo_server_core.specs.Calls.{Call, Calls, IsKept, LeavesMarked, Lent, One, Opened, StartsAgain, Stopped, handed_in, lent};
ghost use Rattle.moo_server_core.specs.declared.server_core.ServerCore.{ServerCore};

use crate::{Application, StartApplication};
use moo_disk::Disk;

/// Shows that calls do what their events do, one after another, however the events are divided among the calls. This
/// holds of the state, the marks, what a crash may leave, and the turns in which reports come.
pub fn calls_are_one_life<S: Application, D: Disk, E: Disk>()
    ensures { (before after : ServerCore S) (old new : Lent D E) (calls : List (Call S (Lent D E))) (entries : List (Entry Saved))
        → Calls S.layer D.kind E.kind (with_disk before old) calls (with_disk after new) entries
        → Lived S.layer (lent D.kind E.kind) (with_disk before old) (with_disk after new) entries }
{}

/// Shows that no output is lost. What waited before the calls, followed by what their events sent, is what was handed
/// out before each of them, followed by what waits after them. This holds for each number and for the log.
pub fn all_output_is_handed_out<S: Application, D: Disk, E: Disk>()
    ensures { (before after : ServerCore S) (old new : Lent D E) (calls : List (Call S (Lent D E))) (entries : List (Entry Saved))
        → Calls S.layer D.kind E.kind (with_disk before old) calls (with_disk after new) entries
        → then_out (waiting_of S.layer before) (out_of entries) ≡ then_out (handed_in calls) (waiting_of S.layer after) }
{}

/// Shows what a stop leaves under main, at any moment after some calls, also within a call. It is the text of the mark
/// of the last report done among those calls, or of a later mark. If no report was done, it may also be what a crash
/// left before the start. With no call before, this holds of every moment after the start.
pub fn a_stop_at_any_moment<S: Application, D: Disk, E: Disk>()
    ensures { (start server end : ServerCore S) (first opened : D) (disk last : Lent D E) (before after : List (Call S (Lent D E)))
        (entries later : List (Entry Saved)) (saved : Saved) (moment : ℕ)
        → D.kind.honest first → Opened S.layer D.kind start first opened saved moment
        → Calls S.layer D.kind E.kind (with_disk start (One opened)) before (with_disk server disk) entries
        → Calls S.layer D.kind E.kind (with_disk server disk) after (with_disk end last) later
        → (c : List ℕ) → ((lent D.kind E.kind).view last).left_since ((lent D.kind E.kind).view disk).clock c
        → LeavesMarked S.layer (D.kind.view first).may_leave entries later c }
{}

/// Shows what a stop leaves at any moment since the start began: what a crash left before it, or the text of a mark.
pub fn a_stop_since_the_start<S: Application, D: Disk, E: Disk>()
    ensures { (start end : ServerCore S) (first opened : D) (last : Lent D E) (calls : List (Call S (Lent D E)))
        (entries : List (Entry Saved)) (saved : Saved) (moment : ℕ)
        → D.kind.honest first → Opened S.layer D.kind start first opened saved moment
        → Calls S.layer D.kind E.kind (with_disk start (One opened)) calls (with_disk end last) entries
        → (c : List ℕ) → ((lent D.kind E.kind).view last).left_since (D.kind.view first).clock c
        → (D.kind.view first).may_leave c ⊎ IsOneOf (texts_of_marks (traces_under S.layer.meaning entries)) c }
{}

/// Shows that a stop during a start that only read the disk leaves what a crash left before. Each refused start only
/// reads.
pub fn a_refused_start_loses_nothing<D: Disk>()
    ensures { (first last : D) → D.kind.honest first → KeepsMain (D.kind.view first) (D.kind.view last)
        → (c : List ℕ) → (D.kind.view last).left_since (D.kind.view first).clock c → (D.kind.view first).may_leave c }
{}

/// Shows that after a report done in a call of one event a crash leaves only the text of the last mark before it.
pub fn a_report_done_is_durable<S: Application, D: Disk, E: Disk>()
    ensures { (start server end : ServerCore S) (first opened : D) (disk last : Lent D E) (before : List (Call S (Lent D E)))
        (call : Call S (Lent D E)) (entries later : List (Entry Saved)) (saved : Saved) (moment : ℕ)
        → D.kind.honest first → Opened S.layer D.kind start first opened saved moment
        → Calls S.layer D.kind E.kind (with_disk start (One opened)) before (with_disk server disk) entries
        → Calls S.layer D.kind E.kind (with_disk server disk) (call ∷ []) (with_disk end last) later → IsAlive end
        → (entry : Entry Saved) → call.entries ≡ entry ∷ [] → entry.report ≡ Some Done
        → (c : List ℕ) → ((lent D.kind E.kind).view last).may_leave c
        → last_of (since_done [] (traces_under S.layer.meaning entries)) ≡ c ∷ [] }
{}

/// Shows that after a mark whose text has n bytes, one of the next n / 65,536 + 6 events `Flush` has a report: `near` are
/// the events after it up to one with so many, and `far` those after them.
pub fn a_report_comes<S: Application, D: Disk, E: Disk>()
    ensures { (before after : ServerCore S) (old new : Lent D E) (calls : List (Call S (Lent D E)))
        (entries front near far : List (Entry Saved)) (e : Entry Saved) (saved : Saved)
        → Calls S.layer D.kind E.kind (with_disk before old) calls (with_disk after new) entries
        → entries ≡ (front ++ e ∷ []) ++ (near ++ far) → e.mark ≡ Some saved
        → length (S.layer.meaning.text_of saved) / 65536 + 6 ≤ flushes (traces_under S.layer.meaning near)
        → HasReport (traces_under S.layer.meaning near) }
{}

/// Shows that what a stop leaves under main, also within a call of the disk, spells the world after a prefix of the
/// events that ends with a mark. The prefix holds every event up to a mark whose checkpoint was reported done in a call
/// that has returned. If none was, the text may spell the world that the server began from.
pub fn a_start_reads_a_prefix<S: Application, D: Disk, E: Disk>()
    ensures { (start server end : ServerCore S) (first opened : D) (disk last : Lent D E) (before after : List (Call S (Lent D E)))
        (entries later : List (Entry Saved)) (saved : Saved) (moment : ℕ)
        → D.kind.honest first → Opened S.layer D.kind start first opened saved moment
        → ((c : List ℕ) → (D.kind.view first).may_leave c → S.layer.meaning.Spells c saved)
        → Calls S.layer D.kind E.kind (with_disk start (One opened)) before (with_disk server disk) entries
        → Calls S.layer D.kind E.kind (with_disk server disk) after (with_disk end last) later
        → (c : List ℕ) → ((lent D.kind E.kind).view last).left_since ((lent D.kind E.kind).view disk).clock c
        → IsKept S.layer (state_of S.layer start) saved entries later c }
{}

/// Shows what a stop leaves at any moment since the start began, also within the start. It spells the world after a
/// prefix of the events that ends with a mark, or the world that the server began from.
pub fn a_start_reads_a_prefix_since_the_start<S: Application, D: Disk, E: Disk>()
    ensures { (start end : ServerCore S) (first opened : D) (last : Lent D E) (calls : List (Call S (Lent D E)))
        (entries : List (Entry Saved)) (saved : Saved) (moment : ℕ)
        → D.kind.honest first → Opened S.layer D.kind start first opened saved moment
        → ((c : List ℕ) → (D.kind.view first).may_leave c → S.layer.meaning.Spells c saved)
        → Calls S.layer D.kind E.kind (with_disk start (One opened)) calls (with_disk end last) entries
        → (c : List ℕ) → ((lent D.kind E.kind).view last).left_since (D.kind.view first).clock c
        → IsKept S.layer (state_of S.layer start) saved [] entries c }
{}

/// Shows which world a start after a stop reads, over a disk of any type whose main text the stop may have left:
/// the world after a prefix of the events, as `a_start_reads_a_prefix` has it. Main spells it as a database text within
/// the limits, and a server that is opened over that disk begins from it.
pub fn starting_again_reads_a_prefix<S: StartApplication, D: Disk, E: Disk, F: Disk>()
    ensures { (start server end : ServerCore S) (first opened : D) (disk last : Lent D E) (before after : List (Call S (Lent D E)))
        (entries later : List (Entry Saved)) (saved : Saved) (moment : ℕ)
        → D.kind.honest first → Opened S.layer D.kind start first opened saved moment
        → ((c : List ℕ) → (D.kind.view first).may_leave c → SpellsSavedWithin c saved)
        → Calls S.layer D.kind E.kind (with_disk start (One opened)) before (with_disk server disk) entries
        → Calls S.layer D.kind E.kind (with_disk server disk) after (with_disk end last) later
        → (found : F) → F.kind.honest found
        → ((lent D.kind E.kind).view last).left_since ((lent D.kind E.kind).view disk).clock (F.kind.view found).main_text
        → StartsAgain S.layer F.kind (state_of S.layer start) saved entries later found }
{}

/// Shows which world a start after a stop reads: the world after a prefix of the events that ends with a mark. The prefix
/// holds every event up to a mark whose checkpoint was reported done in a call that has returned. If none was, the start
/// may read the world that the stopped server began from. Main spells that world as a database text within the limits,
/// and a server that is opened over that disk, of any type, begins from it.
pub fn a_stopped_server_starts_again<S: StartApplication, D: Disk, E: Disk, F: Disk>()
    ensures { (stopped : Stopped S.layer D.kind E.kind) (found : F)
        → F.kind.honest found → (F.kind.view found).main_text ≡ stopped.left
        → StartsAgain S.layer F.kind (state_of S.layer stopped.start) stopped.saved stopped.entries stopped.later found }
{}

/// Shows which world a start reads after a stop at any moment since the start before it began, also within that start.
pub fn starting_again_reads_a_prefix_since_the_start<
    S: StartApplication,
    D: Disk,
    E: Disk,
    F: Disk,
>()
    ensures { (start end : ServerCore S) (first opened : D) (last : Lent D E) (calls : List (Call S (Lent D E)))
        (entries : List (Entry Saved)) (saved : Saved) (moment : ℕ)
        → D.kind.honest first → Opened S.layer D.kind start first opened saved moment
        → ((c : List ℕ) → (D.kind.view first).may_leave c → SpellsSavedWithin c saved)
        → Calls S.layer D.kind E.kind (with_disk start (One opened)) calls (with_disk end last) entries
        → (found : F) → F.kind.honest found
        → ((lent D.kind E.kind).view last).left_since (D.kind.view first).clock (F.kind.view found).main_text
        → StartsAgain S.layer F.kind (state_of S.layer start) saved [] entries found }
{}

/// Shows that a server whose output was taken between two calls goes on with its disk.
pub fn output_may_be_taken<S: Application, D: Disk>()
    ensures { (one other : ServerCore S) (disk : D) → Same S.layer one other
        → Follows S.layer D.kind (with_disk one disk) → Follows S.layer D.kind (with_disk other disk) }
{}

/// Shows that between two calls a disk may be wrapped in one that makes a call fail, and be taken out of it.
pub fn a_failing_disk_goes_on<S: Application, D: Disk>()
    ensures { (server : ServerCore S) (disk : FailAt D)
        → Follows S.layer D.kind (with_disk server (inner_of disk))
        ↔ Follows S.layer (failing_kind D.kind) (with_disk server disk) }
{}

pub use crate::disk_laws::{a_failing_disk_is_handed_on, a_stopping_disk_is_handed_on};
pub use crate::life_laws::{a_stopping_disk_goes_on, lives_begin_from_marks, one_run};
