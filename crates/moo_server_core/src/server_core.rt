//! The server: its application, and the checkpoint that is open.
ghost use Rattle.std.specs.Prelude.{All, Contains, ℕ, [], Err, ◌≡◌, ◌≢◌, ◌⊎◌, ◌↔◌, ◌<◌, ◌||◌, None, false, true, length, IfOk, if◌then◌else◌};
ghost use Rattle.std.specs.List.{AllPairs};
ghost use Rattle.moo_server_core.specs.Application.{silence, then_out};
ghost use Rattle.moo_server_core.specs.Courses.{phase_of};
ghost use Rattle.moo_server_core.specs.Seen.{Flush, seen};
ghost use Rattle.moo_server_core.specs.Meaning.{begun_at};

use crate::event::Course;
use crate::{Application, Cause, Event, Phase, Requests, RunFault};
use moo_checkpoint::Checkpoint;
use moo_disk::Disk;
use moo_value::MooStr;
use std::alloc::AllocError;

#[derive(Drop)]
pub(crate) struct Open {
    pub(crate) checkpoint: Checkpoint,
    /// Whether it began at or after the first shutdown.
    pub(crate) is_last: bool,
}

/// Is a server over an application. The disk is lent to each run.
#[derive(Drop)]
pub struct ServerCore<S: Application> {
    pub(crate) sessions: S,
    pub(crate) moment: u32,
    /// The moment at which the next checkpoint is due, in seconds.
    pub(crate) due: u64,
    /// Whether a task asked for a checkpoint that hasn't begun yet.
    pub(crate) asked: bool,
    pub(crate) course: Course,
    pub(crate) halted: bool,
    pub(crate) writing: Option<Open>,
}

impl<S: Application> ServerCore<S> {
    ghost use Rattle.moo_server_core.specs.Server.{Follows, Hands, IsAlive, Runs, Same, logged_alone, sent_alone, state_of, under_way_of, waiting_of, with_disk};

    /// Returns a server over an application that has just started at a moment, and whose hooks made these requests.
    pub(crate) fn over(sessions: S, asked: Requests, moment: u32) -> ServerCore<S>
        ensures state { state_of S.layer result ≡ begun_at moment (asked.checkpoint || asked.shutdown) (if asked.shutdown then Course.Closing else Course.Running)
            (S.layer.meaning.interval (S.layer.state sessions)) (S.layer.state sessions) }
        ensures waiting { waiting_of S.layer result ≡ then_out (S.layer.waiting sessions) (S.layer.under_way sessions) }
        ensures still { under_way_of S.layer result ≡ silence }
        ensures alive { IsAlive result }
        ensures no_checkpoint { result.writing ≡ None }
    {
        let mut sessions = sessions;
        sessions.keep();
        let due = u64::from(moment) + u64::from(sessions.interval());
        let course = ServerCore::<S>::first_course(asked);
        ServerCore {
            sessions,
            moment,
            due,
            asked: asked.checkpoint || asked.shutdown,
            course,
            halted: false,
            writing: None,
        }
    }

    fn first_course(asked: Requests) -> Course
        ensures { result ≡ (if asked.shutdown then Course.Closing else Course.Running) }
    {
        if asked.shutdown {
            return Course::Closing;
        }
        Course::Running
    }

    /// Returns the phase of the server.
    pub fn phase(&self) -> Phase
        ensures { result ≡ phase_of self.now.halted self.now.course }
    {
        if self.halted {
            return Phase::Halted;
        }
        match self.course {
            Course::Running => Phase::Running,
            Course::Closing => Phase::Closing,
            Course::Closed => Phase::Closed,
        }
    }

    /// Returns whether a connection is open and leaving. It returns false once the server is halted.
    pub fn is_leaving(&self, c: u16) -> bool
        ensures { result ≡ (if self.now.halted then false else S.layer.meaning.is_leaving (state_of S.layer self.now).sessions c) }
    {
        if self.halted {
            return false;
        }
        self.sessions.is_leaving(c)
    }

    /// Returns the player who is connected on a connection, if it is open and one is. A halted server has no connections.
    pub fn player_on(&self, c: u16) -> Option<i32>
        ensures { result ≡ (if self.now.halted then None else S.layer.meaning.player_on (state_of S.layer self.now).sessions c) }
    {
        if self.halted {
            return None;
        }
        self.sessions.player_on(c)
    }

    /// Returns the numbers of the connections for which bytes wait or that are leaving, and no others, each once, by
    /// rising number. Fails only if memory runs out.
    pub fn pending(&self) -> Result<Vec<u16>, AllocError>
        ensures all { IfOk result (λ numbers. (c : ℕ) → (Contains numbers.items c → ⊥) → ((waiting_of S.layer self.now).sent c ≡ [])
            × ((if self.now.halted then false else S.layer.meaning.is_leaving (state_of S.layer self.now).sessions c) ≡ false)) }
        // A connection that left a server before it was halted is listed still.
        ensures only { IfOk result (λ numbers. (c : ℕ) → Contains numbers.items c
            → ((waiting_of S.layer self.now).sent c ≢ []) ⊎ (S.layer.meaning.is_leaving (state_of S.layer self.now).sessions c ≡ true)) }
        ensures rising { IfOk result (λ numbers. AllPairs (λ a b. a < b) numbers.items) }
    {
        self.sessions.pending()
    }

    /// Removes and returns the bytes that wait for a connection's number. Needs no memory.
    pub fn take_output(&mut self, c: u16) -> Vec<u8>
        ensures all { result.items ≡ (waiting_of S.layer self.old).sent c }
        ensures nothing { (waiting_of S.layer self.new).sent c ≡ [] }
        ensures others { (k : ℕ) → k ≢ c → (waiting_of S.layer self.new).sent k ≡ (waiting_of S.layer self.old).sent k }
        ensures log { (waiting_of S.layer self.new).logged ≡ (waiting_of S.layer self.old).logged }
        ensures hands { Hands S.layer (sent_alone c result.items) self.old self.new }
    {
        self.sessions.take_output(c)
    }

    /// Removes and returns the lines that wait for the log. Needs no memory.
    pub fn take_log(&mut self) -> Vec<MooStr>
        ensures all { result.items ≡ (waiting_of S.layer self.old).logged }
        ensures nothing { (waiting_of S.layer self.new).logged ≡ [] }
        ensures others { (waiting_of S.layer self.new).sent ≡ (waiting_of S.layer self.old).sent }
        ensures hands { Hands S.layer (logged_alone result.items) self.old self.new }
    {
        self.sessions.take_log()
    }

    /// Takes the events in order, and returns their number.
    ///
    /// The disk must be the one that the last call left, or that disk in a wrapper. A refused event changes nothing and
    /// ends the run. If memory runs out, the server halts.
    pub fn run<D: Disk>(&mut self, disk: &mut D, events: &[Event]) -> Result<usize, RunFault>
        requires { Follows S.layer D.kind (with_disk self.old disk.old) }

        // All are taken, and the server goes on.
        ensures all { IfOk result (λ n. (n ≡ length events.now) × IsAlive self.new) }

        // What each event did that was taken, what a crash may leave, and why the event after them wasn't taken.
        ensures ran { Runs S.layer D.kind (with_disk self.old disk.old) (with_disk self.new disk.new) events.now result }

        // A halted server does nothing.
        ensures halted { self.old.halted ≡ true
            → (result ≡ Err (record { done = 0; cause = Cause.Halted })) × (self.new ≡ self.old) × (disk.new ≡ disk.old) }

        // Only a `Flush` makes a call of the disk.
        ensures still { All (λ event. seen event ≢ Flush) events.now → disk.new ≡ disk.old }
        ensures follows { Follows S.layer D.kind (with_disk self.new disk.new) }
        ensures honest { D.kind.honest disk.old ↔ D.kind.honest disk.new }
    {
        if self.halted {
            return Err(RunFault {
                done: 0,
                cause: Cause::Halted,
            });
        }
        for (done, event) in events.iter().enumerate() {
            if let Err(cause) = self.take(disk, event) {
                return Err(RunFault { done, cause });
            }
        }
        Ok(events.len())
    }
}
