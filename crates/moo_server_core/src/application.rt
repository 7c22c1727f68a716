//! The interface of an application: the world, its connections, and the output that waits to be sent.
ghost use Rattle.std.specs.Prelude.{◌≡◌, ◌≢◌, ◌⊎◌, ◌<◌, ℕ, [], false, true, Contains, IfOk, Ok};
ghost use Rattle.std.specs.List.{AllPairs};
ghost use Rattle.moo_dbtext_read.specs.Saved.{Saved};
ghost use Rattle.moo_server_core.specs.Application.{HandsOut, HandsOutLog, Happens, IsApt, Layer, is_dropped, seen_happening, silence, then_out};

use moo_value::MooStr;
use std::alloc::AllocError;

/// Is an input of the application. Time passes in the moment of each input.
#[derive(Clone, Copy)]
pub enum Input<'a> {
    /// A connection opens under a number that no connection has.
    Opens(u16),
    /// Bytes arrive on an open connection.
    Receives(u16, &'a [u8]),
    /// An open connection hangs up.
    HangsUp(u16),
    /// A checkpoint is about to begin.
    Starts,
    /// A checkpoint has ended. Holds true if it is done, false if it failed.
    Finishes(bool),
}

/// Holds the requests of tasks to the server.
#[derive(Clone, Copy, Debug, PartialEq, Eq)]
pub struct Requests {
    /// Whether a task asked for a checkpoint.
    pub checkpoint: bool,
    /// Whether a task asked the server to shut down.
    pub shutdown: bool,
}

/// Is a world with its connections. The output of an event is under way until the event is kept; from then on it waits
/// to be taken.
pub trait Application: Drop {
    /// The states of the application in the semantics.
    ghost State: { Type 0 };

    ghost layer: { Layer Self State Saved };

    /// Handles an event, and runs the hooks that it causes. `moment` is in seconds. Fails only if memory runs out.
    fn apply(&mut self, moment: u32, happening: Input) -> Result<Requests, AllocError>
        requires { IsApt layer.meaning (layer.state self.old) (seen_happening happening) }
        ensures happens { IfOk result (Happens layer (seen_happening happening.entry) moment self.old self.new) }
        ensures waiting { layer.waiting self.new ≡ layer.waiting self.old }
        // Bytes for a connection that is leaving need no memory, and no request results.
        ensures dropped { is_dropped layer.meaning (layer.state self.old) (seen_happening happening.entry) ≡ true
            → result ≡ Ok (record { checkpoint = false; shutdown = false }) };

    /// Keeps the event: the output that is under way waits from now on.
    fn keep(&mut self)
        ensures waiting { layer.waiting self.new ≡ then_out (layer.waiting self.old) (layer.under_way self.old) }
        ensures under_way { layer.under_way self.new ≡ silence }
        ensures state { layer.state self.new ≡ layer.state self.old };

    /// Drops the output that is under way.
    fn forget(&mut self)
        ensures waiting { layer.waiting self.new ≡ layer.waiting self.old }
        ensures under_way { layer.under_way self.new ≡ silence };

    /// Returns whether a connection is open.
    fn is_open(&self, c: u16) -> bool
        ensures { result ≡ layer.meaning.is_open (layer.state self.now) c };

    /// Returns whether a connection is open and leaving.
    fn is_leaving(&self, c: u16) -> bool
        ensures { result ≡ layer.meaning.is_leaving (layer.state self.now) c };

    /// Returns the player who is connected on a connection, if it is open and one is.
    fn player_on(&self, c: u16) -> Option<i32>
        ensures { result ≡ layer.meaning.player_on (layer.state self.now) c };

    /// Returns the seconds from the start of a checkpoint to that of the next.
    fn interval(&self) -> u32
        ensures { result ≡ layer.meaning.interval (layer.state self.now) };

    /// Returns the numbers of the connections for which bytes wait or that are leaving, and no others, each once, by
    /// rising number. Fails only if memory runs out.
    fn pending(&self) -> Result<Vec<u16>, AllocError>
        ensures all { IfOk result (λ numbers. (c : ℕ) → (Contains numbers.items c → ⊥)
            → ((layer.waiting self.now).sent c ≡ []) × (layer.meaning.is_leaving (layer.state self.now) c ≡ false)) }
        ensures only { IfOk result (λ numbers. (c : ℕ) → Contains numbers.items c
            → ((layer.waiting self.now).sent c ≢ []) ⊎ (layer.meaning.is_leaving (layer.state self.now) c ≡ true)) }
        ensures rising { IfOk result (λ numbers. AllPairs (λ a b. a < b) numbers.items) };

    /// Removes and returns the bytes that wait for a connection.
    fn take_output(&mut self, c: u16) -> Vec<u8>
        ensures { HandsOut layer c result.items self.old self.new };

    /// Removes and returns the lines that wait for the log.
    fn take_log(&mut self) -> Vec<MooStr>
        ensures { HandsOutLog layer result.items self.old self.new };

    /// Returns the text of the world and of the connected players. Fails only if memory runs out.
    fn text(&self) -> Result<Vec<u8>, AllocError>
        ensures text { IfOk result (λ text. text.items
            ≡ layer.meaning.text_of (layer.meaning.saved_of (layer.state self.now))) }
        ensures spelled { IfOk result (λ _. layer.meaning.Spells (layer.meaning.text_of (layer.meaning.saved_of (layer.state self.now)))
            (layer.meaning.saved_of (layer.state self.now))) };
}
