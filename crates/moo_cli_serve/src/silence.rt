//! Connections that have sent nothing for long: which of them are hung up.
ghost use Rattle.std.specs.Prelude.{◌≡◌, ◌<◌, ℕ, [], ◌∷◌, length, All, IfOk, OnOk, eqb, true, if◌then◌else◌};
ghost use Rattle.moo_cli_serve.specs.Silence.{Listens, heard_in, is_silent};

use log::{Log, warn};
use moo_cli_sockets::{CONSOLE, Sockets};
use moo_server_core::Event;
use std::alloc::{AllocError, Global};

/// Finds the connections that have sent nothing for long. A second is one of a clock that is never set.
#[derive(Drop)]
pub struct Silence {
    /// The seconds for which a connection may send nothing, or 0 for no limit.
    pub(crate) limit: u64,
    /// The second in which the connection of each number was opened or last sent bytes.
    heard: Vec<u64>,
    /// The second of the last search.
    searched: u64,
}

impl Silence {
    /// Returns a search that finds nobody yet: no connection was heard. A limit of 0 seconds is none.
    pub fn new(alloc: Global, limit: u64) -> Silence
        ensures { result.limit ≡ limit }
    {
        Silence {
            limit,
            heard: Vec::new(alloc),
            searched: 0,
        }
    }

    /// Notes who was opened or sent bytes in these events, which came in this second. Fails only if memory runs out.
    pub fn hear(&mut self, now: u64, events: &[Event]) -> Result<(), AllocError>
        ensures { OnOk result (Listens now events.now self.old self.new) }
    {
        for event in events {
            self.note(now, event)?;
        }
        Ok(())
    }

    // Notes who was opened or sent bytes in an event.
    fn note(&mut self, now: u64, event: &Event) -> Result<(), AllocError>
        ensures { OnOk result (Listens now (event.now ∷ []) self.old self.new) }
    {
        match event {
            Event::Open(c) | Event::Bytes(c, _) => self.set(now, *c),
            Event::Hangup(_) | Event::Moment(_) | Event::Flush => Ok(()),
        }
    }

    // Notes that a connection was heard in this second.
    fn set(&mut self, now: u64, c: u16) -> Result<(), AllocError>
        ensures heard { OnOk result ((k : ℕ) → heard_in self.new k ≡ (if eqb c k then now else heard_in self.old k)) }
        ensures limit { OnOk result (self.new.limit ≡ self.old.limit) }
    {
        self.reach(c)?;
        self.heard[usize::from(c)] = now;
        Ok(())
    }

    // Makes the list reach a number.
    fn reach(&mut self, c: u16) -> Result<(), AllocError>
        ensures reaches { OnOk result (c < length self.new.heard.items) }
        ensures heard { OnOk result ((k : ℕ) → heard_in self.new k ≡ heard_in self.old k) }
        ensures limit { OnOk result (self.new.limit ≡ self.old.limit) }
    {
        for _filled in self.heard.len()..usize::from(c) + 1 {
            self.heard.push(0)?;
        }
        Ok(())
    }

    /// Returns the connections that have sent nothing for more seconds than the limit, and logs it. Without a limit
    /// there are none, and the console is never one of them. Searches only in a new second. Fails only if memory runs out.
    pub fn find<L: Log>(
        &mut self,
        rt: &L,
        alloc: Global,
        now: u64,
        sockets: &Sockets,
    ) -> Result<Vec<u16>, AllocError>
        ensures silent { IfOk result (λ silent. All (λ c. is_silent self.new now c ≡ true) silent.items) }
        ensures heard { self.new.heard ≡ self.old.heard }
        ensures limit { self.new.limit ≡ self.old.limit }
    {
        if self.limit == 0 || now == self.searched {
            return Ok(Vec::new(alloc));
        }
        self.searched = now;
        let silent = self.search(alloc, now, sockets)?;
        self.tell(rt, &silent);
        Ok(silent)
    }

    // Returns the connections that have sent nothing for more seconds than the limit.
    fn search(&self, alloc: Global, now: u64, sockets: &Sockets) -> Result<Vec<u16>, AllocError>
        ensures { IfOk result (λ silent. All (λ c. is_silent self.now now c ≡ true) silent.items) }
    {
        let mut silent = Vec::new(alloc);
        for key in 0..sockets.capacity() {
            let Ok(c) = u16::try_from(key) else { break };
            if sockets.contains(c) && self.is_silent(now, c) {
                silent.push(c)?;
            }
        }
        Ok(silent)
    }

    fn is_silent(&self, now: u64, c: u16) -> bool
        ensures { result ≡ is_silent self.now now c }
    {
        c != CONSOLE && self.limit != 0 && now.saturating_sub(self.heard(c)) > self.limit
    }

    // Returns the second in which a connection was opened or last sent bytes, or 0 if it never was.
    fn heard(&self, c: u16) -> u64
        ensures { result ≡ heard_in self.now c }
    {
        match self.heard.get(usize::from(c)) {
            Some(second) => *second,
            None => 0,
        }
    }

    // Logs the hang-ups of one second.
    fn tell<L: Log>(&self, rt: &L, silent: &[u16]) {
        let Some(c) = silent.first() else { return };
        let others = silent.len().saturating_sub(1);
        let limit = self.limit;
        warn!(rt; target: "moo::serve", "connection {c} is hung up: it has sent nothing for {limit} s, nor have {others} others");
    }
}
