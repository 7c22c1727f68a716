//! The sessions of a server.
ghost use Rattle.std.specs.Prelude.{◌≡◌, ◌∷◌, List, [], OnOk, IfSome, IfNone, true, false};
ghost use Rattle.std.specs.Borrow.{sem};
ghost use Rattle.moo_session_task.specs.Lending.{LendsConnections};
ghost use Rattle.moo_session_task.specs.Session.{no_session, caused, with_hooks};
ghost use Rattle.moo_session_task.specs.Notices.{asked_for, logged};
ghost use Rattle.moo_session_task.specs.declared.hook.Hook.{Hook as hook};

use crate::hook::Hook;
use moo_session_connection::{Connections, Sent};
use moo_value::MooStr;
use std::alloc::{AllocError, Global};
use std::collections::VecDeque;
use std::marker::Model;
use std::mem;

/// Holds the open connections, the hooks that wait, and what an event has sent, logged and requested so far.
#[derive(Drop)]
pub struct Session {
    pub(crate) alloc: Global,
    pub(crate) connections: Connections,
    // The hooks that are to run, in order.
    pub(crate) hooks: VecDeque<Hook>,
    pub(crate) asked: bool,
    pub(crate) closing: bool,
    pub(crate) sent: Vec<Sent>,
    pub(crate) log: Vec<MooStr>,
}

impl Model for Session {
    ghost use Rattle.moo_session_task.specs.Session.{Session as Contents};

    ghost Value = { Contents };

    ghost view = { λ s. record {
      connections = s.connections;
      hooks = s.hooks.items;
      asked = s.asked;
      closing = s.closing;
      sent = s.sent.items;
      log = s.log.items;
    } };
}

impl Session {
    /// Returns sessions without a connection, in which nothing has happened.
    pub fn new(alloc: Global) -> Session
        ensures { result ≡ no_session }
    {
        Session {
            alloc,
            connections: Connections::new(alloc),
            hooks: VecDeque::new(alloc),
            asked: false,
            closing: false,
            sent: Vec::new(alloc),
            log: Vec::new(alloc),
        }
    }

    /// Returns the open connections.
    pub fn connections(&self) -> &Connections
        ensures { result.now ≡ self.now.connections }
    {
        &self.connections
    }

    /// Returns the open connections, to change them.
    pub fn connections_mut(&mut self) -> &mut Connections
        ensures* writes_back { sem 𝓛 (LendsConnections self.entry result) }
        ensures value { result.now ≡ self.old.connections }
    {
        &mut self.connections
    }

    /// Enqueues a hook after those that wait. Fails only if memory runs out.
    pub fn cause(&mut self, hook: Hook) -> Result<(), AllocError>
        ensures { OnOk result (self.new ≡ caused hook self.old) }
    {
        self.hooks.push_back(hook)?;
        Ok(())
    }

    /// Takes the hook that is to run next. `None` if none waits.
    pub fn next_hook(&mut self) -> Option<Hook>
        ensures some { IfSome result (λ h. (hs : List hook) × (self.old.hooks ≡ h ∷ hs) × (self.new ≡ with_hooks hs self.old)) }
        ensures none { IfNone result ((self.old.hooks ≡ []) × (self.new ≡ self.old)) }
    {
        self.hooks.pop_front()
    }

    /// Requests a checkpoint.
    pub fn ask(&mut self)
        ensures { self.new ≡ asked_for self.old }
    {
        self.asked = true;
    }

    /// Takes the request of a checkpoint. Returns whether there was one.
    pub fn take_asked(&mut self) -> bool
        ensures asked { result ≡ self.old.asked }
        ensures left { self.new ≡ record self.old { asked = false } }
    {
        mem::replace(&mut self.asked, false)
    }

    /// Is true if the server is shutting down.
    pub fn is_closing(&self) -> bool
        ensures { result ≡ self.now.closing }
    {
        self.closing
    }

    /// Adds a line to the log. Fails only if memory runs out.
    pub fn log(&mut self, line: MooStr) -> Result<(), AllocError>
        ensures { OnOk result (self.new ≡ logged line self.old) }
    {
        self.log.push(line)?;
        Ok(())
    }

    /// Takes what was sent, in its order.
    pub fn take_sent(&mut self) -> Vec<Sent>
        ensures sent { result.items ≡ self.old.sent }
        ensures left { self.new ≡ record self.old { sent = [] } }
    {
        mem::replace(&mut self.sent, Vec::new(self.alloc))
    }

    /// Takes the lines for the log, in their order.
    pub fn take_log(&mut self) -> Vec<MooStr>
        ensures log { result.items ≡ self.old.log }
        ensures left { self.new ≡ record self.old { log = [] } }
    {
        mem::replace(&mut self.log, Vec::new(self.alloc))
    }
}
