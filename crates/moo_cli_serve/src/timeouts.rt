//! The limits of time for connections.
ghost use Rattle.std.specs.Prelude.{◌≡◌, ◌++◌, All, IfOk, true};
ghost use Rattle.moo_cli_serve.specs.Silence.{is_silent};
ghost use Rattle.moo_cli_serve.specs.Strangers.{may_be_late};

use crate::silence::Silence;
use crate::strangers::Strangers;
use log::Log;
use moo_cli_sockets::Sockets;
use moo_server_core::{ServerCore, StartApplication};
use std::alloc::{AllocError, Global};

/// The limits of time for connections: that for a login, and that for silence.
#[derive(Drop)]
pub struct Timeouts {
    pub(crate) strangers: Strangers,
    pub(crate) silence: Silence,
}

impl Timeouts {
    /// Returns the connections that are hung up now because they are late, and logs it: strangers, and those that have
    /// sent nothing for long. Fails only if memory runs out.
    pub fn find_late<S: StartApplication, L: Log>(
        &mut self,
        rt: &L,
        alloc: Global,
        now: u64,
        server: &ServerCore<S>,
        sockets: &Sockets,
    ) -> Result<Vec<u16>, AllocError>
        ensures late { IfOk result (λ late. All (λ c. may_be_late S.layer (is_silent self.new.silence now) server.now c ≡ true) late.items) }
        ensures heard { self.new.silence.heard ≡ self.old.silence.heard }
        ensures limit { self.new.silence.limit ≡ self.old.silence.limit }
        ensures logins { self.new.strangers.limits ≡ self.old.strangers.limits }
    {
        let strangers = self.strangers.find_late(rt, alloc, now, server, sockets)?;
        let silent = self.silence.find(rt, alloc, now, sockets)?;
        let late = joined(strangers, &silent)?;
        Ok(late)
    }
}

// Appends a list of numbers to another.
fn joined(first: Vec<u16>, second: &[u16]) -> Result<Vec<u16>, AllocError>
    ensures { IfOk result (λ all. all.items ≡ first.items ++ second.now) }
{
    let mut all = first;
    all.extend_from_slice(second)?;
    Ok(all)
}
