//! Events that a server takes, each in a run of its own.
ghost use Rattle.std.specs.Prelude.{◌≡◌, ℕ, List, [], IfErr, OnOk, if◌then◌else◌};
ghost use Rattle.moo_server_core.specs.Application.{Output};
ghost use Rattle.moo_server_core.specs.Seen.{seen};
ghost use Rattle.moo_server_core.specs.Server.{Follows, Hands, waiting_of, with_disk};
ghost use Rattle.moo_server_core.specs.declared.event.Event as given;
ghost use Rattle.moo_cli_serve.specs.Course.{Course, Given, hangs_up};
ghost use Rattle.moo_cli_serve.specs.Rounds.{GivenIfOpen};
ghost use Rattle.moo_cli_serve.specs.Service.{IsRefused};

use crate::login_log::LoginLog;
use log::Log;
use moo_disk::Disk;
use moo_server_core::{Cause, Event, Phase, ServerCore, StartApplication};
use std::slice;

/// Gives events to a server, one after another, each in a run of its own. Drops what waits for a connection that hung up, so
/// that the next connection of its number starts empty. Logs the logins. Returns the cause if the server refuses an event.
pub fn give<S: StartApplication, D: Disk, L: Log>(
    rt: &L,
    logins: &mut LoginLog,
    server: &mut ServerCore<S>,
    disk: &mut D,
    events: &[Event],
) -> Result<(), Cause>
    requires { Follows S.layer D.kind (with_disk server.old disk.old) }
    ensures follows { Follows S.layer D.kind (with_disk server.new disk.new) }
    ensures course { (taken : List given.Event) × Course S.layer D.kind server.old disk.old taken server.new disk.new }
    ensures all { OnOk result (Given S.layer D.kind server.old disk.old events.now server.new disk.new) }
    ensures refused { IfErr result (λ cause. IsRefused S.layer D.kind cause events.now server.old disk.old server.new disk.new) }
{
    for event in events {
        let is_attempt = logins.is_attempt(server, event);
        if let Err(fault) = server.run(disk, slice::from_ref(event)) {
            return Err(fault.cause);
        }
        forget(server, event);
        logins.follow(rt, server, event, is_attempt);
    }
    Ok(())
}

/// Gives events to a server as `give` does, unless it is closed.
pub fn give_if_open<S: StartApplication, D: Disk, L: Log>(
    rt: &L,
    logins: &mut LoginLog,
    server: &mut ServerCore<S>,
    disk: &mut D,
    events: &[Event],
) -> Result<(), Cause>
    requires { Follows S.layer D.kind (with_disk server.old disk.old) }
    ensures follows { Follows S.layer D.kind (with_disk server.new disk.new) }
    ensures course { (taken : List given.Event) × Course S.layer D.kind server.old disk.old taken server.new disk.new }
    ensures all { OnOk result (GivenIfOpen S.layer D.kind server.old disk.old events.now server.new disk.new) }
    ensures refused { IfErr result (λ cause. IsRefused S.layer D.kind cause events.now server.old disk.old server.new disk.new) }
{
    if matches!(server.phase(), Phase::Closed) {
        return Ok(());
    }
    give(rt, logins, server, disk, events)
}

// Takes and drops what waits for a connection that hung up.
fn forget<S: StartApplication>(server: &mut ServerCore<S>, event: &Event)
    ensures handed { (handed : Output) × Hands S.layer handed server.old server.new }
    ensures waiting { (c : ℕ) → (waiting_of S.layer server.new).sent c ≡ (if hangs_up c (seen event.now) then [] else (waiting_of S.layer server.old).sent c) }
    ensures log { (waiting_of S.layer server.new).logged ≡ (waiting_of S.layer server.old).logged }
{
    if let Event::Hangup(c) = event {
        let _ = server.take_output(*c);
    }
}
