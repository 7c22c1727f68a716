//! Rounds of non-blocking calls between the sockets of connections and a server.
ghost use Rattle.std.specs.Prelude.{◌≡◌, ◌⊎◌, ◌↔◌, List, IfErr, IfOk, IsTrue, OnOk, false, true};
ghost use Rattle.moo_server_core.specs.Server.{Follows, with_disk};
ghost use Rattle.moo_server_core.specs.declared.event.Event as given;
ghost use Rattle.moo_cli_serve.specs.Course.{Course};
ghost use Rattle.moo_cli_serve.specs.Console.{new_console};
ghost use Rattle.moo_cli_serve.specs.Rounds.{IsClosed, Rounds};
ghost use Rattle.moo_cli_serve.specs.Service.{Begun, BreaksOff, EndsFor, IsOutside, IsServed, NotStarted, StepFails, Steps, Turns, Waits};

use crate::beginning::{begin, report_checkpoint};
use crate::clients::Clients;
use crate::coming::{come, now, time};
use crate::console::Console;
use crate::fault::ServeFault;
use crate::giving::{give, give_if_open};
use crate::leaving::{log_lines, write_all};
use crate::limits::Limits;
use crate::listening::{Web, listen};
use crate::login_log::LoginLog;
use crate::silence::Silence;
use crate::strangers::Strangers;
use crate::timeouts::Timeouts;
use log::Log;
use moo_cli_file_disk::{News, Watched};
use moo_cli_telnet::Telnet;
use moo_disk::Disk;
use moo_server_core::{Phase, ServerCore as Server, StartApplication};
use std::alloc::Global;
use std::mem;
use std::net::{IpAddr, Net, SocketAddr};
use std::rt::Clock;
use std::time::Duration;

/// The longest wait of an idle server, in seconds: a moment has whole ones.
const WAIT_SECONDS: u64 = 1;

/// The outcome of a round.
#[derive(Clone, Copy, Debug, PartialEq, Eq)]
pub enum Round {
    /// More may be done at once.
    Busy,
    /// Nothing can be done until a socket is ready or the clock goes on.
    Idle,
    /// The server is closed.
    Over,
}

/// A server over a disk, and the sockets of its connections.
#[derive(Drop)]
pub struct Serving<S: StartApplication, D: Disk> {
    alloc: Global,
    clients: Clients,
    server: Server<S>,
    disk: D,
    /// The last reported moment.
    moment: u32,
    timeouts: Timeouts,
    logins: LoginLog,
    console: Console,
    /// Whether the clock is before the last reported moment.
    is_late: bool,
    /// When the open checkpoint began, by a clock that is never set.
    began: Option<Duration>,
}

impl<S: StartApplication, D: Disk + Watched> Serving<S, D> {
    /// Opens a server over a disk, and listens on a port of an address, and for browsers if they are served. Port 0 takes any that
    /// is free. Fails if the database is refused or can't be read, if an address is not available, or if memory runs out. Logs the
    /// reason if the disk can't be read.
    pub fn open<N: Net + Clock + Log>(
        rt: &N,
        alloc: Global,
        disk: D,
        host: IpAddr,
        port: u16,
        web: Option<Web<'_>>,
        limits: Limits,
        has_console: bool,
        login_lines: u64,
        telnet: Option<Telnet>,
    ) -> Result<Serving<S, D>, ServeFault>
    where
        D: Drop,
        ensures begun { IfOk result (Begun S.layer D.kind disk limits) }
        ensures follows { IfOk result (λ serving. Follows S.layer D.kind (with_disk serving.server serving.disk)) }
        ensures console { IfOk result (λ serving. serving.console ≡ new_console has_console) }
        ensures refused { IfErr result (NotStarted S.layer D.kind disk) }
    {
        let mut disk = disk;
        let moment = now(rt).unwrap_or(0);
        let server = begin(rt, alloc, &mut disk, moment)?;
        let sockets = listen(rt, alloc, host, port, telnet, web)?;
        let silence = Silence::new(alloc, limits.idle_seconds);
        Ok(Serving {
            alloc,
            clients: Clients {
                sockets,
                most_waiting: limits.most_waiting,
                is_settled: true,
            },
            server,
            disk,
            moment,
            timeouts: Timeouts {
                strangers: Strangers::new(limits.login),
                silence,
            },
            logins: LoginLog::new(alloc, login_lines),
            console: Console::new(has_console),
            is_late: false,
            began: None,
        })
    }

    /// Returns the address on which it listens. Fails if the system doesn't report it.
    pub fn address(&self) -> Result<SocketAddr, ServeFault>
        ensures { IfErr result IsOutside }
    {
        let address = self.clients.sockets.address()?;
        Ok(address)
    }

    /// Makes at most so many rounds, and waits after each that found nothing. Ends early once the server is closed, or with the
    /// reason of a fault.
    pub fn serve<L: Clock + Log>(&mut self, rt: &L, rounds: u64) -> Result<(), ServeFault>
        requires { Follows S.layer D.kind (with_disk self.old.server self.old.disk) }
        ensures follows { Follows S.layer D.kind (with_disk self.new.server self.new.disk) }
        ensures course { (events : List given.Event) × Course S.layer D.kind self.old.server self.old.disk events self.new.server self.new.disk }
        ensures served { OnOk result (IsServed S.layer D.kind rounds self.old self.new) }
        ensures ended { IfErr result (λ fault. (events : List given.Event) × BreaksOff S.layer D.kind rounds fault self.old events self.new) }
    {
        for _made in 0..rounds {
            let goes = self.step(rt)?;
            if !goes {
                return Ok(());
            }
        }
        Ok(())
    }

    // Makes a round, and waits if it found nothing. Returns whether the server goes on.
    fn step<L: Clock + Log>(&mut self, rt: &L) -> Result<bool, ServeFault>
        requires { Follows S.layer D.kind (with_disk self.old.server self.old.disk) }
        ensures follows { Follows S.layer D.kind (with_disk self.new.server self.new.disk) }
        ensures goes { IfOk result (λ goes. goes ≡ true → Steps S.layer D.kind self.old self.new) }
        ensures over { IfOk result (λ goes. goes ≡ false → IsClosed self.new.server × ((self.new ≡ self.old) ⊎ Steps S.layer D.kind self.old self.new)) }
        ensures ended { IfErr result (λ fault. (events : List given.Event) × StepFails S.layer D.kind fault self.old events self.new) }
    {
        let found = self.round(rt)?;
        match found {
            Round::Busy => Ok(true),
            Round::Idle => {
                self.wait()?;
                Ok(true)
            }
            Round::Over => Ok(false),
        }
    }

    /// Makes one round. Gives the server what came on the sockets, the moment and a flush, each event in a run of its own. Then
    /// writes once to each socket for which bytes wait, and gives the server the hang-ups of the connections that this closes.
    /// Does nothing once the server is closed.
    #[tactic(none)]
    pub fn round<L: Clock + Log>(&mut self, rt: &L) -> Result<Round, ServeFault>
        requires { Follows S.layer D.kind (with_disk self.old.server self.old.disk) }
        ensures follows { Follows S.layer D.kind (with_disk self.new.server self.new.disk) }
        ensures course { (events : List given.Event) × Course S.layer D.kind self.old.server self.old.disk events self.new.server self.new.disk }
        ensures round { OnOk result ((IsClosed self.old.server × (self.new ≡ self.old)) ⊎ Turns S.layer D.kind self.old self.new) }
        ensures over { IfOk result (λ found. (found ≡ Round.Over) ↔ IsClosed self.new.server) }
        ensures idle { IfOk result (λ found. found ≡ Round.Idle → self.new.console.is_busy ≡ false) }
        ensures ended { IfErr result (λ fault. (events : List given.Event) × EndsFor S.layer D.kind fault self.old events self.new) }
    {
        if self.is_closed() {
            return Ok(Round::Over);
        }
        let calls = self.disk.calls();
        let turned = self.turn(rt);
        log_lines(rt, &mut self.console, &mut self.server);
        turned?;
        Ok(self.found(calls))
    }

    // Makes a round of a server that isn't closed.
    #[tactic(none)]
    fn turn<L: Clock + Log>(&mut self, rt: &L) -> Result<(), ServeFault>
        requires { Follows S.layer D.kind (with_disk self.old.server self.old.disk) }
        ensures follows { Follows S.layer D.kind (with_disk self.new.server self.new.disk) }
        ensures round { OnOk result (Rounds S.layer D.kind self.old self.new) }
        ensures ended { IfErr result (λ fault. (events : List given.Event) × EndsFor S.layer D.kind fault self.old events self.new) }
    {
        let clients = &mut self.clients;
        let is_settled = mem::replace(&mut clients.is_settled, false);
        clients.sockets.rest();
        clients.sockets.look()?;
        let came = come(
            rt,
            self.alloc,
            &mut clients.sockets,
            &mut self.console,
            &mut self.moment,
            &mut self.is_late,
        )?;
        let now = time(rt);
        let second = now.as_secs();
        self.timeouts.silence.hear(second, &came)?;
        let calls = self.disk.calls();
        let logins = &mut self.logins;
        logins.begin_round(rt, second);
        let given = give(rt, logins, &mut self.server, &mut self.disk, &came);
        report_checkpoint(rt, &self.disk, calls, now, &mut self.began);
        given?;
        let parted = write_all(
            rt,
            self.alloc,
            &mut self.server,
            &mut clients.sockets,
            clients.most_waiting,
            is_settled,
            second,
            &mut self.timeouts,
        )?;
        clients.is_settled = true;
        give_if_open(rt, logins, &mut self.server, &mut self.disk, &parted)?;
        Ok(())
    }

    /// Returns whether the server is closed, and the last call of its disk didn't fail. So its last checkpoint is done.
    pub fn is_saved(&self) -> bool
        ensures { IsTrue result ↔ (IsClosed self.now.server × (D.has_failed self.now.disk ≡ false)) }
    {
        self.is_closed() && !matches!(self.disk.news(), News::Failed(_, _))
    }

    pub(crate) fn is_closed(&self) -> bool
        ensures { IsTrue result ↔ IsClosed self.now.server }
    {
        matches!(self.server.phase(), Phase::Closed)
    }

    // Returns the outcome of a round, before which the disk had made so many calls.
    fn found(&self, calls: u64) -> Round
        ensures over { (result ≡ Round.Over) ↔ IsClosed self.now.server }
        ensures idle { result ≡ Round.Idle → self.now.console.is_busy ≡ false }
    {
        if self.is_closed() {
            return Round::Over;
        }
        if self.clients.sockets.is_busy() || self.console.is_busy() || self.disk.calls() != calls {
            return Round::Busy;
        }
        Round::Idle
    }

    /// Waits until a socket is ready, for a second at most. Fails if the system can't report which are, or if memory runs out.
    pub fn wait(&mut self) -> Result<(), ServeFault>
        ensures waits { Waits self.old self.new }
        ensures outside { IfErr result IsOutside }
    {
        let clients = &mut self.clients;
        clients.sockets.wait(WAIT_SECONDS)?;
        Ok(())
    }
}
