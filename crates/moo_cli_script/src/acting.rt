//! The actions of a script on its server and its disk.
ghost use Rattle.std.specs.Prelude.{◌≡◌, ◌≤◌, IfErr, IfOk, OnOk};
ghost use Rattle.moo_server_core.specs.Seen.{seen};
ghost use Rattle.moo_server_core.specs.Server.{IsAlive};
ghost use Rattle.moo_cli_script.specs.Script.{Crashes, Fits, IsToFail, NotCrashed, NotOpened, OpensServer, Refuses, Takes, top_after};
ghost use Rattle.moo_cli_script.specs.Works.{moment_at};

use crate::script::{Refused, Script};
use moo_checkpoint::OpenFault;
use moo_disk::{FailAt, MemoryDisk};
use moo_server_core::laws::a_failing_disk_goes_on;
use moo_server_core::{Cause, Event, Phase, ServerCore, StartApplication};
use std::alloc::Global;

impl<S: StartApplication> Script<S> {
    /// Opens a server over a disk, at a moment. Returns the fault if there is no server.
    pub(crate) fn open(
        alloc: Global,
        disk: FailAt<MemoryDisk>,
        moment: u32,
    ) -> Result<Script<S>, OpenFault>
        ensures opens { IfOk result (OpensServer S.layer disk moment) }
        ensures fits { IfOk result (Fits S.layer) }
        ensures refused { IfErr result (NotOpened disk) }
    {
        let mut disk = disk;
        match ServerCore::<S>::open(alloc, &mut disk, moment) {
            Ok(server) => Ok(Script {
                server,
                disk,
                moment,
                top: 0,
            }),
            Err(fault) => Err(fault),
        }
    }

    /// Gives the server one event. Returns the cause if the server refuses it.
    pub(crate) fn take(&mut self, event: Event) -> Result<(), Cause>
        requires { Fits S.layer self.old }
        ensures takes { OnOk result (Takes S.layer (seen event) self.old self.new) }
        ensures fits { OnOk result (Fits S.layer self.new) }
        ensures refused { IfErr result (Refuses S.layer (seen event) self.old) }
    {
        let moment = self.moment_after(&event);
        let top = self.top_after(&event);
        match self.server.run(&mut self.disk, &[event]) {
            Ok(_) => {
                self.moment = moment;
                self.top = top;
                Ok(())
            }
            Err(fault) => Err(fault.cause),
        }
    }

    // Returns the moment after an event that is taken.
    fn moment_after(&self, event: &Event) -> u32
        requires { IsAlive self.now.server }
        ensures { result ≡ moment_at self.now.server.course (seen event.now) self.now.moment }
    {
        match (event, self.server.phase()) {
            (Event::Moment(moment), Phase::Running) => *moment,
            _ => self.moment,
        }
    }

    // Returns a number above those of all opened connections, after an event.
    fn top_after(&self, event: &Event) -> u32
        requires { self.now.top ≤ 65536 }
        ensures most { result ≤ 65536 }
        ensures following { result ≡ top_after (seen event.now) self.now.top }
    {
        match event {
            Event::Open(c) => self.top.max(u32::from(*c) + 1),
            _ => self.top,
        }
    }

    /// Sets the k-th call of the disk from now on to fail.
    pub(crate) fn fail(self, k: u64, has_effect: bool) -> Script<S>
        requires { Fits S.layer self }
        ensures fails { IsToFail S.layer k has_effect self result }
        ensures fits { Fits S.layer result }
    {
        a_failing_disk_goes_on::<S, MemoryDisk>();
        let Script {
            server,
            disk,
            moment,
            top,
        } = self;
        Script {
            server,
            disk: FailAt::new(disk.into_inner(), k, has_effect),
            moment,
            top,
        }
    }

    /// Opens another server over the disk as it reads, at the same moment. A call that is set to fail still fails.
    pub(crate) fn reopen(self, alloc: Global) -> Result<Script<S>, OpenFault>
        requires { Fits S.layer self }
        ensures opens { IfOk result (OpensServer S.layer self.disk self.server.moment) }
        ensures fits { IfOk result (Fits S.layer) }
        ensures refused { IfErr result (NotOpened self.disk) }
    {
        let Script {
            server: _,
            disk,
            moment,
            top: _,
        } = self;
        Script::open(alloc, disk, moment)
    }

    /// Opens another server over the disk with the i-th text that a crash may leave, at the same moment. No call is set to
    /// fail then.
    pub(crate) fn crash(self, alloc: Global, i: usize) -> Result<Script<S>, Refused>
        requires { Fits S.layer self }
        ensures crashes { IfOk result (Crashes S.layer i self) }
        ensures fits { IfOk result (Fits S.layer) }
        ensures refused { IfErr result (NotCrashed S.layer i self) }
    {
        let Script {
            server: _,
            disk,
            moment,
            top: _,
        } = self;
        match disk.into_inner().crash(i) {
            Ok(left) => match Script::open(alloc, FailAt::new(left, 0, false), moment) {
                Ok(script) => Ok(script),
                Err(fault) => Err(Refused::Opening(fault)),
            },
            Err(_) => Err(Refused::NoSuchImage),
        }
    }
}
