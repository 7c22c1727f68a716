//! The surface of `moo_server`.
use moo_disk::{CrashDisk, Disk};
use moo_server::{
    Cause, Event, Life, LifeBegin, LifeStop, LivesCause, LivesFault, OpenFault, Phase, RunFault,
    Server, ServerCore, StartApplication,
};
use moo_value::MooStr;
use std::alloc::Global;

/// Opens a server, hands it events, and returns how many it took.
pub fn run<D: Disk>(
    alloc: Global,
    disk: &mut D,
    moment: u32,
    events: &[Event],
) -> Result<Result<usize, RunFault>, OpenFault> {
    let mut server: Server = Server::open(alloc, disk, moment)?;
    Ok(server.run(disk, events))
}

pub fn take_output(server: &mut Server, c: u16) -> Vec<u8> {
    server.take_output(c)
}

pub fn take_log(server: &mut Server) -> Vec<MooStr> {
    server.take_log()
}

pub fn is_leaving(server: &Server, c: u16) -> bool {
    server.is_leaving(c)
}

pub fn phase(server: &Server) -> Phase {
    server.phase()
}

/// Opens a server of another application.
pub fn open<S: StartApplication, D: Disk>(
    alloc: Global,
    disk: &mut D,
    moment: u32,
) -> Result<ServerCore<S>, OpenFault> {
    ServerCore::<S>::open(alloc, disk, moment)
}

pub fn run_lives<D: CrashDisk + Drop>(
    alloc: Global,
    disk: D,
    lives: &[Life],
) -> Result<Vec<LifeBegin>, LivesFault> {
    moo_server::run_lives(alloc, disk, lives)
}

pub fn run_lives_on<D: CrashDisk + Drop>(
    alloc: Global,
    disk: D,
    lives: &[Life],
) -> Result<(D, Vec<LifeBegin>), (D, LivesFault)> {
    moo_server::run_lives_on(alloc, disk, lives)
}

/// Returns the number of an event's form.
pub fn event(event: &Event) -> u8 {
    match event {
        Event::Open(_) => 0,
        Event::Bytes(_, _) => 1,
        Event::Hangup(_) => 2,
        Event::Moment(_) => 3,
        Event::Flush => 4,
    }
}

/// Returns the number of a phase.
pub fn phase_number(phase: Phase) -> u8 {
    match phase {
        Phase::Running => 0,
        Phase::Closing => 1,
        Phase::Closed => 2,
        Phase::Halted => 3,
    }
}

/// Returns how many events were taken, and the number of the cause.
pub fn refusal(fault: RunFault) -> (usize, u8) {
    let cause = match fault.cause {
        Cause::NoSuchConnection => 1,
        Cause::ConnectionInUse => 2,
        Cause::ClockBack => 3,
        Cause::Memory => 4,
        Cause::Halted => 5,
        Cause::Closed => 6,
    };
    (fault.done, cause)
}

/// Returns a life that a crash ends, which leaves its i-th text.
pub fn life(moment: u32, events: Vec<Event>, i: usize) -> Life {
    Life {
        moment,
        events,
        stop: LifeStop::Crash(i),
    }
}

/// Returns whether only the server ends, and not the machine.
pub fn is_server_only(stop: LifeStop) -> bool {
    match stop {
        LifeStop::Crash(_) => false,
        LifeStop::ServerOnly => true,
    }
}

/// Returns the text that a life began from, and how many events it took.
pub fn begun(begin: LifeBegin) -> (Vec<u8>, usize) {
    (begin.text, begin.done)
}

/// Returns the life that a fault is of, and the fault of its start, if it is one.
pub fn lives_fault(fault: LivesFault) -> (usize, Option<OpenFault>) {
    let cause = match fault.cause {
        LivesCause::Open(fault) => Some(fault),
        LivesCause::NoSuchImage => None,
        LivesCause::Memory => None,
    };
    (fault.life, cause)
}
