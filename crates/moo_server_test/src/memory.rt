//! A server while memory is short. `stress/refusals/run` refuses each growth of this test in turn.

use crate::playing::WORLD;
use moo_disk::{Disk, FailAt, MemoryDisk, Place, StopAt};
use moo_server::{Cause, Event, MooApplication, Phase, RunFault};
use moo_server_core::{ServerCore, StartApplication};
use std::alloc::{AllocError, Global};

/// An opening, a turn, or what is typed on connection 1; and what is sent there for it.
type Row = (&'static str, &'static str);

/// Two checkpoints, the second asked for while the first is open, and a task that runs out of ticks between their turns.
const SAVED: [Row; 16] = [
    ("open", "*** Connected ***\r\n"),
    (r#";#1.name = "A"; dump_database();"#, "{1, 0}\r\n"),
    ("flush", ""),
    (r#";#1.name = "B"; dump_database();"#, "{1, 0}\r\n"),
    ("flush", ""),
    ("flush", ""),
    ("flush", ""),
    (
        r#";try #2.name = "X"; while (1) endwhile finally #2.name = "Y"; endtry"#,
        "#-1:Input to EVAL:  Task ran out of ticks\r\n... called from built-in function eval()\r\n... called from #3:eval\r\n(End of traceback)\r\n",
    ),
    ("flush", ""),
    ("flush", ""),
    (r#";#2.name = "C";"#, "{1, 0}\r\n"),
    ("flush", ""),
    ("flush", ""),
    ("flush", ""),
    ("flush", ""),
    ("look", "I couldn't understand that.\r\n"),
];

/// What the next life is asked if so many events were taken, or fewer: whether it found one of these worlds, known by the
/// first letters of the names of #1 and #2. The renames are the 7th event and the 14th. After all events a call of the disk
/// may have found no memory: then one of the checkpoints has failed.
const ASKED: [(usize, &str); 6] = [
    (5, r#";return index("RT", #1.name[1] + #2.name[1]) > 0;"#),
    (6, r#";return index("RT AT", #1.name[1] + #2.name[1]) > 0;"#),
    (12, r#";return index("AT", #1.name[1] + #2.name[1]) > 0;"#),
    (
        13,
        r#";return index("AT BX", #1.name[1] + #2.name[1]) > 0;"#,
    ),
    (15, r#";return index("BX", #1.name[1] + #2.name[1]) > 0;"#),
    (
        16,
        r#";return index("AT BT BX", #1.name[1] + #2.name[1]) > 0;"#,
    ),
];

fn asked_after(done: usize) -> &'static str {
    for (most, asked) in ASKED {
        if done <= most {
            return asked;
        }
    }
    ""
}

fn event_of(alloc: Global, text: &str) -> Result<Event, AllocError> {
    match text {
        "open" => Ok(Event::Open(1)),
        "flush" => Ok(Event::Flush),
        text => {
            let mut line = Vec::from_slice(alloc, text.as_bytes())?;
            line.push(b'\n')?;
            Ok(Event::Bytes(1, line))
        }
    }
}

fn events_of(alloc: Global, rows: &[Row]) -> Result<Vec<Event>, AllocError> {
    let mut events = Vec::new(alloc);
    for (text, _) in rows {
        events.push(event_of(alloc, text)?)?;
    }
    Ok(events)
}

// What the first events send.
fn bytes_of(alloc: Global, rows: &[Row], done: usize) -> Result<Vec<u8>, AllocError> {
    let mut bytes = Vec::new(alloc);
    for (_, sent) in rows.iter().take(done) {
        bytes.extend_from_slice(sent.as_bytes())?;
    }
    Ok(bytes)
}

// How many events a life takes, if it comes to what it may: all are taken, or memory ran out and the server is halted after
// the first of them. What these sent waits. A start may be refused.
fn taken<S: StartApplication, D: Disk>(
    alloc: Global,
    disk: &mut D,
    rows: &[Row],
) -> Result<Option<usize>, AllocError> {
    let events = events_of(alloc, rows)?;
    let Ok(mut server) = ServerCore::<S>::open(alloc, disk, 0) else {
        return Ok(Some(0));
    };
    let (done, is_told) = match server.run(disk, &events) {
        Ok(done) => (done, done == rows.len()),
        Err(fault) => {
            let turn = [Event::Flush];
            let again = server.run(disk, &turn);
            (fault.done, has_halted(fault.cause, server.phase(), again))
        }
    };
    let waits = server.take_output(1);
    if is_told && waits.as_slice() == bytes_of(alloc, rows, done)?.as_slice() {
        return Ok(Some(done));
    }
    Ok(None)
}

// Whether memory ran out, and a turn then came to nothing.
fn has_halted(cause: Cause, phase: Phase, again: Result<usize, RunFault>) -> bool {
    let is_refused = matches!(
        again,
        Err(RunFault {
            done: 0,
            cause: Cause::Halted
        })
    );
    cause == Cause::Memory && phase == Phase::Halted && is_refused
}

// Whether both lives over one disk come to what they may. The disk is of the kind of all tests, and neither fails nor stops.
fn are_right(alloc: Global) -> Result<bool, AllocError> {
    let disk = MemoryDisk::new(alloc, Vec::from_slice(alloc, WORLD)?);
    let mut disk = FailAt::new(StopAt::new(disk, u64::MAX, Place::Before), 0, false);
    let Some(done) = taken::<MooApplication, _>(alloc, &mut disk, &SAVED)? else {
        return Ok(false);
    };
    let asked = [
        ("open", "*** Connected ***\r\n"),
        (asked_after(done), "{1, 1}\r\n"),
    ];
    Ok(taken::<MooApplication, _>(alloc, &mut disk, &asked)?.is_some())
}

// A shutdown that is typed on a connection that is leaving: its output waits, since the boot is in the same call. After the
// checkpoint of a shutdown the last turn would be refused.
const LEAVING: [Row; 9] = [
    ("open", "*** Connected ***\r\n"),
    (";boot_player(player);", "*** Disconnected ***\r\n"),
    (";shutdown();", ""),
    ("flush", ""),
    ("flush", ""),
    ("flush", ""),
    ("flush", ""),
    ("flush", ""),
    ("flush", ""),
];

// Whether all is taken, and bytes for a connection that is leaving come to nothing.
fn is_nothing_heard(alloc: Global) -> Result<bool, AllocError> {
    let disk = MemoryDisk::new(alloc, Vec::from_slice(alloc, WORLD)?);
    let mut disk = FailAt::new(StopAt::new(disk, u64::MAX, Place::Before), 0, false);
    let done = taken::<MooApplication, _>(alloc, &mut disk, &LEAVING)?;
    Ok(matches!(done, Some(9)))
}

#[test]
fn a_leaving_connection_is_not_heard(rt: HostRuntime) {
    match is_nothing_heard(rt.alloc()) {
        Ok(is_nothing_heard) => assert!(rt; is_nothing_heard),
        Err(AllocError) => {}
    }
}

#[test]
fn missing_memory_halts_the_server(rt: HostRuntime) {
    match are_right(rt.alloc()) {
        Ok(are_right) => assert!(rt; are_right),
        Err(AllocError) => {}
    }
}
