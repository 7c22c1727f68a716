//! What the tests share: lives of a server, one after another over one disk.

use moo_disk::{Disk, FailAt, MemoryDisk, Place, StopAt};
use moo_server::{Event, MooApplication, OpenFault};
use moo_server_core::{ServerCore, StartApplication};
use std::alloc::Global;
use std::test::Fail;

/// A wizard, #3, in a room, #2, with a verb that evaluates what is typed after a semicolon. Who opens a connection is #3.
pub const WORLD: &[u8] =
    b"** LambdaMOO Database, Format Version 4 **\n4\n2\n0\n1\n3\n#0\nSystem Object\n\n16\n3\n-1\n-1\n-1\n1\n-1\n2\n1\ndo_login_command\n3\n173\n-1\n0\n0\n#1\nRoot Class\n\n16\n3\n-1\n-1\n-1\n-1\n0\n-1\n0\n0\n0\n#2\nThe First Room\n\n0\n3\n-1\n3\n-1\n1\n-1\n3\n0\n0\n0\n#3\nWizard\n\n7\n3\n2\n-1\n-1\n1\n-1\n-1\n1\neval\n3\n93\n-2\n0\n0\n#0:0\nreturn #3;\n.\n#3:0\nnotify(player, toliteral(eval(argstr)));\n.\n0 clocks\n0 queued tasks\n0 suspended tasks\n0 active connections with listeners\n";

// A number of a call that no life comes to.
const NEVER: u64 = u64::MAX;

/// A database in memory.
pub fn disk_of(alloc: Global, world: &[u8]) -> Result<MemoryDisk, Fail> {
    Ok(MemoryDisk::new(alloc, Vec::from_slice(alloc, world)?))
}

fn add_line(told: &mut Vec<u8>, line: &[u8]) -> Result<(), Fail> {
    told.extend_from_slice(line)?;
    told.push(b'\n')?;
    Ok(())
}

// What follows the first blank, if there is one.
fn part(text: &str) -> (&str, &str) {
    text.split_once(' ').unwrap_or((text, ""))
}

/// Adds an event, or as many of `flush` as it says. In `bytes`, `^` is CR and `|` is LF.
pub fn add_events(alloc: Global, events: &mut Vec<Event>, row: &str) -> Result<(), Fail> {
    let (word, rest) = part(row);
    let (number, text) = part(rest);
    let number = number.parse::<u16>().unwrap_or(1);
    if word == "flush" {
        for _ in 0..number {
            events.push(Event::Flush)?;
        }
        return Ok(());
    }
    events.push(match word {
        "open" => Event::Open(number),
        "line" => Event::Bytes(number, typed(alloc, text, "|")?),
        "bytes" => Event::Bytes(number, typed(alloc, text, "")?),
        "hangup" => Event::Hangup(number),
        "moment" => Event::Moment(u32::from(number)),
        _ => return Err(Fail::from("nothing that comes")),
    })?;
    Ok(())
}

fn typed(alloc: Global, text: &str, end: &str) -> Result<Vec<u8>, Fail> {
    let mut piece = Vec::from_slice(alloc, text.as_bytes())?;
    piece.extend_from_slice(end.as_bytes())?;
    for byte in piece.iter_mut() {
        match *byte {
            b'^' => *byte = b'\r',
            b'|' => *byte = b'\n',
            _ => {}
        }
    }
    Ok(piece)
}

/// A life over a disk that stops in its k-th call, before it or within it.
pub fn stop(
    alloc: Global,
    disk: MemoryDisk,
    k: u16,
    place: Place,
    events: &[Event],
    told: &mut Vec<u8>,
) -> Result<MemoryDisk, Fail> {
    let stops = (u64::from(k), place);
    play(alloc, disk, (NEVER, false), stops, events, told)
}

// A life over a disk that fails in one call and stops in another. All lives are over disks of this kind: the server is made and proved anew
// for each kind.
fn play(
    alloc: Global,
    disk: MemoryDisk,
    (failing, effect): (u64, bool),
    (stopping, place): (u64, Place),
    events: &[Event],
    told: &mut Vec<u8>,
) -> Result<MemoryDisk, Fail> {
    let stops = StopAt::new(disk, stopping, place);
    let mut disk = FailAt::new(stops, failing, effect);
    live::<MooApplication, _>(alloc, &mut disk, events, told)?;
    Ok(disk.into_inner().into_inner())
}

// One life, from moment 0 on.
fn live<S: StartApplication, D: Disk>(
    alloc: Global,
    disk: &mut D,
    events: &[Event],
    told: &mut Vec<u8>,
) -> Result<(), Fail> {
    let mut server = match ServerCore::<S>::open(alloc, disk, 0) {
        Ok(server) => server,
        Err(fault) => return add_line(told, refusal(alloc, fault)?.as_bytes()),
    };
    let text = match server.run(disk, events) {
        Ok(done) => format!(in alloc; "{done} {:?}", server.phase())?,
        Err(fault) => {
            format!(in alloc; "{} {:?} {:?}", fault.done, fault.cause, server.phase())?
        }
    };
    add_line(told, text.as_bytes())?;
    for c in 0..4 {
        add_sent(alloc, c, &server.take_output(c), told)?;
    }
    for line in server.take_log() {
        told.extend_from_slice(b"log: ")?;
        add_line(told, line.as_bytes())?;
    }
    Ok(())
}

fn refusal(alloc: Global, fault: OpenFault) -> Result<String, Fail> {
    match fault {
        OpenFault::Device => Ok(format!(in alloc; "refused: Device")?),
        OpenFault::Memory => Ok(format!(in alloc; "refused: Memory")?),
        OpenFault::Db(fault) => Ok(format!(in alloc; "refused: line {}", fault.line)?),
    }
}

// Each line that was sent on a connection, after its number.
fn add_sent(alloc: Global, c: u16, sent: &[u8], told: &mut Vec<u8>) -> Result<(), Fail> {
    for line in str::from_utf8(sent).unwrap_or("no text").lines() {
        add_line(told, format!(in alloc; "{c}: {line}")?.as_bytes())?;
    }
    Ok(())
}
