//! A stop in each call of two checkpoints, and which worlds a start may then find.

use crate::playing::{WORLD, add_events, disk_of, stop};
use moo_disk::{MemoryDisk, Place};
use std::alloc::Global;
use std::test::Fail;

const EVENTS: &str = r#"open 1
line 1 ;#1.name = "A"; dump_database();
flush 2
line 1 ;#1.name = "B"; dump_database();
flush 8"#;

/// The life's disk, after it stopped in its k-th call. The server's start reads main in two.
fn stopped(alloc: Global, k: u16, place: Place) -> Result<MemoryDisk, Fail> {
    let mut events = Vec::new(alloc);
    for row in EVENTS.lines() {
        add_events(alloc, &mut events, row)?;
    }
    let mut told = Vec::new(alloc);
    stop(alloc, disk_of(alloc, WORLD)?, k, place, &events, &mut told)
}

/// The first letter of the name of #1.
pub fn letter(text: &[u8]) -> u8 {
    let name = str::from_utf8(text)
        .unwrap_or("")
        .lines()
        .nth(25)
        .unwrap_or("");
    match name.as_bytes().first() {
        Some(first) => *first,
        None => b'?',
    }
}

// The letter of the world that a start finds.
fn found(alloc: Global, left: MemoryDisk) -> Result<u8, Fail> {
    let mut events = Vec::new(alloc);
    add_events(alloc, &mut events, "open 1")?;
    add_events(alloc, &mut events, "line 1 ;return #1.name;")?;
    let mut told = Vec::new(alloc);
    let _disk = stop(alloc, left, u16::MAX, Place::Before, &events, &mut told)?;
    let (_, name) = str::from_utf8(&told)
        .unwrap_or("")
        .split_once("{1, \"")
        .unwrap_or(("", "?"));
    Ok(name.as_bytes().first().copied().unwrap_or(b'?'))
}

// The worlds that a start may find after the stop, by their letters.
fn left_by_stop(alloc: Global, k: u16, place: Place) -> Result<Vec<u8>, Fail> {
    let mut letters = Vec::new(alloc);
    for i in 0..3 {
        match stopped(alloc, k, place)?.crash(i) {
            Ok(left) => letters.push(found(alloc, left)?)?,
            Err(_) => return Ok(letters),
        }
    }
    Ok(letters)
}

/// For each call: which worlds may be found after a stop before it and within it. No call is the thirteenth.
const STOPS: [(u16, &str, &str); 13] = [
    (1, "R", "R"),
    (2, "R", "R"),
    (3, "R", "R"),
    (4, "R", "R"),
    (5, "R", "R"),
    (6, "R", "RA"),
    (7, "RA", "RA"),
    (8, "A", "A"),
    (9, "A", "A"),
    (10, "A", "A"),
    (11, "A", "AB"),
    (12, "AB", "AB"),
    (13, "B", "B"),
];

#[test]
fn a_stop_leaves_the_old_world_the_new_one_or_both(rt: HostRuntime) -> Result<(), Fail> {
    let alloc = rt.alloc();
    for (k, before, within) in STOPS {
        let left = left_by_stop(alloc, k, Place::Before)?;
        assert!(rt; left.as_slice() == before.as_bytes());
        let left = left_by_stop(alloc, k, Place::Within)?;
        assert!(rt; left.as_slice() == within.as_bytes());
    }
    Ok(())
}
