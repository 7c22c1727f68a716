//! Lists of three lives: from which world each begins.

use crate::playing::{WORLD, add_events, disk_of};
use crate::stops::letter;
use moo_server::{Life, LifeStop, LivesCause, run_lives, run_lives_on};
use std::alloc::Global;
use std::test::Fail;

/// The turns of a life's checkpoint, and the number of the text that the crash leaves that ends it; with 2, the server ends alone.
const ENDS: [(usize, usize); 7] = [(3, 0), (3, 2), (4, 0), (4, 1), (4, 2), (5, 0), (5, 2)];

/// The ends of the three lives of a list, by its number.
fn ends_of(number: usize) -> [(usize, usize); 3] {
    [
        ENDS[number % 7],
        ENDS[number / 7 % 7],
        ENDS[number / 49 % 7],
    ]
}

/// A life that gives #1 a name and saves.
fn life(alloc: Global, row: &str, end: (usize, usize)) -> Result<Life, Fail> {
    let mut events = Vec::new(alloc);
    add_events(alloc, &mut events, "open 1")?;
    add_events(alloc, &mut events, row)?;
    for _ in 0..end.0 {
        add_events(alloc, &mut events, "flush")?;
    }
    let stop = match end.1 {
        2 => LifeStop::ServerOnly,
        i => LifeStop::Crash(i),
    };
    Ok(Life {
        moment: 0,
        events,
        stop,
    })
}

const ROWS: [&str; 3] = [
    r#"line 1 ;#1.name = "A"; dump_database();"#,
    r#"line 1 ;#1.name = "B"; dump_database();"#,
    r#"line 1 ;#1.name = "C"; dump_database();"#,
];

/// The worlds that the lives began from, by their letters, or `!` and the number of the life whose crash left no such text.
fn begun(alloc: Global, ends: [(usize, usize); 3]) -> Result<Vec<u8>, Fail> {
    let mut lives = Vec::new(alloc);
    for (row, end) in ROWS.iter().zip(ends.iter()) {
        lives.push(life(alloc, row, *end)?)?;
    }
    let mut letters = Vec::new(alloc);
    match run_lives(alloc, disk_of(alloc, WORLD)?, &lives) {
        Ok(begins) => {
            for (begin, end) in begins.iter().zip(ends.iter()) {
                letters.push(letter(&begin.text))?;
                if begin.done != end.0.saturating_add(2) {
                    letters.push(b'?')?;
                }
            }
        }
        Err(fault) if fault.cause == LivesCause::NoSuchImage => {
            letters.extend_from_slice(format!(in alloc; "!{}", fault.life)?.as_bytes())?;
        }
        Err(_) => letters.push(b'?')?,
    }
    Ok(letters)
}

/// The expected texts by what a checkpoint and a crash do to the texts that may be left. Main reads as the last of them.
fn expected(alloc: Global, ends: [(usize, usize); 3]) -> Result<Vec<u8>, Fail> {
    let mut letters = Vec::new(alloc);
    let mut left = vec![in alloc; b'R']?;
    for (place, (flushes, i)) in ends.iter().enumerate() {
        letters.push(*left.last().unwrap_or(&b'?'))?;
        let letter = b"ABC".get(place).copied().unwrap_or(b'?');
        write(&mut left, letter, *flushes)?;
        if !crash(&mut left, *i)? {
            return Ok(Vec::from_slice(alloc, format!(in alloc; "!{place}")?.as_bytes())?);
        }
    }
    Ok(letters)
}

// The rename brings a text under main, and the sync of the names leaves it alone.
fn write(left: &mut Vec<u8>, letter: u8, flushes: usize) -> Result<(), Fail> {
    if flushes >= 5 {
        left.clear();
    }
    if flushes >= 4 {
        left.push(letter)?;
    }
    Ok(())
}

// A crash leaves one text alone; whether there is one of that number.
fn crash(left: &mut Vec<u8>, i: usize) -> Result<bool, Fail> {
    if i == 2 {
        return Ok(true);
    }
    let Some(letter) = left.get(i).copied() else {
        return Ok(false);
    };
    left.clear();
    left.push(letter)?;
    Ok(true)
}

#[test]
fn each_life_begins_from_what_the_one_before_left(rt: HostRuntime) -> Result<(), Fail> {
    let alloc = rt.alloc();
    for number in 0..343 {
        let ends = ends_of(number);
        assert!(rt; begun(alloc, ends)? == expected(alloc, ends)?, "{number}");
    }
    Ok(())
}

/// The letter of the world under main of the disk that a life with this end leaves, and a `!` after it if there was a fault.
fn left_by(alloc: Global, end: (usize, usize)) -> Result<Vec<u8>, Fail> {
    let mut lives = Vec::new(alloc);
    lives.push(life(alloc, ROWS[0], end)?)?;
    let mut letters = Vec::new(alloc);
    match run_lives_on(alloc, disk_of(alloc, WORLD)?, &lives) {
        Ok((disk, _begins)) => letters.push(letter(disk.main_text()))?,
        Err((disk, _fault)) => {
            letters.push(letter(disk.main_text()))?;
            letters.push(b'!')?;
        }
    }
    Ok(letters)
}

#[test]
fn the_disk_that_lives_leave_is_returned(rt: HostRuntime) -> Result<(), Fail> {
    let alloc = rt.alloc();
    assert!(rt; left_by(alloc, (3, 2))?.as_slice() == b"R".as_slice());
    assert!(rt; left_by(alloc, (4, 0))?.as_slice() == b"R".as_slice());
    assert!(rt; left_by(alloc, (4, 1))?.as_slice() == b"A".as_slice());
    assert!(rt; left_by(alloc, (5, 2))?.as_slice() == b"A".as_slice());
    assert!(rt; left_by(alloc, (5, 1))?.as_slice() == b"A!".as_slice());
    Ok(())
}
