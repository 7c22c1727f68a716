//! Texts, and the listings of their programs or the messages of their faults.
use moo_syntax::{Names, parse};
use moo_syntax_program::Program;
use moo_unparse::{ListFault, list_full, list_full_indented, list_short};
use moo_value::MooStr;
use std::alloc::{AllocError, Global};

/// Appends a line.
pub fn push_line(alloc: Global, lines: &mut Vec<MooStr>, line: &[u8]) -> Result<(), AllocError> {
    let Ok(line) = MooStr::try_from_bytes(alloc, line) else {
        return Err(AllocError);
    };
    lines.push(line)?;
    Ok(())
}

/// Appends a line and a line feed.
pub fn add_line(told: &mut Vec<u8>, line: &[u8]) -> Result<(), AllocError> {
    told.extend_from_slice(line)?;
    told.push(b'\n')?;
    Ok(())
}

fn add_lines(told: &mut Vec<u8>, lines: &[MooStr]) -> Result<(), AllocError> {
    for line in lines {
        add_line(told, line.as_bytes())?;
    }
    Ok(())
}

fn add_slots(told: &mut Vec<u8>, program: &Program) -> Result<(), AllocError> {
    for name in program.slots() {
        add_line(told, name.as_bytes())?;
    }
    Ok(())
}

/// Appends what the word requests of the text's program, or the message of the text's fault.
pub fn add_told(
    alloc: Global,
    word: &str,
    text: &str,
    told: &mut Vec<u8>,
) -> Result<(), AllocError> {
    let mut lines = Vec::new(alloc);
    for line in text.lines() {
        push_line(alloc, &mut lines, line.as_bytes())?;
    }
    let names = if word == "known" {
        Names::Known
    } else {
        Names::Any
    };
    match parse(alloc, &lines, names) {
        Ok(program) => add_program(alloc, word, &program, told),
        Err(fault) => add_line(told, &fault.text(alloc)?),
    }
}

fn add_program(
    alloc: Global,
    word: &str,
    program: &Program,
    told: &mut Vec<u8>,
) -> Result<(), AllocError> {
    match word {
        "fits" => add_line(told, b"a program"),
        "slots" => add_slots(told, program),
        "longest" => add_longest(alloc, program, told),
        "four" => add_four(alloc, program, told),
        _ => add_full(alloc, program, told),
    }
}

fn add_full(alloc: Global, program: &Program, told: &mut Vec<u8>) -> Result<(), AllocError> {
    match list_full(alloc, program) {
        Ok(lines) => add_lines(told, &lines),
        Err(_) => Err(AllocError),
    }
}

fn add_listing(
    listing: Result<Vec<MooStr>, ListFault>,
    told: &mut Vec<u8>,
) -> Result<(), AllocError> {
    match listing {
        Ok(lines) => add_lines(told, &lines),
        Err(ListFault::TooHeavy) => add_line(told, b"too heavy"),
        Err(ListFault::Memory) => Err(AllocError),
    }
}

// Appends the four listings: full, full with indents, short, short with indents.
fn add_four(alloc: Global, program: &Program, told: &mut Vec<u8>) -> Result<(), AllocError> {
    add_full(alloc, program, told)?;
    add_line(told, b"-")?;
    add_listing(list_full_indented(alloc, program), told)?;
    add_line(told, b"-")?;
    add_listing(list_short(alloc, program, false), told)?;
    add_line(told, b"-")?;
    add_listing(list_short(alloc, program, true), told)
}

// Appends the length of the longest line of the full listing, and the listing with indents or its refusal.
fn add_longest(alloc: Global, program: &Program, told: &mut Vec<u8>) -> Result<(), AllocError> {
    let Ok(lines) = list_full(alloc, program) else {
        return Err(AllocError);
    };
    let mut longest = 0;
    for line in &lines {
        longest = line.len().max(longest);
    }
    add_line(told, format!(in alloc; "{longest}")?.as_bytes())?;
    add_listing(list_full_indented(alloc, program), told)
}
