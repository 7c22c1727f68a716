// What calls answer, as text, and whether it is what rows say.
use crate::lines::push_three_pieces;
use crate::worlds::world;
use moo_command::{Command, Typed, parse_command, read_typed, words};
use moo_value::MooStr;
use std::alloc::{AllocError, Global};

/// What is called with the line of a row.
pub enum Call {
    Words,
    Typed,
    Parse,
    Feed,
}

/// Rows of a call by a player: each is a line, ` --> `, and what is answered, over a world of these objects.
pub struct Rows {
    pub call: Call,
    pub player: i32,
    pub objects: &'static str,
    pub rows: &'static str,
}

/// Whether the call answers what the row says.
pub fn is_answered(alloc: Global, rows: &Rows, row: &str) -> Result<bool, AllocError> {
    let Some((line, expected)) = row.split_once(" --> ") else {
        return Ok(false);
    };
    let mut text = Vec::new(alloc);
    push_answer(&mut text, alloc, rows, line)?;
    Ok(text.as_slice() == expected.as_bytes())
}

fn push_answer(
    text: &mut Vec<u8>,
    alloc: Global,
    rows: &Rows,
    line: &str,
) -> Result<(), AllocError> {
    match rows.call {
        Call::Words => push_words(text, alloc, line),
        Call::Typed => push_what_is_typed(text, alloc, line),
        Call::Parse => push_command(text, alloc, rows, line),
        Call::Feed => push_three_pieces(text, alloc),
    }
}

fn push_words(text: &mut Vec<u8>, alloc: Global, line: &str) -> Result<(), AllocError> {
    let line = string(alloc, line.as_bytes())?;
    push_joined(text, &words(alloc, &line)?)
}

fn push_what_is_typed(text: &mut Vec<u8>, alloc: Global, line: &str) -> Result<(), AllocError> {
    let line = string(alloc, line.as_bytes())?;
    match &read_typed(alloc, &line)? {
        Some(typed) => push_typed(text, typed),
        None => Ok(()),
    }
}

fn push_command(
    text: &mut Vec<u8>,
    alloc: Global,
    rows: &Rows,
    line: &str,
) -> Result<(), AllocError> {
    let world = world(alloc, rows.objects)?;
    let line = string(alloc, line.as_bytes())?;
    let command = parse_command(alloc, &world, rows.player, &line)?;
    push_parts(text, alloc, &command)
}

/// The string of these bytes.
pub fn string(alloc: Global, bytes: &[u8]) -> Result<MooStr, AllocError> {
    match MooStr::try_from_bytes(alloc, bytes) {
        Ok(string) => Ok(string),
        Err(_) => Err(AllocError),
    }
}

/// Strings, each with a bar after it.
pub fn push_joined(text: &mut Vec<u8>, strings: &[MooStr]) -> Result<(), AllocError> {
    for string in strings {
        push_text(text, string.as_bytes())?;
    }
    Ok(())
}

// The first word, the rest, and the words of the rest, each with a bar after it.
fn push_typed(text: &mut Vec<u8>, typed: &Typed) -> Result<(), AllocError> {
    push_text(text, typed.verb.as_bytes())?;
    push_text(text, typed.rest.as_bytes())?;
    push_joined(text, &typed.args)
}

// The parts of a command with bars between: the verb, the rest, the words in brackets, the direct object's text and number,
// the preposition's text and number, the indirect object's text and number.
fn push_parts(text: &mut Vec<u8>, alloc: Global, command: &Command) -> Result<(), AllocError> {
    push_text(text, command.verb.as_bytes())?;
    push_text(text, command.argstr.as_bytes())?;
    for word in &command.args {
        text.push(b'[')?;
        text.extend_from_slice(word.as_bytes())?;
        text.push(b']')?;
    }
    text.push(b'|')?;
    push_text(text, command.dobjstr.as_bytes())?;
    push_number(text, alloc, command.dobj, " ")?;
    push_text(text, command.prepstr.as_bytes())?;
    push_number(text, alloc, command.prep, " ")?;
    push_text(text, command.iobjstr.as_bytes())?;
    push_number(text, alloc, command.iobj, " ")
}

fn push_text(text: &mut Vec<u8>, bytes: &[u8]) -> Result<(), AllocError> {
    text.extend_from_slice(bytes)?;
    text.push(b'|')?;
    Ok(())
}

fn push_number(
    text: &mut Vec<u8>,
    alloc: Global,
    number: i32,
    end: &str,
) -> Result<(), AllocError> {
    let number = format!(in alloc; "{number}{end}")?;
    text.extend_from_slice(number.as_bytes())
}
