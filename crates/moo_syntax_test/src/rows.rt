//! The rows of the input. A row is a word and a text. In the text `~` ends a line, and a number and a piece between
//! `@@` and `@@` repeat the piece. With `known` only the names of built-in functions may be called. A row without a
//! word is a remark.
use crate::exploring::difference;
use crate::listings::{add_line, add_told};
use std::alloc::{AllocError, Global};

/// Appends the row and the answer to it.
pub fn answer(alloc: Global, row: &str, told: &mut Vec<u8>) -> Result<(), AllocError> {
    add_line(told, row.as_bytes())?;
    let Some((word, rest)) = row.split_once(' ') else {
        return Ok(());
    };
    match word {
        "expressions" | "calls" | "statements" => match difference(alloc, word, rest)? {
            Some(tokens) => add_line(told, &tokens),
            None => add_line(told, b"the same"),
        },
        _ => add_told(alloc, word, text_of(alloc, rest)?.as_str(), told),
    }
}

fn text_of(alloc: Global, row: &str) -> Result<String, AllocError> {
    let mut text = String::new(alloc);
    for (place, piece) in row.split("@@").enumerate() {
        if place % 2 == 0 {
            text.push_str(piece)?;
        } else {
            push_often(&mut text, piece)?;
        }
    }
    text.replace(alloc, "~", "\n")
}

fn push_often(text: &mut String, piece: &str) -> Result<(), AllocError> {
    let (count, piece) = piece.split_once(' ').unwrap_or(("", piece));
    for _ in 0..count.parse::<u32>().unwrap_or(0) {
        text.push_str(piece)?;
    }
    Ok(())
}
