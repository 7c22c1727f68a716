// The lines of a connection.
use crate::answers::push_joined;
use moo_session_line::LineReader;
use std::alloc::{AllocError, Global};

// Puts the lines that a piece ends after the text.
fn push_fed(text: &mut Vec<u8>, reader: &mut LineReader, piece: &[u8]) -> Result<(), AllocError> {
    let lines = reader.feed(piece)?;
    push_joined(text, &lines)
}

// Feeds a piece, once more if it was refused.
fn push_fed_again(
    text: &mut Vec<u8>,
    reader: &mut LineReader,
    piece: &[u8],
) -> Result<(), AllocError> {
    match reader.feed(piece) {
        Ok(lines) => push_joined(text, &lines),
        Err(AllocError) => push_fed(text, reader, piece),
    }
}

/// The lines of a stream in three pieces, each of which is fed once more if it was refused.
pub fn push_three_pieces(text: &mut Vec<u8>, alloc: Global) -> Result<(), AllocError> {
    let mut reader = LineReader::new(alloc);
    for piece in [b"one\r".as_slice(), b"\ntwo\nth", b"ree\n\n"] {
        push_fed_again(text, &mut reader, piece)?;
    }
    Ok(())
}
