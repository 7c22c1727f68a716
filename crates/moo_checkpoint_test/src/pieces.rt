//! Databases that come in pieces.
ghost use Rattle.std.specs.Prelude.{◌<◌};

use crate::databases::{LARGER, SMALL, read_as, with_line};
use moo_dbtext::{DbFault, Saved, read_db};
use moo_dbtext_read::DbReader;
use std::alloc::Global;
use std::test::Fail;

/// What a reader answers that is fed the text in pieces of this size.
fn in_pieces(alloc: Global, text: &[u8], size: usize) -> Result<Saved, DbFault>
    requires { 0 < size }
{
    let mut reader = DbReader::new(alloc);
    for piece in text.chunks(size) {
        reader.feed(alloc, piece)?;
    }
    reader.finish(alloc)
}

/// Whether pieces of every length give what the whole text gives.
fn is_read_alike(alloc: Global, text: &[u8]) -> Result<bool, Fail> {
    let whole = read_as(alloc, read_db(alloc, text))?;
    for size in 0..text.len() {
        let pieces = read_as(alloc, in_pieces(alloc, text, size + 1))?;
        if pieces.as_slice() != whole.as_slice() {
            return Ok(false);
        }
    }
    Ok(true)
}

#[test]
fn pieces_of_every_length_give_what_the_whole_gives(rt: HostRuntime) -> Result<(), Fail> {
    let alloc = rt.alloc();
    assert!(rt; read_as(alloc, read_db(alloc, LARGER))?.as_slice() == LARGER.as_slice());
    assert!(rt; is_read_alike(alloc, LARGER)?);
    Ok(())
}

/// Each row replaces a line of the first database.
const REFUSED: [(usize, &[u8]); 5] = [
    (5, b"01\n"),
    (15, b"0\n"),
    (68, b"(\n"),
    (73, b"0 active connections\nx"),
    (73, b""),
];

#[test]
fn so_it_is_where_they_are_refused(rt: HostRuntime) -> Result<(), Fail> {
    let alloc = rt.alloc();
    for (number, new) in REFUSED {
        let text = with_line(alloc, SMALL, number, new)?;
        assert!(rt; read_db(alloc, &text).is_err());
        assert!(rt; is_read_alike(alloc, &text)?);
    }
    Ok(())
}

#[test]
fn a_fault_stays(rt: HostRuntime) -> Result<(), Fail> {
    let alloc = rt.alloc();
    let mut reader = DbReader::new(alloc);
    assert!(rt; reader.feed(alloc, b"none\n").is_err());
    assert!(rt; reader.feed(alloc, SMALL).is_err());
    let told = read_as(alloc, reader.finish(alloc))?;
    assert!(rt; told.as_slice() == b"line 1: BadHeader".as_slice());
    Ok(())
}
