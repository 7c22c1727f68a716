//! Databases with a byte that is another, and the fault of missing memory.
use crate::databases::{SMALL, copy_of, read_as, with_line};
use moo_dbtext::{DbFault, DbFaultKind, read_db, write_db};
use std::alloc::Global;
use std::test::Fail;

/// Whether a text is refused, and not because memory ran out, or what is written of it is read and written alike.
fn is_refused_or_read(alloc: Global, text: &[u8]) -> Result<bool, Fail> {
    match read_db(alloc, text) {
        Ok(saved) => {
            let written = write_db(alloc, &saved)?;
            let again = read_as(alloc, read_db(alloc, &written))?;
            Ok(written.as_slice() == again.as_slice())
        }
        Err(fault) => Ok(!matches!(fault.kind, DbFaultKind::Memory)),
    }
}

/// Whether that holds with each other byte in this place.
fn stands_each_byte(alloc: Global, text: &mut [u8], at: usize) -> Result<bool, Fail> {
    let Some(old) = text.get(at).copied() else {
        return Ok(true);
    };
    for byte in 0..=255 {
        text[at] = byte;
        if !is_refused_or_read(alloc, text)? {
            return Ok(false);
        }
    }
    text[at] = old;
    Ok(true)
}

/// Whether that holds of every place.
fn stands_each_change(alloc: Global, text: &mut [u8]) -> Result<bool, Fail> {
    for at in 0..text.len() {
        if !stands_each_byte(alloc, text, at)? {
            return Ok(false);
        }
    }
    Ok(true)
}

#[test]
fn a_changed_byte_is_refused_or_read(rt: HostRuntime) -> Result<(), Fail> {
    let alloc = rt.alloc();
    let mut text = copy_of(alloc, SMALL)?;
    assert!(rt; stands_each_change(alloc, &mut text)?);
    assert!(rt; text.as_slice() == SMALL.as_slice());
    Ok(())
}

#[test]
fn so_it_is_in_a_text_of_version_1(rt: HostRuntime) -> Result<(), Fail> {
    let alloc = rt.alloc();
    let header = b"** LambdaMOO Database, Format Version 1 **\n";
    let first = with_line(alloc, SMALL, 1, header)?;
    let mut text = with_line(alloc, &first, 73, b"")?;
    assert!(rt; stands_each_change(alloc, &mut text)?);
    Ok(())
}

#[test]
fn missing_memory_is_reported(rt: HostRuntime) -> Result<(), Fail> {
    let fault = DbFault {
        line: 7,
        kind: DbFaultKind::Memory,
    };
    assert_eq!(rt;
        format!(in rt.alloc(); "{fault}")?.as_str(),
        "line 7: Memory"
    );
    Ok(())
}
