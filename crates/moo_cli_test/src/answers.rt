//! `moo expr`, `moo check` and `moo copy` over readers and writers that fail or are interrupted.

use crate::playing::SMALL;
use crate::streams::{Interrupted, Paper, Source};
use moo_cli_check::{run_check, run_copy};
use moo_cli_expr::run_expr;
use std::io::ErrorKind;
use std::test::Fail;

#[test]
fn a_line_that_cannot_be_read_or_answered(rt: HostRuntime) -> Result<(), Fail> {
    let alloc = rt.alloc();
    let mut printed = Paper::new(alloc, usize::MAX);
    let mut failing = Source::failing(b"", ErrorKind::Other);
    assert_eq!(rt; run_expr(alloc, &mut failing, &mut printed), 3);
    assert_eq!(rt; printed.written.as_slice(), b"refused: Device\n".as_slice());
    for room in 0..3 {
        let mut line = Source::whole(b"12\n");
        let mut full = Paper::new(alloc, room);
        assert_eq!(rt; run_expr(alloc, &mut line, &mut full), 3);
    }
    Ok(())
}

#[test]
fn a_line_is_read_after_an_interruption(rt: HostRuntime) {
    let alloc = rt.alloc();
    let mut printed = Paper::new(alloc, usize::MAX);
    let mut line = Interrupted {
        is_first: true,
        rest: b"12\n",
    };
    assert_eq!(rt; run_expr(alloc, &mut line, &mut printed), 0);
    assert_eq!(rt; printed.written.as_slice(), b"12\n".as_slice());
}

#[test]
fn a_database_that_cannot_be_read_or_copied(rt: HostRuntime) {
    let alloc = rt.alloc();
    let mut printed = Paper::new(alloc, usize::MAX);
    let mut failing = Source::failing(b"", ErrorKind::Other);
    assert_eq!(rt; run_check(alloc, &mut failing, &mut printed), 3);
    assert_eq!(rt; run_copy(alloc, &mut failing, &mut printed), 3);
    assert_eq!(rt;
        printed.written.as_slice(),
        b"refused: Device\nrefused: Device\n".as_slice()
    );
    for room in [0, 20, 300] {
        let mut database = Source::whole(SMALL);
        let mut full = Paper::new(alloc, room);
        assert_eq!(rt; run_copy(alloc, &mut database, &mut full), 3);
    }
}
