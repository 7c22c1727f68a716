//! `moo script` over readers and writers that fail.

use crate::playing::{SMALL, play};
use crate::streams::{Paper, Source};
use log::sink::Memory;
use std::io::ErrorKind;
use std::test::Fail;

const FAULTS: [(ErrorKind, &str, u8); 2] = [
    (ErrorKind::Other, "refused: Device\n", 3),
    (ErrorKind::OutOfMemory, "refused: Memory\n", 4),
];

#[test]
fn a_reader_may_fail(rt: HostRuntime) -> Result<(), Fail> {
    for (kind, told, ended) in FAULTS {
        for (database, script, before) in [
            (
                Source::failing(&SMALL[..100], kind),
                Source::whole(b"open 1\n"),
                "",
            ),
            (
                Source::whole(SMALL),
                Source::failing(b"open 1\nflush", kind),
                "1: *** Connected ***\n",
            ),
        ] {
            let log = Memory::new(rt.alloc());
            let mut printed = Paper::new(rt.alloc(), usize::MAX);
            let status = play(rt.alloc(), &log, database, script, &mut printed);
            let shown = format!(in rt.alloc(); "{before}{told}")?;
            assert_eq!(rt;
                str::from_utf8(&printed.written).unwrap_or(""),
                shown.as_str()
            );
            assert_eq!(rt; status, ended);
        }
    }
    Ok(())
}

#[test]
fn a_writer_may_fail(rt: HostRuntime) -> Result<(), Fail> {
    for room in [0, 20, 30] {
        let log = Memory::new(rt.alloc());
        let mut printed = Paper::new(rt.alloc(), room);
        let status = play(
            rt.alloc(),
            &log,
            Source::whole(SMALL),
            Source::whole(b"open 1\nopen 2\n"),
            &mut printed,
        );
        assert_eq!(rt; status, 3);
    }
    Ok(())
}
