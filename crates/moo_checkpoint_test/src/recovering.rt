//! What a start leaves on the disk that it recovers from.
use crate::checkpoints::write;
use crate::databases::{LARGER, SMALL, copy_of, recovered_as, with_line};
use moo_checkpoint::{Turn, recover};
use moo_disk::{Disk, MemoryDisk};
use std::alloc::Global;
use std::test::Fail;

fn disk_with(alloc: Global, text: &[u8]) -> Result<MemoryDisk, Fail> {
    Ok(MemoryDisk::new(alloc, copy_of(alloc, text)?))
}

/// Each row replaces a line of the first database, and says what is reported of the disk that holds it.
const REFUSED: [(usize, &[u8], &str); 6] = [
    (
        1,
        b"** LambdaMOO Database, Format Version 9 **\n",
        "line 1: Version 9",
    ),
    (15, b"0\n", "line 7: BadHierarchy #0"),
    (24, b"1\n0\n5\n3\n0\n", "line 7: PropertyCount #0"),
    (68, b"(\n", "line 67: Program #0:0 line 1 Unexpected"),
    (71, b"1 queued tasks\n", "line 71: PendingTasks"),
    (73, b"", "line 73: Truncated"),
];

#[test]
fn what_is_refused_stays_as_it_was(rt: HostRuntime) -> Result<(), Fail> {
    let alloc = rt.alloc();
    for (number, new, told) in REFUSED {
        let text = with_line(alloc, SMALL, number, new)?;
        let mut disk = disk_with(alloc, &text)?;
        let answer = recovered_as(alloc, recover(alloc, &mut disk))?;
        assert!(rt; answer.as_slice() == told.as_bytes());
        assert!(rt; disk.main_text() == text.as_slice());
        assert_eq!(rt; disk.image_count(), 1);
    }
    Ok(())
}

#[test]
fn a_start_leaves_each_image_and_the_spare(rt: HostRuntime) -> Result<(), Fail> {
    let alloc = rt.alloc();
    let mut disk = disk_with(alloc, SMALL)?;
    // The names are not synced, so a crash may leave either text.
    assert_eq!(rt; write(copy_of(alloc, LARGER)?, &mut disk, 4), Turn::More);
    disk.create_spare()?;
    disk.append(b"next")?;
    let recovered = recovered_as(alloc, recover(alloc, &mut disk))?;
    assert!(rt; recovered.as_slice() == LARGER.as_slice());
    assert_eq!(rt; disk.image_count(), 2);
    disk.rename()?;
    assert!(rt; disk.main_text() == b"next".as_slice());
    // The spare was not synced either, so a crash may also leave it empty.
    assert_eq!(rt; disk.image_count(), 4);
    Ok(())
}
