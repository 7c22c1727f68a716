//! Which texts a crash may leave and in what order, what a stop within an append leaves, and a read in parts.
use crate::databases::copy_of;
use moo_disk::{CrashDisk, Disk, MemoryDisk, Place, StopAt};
use std::alloc::Global;
use std::test::Fail;

/// Each word is put over main, without a sync of the names: after `+` as a spare that is synced, after `-` as one that is
/// synced before its text comes. `!` syncs the names.
fn put_all(disk: &mut MemoryDisk, words: &str) -> Result<(), Fail> {
    for word in words.split_whitespace() {
        if word == "!" {
            disk.sync_names()?;
            continue;
        }
        disk.create_spare()?;
        if word.starts_with('-') {
            disk.sync_spare()?;
        }
        disk.append(
            word.trim_start_matches('-')
                .trim_start_matches('+')
                .as_bytes(),
        )?;
        if word.starts_with('+') {
            disk.sync_spare()?;
        }
        disk.rename()?;
    }
    Ok(())
}

/// A disk that began with a text, onto which others were put.
fn disk_of(alloc: Global, words: &str) -> Result<MemoryDisk, Fail> {
    let mut disk = MemoryDisk::new(alloc, copy_of(alloc, b"one")?);
    put_all(&mut disk, words)?;
    Ok(disk)
}

/// The disk that a crash leaves with the i-th image.
fn left<D: CrashDisk + Drop>(disk: D, i: usize) -> Option<D> {
    disk.crash(i).ok()
}

/// Appends the i-th text that a crash may leave, and `|`; answers whether there is one.
fn push_image(images: &mut Vec<u8>, disk: MemoryDisk, i: usize) -> Result<bool, Fail> {
    let Some(left) = left(disk, i) else {
        return Ok(false);
    };
    images.extend_from_slice(left.main_text())?;
    images.push(b'|')?;
    Ok(left.image_count() == 1)
}

/// The texts that a crash may leave, each with `|` after it.
fn images(alloc: Global, words: &str) -> Result<Vec<u8>, Fail> {
    let mut images = Vec::new(alloc);
    for i in 0..9 {
        if !push_image(&mut images, disk_of(alloc, words)?, i)? {
            return Ok(images);
        }
    }
    Ok(images)
}

/// What is put onto a disk with `one`, its main text, and the images.
static ROWS: [[&str; 3]; 5] = [
    ["", "one", "one|"],
    ["two +three +one", "one", "one||two|three|"],
    ["+two", "two", "one|two|"],
    ["+two !", "two", "two|"],
    ["-two", "two", "one||two|"],
];

#[test]
fn images_stand_once_in_the_order_in_which_they_entered(rt: HostRuntime) -> Result<(), Fail> {
    let alloc = rt.alloc();
    for [words, main, expected] in ROWS {
        let disk = disk_of(alloc, words)?;
        assert!(rt; disk.main_text() == main.as_bytes());
        assert_eq!(rt;
            disk.image_count(),
            expected.split('|').count().saturating_sub(1)
        );
        assert!(rt; images(alloc, words)?.as_slice() == expected.as_bytes());
    }
    Ok(())
}

#[test]
fn a_stop_within_an_append_leaves_half_of_it(rt: HostRuntime) -> Result<(), Fail> {
    let alloc = rt.alloc();
    let mut stopping = StopAt::new(MemoryDisk::new(alloc, Vec::new(alloc)), 2, Place::Within);
    stopping.create_spare()?;
    assert!(rt; stopping.append(b"abcde").is_err());
    assert!(rt; stopping.append(b"fg").is_err());
    let mut disk = stopping.into_inner();
    disk.rename()?;
    assert!(rt; disk.main_text() == b"ab".as_slice());
    Ok(())
}

#[test]
fn main_is_read_in_parts(rt: HostRuntime) -> Result<(), Fail> {
    let alloc = rt.alloc();
    let mut disk = MemoryDisk::new(alloc, copy_of(alloc, b"abcde")?);
    let mut buffer = [0; 2];
    for (at, count, first) in [
        (0, 2, b'a'),
        (3, 2, b'd'),
        (4, 1, b'e'),
        (5, 0, b'e'),
        (99, 0, b'e'),
    ] {
        assert_eq!(rt; disk.read_main(at, &mut buffer)?, count);
        assert_eq!(rt; buffer[0], first);
    }
    Ok(())
}
