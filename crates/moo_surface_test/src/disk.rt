//! The surface of `moo_disk`.
use moo_disk::{CrashDisk, Disk, DiskFault, FailAt, MemoryDisk, Place, StopAt};
use std::alloc::Global;

pub fn new(alloc: Global, text: Vec<u8>) -> MemoryDisk {
    MemoryDisk::new(alloc, text)
}

pub fn main_text(disk: &MemoryDisk) -> &[u8] {
    disk.main_text()
}

pub fn image_count(disk: &MemoryDisk) -> usize {
    disk.image_count()
}

pub fn crash<D: CrashDisk>(disk: D, i: usize) -> Result<D, D> {
    disk.crash(i)
}

pub fn create_spare<D: Disk>(disk: &mut D) -> Result<(), DiskFault> {
    disk.create_spare()
}

pub fn sync_names<D: Disk>(disk: &mut D) -> Result<(), DiskFault> {
    disk.sync_names()
}

pub fn read_main<D: Disk>(disk: &mut D, at: u64, buffer: &mut [u8]) -> Result<usize, DiskFault> {
    disk.read_main(at, buffer)
}

/// Makes a spare, writes it and moves it over main.
pub fn replace<D: Disk>(disk: &mut D, bytes: &[u8]) -> Result<(), DiskFault> {
    disk.create_spare()?;
    disk.append(bytes)?;
    disk.sync_spare()?;
    disk.rename()
}

pub fn fail_at(disk: MemoryDisk, k: u64, effect: bool) -> FailAt<MemoryDisk> {
    FailAt::new(disk, k, effect)
}

pub fn inner(failing: &FailAt<MemoryDisk>) -> &MemoryDisk {
    failing.inner()
}

pub fn into_inner(failing: FailAt<MemoryDisk>) -> MemoryDisk {
    failing.into_inner()
}

pub fn stop_at(disk: MemoryDisk, k: u64, place: Place) -> StopAt {
    StopAt::new(disk, k, place)
}

pub fn stopped(stopping: StopAt) -> MemoryDisk {
    stopping.into_inner()
}

/// Returns whether a stop comes before a call does anything.
pub fn is_before(place: Place) -> bool {
    match place {
        Place::Before => true,
        Place::Within => false,
    }
}
