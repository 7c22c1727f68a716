//! The lock on a database, which keeps a second server from it.
use crate::file_disk::OWNERS_ALONE;
use std::alloc::Global;
use std::fs::{File, OpenOptions, TryLockError};
use std::io::{ErrorKind, Read, Write};
use std::os::unix::fs::{MetadataExt, OpenOptionsExt};
use std::path::Path;
use std::rt::Files;
use std::{fs, io};

/// The greatest number of bytes of a process number and its line end.
const NUMBER_MOST: usize = 16;

/// Holds the lock on a database until it is dropped. The lock is the system's, on a file next to the database whose
/// name ends in `.lock`. The system frees it when the process ends, however it ends. The file stays.
#[derive(Drop)]
pub struct Lock {
    file: File,
}

/// The reason why there is no lock.
#[derive(Drop)]
pub enum LockFault {
    /// Another process holds the lock of this path. Its number, if the file has one.
    Held(String, Option<u32>),
    /// The file of this path can't be opened or locked.
    Failed(String, io::Error),
    /// There is no such database, or memory ran out.
    NoDatabase(io::Error),
}

impl Lock {
    /// Takes the lock on the database at this path, and writes the number of this process to the lock's file. If the
    /// number can't be written, as on a full disk, the lock holds without it. Resolves symbolic links first, so that two
    /// paths of one database have one lock.
    pub fn take<R: Files<File = File>>(
        alloc: Global,
        files: &R,
        path: &str,
    ) -> Result<Lock, LockFault> {
        let name = match lock_name(alloc, files, path) {
            Ok(name) => name,
            Err(error) => return Err(LockFault::NoDatabase(error)),
        };
        let mut file = match open_lock(files, name.as_str()) {
            Ok(file) => file,
            Err(error) => return Err(LockFault::Failed(name, error)),
        };
        match file.try_lock() {
            Ok(()) => {}
            Err(TryLockError::WouldBlock) => return Err(LockFault::Held(name, holder(&mut file))),
            Err(TryLockError::Error(error)) => return Err(LockFault::Failed(name, error)),
        }
        let _ = write_number(&mut file);
        Ok(Lock { file })
    }
}

// Returns the path of a database's lock. Fails if there is no such file, or if it is no regular file, which no server reads.
fn lock_name<R: Files>(alloc: Global, files: &R, path: &str) -> io::Result<String> {
    let main = files.canonicalize(alloc, path)?.into_string();
    if !fs::metadata(files, main.as_str())?.is_file() {
        return Err(io::Error::from(ErrorKind::InvalidInput));
    }
    Ok(format!(in alloc; "{}.lock", main.as_str())?)
}

// Opens a lock's file, or creates it. Refuses a symbolic link, since its file may be anybody's, and a pipe or a device,
// whose process number can't be read.
fn open_lock<R: Files<File = File>>(files: &R, name: &str) -> io::Result<File> {
    if Path::new(name).is_symlink(files) {
        return is_link();
    }
    let file = OpenOptions::new()
        .read(true)
        .write(true)
        .create(true)
        .mode(OWNERS_ALONE)
        .open(files, name)?;
    let opened = file.metadata()?;
    let named = fs::symlink_metadata(files, name)?;
    if opened.dev() != named.dev() || opened.ino() != named.ino() {
        return is_link();
    }
    if !opened.is_file() {
        return Err(io::Error::new(ErrorKind::Other, "not a regular file"));
    }
    Ok(file)
}

// Returns the error of a lock's file that is a link.
fn is_link<T>() -> io::Result<T> {
    Err(io::Error::new(ErrorKind::Other, "this file is a link"))
}

// Returns the process number in a lock's file, if it has one.
fn holder(file: &mut File) -> Option<u32> {
    let mut buffer = [0u8; NUMBER_MOST];
    let count = file.read(&mut buffer).ok()?;
    str::from_utf8(&buffer[..count]).ok()?.trim().parse().ok()
}

fn write_number(file: &mut File) -> io::Result<()> {
    file.set_len(0)?;
    writeln!(file, "{}", libc::getpid())
}
