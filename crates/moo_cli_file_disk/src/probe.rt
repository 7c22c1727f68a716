//! The test at the start whether checkpoints can be written.
use crate::file_disk::FileDisk;
use std::fs::{File, Metadata};
use std::io::ErrorKind;
use std::os::unix::fs::MetadataExt;
use std::rt::Files;
use std::{fs, io};

/// The bit of a folder's mode by which only the owner of a file, or of the folder, may remove or replace the file.
const STICKY: u32 = 0o1000;

/// The reason why no checkpoint can be written.
#[derive(Drop)]
pub struct Unwritable<'a> {
    /// The path of the file or folder.
    pub path: &'a str,
    /// The system's error.
    pub error: io::Error,
}

impl<R: Files> FileDisk<R> {
    /// Tests whether a checkpoint can be written: whether a spare can be created, whether it and main may be replaced,
    /// and whether the names of the folder can be synced. Leaves an existing spare as it is, and removes one that it
    /// creates.
    pub fn try_checkpoint(&self) -> Result<(), Unwritable<'_>> {
        at(self.spare(), self.try_spare())?;
        at(self.main(), self.try_replace(self.main()))?;
        at(self.folder(), self.try_names())
    }

    // A folder of the spare's name can't be removed as a file is.
    fn try_spare(&self) -> io::Result<()> {
        match self.create_new() {
            Ok(_) => fs::remove_file(self.files(), self.spare()),
            Err(error) if error.kind() == ErrorKind::AlreadyExists => {
                if fs::symlink_metadata(self.files(), self.spare())?.is_dir() {
                    return Err(io::Error::from_raw_os_error(libc::EISDIR));
                }
                self.try_replace(self.spare())
            }
            Err(error) => Err(error),
        }
    }

    // In a folder with the sticky bit only its owner, the owner of a file and the superuser may replace the file.
    fn try_replace(&self, path: &str) -> io::Result<()> {
        let folder = fs::metadata(self.files(), self.folder())?;
        if folder.mode() & STICKY == 0 {
            return Ok(());
        }
        let file = fs::symlink_metadata(self.files(), path)?;
        if may_replace(libc::geteuid(), &folder, &file) {
            return Ok(());
        }
        Err(io::Error::from_raw_os_error(libc::EPERM))
    }

    fn try_names(&self) -> io::Result<()> {
        if self.has_folder() {
            return Ok(());
        }
        File::open(self.files(), self.folder())?;
        Ok(())
    }
}

// Returns whether this user may replace a file of a folder with the sticky bit.
fn may_replace(user: u32, folder: &Metadata, file: &Metadata) -> bool {
    user == 0 || user == folder.uid() || user == file.uid()
}

fn at<'a>(path: &'a str, answer: io::Result<()>) -> Result<(), Unwritable<'a>> {
    answer.map_err(|error| Unwritable { path, error })
}
