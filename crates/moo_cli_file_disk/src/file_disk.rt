//! A disk over files, each call of which makes calls of the operating system.
ghost use Rattle.std.specs.Prelude.{◌≡◌, IfOk};
ghost use Rattle.moo_disk.specs.Disk.{Counts};
ghost use Rattle.moo_cli_file_disk.specs.Files.{IsUntouched, file_kind, has_failed};
ghost use Rattle.moo_cli_file_disk.specs.News.{CountsLast};

use crate::news::{News, Watched};
use moo_disk::{Disk, DiskFault};
use std::alloc::Global;
use std::fs::{File, OpenFile, OpenOptions};
use std::io::{ErrorKind, Read, Seek, SeekFrom, Write};
use std::os::unix::fs::{MetadataExt, OpenOptionsExt};
use std::path::Path;
use std::rt::Files;
use std::{fs, io};

/// The permissions of a lock's file, and of a spare until it has those of main: only the owner may use it.
pub(crate) const OWNERS_ALONE: u32 = 0o600;

/// The file or folder of a call.
#[derive(Clone, Copy, Debug, PartialEq, Eq)]
enum Place {
    Main,
    Spare,
    Folder,
}

/// The outcome of the last call.
#[derive(Drop)]
enum Last {
    Went,
    Written,
    Failed(Place, io::Error),
}

/// Two files of one folder: the database, and the spare, whose name ends in `.new`. No contract says what the files
/// hold: the toolchain gives files no state that a clause can name, so anybody may write them by their names. The
/// contracts say only that each fault is counted, that a disk makes no call as it is opened, and that bytes go only to a
/// spare of its own. That is a file which has been open since it was created, and is not main's.
///
/// A checkpoint needs one descriptor more than the disk holds between checkpoints. The disk keeps one for it, gives it
/// up to open a spare, and takes it back after the rename. So a checkpoint succeeds when other parts of the program
/// have taken every other descriptor of the process.
#[derive(Drop)]
pub struct FileDisk<R: Files> {
    files: R,
    main: String,
    spare: String,
    folder: String,
    /// The folder, open for the syncs of its names, if it could be opened at the start.
    names: Option<R::File>,
    /// The descriptor that is kept for a spare. `None` while a spare is open, or if the system gave none.
    kept: Option<R::File>,
    /// The spare, open for writing from `create_spare` to `rename`.
    writing: Option<R::File>,
    /// Main, open from the first read to the one that reaches its end, so that all bytes are of one file. A fault and
    /// a rename close it too.
    reading: Option<R::File>,
    /// The number of bytes written to the spare since it was created.
    bytes: u64,
    last: Last,
    failures: u64,
    calls: u64,
}

/// Fails if a path is neither a regular file nor a folder, which the system refuses to read.
fn refuse_device<R: Files>(files: &R, path: &str) -> io::Result<()> {
    let kind = fs::metadata(files, path)?.file_type();
    if kind.is_file() || kind.is_dir() {
        return Ok(());
    }
    Err(io::Error::new(ErrorKind::InvalidInput, "not a regular file"))
}

/// Returns another handle of an open file. Returns `None` if there is no file, or no descriptor is left.
fn clone_of<F: OpenFile + Drop>(file: &Option<F>) -> Option<F> {
    match file {
        Some(file) => file.try_clone().ok(),
        None => None,
    }
}

/// Returns the folder of a path.
fn folder_of(path: &str) -> &str {
    match Path::new(path).parent() {
        Some(folder) if folder.as_str() != "" => folder.as_str(),
        _ => ".",
    }
}

impl<R: Files + Drop> FileDisk<R> {
    /// Returns the disk of the database at this path. Resolves a symbolic link once, here, so that a checkpoint
    /// replaces the file it leads to and not the link. Fails if there is no such file, or if it is a device, a socket
    /// or a pipe, whose reading might never end.
    pub fn open(alloc: Global, files: R, path: &str) -> io::Result<FileDisk<R>>
        ensures { IfOk result IsUntouched }
    {
        let main = files.canonicalize(alloc, path)?.into_string();
        refuse_device(&files, main.as_str())?;
        let folder = String::from_str(alloc, folder_of(main.as_str()))?;
        let spare = format!(in alloc; "{}.new", main.as_str())?;
        let names = File::open(&files, folder.as_str()).ok();
        let kept = clone_of(&names);
        Ok(FileDisk {
            files,
            main,
            spare,
            folder,
            names,
            kept,
            writing: None,
            reading: None,
            bytes: 0,
            last: Last::Went,
            failures: 0,
            calls: 0,
        })
    }
}

impl<R: Files> FileDisk<R> {
    /// Returns the path of the spare.
    pub fn spare(&self) -> &str {
        self.spare.as_str()
    }

    pub(crate) fn main(&self) -> &str {
        self.main.as_str()
    }

    pub(crate) fn folder(&self) -> &str {
        self.folder.as_str()
    }

    pub(crate) fn files(&self) -> &R {
        &self.files
    }

    /// Returns whether the folder could be opened at the start.
    pub(crate) fn has_folder(&self) -> bool {
        self.names.is_some()
    }

    // Takes back the descriptor that is kept for a spare, if the system has one.
    fn keep_descriptor(&mut self)
        ensures writing { self.new.writing ≡ self.old.writing }
        ensures failures { self.new.failures ≡ self.old.failures }
    {
        if self.kept.is_none() {
            self.kept = clone_of(&self.names);
        }
    }

    // Counts a call, and a failure if it failed.
    fn counted<T: Drop>(&mut self, place: Place, answer: io::Result<T>) -> Result<T, DiskFault>
        ensures fault { Counts self.old.failures self.new.failures result }
        ensures last { CountsLast (has_failed self.new) self.old.failures self.new.failures }
        ensures same { self.new.writing ≡ self.old.writing }
    {
        self.calls = self.calls.wrapping_add(1);
        match answer {
            Ok(value) => {
                self.last = Last::Went;
                Ok(value)
            }
            Err(error) => {
                self.failures = self.failures.saturating_add(1);
                self.last = Last::Failed(place, error);
                Err(DiskFault)
            }
        }
    }

    /// Creates a file that was not there before, so that it can't be the file of main, even by a link.
    pub(crate) fn create_new(&self) -> io::Result<R::File> {
        OpenOptions::new()
            .write(true)
            .create_new(true)
            .mode(OWNERS_ALONE)
            .open(&self.files, self.spare.as_str())
    }

    // Creates a spare, in place of any file with its name. It gets main's permissions; before that, only the owner
    // may use it.
    fn fresh_spare(&self) -> io::Result<R::File> {
        match fs::remove_file(&self.files, self.spare.as_str()) {
            Err(error) if error.kind() != ErrorKind::NotFound => return Err(error),
            _ => {}
        }
        let file = self.create_new()?;
        file.set_permissions(fs::metadata(&self.files, self.main.as_str())?.permissions())?;
        Ok(file)
    }

    // Reads from the file that was main when the reading began. Another program may have put a file in its place since.
    fn read_from(&mut self, at: u64, buffer: &mut [u8]) -> io::Result<usize>
        ensures writing { self.new.writing ≡ self.old.writing }
        ensures failures { self.new.failures ≡ self.old.failures }
    {
        let mut file = match self.reading.take() {
            Some(file) => file,
            None => File::open(&self.files, self.main.as_str())?,
        };
        file.seek(SeekFrom::Start(at))?;
        let count = file.read(buffer)?;
        if count > 0 {
            self.reading = Some(file);
        }
        Ok(count)
    }

    // The sync of a folder makes the names in it stable. A folder opens for reading as a file does.
    fn sync_folder(&self) -> io::Result<()> {
        match &self.names {
            Some(folder) => folder.sync_all(),
            None => File::open(&self.files, self.folder.as_str())?.sync_all(),
        }
    }

    // Moves the spare over main, if its name still leads to the file that was opened. Another program that uses these
    // names may have put a file of its own there.
    fn replace_main(&self) -> io::Result<()> {
        let Some(file) = &self.writing else {
            return no_spare();
        };
        let opened = file.metadata()?;
        let named = fs::symlink_metadata(&self.files, self.spare.as_str())?;
        if opened.dev() != named.dev() || opened.ino() != named.ino() {
            let message = "another program has replaced this file";
            return Err(io::Error::new(ErrorKind::Other, message));
        }
        fs::rename(&self.files, self.spare.as_str(), self.main.as_str())
    }

    fn name_of(&self, place: Place) -> &str {
        match place {
            Place::Main => self.main.as_str(),
            Place::Spare => self.spare.as_str(),
            Place::Folder => self.folder.as_str(),
        }
    }
}

impl<R: Files> Watched for FileDisk<R> {
    ghost has_failed = { has_failed };

    fn calls(&self) -> u64 {
        self.calls
    }

    fn news(&self) -> News<'_> {
        match &self.last {
            Last::Went => News::Went,
            Last::Written => News::Written(self.bytes),
            Last::Failed(place, error) => News::Failed(self.name_of(*place), error),
        }
    }

    ghost counts_last = { λ _ _ _ made. made };
}

/// Returns the error of a call that needs an open spare if there is none.
fn no_spare<T>() -> io::Result<T> {
    Err(io::Error::from(ErrorKind::NotFound))
}

impl<R: Files> Disk for FileDisk<R> {
    ghost kind = { file_kind };

    fn create_spare(&mut self) -> Result<(), DiskFault> {
        self.writing = None;
        self.kept = None;
        let created = self.fresh_spare();
        if created.is_err() {
            self.keep_descriptor();
        }
        let file = self.counted(Place::Spare, created)?;
        self.writing = Some(file);
        self.bytes = 0;
        Ok(())
    }

    fn append(&mut self, bytes: &[u8]) -> Result<(), DiskFault> {
        let written = match &mut self.writing {
            Some(file) => file.write_all(bytes),
            None => no_spare(),
        };
        self.bytes = self.bytes.saturating_add(bytes.len() as u64);
        self.counted(Place::Spare, written)
    }

    fn sync_spare(&mut self) -> Result<(), DiskFault> {
        let synced = match &self.writing {
            Some(file) => file.sync_all(),
            None => no_spare(),
        };
        self.counted(Place::Spare, synced)
    }

    fn rename(&mut self) -> Result<(), DiskFault> {
        let renamed = self.replace_main();
        self.writing = None;
        self.reading = None;
        self.keep_descriptor();
        self.counted(Place::Spare, renamed)
    }

    fn sync_names(&mut self) -> Result<(), DiskFault> {
        let synced = self.sync_folder();
        self.counted(Place::Folder, synced)?;
        self.last = Last::Written;
        Ok(())
    }

    fn read_main(&mut self, at: u64, buffer: &mut [u8]) -> Result<usize, DiskFault> {
        let read = self.read_from(at, buffer);
        self.counted(Place::Main, read)
    }

    ghost main_may_be_left = { λ _ honest. absurd honest };

    ghost counts_now = { λ _ _ _ honest. absurd honest };

    ghost only_now = { λ _ _ honest. absurd honest };
}
