//! Reports on a disk for its operator.
ghost use Rattle.std.specs.Prelude.{◌≡◌, Bool};
ghost use Rattle.moo_disk.specs.Disk.{DiskCall};
ghost use Rattle.moo_cli_file_disk.specs.News.{CountsLast, is_failure};

use moo_disk::Disk;
use std::io;

/// The outcome of the last call of a disk.
#[derive(Clone, Copy, Debug)]
pub enum News<'a> {
    /// The call succeeded, and there is nothing to report.
    Went,
    /// A checkpoint of so many bytes is under main, and its name is stable.
    Written(u64),
    /// The call failed for the file or folder of this name, for this reason.
    Failed(&'a str, &'a io::Error),
}

/// A disk that counts its calls, and reports the outcome of the last one.
pub trait Watched: Disk {
    /// Whether the last call failed.
    ghost has_failed: { Self → Bool };

    /// Returns the number of calls so far, modulo 2^64.
    fn calls(&self) -> u64;

    /// Returns the outcome of the last call.
    fn news(&self) -> News<'_>
        ensures { is_failure result ≡ has_failed self.now };

    /// Each call that fails is counted, and no other.
    ghost counts_last: { (call : DiskCall) (old new : Self) → Self.kind.made call old new
        → CountsLast (has_failed new) (Self.kind.failures old) (Self.kind.failures new) };
}
