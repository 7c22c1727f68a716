//! The disk of a server over two files of one folder: the database and the spare.
//! An internal crate of `moo`.
#![tactic(auto)]

mod file_disk;
mod lock;
mod news;
mod probe;

pub use file_disk::FileDisk;
pub use lock::{Lock, LockFault};
pub use news::{News, Watched};
pub use probe::Unwritable;
