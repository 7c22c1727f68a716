//! The state of a script.

use moo_checkpoint::OpenFault;
use moo_disk::{FailAt, MemoryDisk};
use moo_server_core::{Cause, ServerCore, StartApplication};

/// A server, its disk and its moment.
#[derive(Drop)]
pub(crate) struct Script<S: StartApplication> {
    pub(crate) server: ServerCore<S>,
    pub(crate) disk: FailAt<MemoryDisk>,
    pub(crate) moment: u32,
    /// A number above those of all opened connections, at most 65,536.
    pub(crate) top: u32,
}

/// The reason why a script ends before its last line.
#[derive(Clone, Copy)]
pub(crate) enum Refused {
    /// An event was refused.
    Event(Cause),
    /// The server could not be opened.
    Opening(OpenFault),
    /// A crash leaves no text of this number.
    NoSuchImage,
}
