//! Notices of a task, which the server handles when the task has ended.

use moo_value::MooStr;

/// Holds a request of a task, or a change that it made, for the server.
#[derive(Drop)]
pub enum Notice {
    /// A line for a player, or for the number of a connection on which nobody is connected.
    Notify(i32, MooStr),
    /// The connection of this player, or of this number, is to be closed.
    BootPlayer(i32),
    /// This object was made a player, or is no player any more.
    SetPlayerFlag(i32, bool),
    /// This object was recycled.
    Recycle(i32),
    /// A checkpoint of the database is to be made.
    DumpDatabase,
    /// The server is to end; with the text that gives the reason, if there is one.
    Shutdown(Option<MooStr>),
    /// A line for the server's log.
    ServerLog(MooStr),
}
