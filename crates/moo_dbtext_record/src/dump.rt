//! The contents of a database text line by line, before any check across lines.

use crate::program_table::Source;
use moo_dbtext_object::ObjectRecord;

/// The form in which the last section lists connections.
#[derive(Clone, Copy, Debug, PartialEq, Eq)]
pub enum Form {
    /// The section is missing, as it may be in versions 1 to 3.
    Absent,
    Plain,
    WithListeners,
}

/// A connection that was open.
#[derive(Clone, Copy, Debug, PartialEq, Eq)]
pub struct Connection {
    pub who: i32,
    /// Is given exactly if the section has listeners.
    pub listener: Option<i32>,
}

/// A database text as its lines give it.
#[derive(Drop)]
pub struct Dump {
    /// From 1 to 4.
    pub version: u32,
    pub players: Vec<i32>,
    /// By number, `None` for a recycled object.
    pub objects: Vec<Option<ObjectRecord>>,
    /// By object and verb, `None` for a verb without a program.
    pub programs: Vec<Vec<Option<Source>>>,
    pub form: Form,
    pub connections: Vec<Connection>,
}
