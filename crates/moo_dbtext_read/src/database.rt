//! The contents of a database text that are kept.

use moo_dbtext_object::ObjectRecord;
use moo_dbtext_record::Connection;
use moo_syntax_program::Program;

/// A database text as its lines give it, each program as a tree.
#[derive(Drop)]
pub struct Database {
    pub players: Vec<i32>,
    /// By number, `None` for a recycled object.
    pub objects: Vec<Option<ObjectRecord>>,
    /// By object and verb, `None` for a verb without a program. A verb past the end of its row has none, nor has a
    /// verb of an object past the last row.
    pub programs: Vec<Vec<Option<Program>>>,
    pub connections: Vec<Connection>,
}
