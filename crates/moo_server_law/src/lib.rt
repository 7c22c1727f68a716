//! Laws of a server over a world with its connections (docs/design/server.md). Nothing is due between its events. Its lives
//! begin from certain worlds. Its start, its events and their reports determine all else. An event of a session has one result
//! and leaves no hook, and a whole stream of bytes has one list of lines.
//! An internal crate of `moo_server`.
#![tactic(auto)]

pub mod laws;
