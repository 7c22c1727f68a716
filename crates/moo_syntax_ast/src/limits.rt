//! The limits of a program.

/// The greatest number of nodes, statements and expressions, on a path of a program.
pub const MOST_NODES: u32 = 100;

/// The greatest number of brackets that may be open at one place of a program's source.
pub const MOST_BRACKETS: u32 = 200;
