//! The surface of `moo_unparse`.
use moo_syntax::Program;
use moo_unparse::{ListFault, Memory};
use moo_value::MooStr;
use std::alloc::Global;

pub fn list_full(alloc: Global, program: &Program) -> Result<Vec<MooStr>, Memory> {
    moo_unparse::list_full(alloc, program)
}

pub fn list_full_indented(alloc: Global, program: &Program) -> Result<Vec<MooStr>, ListFault> {
    moo_unparse::list_full_indented(alloc, program)
}

pub fn list_short(
    alloc: Global,
    program: &Program,
    indent: bool,
) -> Result<Vec<MooStr>, ListFault> {
    moo_unparse::list_short(alloc, program, indent)
}

/// Returns whether memory ran out.
pub fn is_memory(fault: ListFault) -> bool {
    match fault {
        ListFault::TooHeavy => false,
        ListFault::Memory => true,
    }
}
