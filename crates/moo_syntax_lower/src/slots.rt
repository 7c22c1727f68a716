//! The names of the variables of a program.
ghost use Rattle.std.specs.Prelude.{◌≡◌, false, map, IsTrue, IfOk};
ghost use Rattle.moo_value.specs.Compare.{folded};
ghost use Rattle.moo_syntax_ast.specs.View.{block};
ghost use Rattle.moo_syntax_ast.specs.Slots.{firsts, slots};

use crate::variables::add_block;
use moo_syntax_ast::{Name, Stmt};
use moo_value::MooStr;
use std::alloc::{AllocError, Global};
use std::collections::BTreeMap;

/// The initial capacity, in occurrences of variables.
const FIRST_ROOM: usize = 16;

/// Returns the names of the variables in lower case, each once, in the order of their first occurrences.
pub fn variable_names(alloc: Global, statements: &[Stmt]) -> Result<Vec<Name>, AllocError>
    ensures { IfOk result (λ names. names.items ≡ slots (block statements.now)) }
{
    let mut names = Vec::with_capacity(alloc, FIRST_ROOM)?;
    add_block(statements, &mut names)?;
    let names = folded_names(alloc, &names)?;
    first_names(alloc, &names)
}

fn folded_names(alloc: Global, names: &[MooStr]) -> Result<Vec<MooStr>, AllocError>
    ensures { IfOk result (λ all. all.items ≡ map folded names.now) }
{
    let mut all = Vec::with_capacity(alloc, names.len())?;
    for name in names {
        all.push(folded_name(alloc, name)?)?;
    }
    Ok(all)
}

// Is true if the name has no capital letters.
fn is_folded(name: &[u8]) -> bool
    ensures { IsTrue result → folded name.now ≡ name.now }
{
    for byte in name {
        if byte.to_ascii_lowercase() != *byte {
            return false;
        }
    }
    true
}

fn folded_name(alloc: Global, name: &MooStr) -> Result<MooStr, AllocError>
    ensures { IfOk result (λ s. s ≡ folded name.now) }
{
    if is_folded(name.as_bytes()) {
        return name.try_clone();
    }
    let mut bytes = Vec::new(alloc);
    for byte in name.as_bytes() {
        bytes.push(byte.to_ascii_lowercase())?;
    }
    // A string in lower case is a string too, so that only the allocation can fail.
    MooStr::try_from_vec(alloc, bytes).map_err(|_| AllocError)
}

// Returns the names without those that occur before.
fn first_names(alloc: Global, names: &[MooStr]) -> Result<Vec<Name>, AllocError>
    ensures { IfOk result (λ found. found.items ≡ firsts (λ _. false) names.now) }
{
    let mut seen = BTreeMap::new(alloc);
    let mut found = Vec::new(alloc);
    for name in names {
        if seen.contains_key(&name.as_bytes()) {
            continue;
        }
        seen.insert(name.as_bytes(), ())?;
        found.push(Name::new(name.try_clone()?))?;
    }
    Ok(found)
}
