//! The words of a typed line as a list of the language.
ghost use Rattle.std.specs.Prelude.{◌≡◌, IfOk};
ghost use Rattle.moo_value.specs.View.{trees};
ghost use Rattle.moo_session_task.specs.WordList.{strings_of, FitsAList};

use moo_value::{ListLimit, MooList, MooStr, Value};
use std::alloc::{AllocError, Global};

/// Returns the list of these words, which has to be within the limits of lists. Fails only if memory runs out.
pub fn word_list(alloc: Global, words: Vec<MooStr>) -> Result<MooList, AllocError>
    requires { FitsAList words.items }
    ensures { IfOk result (λ list. list ≡ strings_of words.items) }
{
    let strings = strings(alloc, words)?;
    match MooList::try_from_vec(alloc, strings) {
        Ok(list) => Ok(list),
        Err(ListLimit::Memory) => Err(AllocError),
        Err(ListLimit::TooLarge) => unreachable!(),
    }
}

fn strings(alloc: Global, words: Vec<MooStr>) -> Result<Vec<Value>, AllocError>
    ensures { IfOk result (λ v. trees v.items ≡ strings_of words.items) }
{
    let mut values = Vec::new(alloc);
    for word in words {
        values.push(Value::Str(word))?;
    }
    Ok(values)
}
