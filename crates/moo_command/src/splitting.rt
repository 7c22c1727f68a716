//! The split of a command's words at a preposition.
ghost use Rattle.std.specs.Prelude.{◌≡◌, ◌≤◌, ◌<◌, length, IfOk};
ghost use Rattle.moo_value.specs.Size.{weight_limit};
ghost use Rattle.moo_command.specs.Prepositions.{Splits, joined};
ghost use Rattle.moo_command.specs.Inner.{parts_of};

use crate::prepositions::preposition_at;
use moo_value::MooStr;
use moo_world_object::Preposition;
use std::alloc::{AllocError, Global};

/// The position of a preposition among words: the words before `at` precede it, and those from `following` on follow it.
#[derive(Clone, Copy)]
pub(crate) struct Division {
    pub preposition: Option<Preposition>,
    pub at: usize,
    pub following: usize,
}

/// Returns the preposition that splits these words: the longest of those that begin leftmost.
pub(crate) fn split(words: &[MooStr]) -> Division
    ensures parts { Splits words.now (parts_of words.now result) }
    ensures order { result.at ≤ result.following }
    ensures inside { result.following ≤ length words.now }
{
    for at in 0..words.len() {
        if let Some((preposition, length)) = preposition_at(&words[at..]) {
            return Division {
                preposition: Some(preposition),
                at,
                following: at + length,
            };
        }
    }
    Division {
        preposition: None,
        at: words.len(),
        following: words.len(),
    }
}

/// Joins words with one blank between them. Fails only if memory runs out.
pub(crate) fn joined(alloc: Global, words: &[MooStr]) -> Result<MooStr, AllocError>
    requires { length (joined words.now) < weight_limit }
    ensures { IfOk result (λ text. text ≡ joined words.now) }
{
    let mut text = Vec::new(alloc);
    let Some((first, others)) = words.split_first() else {
        return MooStr::from_text(alloc, text);
    };
    text.extend_from_slice(first.as_bytes())?;
    for word in others {
        text.push(b' ')?;
        text.extend_from_slice(word.as_bytes())?;
    }
    MooStr::from_text(alloc, text)
}
