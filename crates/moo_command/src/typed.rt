//! The first word of a line, the rest as it was typed, and the words of the rest.
ghost use Rattle.std.specs.Prelude.{◌≡◌, ◌≤◌, IfOk, IfSome, IfNone, [], drop, length};
ghost use Rattle.moo_command.specs.Words.{Words};
ghost use Rattle.moo_command.specs.FirstWord.{IsTyped, unindented};

use crate::reading::{read_word, read_words, skip_blanks};
use moo_value::MooStr;
use std::alloc::{AllocError, Global};

/// A line with its first word, the rest as it was typed, and the words of the rest.
#[derive(Drop)]
pub struct Typed {
    pub line: MooStr,
    pub verb: MooStr,
    pub rest: MooStr,
    pub args: Vec<MooStr>,
}

/// Splits a line of any length into its first word and the rest. Returns `None` if it has no word. Fails only if
/// memory runs out.
pub fn read_typed(alloc: Global, line: &MooStr) -> Result<Option<Typed>, AllocError>
    ensures line { IfOk result (λ typed. IfSome typed (λ t. t.line ≡ line.now)) }
    ensures some { IfOk result (λ typed. IfSome typed (λ t. IsTyped line.now t.verb t.rest t.args.items)) }
    ensures none { IfOk result (λ typed. IfNone typed (Words line.now [])) }
{
    let bytes = line.as_bytes();
    let at = skip_blanks(bytes, 0);
    if at == bytes.len() {
        return Ok(None);
    }
    let (verb, following) = read_word(alloc, bytes, at)?;
    let typed = typed_after(alloc, verb, line, following)?;
    Ok(Some(typed))
}

/// Splits the line from offset `following` on, after this verb. Fails only if memory runs out.
pub fn typed_after(
    alloc: Global,
    verb: MooStr,
    line: &MooStr,
    following: usize,
) -> Result<Typed, AllocError>
    requires { following ≤ length line.now }
    ensures line { IfOk result (λ t. t.line ≡ line.now) }
    ensures verb { IfOk result (λ t. t.verb ≡ verb) }
    ensures rest { IfOk result (λ t. t.rest ≡ unindented (drop following line.now)) }
    ensures args { IfOk result (λ t. Words (drop following line.now) t.args.items) }
{
    let bytes = line.as_bytes();
    let at = skip_blanks(bytes, following);
    let rest = line.part(alloc, at, bytes.len())?;
    let args = read_words(alloc, bytes, following)?;
    let line = line.try_clone()?;
    Ok(Typed {
        line,
        verb,
        rest,
        args,
    })
}
