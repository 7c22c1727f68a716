//! The parser of typed lines.
ghost use Rattle.std.specs.Prelude.{◌≡◌, ◌≤◌, ◌<◌, ◌+◌, [], length, map, IfOk, IfSome};
ghost use Rattle.std.specs.Option.{option_map};
ghost use Rattle.moo_value.specs.Tree.{string};
ghost use Rattle.moo_value.specs.Size.{list_weight, weight_limit, IsString};
ghost use Rattle.moo_command.specs.FirstWord.{IsTyped};
ghost use Rattle.moo_command.specs.Typed.{expanded, verb_of_sign};
ghost use Rattle.moo_command.specs.Prepositions.{number_or_none};
ghost use Rattle.moo_command.specs.Commands.{Commands, IsCommandOf};
ghost use Rattle.moo_command.specs.Seen.{command_of};
ghost use Rattle.moo_command.specs.Inner.{verb_leading};

use crate::command::Command;
use crate::matching::match_object;
use crate::splitting::{Division, joined, split};
use crate::word_laws::words_are_light;
use crate::{Typed, read_typed, skip_blanks, typed_after};
use moo_value::MooStr;
use moo_world::World;
use moo_world_object::Preposition;
use std::alloc::{AllocError, Global};

/// Parses a player's line of any length. A leading quote, colon or semicolon is short for `say`, `emote` or `eval`. A
/// line without words gives an empty verb and nothing else. Fails only if memory runs out.
pub fn parse_command(
    alloc: Global,
    world: &World,
    player: i32,
    line: &MooStr,
) -> Result<Command, AllocError>
    ensures { IfOk result (λ command. Commands world.now player line.now (command_of command)) }
{
    match read_typed(alloc, line)? {
        Some(typed) => parse_typed(alloc, world, player, typed),
        None => command(alloc, world, player, nothing_typed(alloc, line)?),
    }
}

/// Parses a player's line that is split into its words. Splits it again only if a sign leads it, since other words then
/// come after the sign. Fails only if memory runs out.
pub fn parse_typed(
    alloc: Global,
    world: &World,
    player: i32,
    typed: Typed,
) -> Result<Command, AllocError>
    requires { IsTyped typed.line typed.verb typed.rest typed.args.items }
    ensures { IfOk result (λ command. Commands world.now player typed.line (command_of command)) }
{
    let typed = expanded(alloc, typed)?;
    command(alloc, world, player, typed)
}

/// Returns the split of a line with its leading sign written out.
fn expanded(alloc: Global, typed: Typed) -> Result<Typed, AllocError>
    requires { IsTyped typed.line typed.verb typed.rest typed.args.items }
    ensures split { IfOk result (λ t. IsTyped (expanded typed.line) t.verb t.rest t.args.items) }
    ensures light { IfOk result (λ t. list_weight (map (λ w. string w) t.args.items) ≤ weight_limit + 1) }
{
    words_are_light();
    let bytes = typed.line.as_bytes();
    let at = skip_blanks(bytes, 0);
    let Some(verb) = verb_leading(&bytes[at..]) else {
        return Ok(typed);
    };
    let verb = MooStr::from_slice(alloc, verb)?;
    typed_after(alloc, verb, &typed.line, at + 1)
}

/// Returns the verb that a leading sign is short for.
fn verb_leading(text: &[u8]) -> Option<&'static [u8]>
    ensures value { option_map (λ verb. verb.now) result ≡ verb_leading text.now }
    ensures string { IfSome result (λ verb. IsString verb.now) }
    ensures following { IfSome result (λ verb. 0 < length text.now) }
{
    let sign = text.first()?;
    verb_of_sign(*sign)
}

fn verb_of_sign(sign: u8) -> Option<&'static [u8]>
    ensures { option_map (λ verb. verb.now) result ≡ verb_of_sign sign }
{
    match sign {
        b'"' => Some(b"say"),
        b':' => Some(b"emote"),
        b';' => Some(b"eval"),
        _ => None,
    }
}

/// Returns the split of a line without words.
fn nothing_typed(alloc: Global, line: &MooStr) -> Result<Typed, AllocError>
    ensures verb { IfOk result (λ t. t.verb ≡ []) }
    ensures rest { IfOk result (λ t. t.rest ≡ []) }
    ensures args { IfOk result (λ t. t.args.items ≡ []) }
{
    let line = line.try_clone()?;
    let verb = MooStr::empty(alloc)?;
    let rest = verb.try_clone()?;
    let args = Vec::new(alloc);
    Ok(Typed {
        line,
        verb,
        rest,
        args,
    })
}

/// Returns the command of a split line.
fn command(alloc: Global, world: &World, player: i32, typed: Typed) -> Result<Command, AllocError>
    requires { list_weight (map (λ w. string w) typed.args.items) ≤ weight_limit + 1 }
    ensures { IfOk result (λ c. IsCommandOf world.now player typed.verb typed.rest typed.args.items (command_of c)) }
{
    let Typed {
        verb,
        rest,
        args,
        ..
    } = typed;
    let Division {
        preposition,
        at,
        following,
    } = split(&args);
    let dobjstr = joined(alloc, &args[..at])?;
    let prepstr = joined(alloc, &args[at..following])?;
    let iobjstr = joined(alloc, &args[following..])?;
    Ok(Command {
        verb,
        argstr: rest,
        dobj: match_object(world, player, dobjstr.as_bytes()),
        prep: number_or_none(preposition),
        iobj: match_object(world, player, iobjstr.as_bytes()),
        args,
        dobjstr,
        prepstr,
        iobjstr,
    })
}

/// Returns the number of a preposition, or -1.
fn number_or_none(preposition: Option<Preposition>) -> i32
    ensures { result ≡ number_or_none preposition }
{
    match preposition {
        Some(preposition) => i32::from(preposition.number()),
        None => -1,
    }
}
