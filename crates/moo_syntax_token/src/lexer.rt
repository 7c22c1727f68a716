//! The lexer: it reads the tokens of a text.
ghost use Rattle.std.specs.Prelude.{◌≡◌, ◌<◌, ◌≤◌, ◌++◌, ◌∷◌, [], length, drop, IsTrue, IfOk, IfSome, MatchOption, OnOk, MatchBool};
ghost use Rattle.moo_value.specs.Size.{IsString};
ghost use Rattle.moo_syntax_token.specs.Lexing.{begins_blank, begins_comment, ends_comment, IsReading};
ghost use Rattle.moo_syntax_token.specs.Passing.{place, Passes, Stops};

use crate::name_interner::NameInterner;
use crate::scan::token_at;
use crate::token::{Spot, Token};
use moo_value::MooStr;
use std::alloc::{AllocError, Global};

#[tactic(auto, unfolding(crate::specs::Lexing::begins_blank))]
fn begins_blank(bytes: &[u8]) -> bool
    ensures { result ≡ begins_blank bytes.now }
{
    match bytes {
        [] => false,
        [first, ..] => *first == b' ' || *first == b'\t',
    }
}

#[tactic(auto, unfolding(crate::specs::Lexing::begins_comment))]
fn begins_comment(bytes: &[u8]) -> bool
    ensures is { result ≡ begins_comment bytes.now }
    ensures fits { IsTrue result → 2 ≤ length bytes.now }
{
    match bytes {
        [] | [_] => false,
        [first, second, ..] => *first == b'/' && *second == b'*',
    }
}

#[tactic(auto, unfolding(crate::specs::Lexing::ends_comment))]
fn ends_comment(bytes: &[u8]) -> bool
    ensures is { result ≡ ends_comment bytes.now }
    ensures fits { IsTrue result → 2 ≤ length bytes.now }
{
    match bytes {
        [] | [_] => false,
        [first, second, ..] => *first == b'*' && *second == b'/',
    }
}

/// Returns the initial capacity, in tokens, for a text of so many lines.
fn first_room(lines: usize) -> usize {
    lines.clamp(8, 128) * 8
}

/// Reads what a line's rest begins with: a blank, a part of a comment or a token. Returns its length, or `None` if no
/// token begins there; the spots then end with `Bad`.
fn pass(
    alloc: Global,
    known: &mut NameInterner,
    number: usize,
    rest: &[u8],
    opened: &mut Option<usize>,
    spots: &mut Vec<Spot>,
) -> Result<Option<usize>, AllocError>
    requires left { 0 < length rest.now }
    requires string { IsString rest.now }
    ensures fits { IfOk result (λ found. IfSome found (λ k. (0 < k) × (k ≤ length rest.now))) }
    ensures reads { IfOk result (λ found. MatchOption found (Stops number (place opened.old) rest.now spots.old.items spots.new.items) (λ k. Passes number (place opened.old) rest.now spots.old.items (place opened.new) (drop k rest.now) spots.new.items)) }
{
    if opened.is_some() {
        if !ends_comment(rest) {
            return Ok(Some(1));
        }
        *opened = None;
        return Ok(Some(2));
    }
    if begins_blank(rest) {
        return Ok(Some(1));
    }
    if begins_comment(rest) {
        *opened = Some(number);
        return Ok(Some(2));
    }
    let Some((token, length)) = token_at(alloc, known, rest)? else {
        keep(spots, Token::Bad, number)?;
        return Ok(None);
    };
    keep(spots, token, number)?;
    Ok(Some(length))
}

#[inline(always)]
fn keep(spots: &mut Vec<Spot>, token: Token, line: usize) -> Result<(), AllocError>
    ensures { OnOk result (spots.new.items ≡ spots.old.items ++ record { token = token; line = line } ∷ []) }
{
    match spots.push(Spot { token, line }) {
        Ok(()) => Ok(()),
        Err(_) => Err(AllocError),
    }
}

/// Reads a line. Returns whether all of it could be read; if not, the spots end with `Bad`.
fn pass_line(
    alloc: Global,
    known: &mut NameInterner,
    number: usize,
    line: &[u8],
    opened: &mut Option<usize>,
    spots: &mut Vec<Spot>,
) -> Result<bool, AllocError>
    requires { IsString line.now }
    ensures { IfOk result (λ whole. MatchBool whole (Passes number (place opened.old) line.now spots.old.items (place opened.new) [] spots.new.items) (Stops number (place opened.old) line.now spots.old.items spots.new.items)) }
{
    let mut rest = line;
    while !rest.is_empty() {
        let Some(length) = pass(alloc, known, number, rest, opened, spots)? else {
            return Ok(false);
        };
        rest = &rest[length..];
    }
    Ok(true)
}

/// Returns the tokens of these lines, each with its line. If the text is no list of tokens, `Bad` ends the result: it
/// marks the first place where no token begins, or a comment that is never closed.
pub fn tokens(alloc: Global, lines: &[MooStr]) -> Result<Vec<Spot>, AllocError>
    ensures { IfOk result (λ spots. IsReading lines.now spots.items) }
{
    tokens_with(alloc, &mut NameInterner::new(alloc), lines)
}

/// Returns the tokens as `tokens` does, with the strings of names from a cache.
pub fn tokens_with(
    alloc: Global,
    known: &mut NameInterner,
    lines: &[MooStr],
) -> Result<Vec<Spot>, AllocError>
    ensures { IfOk result (λ spots. IsReading lines.now spots.items) }
{
    let mut spots = Vec::with_capacity(alloc, first_room(lines.len()))?;
    let mut opened = None;
    let mut number = 0;
    for line in lines {
        number += 1;
        if !pass_line(
            alloc,
            known,
            number,
            line.as_bytes(),
            &mut opened,
            &mut spots,
        )? {
            return Ok(spots);
        }
    }
    let Some(line) = opened else {
        return Ok(spots);
    };
    keep(&mut spots, Token::Bad, line)?;
    Ok(spots)
}
