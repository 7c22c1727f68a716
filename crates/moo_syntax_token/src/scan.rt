//! The token that bytes begin with.
ghost use Rattle.std.specs.Prelude.{◌≡◌, ◌<◌, ◌≤◌, ◌+◌, length, take, false, Some, IfOk, IfSome};
ghost use Rattle.std.specs.List.{prefix_len, list_all};
ghost use Rattle.moo_value.specs.Size.{IsString};
ghost use Rattle.moo_syntax_token.specs.Spelling.{is_word, is_name};
ghost use Rattle.moo_value.specs.Digits.{is_digit};
ghost use Rattle.moo_syntax_token.specs.Tokens.{begins_name, continues_name, word, begins_fraction, integer_at, number_at, object_at, unquoted, token_at};

use crate::keyword::Keyword;
use crate::name_interner::NameInterner;
use crate::sign::sign_at;
use crate::token::Token;
use moo_value::{ErrorCode, MooStr, wrapping_number};
use std::alloc::{AllocError, Global};

fn begins_name(b: u8) -> bool
    ensures { result ≡ begins_name b }
{
    b.is_ascii_uppercase() || b.is_ascii_lowercase() || b == b'_'
}

fn continues_name(b: u8) -> bool
    ensures { result ≡ continues_name b }
{
    begins_name(b) || b.is_ascii_digit()
}

fn all_continue(bytes: &[u8]) -> bool
    ensures { result ≡ list_all continues_name bytes.now }
{
    bytes.iter().all(|b| continues_name(*b))
}

fn is_word(bytes: &[u8]) -> bool
    ensures { result ≡ is_word bytes.now }
{
    match bytes {
        [] => false,
        [first, rest @ ..] => begins_name(*first) && all_continue(rest),
    }
}

/// Is true if the bytes are a name: a letter or `_`, then letters, digits and `_`, and neither a keyword nor an error's
/// name.
#[tactic(auto, unfolding(crate::specs::Spelling::is_name))]
pub fn is_name(bytes: &[u8]) -> bool
    ensures { result ≡ is_name bytes.now }
{
    is_word(bytes) && Keyword::of(bytes).is_none() && ErrorCode::from_name(bytes).is_none()
}

/// Returns how many bytes at the front can be part of a name.
fn name_length(bytes: &[u8]) -> usize
    ensures is { result ≡ prefix_len continues_name bytes.now }
    ensures fits { result ≤ length bytes.now }
{
    bytes.iter().take_while(|b| continues_name(**b)).count()
}

/// Returns how many digits the bytes begin with.
fn digits_length(bytes: &[u8]) -> usize
    ensures is { result ≡ prefix_len is_digit bytes.now }
    ensures fits { result ≤ length bytes.now }
{
    bytes.iter().take_while(|b| b.is_ascii_digit()).count()
}

#[tactic(auto, unfolding(crate::specs::Tokens::begins_fraction))]
fn begins_fraction(bytes: &[u8]) -> bool
    ensures { result ≡ begins_fraction bytes.now }
{
    match bytes {
        [] => false,
        [b'E' | b'e', ..] => true,
        [b'.', b'.', ..] => false,
        [first, ..] => *first == b'.',
    }
}

/// Returns the integer that the bytes begin with, and its length.
#[tactic(auto, unfolding(crate::specs::Tokens::integer_at))]
fn integer_at(bytes: &[u8]) -> Option<(Token, usize)>
    requires { 0 < prefix_len is_digit bytes.now }
    ensures is { result ≡ integer_at bytes.now }
    ensures fits { IfSome result (λ t. (0 < t.1) × (t.1 ≤ length bytes.now)) }
{
    let length = digits_length(bytes);
    if begins_fraction(&bytes[length..]) {
        return None;
    }
    Some((Token::Integer(wrapping_number(&bytes[..length])), length))
}

/// Returns the object number after a `#`, and its length.
#[tactic(auto, unfolding(crate::specs::Tokens::object_at))]
fn object_at(bytes: &[u8]) -> Option<(i32, usize)>
    ensures is { result ≡ object_at bytes.now }
    ensures fits { IfSome result (λ o. o.1 ≤ length bytes.now) }
{
    let (first, digits) = bytes.split_first()?;
    if *first == b'-' {
        let (number, length) = number_at(digits)?;
        return Some((number.wrapping_neg(), 1 + length));
    }
    number_at(bytes)
}

/// Returns the number that the bytes begin with, and how many digits it has.
#[tactic(auto, unfolding(crate::specs::Tokens::number_at))]
fn number_at(bytes: &[u8]) -> Option<(i32, usize)>
    ensures is { result ≡ number_at bytes.now }
    ensures fits { IfSome result (λ o. o.1 ≤ length bytes.now) }
{
    let length = digits_length(bytes);
    if length == 0 {
        return None;
    }
    Some((wrapping_number(&bytes[..length]), length))
}

/// Returns the token of a word: a keyword, an error or a name.
fn word(alloc: Global, known: &mut NameInterner, bytes: &[u8]) -> Result<Token, AllocError>
    requires { IsString bytes.now }
    ensures { IfOk result (λ t. t ≡ word bytes.now) }
{
    if let Some(keyword) = Keyword::of(bytes) {
        return Ok(Token::Keyword(keyword));
    }
    if let Some(error) = ErrorCode::from_name(bytes) {
        return Ok(Token::Error(error));
    }
    Ok(Token::Name(known.string(alloc, bytes)?))
}

/// Returns how many bytes are before the closing quote, or `None` if a backslash comes first or no quote does.
fn plain_length(bytes: &[u8]) -> Option<usize>
    ensures is { IfSome result (λ n. Some (take n bytes.now, n + 1) ≡ unquoted false bytes.now) }
    ensures fits { IfSome result (λ n. n < length bytes.now) }
{
    for index in 0..bytes.len() {
        let byte = bytes[index];
        if byte == b'"' {
            return Some(index);
        }
        if byte == b'\\' {
            return None;
        }
    }
    None
}

/// Returns the string after its opening quote, and the number of bytes up to and including its closing quote.
fn unquoted(alloc: Global, bytes: &[u8]) -> Result<Option<(MooStr, usize)>, AllocError>
    requires { IsString bytes.now }
    ensures is { IfOk result (λ found. found ≡ unquoted false bytes.now) }
    ensures fits { IfOk result (λ found. IfSome found (λ s. s.1 ≤ length bytes.now)) }
{
    let Some(length) = plain_length(bytes) else {
        return unescaped(alloc, bytes);
    };
    let text = MooStr::from_slice(alloc, &bytes[..length])?;
    Ok(Some((text, length + 1)))
}

/// Reads a string byte by byte and drops the backslashes. Returns what `unquoted` does.
fn unescaped(alloc: Global, bytes: &[u8]) -> Result<Option<(MooStr, usize)>, AllocError>
    requires { IsString bytes.now }
    ensures is { IfOk result (λ found. found ≡ unquoted false bytes.now) }
    ensures fits { IfOk result (λ found. IfSome found (λ s. s.1 ≤ length bytes.now)) }
{
    let mut text = Vec::new(alloc);
    let mut taken = false;
    let mut index = 0;
    while index < bytes.len() {
        let byte = bytes[index];
        index += 1;
        if taken {
            text.push(byte)?;
            taken = false;
        } else if byte == b'"' {
            return Ok(Some((MooStr::from_text(alloc, text)?, index)));
        } else if byte == b'\\' {
            taken = true;
        } else {
            text.push(byte)?;
        }
    }
    Ok(None)
}

/// Returns the token that the bytes begin with, and its length.
#[tactic(auto, unfolding(crate::specs::Tokens::token_at))]
pub(crate) fn token_at(
    alloc: Global,
    known: &mut NameInterner,
    bytes: &[u8],
) -> Result<Option<(Token, usize)>, AllocError>
    requires { IsString bytes.now }
    ensures is { IfOk result (λ found. found ≡ token_at bytes.now) }
    ensures fits { IfOk result (λ found. IfSome found (λ t. (0 < t.1) × (t.1 ≤ length bytes.now))) }
{
    let Some((first, rest)) = bytes.split_first() else {
        return Ok(None);
    };
    if begins_name(*first) {
        let length = name_length(bytes);
        return Ok(Some((word(alloc, known, &bytes[..length])?, length)));
    }
    if first.is_ascii_digit() {
        return Ok(integer_at(bytes));
    }
    if *first == b'#' {
        return Ok(object_at(rest).map(|(number, length)| (Token::Object(number), 1 + length)));
    }
    if *first == b'"' {
        return Ok(unquoted(alloc, rest)?.map(|(string, length)| (Token::Str(string), 1 + length)));
    }
    Ok(sign_at(bytes).map(|(sign, length)| (Token::Sign(sign), length)))
}
