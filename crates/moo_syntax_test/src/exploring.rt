//! An exhaustive comparison of the parser with a recogniser, over all token lists up to a length of which all but the
//! last token begin some program. The parser has to accept the lists that the recogniser accepts. It has to report each
//! fault at the first token with which no program continues, whatever tokens follow. If neither a parenthesis nor a
//! base was read, the short listing has to have no parenthesis.
use crate::listings::push_line;
use crate::recogniser::Recogniser;
use crate::rules::{CALLS, COMMON, LOOSE, SCATTERS, TARGETS};
use crate::statement_rules::{ANYWHERE, EXPRESSIONS, IN_LOOPS};
use moo_syntax::{Names, SyntaxFaultKind, parse};
use moo_syntax_program::Program;
use moo_unparse::list_short;
use std::alloc::{AllocError, Global};
use std::slice;

/// A character that is no token.
const BAD: u8 = 5;

/// The tokens that are words, and those of more than one character. Any other character is a sign and spells itself.
static WORDS: [(u8, &str); 22] = [
    (b'0', "7"),
    (b'1', "x"),
    (b'2', "any"),
    (b'3', "return"),
    (b'4', ".."),
    (b'5', "=>"),
    (b'&', "&&"),
    (b'6', "if"),
    (b'7', "elseif"),
    (b'8', "else"),
    (b'9', "endif"),
    (b'%', "in"),
    (b'~', "endfor"),
    (b'_', "while"),
    (b'/', "endwhile"),
    (b'"', "break"),
    (b'\\', "continue"),
    (b'>', "try"),
    (1, "except"),
    (2, "finally"),
    (3, "endtry"),
    (4, "for"),
];

fn spelled(token: &u8) -> &[u8] {
    if *token == BAD {
        return b"&";
    }
    for (key, word) in &WORDS {
        if *key == *token {
            return word.as_bytes();
        }
    }
    slice::from_ref(token)
}

/// The result of the parser.
#[derive(Clone, Copy, PartialEq, Eq)]
enum Verdict {
    Program,
    BadToken(usize),
    Unexpected(usize),
    BadTarget(usize),
    UnknownFunction(usize),
    BadLoopName(usize),
    Other,
}

/// Is true if the short listing of a program has a parenthesis.
fn has_parenthesis(alloc: Global, program: &Program) -> Result<bool, AllocError> {
    let Ok(lines) = list_short(alloc, program, false) else {
        return Err(AllocError);
    };
    Ok(lines.iter().any(|line| line.as_bytes().contains(&b'(')))
}

/// Parses the tokens, each on a line, and returns the result: `Other` if the short listing has a needless parenthesis.
fn told(alloc: Global, tokens: &[u8], names: Names) -> Result<Verdict, AllocError> {
    let mut lines = Vec::new(alloc);
    for token in tokens {
        push_line(alloc, &mut lines, spelled(token))?;
    }
    match parse(alloc, &lines, names) {
        Ok(program) => {
            let groups = tokens.iter().any(|token| b"(.[:".contains(token));
            if !groups && has_parenthesis(alloc, &program)? {
                return Ok(Verdict::Other);
            }
            Ok(Verdict::Program)
        }
        Err(fault) => {
            let line = fault.line;
            Ok(match fault.kind {
                SyntaxFaultKind::BadToken => Verdict::BadToken(line),
                SyntaxFaultKind::Unexpected => Verdict::Unexpected(line),
                SyntaxFaultKind::BadTarget => Verdict::BadTarget(line),
                SyntaxFaultKind::BadLoopName => Verdict::BadLoopName(line),
                SyntaxFaultKind::UnknownFunction(_) => Verdict::UnknownFunction(line),
                SyntaxFaultKind::TooDeep | SyntaxFaultKind::Memory => Verdict::Other,
            })
        }
    }
}

/// Returns the result that the recognisers expect.
fn expected(tokens: &[u8], strict: &Recogniser, loose: &Recogniser) -> Verdict {
    if strict.accepts() {
        return Verdict::Program;
    }
    let place = strict.viable();
    let line = place.saturating_add(1);
    if place == loose.viable() {
        return match tokens.get(place) {
            Some(token) if *token == BAD => Verdict::BadToken(line),
            _ => Verdict::Unexpected(line.min(tokens.len())),
        };
    }
    match tokens.get(place) {
        Some(b'=') => Verdict::BadTarget(line),
        Some(b'(') => Verdict::UnknownFunction(place),
        Some(b'"' | b'\\' | b'1') => Verdict::BadLoopName(line),
        _ => Verdict::Other,
    }
}

/// Is true if the parser's result is the expected one, and stays so with more tokens appended if no program continues.
fn is_told(
    alloc: Global,
    tokens: &mut Vec<u8>,
    names: Names,
    verdict: Verdict,
    goes_on: bool,
) -> Result<bool, AllocError> {
    if told(alloc, tokens, names)? != verdict {
        return Ok(false);
    }
    // The rules of statements have few expressions, and none that continue with a bracket.
    if goes_on || matches!(tokens.last(), Some(b'(' | b'[')) {
        return Ok(true);
    }
    tokens.push(b';')?;
    tokens.push(BAD)?;
    let same = told(alloc, tokens, names)? == verdict;
    tokens.pop();
    tokens.pop();
    Ok(same)
}

/// Appends each token of the alphabet in turn, and up to `left` more after it. Returns whether the parser and the
/// recognisers agree on all these lists; if not, `tokens` holds the first list on which they differ.
fn explore(
    alloc: Global,
    alphabet: &[u8],
    names: Names,
    tokens: &mut Vec<u8>,
    strict: &mut Recogniser,
    loose: &mut Recogniser,
    left: u32,
) -> Result<bool, AllocError> {
    for token in alphabet {
        tokens.push(*token)?;
        strict.read(alloc, *token)?;
        loose.read(alloc, *token)?;
        let verdict = expected(tokens, strict, loose);
        let goes_on = loose.viable() == tokens.len();
        if !is_told(alloc, tokens, names, verdict, goes_on)? {
            return Ok(false);
        }
        if left > 0 && goes_on {
            if !explore(alloc, alphabet, names, tokens, strict, loose, left - 1)? {
                return Ok(false);
            }
        }
        tokens.pop();
        strict.back();
        loose.back();
    }
    Ok(true)
}

/// Returns a recogniser of statements over a few expressions, or of expressions in which any name may be a function's,
/// or none.
fn strict(alloc: Global, word: &str) -> Result<Recogniser, AllocError> {
    match word {
        "statements" => Recogniser::new(alloc, &[&EXPRESSIONS, &IN_LOOPS]),
        "expressions" => Recogniser::new(alloc, &[&COMMON, &SCATTERS, &TARGETS, &CALLS]),
        _ => Recogniser::new(alloc, &[&COMMON, &SCATTERS, &TARGETS]),
    }
}

/// Returns a recogniser with jumps anywhere, assignments to anything and calls of any name.
fn loose(alloc: Global, word: &str) -> Result<Recogniser, AllocError> {
    match word {
        "statements" => Recogniser::new(alloc, &[&EXPRESSIONS, &ANYWHERE]),
        _ => Recogniser::new(alloc, &[&COMMON, &SCATTERS, &LOOSE, &CALLS]),
    }
}

fn names_of(word: &str) -> Names {
    if word == "calls" {
        Names::Known
    } else {
        Names::Any
    }
}

/// Returns the tokens of a row: `a` to `e` are the tokens 1 to 5, and each other character is a token.
fn tokens_of(alloc: Global, row: &str) -> Result<Vec<u8>, AllocError> {
    let mut tokens = Vec::from_slice(alloc, row.as_bytes())?;
    for token in tokens.iter_mut() {
        if matches!(*token, b'a'..=b'e') {
            *token -= b'a' - 1;
        }
    }
    Ok(tokens)
}

/// Compares the parser and the recognisers on all lists that begin with given tokens and have at most some number of
/// tokens more. Returns the first list on which they differ. A row holds that number, the tokens that may follow, and
/// those to begin with.
pub fn difference(alloc: Global, word: &str, row: &str) -> Result<Option<Vec<u8>>, AllocError> {
    let (more, rest) = row.split_once(' ').unwrap_or((row, ""));
    let (alphabet, begin) = rest.split_once(' ').unwrap_or((rest, ""));
    let (mut strict, mut loose) = (strict(alloc, word)?, loose(alloc, word)?);
    let mut tokens = tokens_of(alloc, begin)?;
    for token in &tokens {
        strict.read(alloc, *token)?;
        loose.read(alloc, *token)?;
    }
    let alphabet = tokens_of(alloc, alphabet)?;
    let names = names_of(word);
    let left = more.parse::<u32>().unwrap_or(1).saturating_sub(1);
    if explore(
        alloc,
        &alphabet,
        names,
        &mut tokens,
        &mut strict,
        &mut loose,
        left,
    )? {
        return Ok(None);
    }
    Ok(Some(tokens))
}
