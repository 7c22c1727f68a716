//! A reader of the words of a line.
ghost use Rattle.std.specs.Prelude.{◌≡◌, ◌≢◌, ◌≤◌, ◌<◌, length, drop, slice_index, IfOk, false};
ghost use Rattle.moo_value.specs.Size.{IsString};
ghost use Rattle.moo_command.specs.Words.{Word, Words};
ghost use Rattle.moo_command.specs.FirstWord.{unindented};
ghost use Rattle.moo_command.specs.WordsInner.{goes_on};

use moo_value::MooStr;
use std::alloc::{AllocError, Global};

const BLANK: u8 = b' ';

const QUOTE: u8 = b'"';

const BACKSLASH: u8 = b'\\';

/// Returns the words of a line of any length (docs/reference/commands.md, "Words"). Fails only if memory runs out.
pub fn words(alloc: Global, line: &MooStr) -> Result<Vec<MooStr>, AllocError>
    ensures { IfOk result (λ words. Words line.now words.items) }
{
    read_words(alloc, line.as_bytes(), 0)
}

/// Returns the words of a line from offset `from` on.
pub(crate) fn read_words(alloc: Global, line: &[u8], from: usize) -> Result<Vec<MooStr>, AllocError>
    requires string { IsString line.now }
    requires inside { from ≤ length line.now }
    ensures { IfOk result (λ words. Words (drop from line.now) words.items) }
{
    let mut words = Vec::new(alloc);
    let mut at = skip_blanks(line, from);
    while at < line.len() {
        let (word, following) = read_word(alloc, line, at)?;
        words.push(word)?;
        at = skip_blanks(line, following);
    }
    Ok(words)
}

/// Returns the first offset from `from` on that holds no blank, or the line's length.
pub fn skip_blanks(line: &[u8], from: usize) -> usize
    requires { from ≤ length line.now }
    ensures from { from ≤ result }
    ensures inside { result ≤ length line.now }
    ensures rest { drop result line.now ≡ unindented (drop from line.now) }
{
    let mut at = from;
    while at < line.len() && line[at] == BLANK {
        at += 1;
    }
    at
}

/// Reads the word that begins at `at`, and returns it with the offset after it.
pub(crate) fn read_word(
    alloc: Global,
    line: &[u8],
    at: usize,
) -> Result<(MooStr, usize), AllocError>
    requires string { IsString line.now }
    requires inside { at < length line.now }
    requires begins { slice_index line.now at ≢ 32 }
    ensures word { IfOk result (λ read. Word false (drop at line.now) read.0 (drop read.1 line.now)) }
    ensures later { IfOk result (λ read. at < read.1) }
    ensures inside { IfOk result (λ read. read.1 ≤ length line.now) }
{
    let mut word = Vec::new(alloc);
    let mut grouped = false;
    let mut following = at;
    while following < line.len() && goes_on(grouped, line[following]) {
        let byte = line[following];
        following += 1;
        if byte == QUOTE {
            grouped = !grouped;
        } else if byte != BACKSLASH {
            word.push(byte)?;
        } else if following < line.len() {
            word.push(line[following])?;
            following += 1;
        }
    }
    let word = MooStr::from_text(alloc, word)?;
    Ok((word, following))
}

/// Returns whether a byte is part of the word, rather than its end.
fn goes_on(grouped: bool, byte: u8) -> bool
    ensures { result ≡ goes_on grouped byte }
{
    grouped || byte != BLANK
}
