//! The match of a name against the names of a verb.
ghost use Rattle.std.specs.Prelude.{◌≡◌, ◌↔◌, IsTrue, true, position, ◌&&◌};
ghost use Rattle.moo_world_object.specs.Patterns.{EndsInStar, is_star, least, fits, is_blank, is_word, is_mark, has_mark, has_word, fits_names};

const STAR: u8 = b'*';

const BLANK: u8 = b' ';

/// Is true if a name matches a pattern, in any case. The base is the pattern without its stars. A name matches if it is
/// a prefix of the base and at least as long as the part before the first star; without a star it has to be the whole
/// base. If the pattern ends in a star, each name that begins with the base matches too.
pub fn fits(pattern: &[u8], name: &[u8]) -> bool
    ensures { result ≡ fits pattern.now name.now }
{
    let mut matched = 0;
    for byte in pattern {
        if is_star(*byte) {
            continue;
        }
        if matched == name.len() {
            return least_length(pattern) <= matched;
        }
        if byte.to_ascii_lowercase() != name[matched].to_ascii_lowercase() {
            return false;
        }
        matched += 1;
    }
    matched == name.len() || ends_in_star(pattern)
}

pub(crate) fn is_star(byte: u8) -> bool
    ensures { result ≡ is_star byte }
{
    byte == STAR
}

/// Returns the length of the part before the first star, or of the pattern if it has none.
pub(crate) fn least_length(pattern: &[u8]) -> usize
    ensures { result ≡ least pattern.now }
{
    first_star(pattern).unwrap_or(pattern.len())
}

fn first_star(pattern: &[u8]) -> Option<usize>
    ensures { result ≡ position is_star pattern.now }
{
    pattern.iter().position(|byte| is_star(*byte))
}

pub(crate) fn ends_in_star(pattern: &[u8]) -> bool
    ensures { IsTrue result ↔ EndsInStar pattern.now }
{
    match pattern {
        [.., last] => is_star(*last),
        [] => false,
    }
}

pub(crate) fn is_blank(byte: u8) -> bool
    ensures { result ≡ is_blank byte }
{
    byte == BLANK
}

/// Is true if there is a blank or a star among a verb's names. If not, there is at most one name.
pub(crate) fn has_mark(names: &[u8]) -> bool
    ensures { result ≡ has_mark names.now }
{
    names.iter().any(|byte| is_mark(*byte))
}

fn is_mark(byte: u8) -> bool
    ensures { result ≡ is_mark byte }
{
    is_blank(byte) || is_star(byte)
}

fn is_word(part: &[u8]) -> bool
    ensures { result ≡ is_word part.now }
{
    !part.is_empty()
}

/// Is true if the names of a verb, which blanks separate, hold at least one word.
pub fn has_word(names: &[u8]) -> bool
    ensures { result ≡ has_word names.now }
{
    names
        .split(|byte| is_blank(*byte))
        .any(|part| is_word(part))
}

/// Is true if a name matches one of the names of a verb, which are patterns with blanks between them. Most verbs have
/// just one name and no star, so this compares the whole first.
pub fn fits_names(names: &[u8], name: &[u8]) -> bool
    ensures { result ≡ fits_names names.now name.now }
{
    if are_just(names, name) {
        return true;
    }
    names
        .split(|byte| is_blank(*byte))
        .any(|part| fits_part(part, name))
}

// Is true if this name, with the same letter case and without a star, is the only one.
fn are_just(names: &[u8], name: &[u8]) -> bool
    ensures { IsTrue result → fits_names names.now name.now ≡ true }
{
    if names.len() != name.len() || names.is_empty() {
        return false;
    }
    for i in 0..names.len() {
        if names[i] != name[i] || is_star(names[i]) || is_blank(names[i]) {
            return false;
        }
    }
    true
}

fn fits_part(part: &[u8], name: &[u8]) -> bool
    ensures { result ≡ (is_word part.now && fits part.now name.now) }
{
    is_word(part) && fits(part, name)
}
