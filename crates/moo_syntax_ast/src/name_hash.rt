//! Hashes of names, by which verbs are found.
ghost use Rattle.std.specs.Prelude.{◌≡◌, ◌<◌};
ghost use Rattle.moo_syntax_ast.specs.NameHash.{first_letter, letter_at, letters_hash, class_of, hash_of};

/// Returns the hash of a name. Names that differ in the case of their letters alone have one hash. Its lowest bit is the
/// class of the name's first letter.
pub fn hash_of(name: &[u8]) -> usize
    ensures { result ≡ hash_of name.now }
{
    letters_hash(name) * 2 + class_of(first_letter(name))
}

// Returns a number of a name's length, its middle letter and its last three.
#[inline]
fn letters_hash(name: &[u8]) -> usize
    ensures value { result ≡ letters_hash name.now }
    ensures small { result < 1700000 }
{
    let many = name.len();
    many % 256
        + letter_at(name, many / 2) * 50653
        + letter_at(name, many.saturating_sub(3)) * 1369
        + letter_at(name, many.saturating_sub(2)) * 37
        + letter_at(name, many.saturating_sub(1))
}

#[inline]
fn letter_at(name: &[u8], index: usize) -> usize
    ensures value { result ≡ letter_at name.now index }
    ensures small { result < 32 }
{
    match name.get(index) {
        Some(byte) => usize::from(*byte % 32),
        None => 0,
    }
}

/// Returns the first letter of a name in lower case, or 0 if the name is empty.
#[inline]
pub fn first_letter(name: &[u8]) -> u8
    ensures { result ≡ first_letter name.now }
{
    match name {
        [first, ..] => first.to_ascii_lowercase(),
        [] => 0,
    }
}

/// Returns the class of a name with this first letter: 0 if it comes before the letters, as `@` does, and else 1.
#[inline]
pub fn class_of(first: u8) -> usize
    ensures value { result ≡ class_of first }
    ensures small { result < 2 }
{
    if first < b'A' { 0 } else { 1 }
}
