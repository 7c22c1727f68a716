//! The keywords of the language.
ghost use Rattle.std.specs.Prelude.{◌≡◌, find};
ghost use Rattle.moo_syntax_token.specs.Words.{keyword_text, keyword_of, is_spelled, first_letter, likely};

/// A keyword of the language.
#[derive(Clone, Copy, PartialEq, Eq, Debug)]
pub enum Keyword {
    If,
    Else,
    ElseIf,
    EndIf,
    For,
    In,
    EndFor,
    While,
    EndWhile,
    Fork,
    EndFork,
    Return,
    Try,
    EndTry,
    Except,
    Finally,
    Any,
    Break,
    Continue,
}

impl Keyword {
    /// Returns the keyword's spelling.
    pub fn text(self) -> &'static str
        ensures { result.now ≡ keyword_text self }
    {
        match self {
            Keyword::If => "if",
            Keyword::Else => "else",
            Keyword::ElseIf => "elseif",
            Keyword::EndIf => "endif",
            Keyword::For => "for",
            Keyword::In => "in",
            Keyword::EndFor => "endfor",
            Keyword::While => "while",
            Keyword::EndWhile => "endwhile",
            Keyword::Fork => "fork",
            Keyword::EndFork => "endfork",
            Keyword::Return => "return",
            Keyword::Try => "try",
            Keyword::EndTry => "endtry",
            Keyword::Except => "except",
            Keyword::Finally => "finally",
            Keyword::Any => "any",
            Keyword::Break => "break",
            Keyword::Continue => "continue",
        }
    }

    /// Returns the keyword that the word is, in any case, or `None` if it is none.
    pub fn of(word: &[u8]) -> Option<Keyword>
        ensures { result ≡ keyword_of word.now }
    {
        first_spelled(likely(word.len(), first_letter(word)), word)
    }
}

// Returns the first of these keywords that the word spells, in any case.
fn first_spelled(keywords: &[Keyword], word: &[u8]) -> Option<Keyword>
    ensures { result ≡ find (is_spelled word.now) keywords.now }
{
    keywords
        .iter()
        .copied()
        .find(|keyword| is_spelled(*keyword, word))
}

fn is_spelled(keyword: Keyword, word: &[u8]) -> bool
    ensures { result ≡ is_spelled word.now keyword }
{
    keyword.text().as_bytes().eq_ignore_ascii_case(word)
}

// Returns the first letter of a word in lower case, or 0 if the word is empty.
fn first_letter(word: &[u8]) -> u8
    ensures { result ≡ first_letter word.now }
{
    match word {
        [] => 0,
        [first, ..] => first.to_ascii_lowercase(),
    }
}

// Returns the keywords of this length that begin with this lower-case letter.
fn likely(length: usize, letter: u8) -> &'static [Keyword]
    ensures { result.now ≡ likely length letter }
{
    match (length, letter) {
        (2, b'i') => &[Keyword::If, Keyword::In],
        (3, b'f') => &[Keyword::For],
        (3, b't') => &[Keyword::Try],
        (3, b'a') => &[Keyword::Any],
        (4, b'e') => &[Keyword::Else],
        (4, b'f') => &[Keyword::Fork],
        (5, b'e') => &[Keyword::EndIf],
        (5, b'w') => &[Keyword::While],
        (5, b'b') => &[Keyword::Break],
        (6, b'e') => &[
            Keyword::ElseIf,
            Keyword::EndFor,
            Keyword::EndTry,
            Keyword::Except,
        ],
        (6, b'r') => &[Keyword::Return],
        (7, b'e') => &[Keyword::EndFork],
        (7, b'f') => &[Keyword::Finally],
        (8, b'e') => &[Keyword::EndWhile],
        (8, b'c') => &[Keyword::Continue],
        _ => &[],
    }
}
