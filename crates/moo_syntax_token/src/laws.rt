//! Laws of the tokens of every text.
ghost use Rattle.std.specs.Prelude.{◌≡◌, ◌⊎◌, ◌++◌, ◌∷◌, [], ℕ, List, All, take, length, false};
ghost use Rattle.moo_syntax_token.specs.declared.token.Spot.{Spot};
ghost use Rattle.moo_syntax_token.specs.declared.token.Token.{Token};
ghost use Rattle.moo_syntax_token.specs.declared.token.Token.TheVariants.{Bad};
ghost use Rattle.moo_syntax_token.specs.Tokens.{token_at};
ghost use Rattle.moo_syntax_token.specs.Spelling.{spell, HasSpelling, HoldsName, joins};
ghost use Rattle.moo_syntax_token.specs.Lexing.{begins_comment, IsTokens, IsBroken, IsReading, HasNoTokens};
ghost use Rattle.moo_syntax_token.specs.Reading.{IsSound, EndsInBad, IsOnLine};

/// Proves that a text has at most one list of tokens.
pub fn one_token_list()
    ensures { (lines : List (List ℕ)) (ts us : List Spot) → IsTokens lines ts → IsTokens lines us → ts ≡ us }
{}

/// Proves that the lexer finds spots in each text.
pub fn each_text_has_a_reading()
    ensures { (lines : List (List ℕ)) → (spots : List Spot) × IsReading lines spots }
{}

/// Proves that the lexer finds just one list of spots in a text.
pub fn one_reading()
    ensures { (lines : List (List ℕ)) (ts us : List Spot) → IsReading lines ts → IsReading lines us → ts ≡ us }
{}

/// Proves that the lexer finds the tokens of a text, none of them bad, or that the text has none and only the last spot
/// is bad.
pub fn tokens_or_bad()
    ensures { (lines : List (List ℕ)) (spots : List Spot) → IsReading lines spots → (IsTokens lines spots × All IsSound spots) ⊎ (HasNoTokens lines × EndsInBad spots) }
{}

/// Proves that a bad token is the last one, and that the text then has no tokens.
pub fn bad_is_last()
    ensures { (lines : List (List ℕ)) (before after : List Spot) (s : Spot) → IsReading lines (before ++ s ∷ after) → s.token ≡ Bad → (after ≡ []) × HasNoTokens lines }
{}

/// Proves that two texts with the same lines up to that of a token have the same tokens up to it, whatever lines
/// follow.
pub fn same_lines_same_tokens()
    ensures { (lines others : List (List ℕ)) (before after us : List Spot) (s : Spot) → IsReading lines (before ++ s ∷ after) → IsSound s → take s.line others ≡ take s.line lines → IsReading others us → (rest : List Spot) × (us ≡ before ++ s ∷ rest) }
{}

/// Proves that texts with the same lines up to that of the first bad token have the same spots, and that none of them
/// has tokens.
pub fn same_lines_same_fault()
    ensures { (lines others : List (List ℕ)) (before : List Spot) (n : ℕ) → IsBroken lines (before ++ record { token = Bad; line = n } ∷ []) → take n others ≡ take n lines → IsBroken others (before ++ record { token = Bad; line = n } ∷ []) }
{}

/// Proves that each spot has the number of a line of the text.
pub fn lines_within()
    ensures { (lines : List (List ℕ)) (spots : List Spot) → IsReading lines spots → All (IsOnLine lines) spots }
{}

/// Proves that a name is a word that is neither a keyword nor an error's name.
pub fn names_are_names()
    ensures { (lines : List (List ℕ)) (spots : List Spot) → IsReading lines spots → All (λ s. HoldsName s.token) spots }
{}

/// Proves that a spelled token is read back, unless the byte after it joins it, and that no comment begins there.
pub fn spelling_is_read()
    ensures token { (x : Token) (rest : List ℕ) → HasSpelling x → joins x rest ≡ false → token_at (spell x ++ rest) ≡ Some (x, length (spell x)) }
    ensures no_comment { (x : Token) (rest : List ℕ) → HasSpelling x → joins x rest ≡ false → begins_comment (spell x ++ rest) ≡ false }
{}
