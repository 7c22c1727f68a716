//! The limit on open brackets.
ghost use Rattle.std.specs.Prelude.{◌≡◌, ◌<◌, ◌≤◌, ◌+◌, length, take, MatchOption};
ghost use Rattle.moo_syntax_ast.specs.Limits.{most_brackets};
ghost use Rattle.moo_syntax_grammar.specs.Tokens.{words};
ghost use Rattle.moo_syntax_grammar.specs.Brackets.{open_after, most_open};

use moo_syntax_ast::MOST_BRACKETS;
use moo_syntax_token::{Sign, Spot, Token};

/// Returns how many brackets are open after the token.
fn open_after(opened: u32, token: &Token) -> u32
    requires { opened ≤ most_brackets }
    ensures { result ≡ open_after opened token.now }
{
    match token {
        Token::Sign(Sign::LeftParen | Sign::LeftBracket | Sign::LeftBrace) => opened + 1,
        Token::Sign(Sign::RightParen | Sign::RightBracket | Sign::RightBrace) =>
            opened.saturating_sub(1),
        _ => opened,
    }
}

/// Returns the place of the first bracket that opens when the greatest number of brackets is open already.
pub fn bracket_too_many(spots: &[Spot]) -> Option<usize>
    ensures { MatchOption result
        (most_open (words spots.now) ≤ most_brackets)
        (λ at. (at < length spots.now) × (most_open (words (take at spots.now)) ≤ most_brackets) × (most_brackets < most_open (words (take (at + 1) spots.now)))) }
{
    let mut opened = 0;
    for (at, spot) in spots.iter().enumerate() {
        opened = open_after(opened, &spot.token);
        if opened > MOST_BRACKETS {
            return Some(at);
        }
    }
    None
}
