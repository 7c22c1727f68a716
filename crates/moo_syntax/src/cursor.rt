//! A cursor over the tokens of a text.
ghost use Rattle.moo_syntax_grammar.specs.Predictive.{begins_statement};
ghost use Rattle.std.specs.Prelude.{◌≡◌, ◌+◌, ◌≤◌, ◌<◌, ◌∷◌, true, false, drop, length};

use crate::fault::Fault;
use moo_syntax_ast::{Literal, Text};
use moo_syntax_grammar::{Level, Operator, operator_at};
use moo_syntax_token::{Keyword, Sign, Spot, Token};
use moo_value::MooStr;

/// A position among the tokens. The tokens from it on are still to be read.
#[derive(Drop)]
pub struct Cursor<'a> {
    pub spots: &'a [Spot],
    pub at: usize,
    ghost in_range: { at ≤ length spots.now },
}

impl Cursor<'_> {
    ghost use Rattle.std.specs.Prelude.{IsTrue, IfOk, MatchBool, MatchOption, MatchResult, OnErr, is_some};
    ghost use Rattle.moo_syntax_grammar.specs.Tokens.{words, is_sign, is_keyword, literal_at, name_at, operator_at, is_bad, next_passes};
    ghost use Rattle.moo_syntax_grammar.specs.Predictive.{is_closer, begins_statement};
    ghost use Rattle.moo_syntax.specs.Cursor.{left, Takes, TakesLiteral, TakesOperator, TakesMinuses, Stays, StaysUnless};
    ghost use Rattle.moo_syntax.specs.declared.fault.Fault.TheVariants.{Memory, Unexpected};

    /// Is true if the sign comes next.
    pub fn is_at(&self, sign: Sign) -> bool
        ensures { result ≡ next_passes (is_sign sign) (left self.now) }
    {
        match self.spots.get(self.at) {
            Some(
                Spot {
                    token: Token::Sign(found),
                    ..
                },
            ) => *found == sign,
            _ => false,
        }
    }

    /// Is true if a closing parenthesis or brace comes next.
    pub fn is_at_closer(&self) -> bool
        ensures { result ≡ next_passes is_closer (left self.now) }
    {
        match self.spots.get(self.at) {
            Some(
                Spot {
                    token: Token::Sign(found),
                    ..
                },
            ) => *found == Sign::RightParen || *found == Sign::RightBrace,
            _ => false,
        }
    }

    /// Refuses the next token with `Unexpected` if the sign is needed and does not come next. Takes no token.
    pub fn require(&self, needed: bool, sign: Sign) -> Result<(), Fault>
        ensures { MatchResult result
            (λ _. needed ≡ true → next_passes (is_sign sign) (left self.now) ≡ true)
            (λ f. (f ≡ Unexpected) × (needed ≡ true) × (next_passes (is_sign sign) (left self.now) ≡ false)) }
    {
        if needed && !self.is_at(sign) {
            return Err(Fault::Unexpected);
        }
        Ok(())
    }

    /// Is true if `Bad` comes next.
    pub fn is_at_bad(&self) -> bool
        ensures { result ≡ next_passes is_bad (left self.now) }
    {
        matches!(
            self.spots.get(self.at),
            Some(Spot {
                token: Token::Bad,
                ..
            })
        )
    }

    /// Is true if a statement begins with the next token.
    pub fn is_at_statement(&self) -> bool
        ensures { result ≡ next_passes begins_statement (left self.now) }
    {
        match self.spots.get(self.at) {
            Some(spot) => begins_statement(&spot.token),
            None => false,
        }
    }

    /// Is true if the keyword comes next.
    pub fn is_at_keyword(&self, keyword: Keyword) -> bool
        ensures { result ≡ next_passes (is_keyword keyword) (left self.now) }
    {
        match self.spots.get(self.at) {
            Some(
                Spot {
                    token: Token::Keyword(found),
                    ..
                },
            ) => *found == keyword,
            _ => false,
        }
    }

    /// Returns the name that comes next, if one does. Takes no token.
    pub fn name_next(&self) -> Option<&MooStr>
        ensures { MatchOption result (next_passes (λ x. is_some (name_at x)) (left self.now) ≡ false) (λ name. left self.now ≡ Token.Name name.now ∷ words (drop (self.now.at + 1) self.now.spots.now)) }
    {
        match self.spots.get(self.at) {
            Some(
                Spot {
                    token: Token::Name(name),
                    ..
                },
            ) => Some(name),
            _ => None,
        }
    }

    /// Takes the sign if it comes next. Returns whether it did.
    pub fn take(&mut self, sign: Sign) -> bool
        ensures { MatchBool result (Takes (Token.Sign sign) self.old self.new) (Stays (is_sign sign) self.old self.new) }
    {
        let Some(
            Spot {
                token: Token::Sign(found),
                ..
            },
        ) = self.spots.get(self.at)
        else {
            return false;
        };
        if *found != sign {
            return false;
        }
        self.at += 1;
        true
    }

    /// Takes the sign. Refuses any other token with `Unexpected`.
    pub fn expect(&mut self, sign: Sign) -> Result<(), Fault>
        ensures { MatchResult result (λ _. Takes (Token.Sign sign) self.old self.new) (λ f. (f ≡ Unexpected) × Stays (is_sign sign) self.old self.new) }
    {
        if self.take(sign) {
            Ok(())
        } else {
            Err(Fault::Unexpected)
        }
    }

    /// Takes the sign if it is allowed and comes next. Returns whether it did.
    pub fn take_where(&mut self, may_stand: bool, sign: Sign) -> bool
        ensures { MatchBool result ((may_stand ≡ true) × Takes (Token.Sign sign) self.old self.new) (StaysUnless may_stand (is_sign sign) self.old self.new) }
    {
        if may_stand { self.take(sign) } else { false }
    }

    /// Takes the keyword if it comes next. Returns whether it did.
    pub fn take_keyword(&mut self, keyword: Keyword) -> bool
        ensures { MatchBool result (Takes (Token.Keyword keyword) self.old self.new) (Stays (is_keyword keyword) self.old self.new) }
    {
        let Some(
            Spot {
                token: Token::Keyword(found),
                ..
            },
        ) = self.spots.get(self.at)
        else {
            return false;
        };
        if *found != keyword {
            return false;
        }
        self.at += 1;
        true
    }

    /// Takes the keyword. Refuses any other token with `Unexpected`.
    pub fn expect_keyword(&mut self, keyword: Keyword) -> Result<(), Fault>
        ensures { MatchResult result (λ _. Takes (Token.Keyword keyword) self.old self.new) (λ f. (f ≡ Unexpected) × Stays (is_keyword keyword) self.old self.new) }
    {
        if self.take_keyword(keyword) {
            Ok(())
        } else {
            Err(Fault::Unexpected)
        }
    }

    /// Is true if an operator of the level comes next.
    #[inline]
    pub fn is_at_operator(&self, level: Level) -> bool
        ensures { result ≡ next_passes (λ x. is_some (operator_at level x)) (left self.now) }
    {
        match self.spots.get(self.at) {
            Some(spot) => operator_at(level, &spot.token).is_some(),
            None => false,
        }
    }

    /// Takes an operator of the level if one comes next.
    pub fn take_operator(&mut self, level: Level) -> Option<Operator>
        ensures { MatchOption result (Stays (λ x. is_some (operator_at level x)) self.old self.new) (λ o. TakesOperator level o self.old self.new) }
    {
        let spot = self.spots.get(self.at)?;
        let found = operator_at(level, &spot.token)?;
        self.at += 1;
        Some(found)
    }

    /// Takes all minuses that come next. Returns how many it took.
    pub fn take_minuses(&mut self) -> usize
        ensures { TakesMinuses result self.old self.new }
    {
        let mut count = 0;
        while self.take(Sign::Minus) {
            count += 1;
        }
        count
    }

    /// Takes a literal if one comes next.
    pub fn take_literal(&mut self) -> Result<Option<Literal>, Fault>
        ensures { MatchResult result
            (λ found. MatchOption found (Stays (λ x. is_some (literal_at x)) self.old self.new) (λ l. TakesLiteral l self.old self.new))
            (λ f. (f ≡ Memory) × (self.new ≡ self.old)) }
    {
        let Some(Spot { token, .. }) = self.spots.get(self.at) else {
            return Ok(None);
        };
        let found = match token {
            Token::Integer(number) => Literal::Integer(*number),
            Token::Object(number) => Literal::Object(*number),
            Token::Error(error) => Literal::Error(*error),
            Token::Str(text) => Literal::Str(Text::new(text.try_clone()?)),
            _ => return Ok(None),
        };
        self.at += 1;
        Ok(Some(found))
    }

    /// Takes a name if one comes next.
    pub fn take_name(&mut self) -> Result<Option<MooStr>, Fault>
        ensures { MatchResult result
            (λ found. MatchOption found (Stays (λ x. is_some (name_at x)) self.old self.new) (λ s. Takes (Token.Name s) self.old self.new))
            (λ f. (f ≡ Memory) × (self.new ≡ self.old)) }
    {
        let Some(
            Spot {
                token: Token::Name(name),
                ..
            },
        ) = self.spots.get(self.at)
        else {
            return Ok(None);
        };
        let name = name.try_clone()?;
        self.at += 1;
        Ok(Some(name))
    }
}

fn begins_statement(token: &Token) -> bool
    ensures { result ≡ begins_statement token.now }
{
    match token {
        Token::Keyword(keyword) => matches!(
            keyword,
            Keyword::If
                | Keyword::For
                | Keyword::While
                | Keyword::Break
                | Keyword::Continue
                | Keyword::Return
                | Keyword::Try
        ),
        Token::Sign(sign) => matches!(
            sign,
            Sign::Semicolon
                | Sign::Bang
                | Sign::Minus
                | Sign::Dollar
                | Sign::LeftParen
                | Sign::LeftBrace
                | Sign::Backquote
        ),
        Token::Bad => false,
        Token::Integer(_) | Token::Object(_) | Token::Error(_) | Token::Str(_) | Token::Name(_) =>
            true,
    }
}
