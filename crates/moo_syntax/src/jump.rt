//! The parser of `break` and `continue`.
ghost use Rattle.std.specs.Prelude.{◌≡◌, ◌∷◌, ℕ, List, true, reverse, Some, IfOk, IfErr, MatchResult};
ghost use Rattle.moo_syntax_token.specs.declared.token.Token.{Token};
ghost use Rattle.moo_syntax_grammar.specs.declared.names.Names.{Names};
ghost use Rattle.moo_syntax_grammar.specs.Tokens.{next_passes, is_keyword};
ghost use Rattle.std.specs.List.{list_any};
ghost use Rattle.moo_syntax_grammar.specs.Rules.{has_loop, is_named};
ghost use Rattle.moo_syntax.specs.Cursor.{left};
ghost use Rattle.moo_syntax.specs.Places.{is_jump};
ghost use Rattle.moo_syntax.specs.Outcome.{Moves};
ghost use Rattle.moo_syntax.specs.Statements.{IsStranger, Jumps, HasNotJumped};
ghost use Rattle.moo_syntax.specs.declared.fault.Fault.TheVariants.{BadLoopName, Memory};

use crate::{Cursor, Fault, below};
use moo_syntax_token::{Keyword, Sign, Token};
use moo_value::MooStr;

/// Is true if one of the loops has the name, in any case.
fn has_loop(loops: &[Option<MooStr>], name: &MooStr) -> bool
    ensures { result ≡ list_any (is_named name.now) loops.now }
{
    loops.iter().any(|other| match other {
        Some(other) => name.as_bytes().eq_ignore_ascii_case(other.as_bytes()),
        None => false,
    })
}

/// Refuses a name that comes next with `BadLoopName` if no loop has it.
fn expect_loop(tokens: &Cursor, loops: &[Option<MooStr>]) -> Result<(), Fault>
    ensures { MatchResult result
        (λ _. (name : List ℕ) (rest : List Token) → left tokens.now ≡ Token.Name name ∷ rest → has_loop (reverse loops.now) (Some name) ≡ true)
        (λ f. (f ≡ BadLoopName) × IsStranger (reverse loops.now) (left tokens.now)) }
{
    let Some(name) = tokens.name_next() else {
        return Ok(());
    };
    if has_loop(loops, name) {
        Ok(())
    } else {
        Err(Fault::BadLoopName)
    }
}

/// Parses a `break` or a `continue`. Returns the name of its loop if one is given. Outside loops it is refused at the
/// keyword; in loops, at a name that none of them has.
pub fn jump(
    tokens: &mut Cursor,
    keyword: Keyword,
    loops: &[Option<MooStr>],
    room: u32,
) -> Result<Option<MooStr>, Fault>
    requires keyword { next_passes (is_keyword keyword) (left tokens.old) ≡ true }
    requires jumps { next_passes is_jump (left tokens.old) ≡ true }
    ensures moves { Moves tokens.old tokens.new }
    ensures read { (names : Names) → IfOk result (λ name. Jumps names keyword (reverse loops.now) room tokens.old tokens.new name) }
    ensures failed { (names : Names) → IfErr result (λ f. HasNotJumped names keyword (reverse loops.now) room tokens.old tokens.new f) }
{
    if loops.is_empty() {
        return Err(Fault::BadLoopName);
    }
    tokens.expect_keyword(keyword)?;
    below(room)?;
    expect_loop(tokens, loops)?;
    let name = tokens.take_name()?;
    tokens.expect(Sign::Semicolon)?;
    Ok(name)
}

/// Returns a clone of the name, if there is one.
pub fn name_copy(name: &Option<MooStr>) -> Result<Option<MooStr>, Fault>
    ensures { MatchResult result (λ copy. copy ≡ name.now) (λ f. f ≡ Memory) }
{
    match name {
        Some(name) => Ok(Some(name.try_clone()?)),
        None => Ok(None),
    }
}
