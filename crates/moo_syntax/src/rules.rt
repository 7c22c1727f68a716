//! The rules that a program obeys besides its forms.
ghost use Rattle.std.specs.Prelude.{◌≡◌, true, false, MatchResult};
ghost use Rattle.moo_syntax_ast.specs.Target.{is_target};
ghost use Rattle.moo_syntax_ast.specs.View.{tree};
ghost use Rattle.moo_syntax_grammar.specs.Rules.{may_call};
ghost use Rattle.moo_syntax.specs.declared.fault.Fault.TheVariants.{BadTarget, UnknownFunction};

use crate::fault::Fault;
use moo_syntax_ast::{Expr, is_target};
use moo_syntax_grammar::Names;
use moo_value::MooStr;

/// Refuses an expression that is no target of an assignment with `BadTarget`.
pub fn expect_target(target: &Expr) -> Result<(), Fault>
    ensures { MatchResult result (λ _. is_target (tree target.now) ≡ true) (λ f. (f ≡ BadTarget) × (is_target (tree target.now) ≡ false)) }
{
    if is_target(target) {
        Ok(())
    } else {
        Err(Fault::BadTarget)
    }
}

/// Refuses the name of a function that may not be called with `UnknownFunction`.
pub fn expect_callable(names: Names, name: &MooStr) -> Result<(), Fault>
    ensures { MatchResult result (λ _. may_call names name.now ≡ true) (λ f. (f ≡ UnknownFunction) × (may_call names name.now ≡ false)) }
{
    if names.may_call(name.as_bytes()) {
        Ok(())
    } else {
        Err(Fault::UnknownFunction)
    }
}
