//! The function names that a program may call.
ghost use Rattle.std.specs.Prelude.{◌≡◌};
ghost use Rattle.moo_syntax_grammar.specs.Rules.{may_call};

use moo_syntax_function::Function;

/// The function names that a program may call.
#[derive(Clone, Copy, Debug, PartialEq, Eq)]
pub enum Names {
    /// All names.
    Any,
    /// The names of the built-in functions, in any case.
    Known,
}

impl Names {
    /// Is true if a program may call a function of this name.
    pub fn may_call(self, name: &[u8]) -> bool
        ensures { result ≡ may_call self name.now }
    {
        match self {
            Names::Any => true,
            Names::Known => Function::from_name(name).is_some(),
        }
    }
}
