//! The names of built-in functions in calls.
ghost use Rattle.std.specs.Prelude.{◌≡◌, IfOk};
ghost use Rattle.moo_syntax_function.specs.Names.{function_of};

use moo_syntax_function::Function;
use moo_value::MooStr;
use std::alloc::AllocError;
use std::marker::Model;

/// Holds the name in a call of a built-in function, as it is spelled there, with the function of that name.
#[derive(Drop)]
pub struct FunctionName {
    text: MooStr,
    function: Option<Function>,
}

impl Model for FunctionName {
    ghost use Rattle.std.specs.Prelude.{◌≡◌, ℕ, List};
    ghost use Rattle.moo_syntax_function.specs.Names.{function_of};

    ghost Value = { List ℕ };

    ghost view = { λ name. name.text };

    ghost invariant = { λ name. name.function ≡ function_of name.text };
}

impl FunctionName {
    /// Returns the name that is spelled so. Err is out of memory.
    pub fn try_new(text: &MooStr) -> Result<FunctionName, AllocError>
        ensures { IfOk result (λ name. name ≡ text.now) }
    {
        let function = Function::from_name(text.as_bytes());
        let text = text.try_clone()?;
        Ok(FunctionName { text, function })
    }

    /// Returns the function of the name, if there is one.
    #[inline(always)]
    pub fn function(&self) -> Option<Function>
        ensures { result ≡ function_of self.now }
    {
        self.function
    }
}
