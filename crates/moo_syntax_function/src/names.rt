//! The function that a name calls.
ghost use Rattle.std.specs.Prelude.{◌≡◌, IfSome, find};
ghost use Rattle.moo_syntax_function.specs.Table.{function_name};
ghost use Rattle.moo_syntax_function.specs.Names.{function_of, is_called};

use crate::function::{Function, of_length};
use crate::likely::likely;

impl Function {
    /// Returns the function that has this name, in any case, or `None` if no function has it.
    #[tactic(auto, using(crate::proofs::Naming::found_by_length))]
    pub fn from_name(name: &[u8]) -> Option<Function>
        ensures { result ≡ function_of name.now }
    {
        if let Some(function) = spelled_out(name) {
            return Some(function);
        }
        first_called(of_length(name.len()), name)
    }
}

// Returns the function that has this name in lower case, as most calls spell it.
fn spelled_out(name: &[u8]) -> Option<Function>
    ensures { IfSome result (λ function. name.now ≡ function_name function) }
{
    let function = likely(name)?;
    if name != function.name().as_bytes() {
        return None;
    }
    Some(function)
}

// Returns the first of these functions that has this name, in any case.
#[inline(never)]
fn first_called(functions: &[Function], name: &[u8]) -> Option<Function>
    ensures { result ≡ find (is_called name.now) functions.now }
{
    functions
        .iter()
        .copied()
        .find(|function| is_called(*function, name))
}

fn is_called(function: Function, name: &[u8]) -> bool
    ensures { result ≡ is_called name.now function }
{
    function.name().as_bytes().eq_ignore_ascii_case(name)
}
