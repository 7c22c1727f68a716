//! The number of arguments of a call: 'Functions over values' of docs/reference/language.md.
ghost use Rattle.std.specs.Prelude.{◌≡◌, IsTrue, Some};
ghost use Rattle.moo_value.specs.declared.error_code.ErrorCode.TheVariants.{Arguments};
ghost use Rattle.moo_syntax_function.specs.Table.{row};
ghost use Rattle.moo_syntax_function.specs.Check.{mismatch};

use moo_eval_frame::Gathered;
use moo_syntax_function::Function;

/// Returns whether there are more values than the function takes. A call with them raises E_ARGS whatever they are.
#[tactic(auto, using(crate::proofs::Counted::too_many))]
#[inline(always)]
pub fn are_too_many(function: Function, values: &Gathered) -> bool
    ensures { IsTrue result → mismatch (row function) values.now ≡ Some Arguments }
{
    let row = function.row();
    row.more.is_none() && row.needed.len() + row.optional.len() < values.len()
}
