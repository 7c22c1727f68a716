//! Sets the variable of a loop.
ghost use Rattle.std.specs.Prelude.{◌≡◌, ◌<◌, OnOk};
ghost use Rattle.moo_value.specs.View.{tree as value_tree};
ghost use Rattle.moo_eval_slot.specs.Bindings.{bind, with_variable};
ghost use Rattle.moo_eval_frame.specs.Seen.{variables_of};

use moo_eval_frame::Variables;
use moo_syntax_ast::Name;
use moo_value::Value;
use std::alloc::AllocError;

/// Sets a variable to a value, in place if the old and the new value are integers. Err is out of memory.
#[inline(always)]
pub fn set_value(variables: &mut Variables, name: &Name, value: Value) -> Result<(), AllocError>
    ensures { OnOk result (variables_of variables.new ≡ with_variable (variables_of variables.old) (bind name.now (value_tree value))) }
{
    if let Value::Int(number) = &value {
        if variables.try_put_integer(name, *number) {
            return Ok(());
        }
    }
    set_anew(variables, name, value)
}

// Sets a variable to any value. Not inlined, so that the code for a turn with an integer stays short.
#[inline(never)]
fn set_anew(variables: &mut Variables, name: &Name, value: Value) -> Result<(), AllocError>
    ensures { OnOk result (variables_of variables.new ≡ with_variable (variables_of variables.old) (bind name.now (value_tree value))) }
{
    variables.set(name, value)
}
