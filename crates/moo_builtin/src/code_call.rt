//! The built-in functions on the code of verbs.
ghost use Rattle.std.specs.Prelude.{◌≡◌, true};
ghost use Rattle.moo_value.specs.View.{trees};
ghost use Rattle.moo_builtin.specs.Telling.{Faults};
ghost use Rattle.moo_builtin.specs.Answers.{Comes, ComesSome};
ghost use Rattle.moo_builtin.specs.CodeCalls.{is_of_code, Answers, MayLack};
ghost use Rattle.moo_builtin_world.specs.Answers.{LacksOnly, LacksOnlySome};

use crate::listing::verb_code;
use crate::setting::set_verb_code;
use moo_builtin_operator::OperationFault;
use moo_syntax_function::Function;
use moo_value::Value;
use moo_world::World;
use std::alloc::Global;

/// Calls a function that lists or sets the code of a verb, for a programmer. The arguments fit its row of the table.
/// A missing verb raises E_VERBNF; the programmer's right comes last. After an error or lack of memory the world is
/// as it was. Memory is needed only for a listing, or for a text once its verb may be set. `None`, with nothing
/// changed, for any other function.
#[inline(always)]
pub fn call_code(
    alloc: Global,
    function: Function,
    args: &[Value],
    world: &mut World,
    programmer: i32,
) -> Option<Result<Value, OperationFault>>
    ensures answer { ComesSome result world.old world.new (is_of_code function) (Answers Faults function world.old programmer (trees args.now)) }
    ensures memory { LacksOnlySome result (MayLack function world.old programmer (trees args.now)) }
{
    if !is_of_code(function) {
        return None;
    }
    Some(answer(alloc, function, args, world, programmer))
}

#[inline(always)]
fn is_of_code(function: Function) -> bool
    ensures { result ≡ is_of_code function }
{
    matches!(function, Function::VerbCode | Function::SetVerbCode)
}

#[inline(never)]
fn answer(
    alloc: Global,
    function: Function,
    args: &[Value],
    world: &mut World,
    programmer: i32,
) -> Result<Value, OperationFault>
    requires { is_of_code function ≡ true }
    ensures answer { Comes result world.old world.new (Answers Faults function world.old programmer (trees args.now)) }
    ensures memory { LacksOnly result (MayLack function world.old programmer (trees args.now)) }
{
    match function {
        Function::VerbCode => verb_code(alloc, args, world, programmer),
        _ => set_verb_code(alloc, args, world, programmer),
    }
}
