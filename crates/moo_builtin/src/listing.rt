//! Computes `verb_code`.
ghost use Rattle.std.specs.Prelude.{◌≡◌, IfOk, IfErr};
ghost use Rattle.moo_value.specs.View.{tree, trees};
ghost use Rattle.moo_builtin_operator.specs.Answer.{limited};
ghost use Rattle.moo_builtin_value.specs.TextAnswers.{Gives};
ghost use Rattle.moo_unparse.specs.Refused.{IsRefusedListing};
ghost use Rattle.moo_builtin_world.specs.Verbs.{told_of_verb};
ghost use Rattle.moo_builtin.specs.Listed.{listed, code_of_verb, chosen_code, verb_code};

use crate::answers::{PERMISSION, QUOTA, TYPE_MISMATCH, VERB_NOT_FOUND, listed};
use moo_builtin_operator::{OperationFault, is_true};
use moo_builtin_world::{chosen, numbered_verb};
use moo_syntax_program::Program;
use moo_unparse::{ListFault, Memory, list_full, list_full_indented, list_short};
use moo_value::{MooStr, Value};
use moo_world::{Rights, World};
use moo_world_object::Verb;
use std::alloc::Global;

/// The layout of a listing.
#[derive(Clone, Copy)]
struct Form {
    full: bool,
    indents: bool,
}

/// Computes `verb_code`: the short listing of a verb's program, or the full one if the third argument is true. It is
/// indented unless the fourth argument is false. A verb without a program has no lines.
pub fn verb_code(
    alloc: Global,
    args: &[Value],
    world: &World,
    programmer: i32,
) -> Result<Value, OperationFault>
    ensures { Gives result (verb_code world.now programmer (trees args.now)) }
{
    match args {
        [Value::Obj(o), choice] => {
            let form = Form {
                full: false,
                indents: true,
            };
            chosen_code(alloc, *o, choice, form, world, programmer)
        }
        [Value::Obj(o), choice, full] => {
            let form = Form {
                full: is_true(full),
                indents: true,
            };
            chosen_code(alloc, *o, choice, form, world, programmer)
        }
        [Value::Obj(o), choice, full, indents] => {
            let form = Form {
                full: is_true(full),
                indents: is_true(indents),
            };
            chosen_code(alloc, *o, choice, form, world, programmer)
        }
        _ => Err(TYPE_MISMATCH),
    }
}

#[tactic(auto, unfolding(crate::specs::Listed::chosen_code))]
fn chosen_code(
    alloc: Global,
    o: i32,
    choice: &Value,
    form: Form,
    world: &World,
    programmer: i32,
) -> Result<Value, OperationFault>
    ensures { Gives result (chosen_code world.now programmer o (tree choice.now) form.full form.indents) }
{
    match chosen(o, choice, world) {
        Some(index) => code_at(alloc, o, index, form, world, programmer),
        None => Err(VERB_NOT_FOUND),
    }
}

fn code_at(
    alloc: Global,
    o: i32,
    index: usize,
    form: Form,
    world: &World,
    programmer: i32,
) -> Result<Value, OperationFault>
    ensures { Gives result (told_of_verb world.now programmer o (code_of_verb form.full form.indents) index) }
{
    if !Rights::may_read_verb(world, programmer, o, index) {
        return Err(PERMISSION);
    }
    match numbered_verb(o, index, world) {
        Some(verb) => code_value(alloc, form, verb),
        None => Err(VERB_NOT_FOUND),
    }
}

#[tactic(auto, using(moo_builtin_value::proofs::Making::limited_made))]
fn code_value(alloc: Global, form: Form, verb: &Verb) -> Result<Value, OperationFault>
    ensures { Gives result (limited (code_of_verb form.full form.indents verb.now)) }
{
    let Some(program) = &verb.program else {
        return listed(alloc, Vec::new(alloc));
    };
    match lines_of(alloc, form, program) {
        Ok(lines) => listed(alloc, lines),
        Err(ListFault::TooHeavy) => Err(QUOTA),
        Err(ListFault::Memory) => Err(OperationFault::Memory),
    }
}

fn lines_of(alloc: Global, form: Form, program: &Program) -> Result<Vec<MooStr>, ListFault>
    ensures ok { IfOk result (λ lines. lines.items ≡ listed form.full form.indents program.now) }
    ensures refused { IfErr result (λ fault. IsRefusedListing fault (listed form.full form.indents program.now)) }
{
    if !form.full {
        return list_short(alloc, program, form.indents);
    }
    if form.indents {
        return list_full_indented(alloc, program);
    }
    match list_full(alloc, program) {
        Ok(lines) => Ok(lines),
        Err(Memory) => Err(ListFault::Memory),
    }
}
