//! Computes `set_verb_code`.
ghost use Rattle.std.specs.Prelude.{◌≡◌, ◌∷◌, ◌++◌, [], true, None, Ok, Err, IsOk, IfOk, IfErr, OnOk};
ghost use Rattle.moo_value.specs.declared.error_code.ErrorCode.{ErrorCode};
ghost use Rattle.moo_value.specs.Tree.{object, string, list_of};
ghost use Rattle.moo_value.specs.View.{tree, trees};
ghost use Rattle.moo_builtin_operator.specs.declared.fault.OperationFault.TheVariants.{Raise, Memory};
ghost use Rattle.moo_builtin_operator.specs.Answer.{limited};
ghost use Rattle.moo_builtin_value.specs.TextAnswers.{Gives};
ghost use Rattle.moo_world.specs.Calls.{number_of};
ghost use Rattle.moo_world.specs.VerbCalls.{program_raises};
ghost use Rattle.moo_builtin.specs.Telling.{Faults};
ghost use Rattle.moo_builtin.specs.Answers.{Comes, IsAnswered};
ghost use Rattle.moo_builtin.specs.Setting.{is_programmer, may_program, place_to_set, verb_to_set, lines_in, given_lines, with_code, is_of_text, told_fault, IsSet, SetsText, SetsCode};
ghost use Rattle.moo_builtin.specs.CodeCalls.{SetMayLack};
ghost use Rattle.moo_builtin_world.specs.Answers.{LacksOnly};

use crate::answers::{QUOTA, TYPE_MISMATCH, listed};
use moo_builtin_operator::OperationFault;
use moo_builtin_world::chosen;
use moo_syntax::{SyntaxFault, SyntaxFaultKind, parse};
use moo_syntax_grammar::Names;
use moo_syntax_program::Program;
use moo_value::{ErrorCode, MooStr, Value, ValueFault};
use moo_world::{Rights, World, WorldFault};
use std::alloc::{AllocError, Global};

/// Computes `set_verb_code`: sets a verb's program and returns `{}`. For a text that is no program it changes
/// nothing, and returns a list with the line that describes its fault.
pub fn set_verb_code(
    alloc: Global,
    args: &[Value],
    world: &mut World,
    programmer: i32,
) -> Result<Value, OperationFault>
    ensures answer { Comes result world.old world.new (SetsCode Faults world.old programmer (trees args.now)) }
    ensures memory { LacksOnly result (SetMayLack world.old programmer (trees args.now)) }
{
    match args {
        [Value::Obj(o), choice, text] => set_chosen(alloc, *o, choice, text, world, programmer),
        _ => Err(TYPE_MISMATCH),
    }
}

fn set_chosen(
    alloc: Global,
    o: i32,
    choice: &Value,
    text: &Value,
    world: &mut World,
    programmer: i32,
) -> Result<Value, OperationFault>
    ensures answer { Comes result world.old world.new (SetsCode Faults world.old programmer (object o ∷ tree choice.now ∷ tree text.now ∷ [])) }
    ensures memory { LacksOnly result (IsOk (verb_to_set world.old programmer o (tree choice.now))) }
{
    match verb_to_set(o, choice, world, programmer) {
        Ok(index) => set_text(alloc, o, index, text, world),
        Err(error) => Err(OperationFault::Raise(error)),
    }
}

// Returns the place of the verb, if the programmer may give it a program.
#[tactic(auto, unfolding(crate::specs::Setting::verb_to_set))]
fn verb_to_set(o: i32, choice: &Value, world: &World, programmer: i32) -> Result<usize, ErrorCode>
    ensures { result ≡ verb_to_set world.now programmer o (tree choice.now) }
{
    match chosen(o, choice, world) {
        Some(index) => place_to_set(o, index, world, programmer),
        None => Err(ErrorCode::VerbNotFound),
    }
}

fn place_to_set(o: i32, index: usize, world: &World, programmer: i32) -> Result<usize, ErrorCode>
    ensures { result ≡ place_to_set world.now programmer o index }
{
    match world.try_set_program(o, index, true) {
        Ok(()) => {}
        Err(WorldFault::Raise(error)) => return Err(error),
        Err(WorldFault::Memory) => unreachable!(),
    }
    if may_program(o, index, world, programmer) {
        Ok(index)
    } else {
        Err(ErrorCode::Permission)
    }
}

fn may_program(o: i32, index: usize, world: &World, programmer: i32) -> bool
    ensures { result ≡ may_program world.now programmer o index }
{
    Rights::may_write_verb(world, programmer, o, index) && is_programmer(world, programmer)
}

/// Returns whether somebody has the programmer flag. Wizards need it too.
pub fn is_programmer(world: &World, programmer: i32) -> bool
    ensures { result ≡ is_programmer world.now programmer }
{
    match world.object(programmer) {
        Some(object) => object.flags().programmer,
        None => false,
    }
}

fn set_text(
    alloc: Global,
    o: i32,
    index: usize,
    text: &Value,
    world: &mut World,
) -> Result<Value, OperationFault>
    requires { program_raises world.old (number_of world.old.objects o) index true ≡ None }
    ensures { Comes result world.old world.new (SetsText Faults world.old o (tree text.now) index) }
{
    let lines = given_lines(alloc, text)?;
    set_lines(alloc, o, index, &lines, world)
}

fn set_lines(
    alloc: Global,
    o: i32,
    index: usize,
    lines: &[MooStr],
    world: &mut World,
) -> Result<Value, OperationFault>
    requires { program_raises world.old (number_of world.old.objects o) index true ≡ None }
    ensures { Comes result world.old world.new (IsSet Faults world.old o index lines.now) }
{
    match parse(alloc, lines, Names::Known) {
        Ok(program) => set_program(alloc, o, index, program, world),
        Err(fault) => told_fault(alloc, &fault),
    }
}

fn given_lines(alloc: Global, text: &Value) -> Result<Vec<MooStr>, OperationFault>
    ensures ok { IfOk result (λ lines. given_lines (tree text.now) ≡ Ok lines.items) }
    ensures err { (e : ErrorCode) → result ≡ Err (Raise e) → given_lines (tree text.now) ≡ Err e }
{
    match text {
        Value::List(list) => lines_in(alloc, list.elements()),
        _ => Err(TYPE_MISMATCH),
    }
}

fn lines_in(alloc: Global, elements: &[Value]) -> Result<Vec<MooStr>, OperationFault>
    ensures ok { IfOk result (λ lines. lines_in (trees elements.now) ≡ Ok lines.items) }
    ensures err { (e : ErrorCode) → result ≡ Err (Raise e) → lines_in (trees elements.now) ≡ Err e }
{
    let mut lines = Vec::new(alloc);
    for element in elements {
        let Value::Str(line) = element else {
            return Err(TYPE_MISMATCH);
        };
        if add_line(line, &mut lines).is_err() {
            return Err(OperationFault::Memory);
        }
    }
    Ok(lines)
}

fn add_line(line: &MooStr, lines: &mut Vec<MooStr>) -> Result<(), AllocError>
    ensures { OnOk result (lines.new.items ≡ lines.old.items ++ (line.now ∷ [])) }
{
    lines.push(line.try_clone()?)?;
    Ok(())
}

fn set_program(
    alloc: Global,
    o: i32,
    index: usize,
    program: Program,
    world: &mut World,
) -> Result<Value, OperationFault>
    requires { program_raises world.old (number_of world.old.objects o) index true ≡ None }
    ensures ok { IfOk result (λ v. (tree v ≡ list_of []) × (world.new ≡ with_code world.old o index program)) }
    ensures err { IfErr result (λ fault. (fault ≡ Memory) × (world.new ≡ world.old)) }
{
    let nothing = listed(alloc, Vec::new(alloc))?;
    match world.set_program(o, index, Some(program)) {
        Ok(()) => Ok(nothing),
        Err(_) => unreachable!(),
    }
}

/// Returns a list with the line that describes a fault of the text; any other fault is Err.
#[tactic(auto, using(moo_builtin_value::proofs::Making::limited_made))]
pub fn told_fault(alloc: Global, fault: &SyntaxFault) -> Result<Value, OperationFault>
    ensures text { Gives result (told_fault fault.now) }
    ensures kind { IsAnswered result → is_of_text fault.now.kind ≡ true }
{
    if !is_of_text(&fault.kind) {
        return Err(OperationFault::Memory);
    }
    let Ok(text) = fault.text(alloc) else {
        return Err(OperationFault::Memory);
    };
    match MooStr::try_from_vec(alloc, text) {
        Ok(line) => only(alloc, line),
        Err(ValueFault::TooHeavy) => Err(QUOTA),
        Err(_) => Err(OperationFault::Memory),
    }
}

#[tactic(auto, using(moo_builtin_value::proofs::Making::limited_made))]
fn only(alloc: Global, line: MooStr) -> Result<Value, OperationFault>
    ensures { Gives result (limited (list_of (string line ∷ []))) }
{
    match one(alloc, line) {
        Ok(lines) => listed(alloc, lines),
        Err(AllocError) => Err(OperationFault::Memory),
    }
}

fn one(alloc: Global, line: MooStr) -> Result<Vec<MooStr>, AllocError>
    ensures { IfOk result (λ lines. lines.items ≡ line ∷ []) }
{
    Ok(Vec::from_array(alloc, [line])?)
}

fn is_of_text(kind: &SyntaxFaultKind) -> bool
    ensures { result ≡ is_of_text kind.now }
{
    !matches!(kind, SyntaxFaultKind::Memory)
}
