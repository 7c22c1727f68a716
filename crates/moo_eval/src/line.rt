//! Runs a line of input as a program: 'Running a line' of docs/reference/language.md.
ghost use Rattle.std.specs.Prelude.{◌≡◌, ◌≢◌, [], ◌∷◌, IfOk, IfSome, IfNone, OnOk};
ghost use Rattle.moo_value.specs.Tree.{IsText};
ghost use Rattle.moo_value.specs.Size.{IsString};
ghost use Rattle.moo_syntax.specs.declared.syntax_fault.SyntaxFaultKind.TheVariants.{Memory};
ghost use Rattle.moo_syntax.specs.FaultText.{fault_text};
ghost use Rattle.moo_eval.specs.Ends.{texts};
ghost use Rattle.moo_eval_semantics.specs.Line.{program_text, AnswersLine};

use crate::typed::{one_line, run_typed};
use moo_syntax::{Names, SyntaxFault, SyntaxFaultKind, parse};
use moo_value::{MooStr, WEIGHT_LIMIT, is_text};
use moo_world::World;
use std::alloc::{AllocError, Global};

/// Is the status of a line that was run.
const RUN: u8 = 0;

/// Is the status of a line that was refused.
const REFUSED: u8 = 5;

/// Holds the result of a line of input.
#[derive(Drop)]
pub struct EvalLine {
    /// The lines to print, each without an end of line.
    pub lines: Vec<Vec<u8>>,
    /// 0 if the line was run, 5 if it was refused.
    pub status: u8,
}

/// Runs `line`, bytes without an end of line, as the program `return LINE;`. It runs in a frame like that of the
/// built-in `eval` and over an empty world. Returns the value's literal or the lines of a traceback with status 0. If
/// the line is no program, returns the line that gives the reason, with status 5. Err is lack of memory.
pub fn eval_line(alloc: Global, line: &[u8]) -> Result<EvalLine, AllocError>
    ensures { IfOk result (λ answer. AnswersLine line.now (texts answer.lines.items) answer.status) }
{
    if !is_text(line) {
        return refused(alloc, Vec::from_slice(alloc, b"Line 1:  Bad token")?);
    }
    let Some(text) = program_text(alloc, line)? else {
        return refused(
            alloc,
            Vec::from_slice(alloc, b"Line 1:  Too deeply nested")?,
        );
    };
    match parse(alloc, &[text], Names::Known) {
        Ok(program) => {
            let mut world = World::empty(alloc);
            let lines = run_typed(alloc, &mut world, program)?;
            Ok(EvalLine { lines, status: RUN })
        }
        Err(fault) => {
            let lines = one_line(alloc, fault_line(alloc, &fault)?)?;
            Ok(EvalLine {
                lines,
                status: REFUSED,
            })
        }
    }
}

// Returns the result of a refused line of input, which has one line.
fn refused(alloc: Global, line: Vec<u8>) -> Result<EvalLine, AllocError>
    ensures lines { IfOk result (λ answer. texts answer.lines.items ≡ line.items ∷ []) }
    ensures status { IfOk result (λ answer. answer.status ≡ REFUSED) }
{
    let lines = one_line(alloc, line)?;
    Ok(EvalLine {
        lines,
        status: REFUSED,
    })
}

// Returns the program that a line is, or `None` if it is too heavy for a string.
#[tactic(auto, using(crate::proofs::Texts::heavy_text))]
fn program_text(alloc: Global, line: &[u8]) -> Result<Option<MooStr>, AllocError>
    requires { IsText line.now }
    ensures text { IfOk result (λ text. IfSome text (λ s. s ≡ program_text line.now)) }
    ensures fits { IfOk result (λ text. IfSome text (λ _. IsString (program_text line.now))) }
    ensures heavy { IfOk result (λ text. IfNone text (¬ IsString (program_text line.now))) }
{
    if line.len() + b"return ;".len() >= WEIGHT_LIMIT as usize {
        return Ok(None);
    }
    let mut text = Vec::from_slice(alloc, b"return ")?;
    text.extend_from_slice(line)?;
    text.push(b';')?;
    let text = MooStr::try_from_vec(alloc, text).map_err(|_| AllocError)?;
    Ok(Some(text))
}

// Returns the line that describes a fault of the text; Err if the fault is lack of memory.
fn fault_line(alloc: Global, fault: &SyntaxFault) -> Result<Vec<u8>, AllocError>
    ensures text { IfOk result (λ text. text.items ≡ fault_text fault.now) }
    ensures told { OnOk result (fault.now.kind ≢ Memory) }
{
    match fault.kind {
        SyntaxFaultKind::Memory => Err(AllocError),
        _ => {
            let text = fault.text(alloc)?;
            Ok(text)
        }
    }
}
