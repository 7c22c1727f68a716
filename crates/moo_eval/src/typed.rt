//! Runs programs that are typed in.
ghost use Rattle.std.specs.Prelude.{◌≡◌, List, [], ◌∷◌, negsuc, IfOk};
ghost use Rattle.moo_eval_frame.specs.Seen.{surroundings_of};
ghost use Rattle.moo_builtin.specs.Telling.{Faults};
ghost use Rattle.moo_eval_semantics.specs.Task.{End, TaskEnds};
ghost use Rattle.moo_eval.specs.Ends.{texts};
ghost use Rattle.moo_eval_frame.specs.declared.notice.Notice.{Notice};
ghost use Rattle.moo_eval_semantics.specs.Evaluating.{typed_frame};
ghost use Rattle.moo_eval_semantics.specs.Typed.{nowhere, shown};

use crate::task::{Ended, run_task};
use moo_eval_frame::{Surroundings, TaskEnv};
use moo_eval_hook::typed_frame;
use moo_syntax_program::Program;
use moo_world::World;
use std::alloc::{AllocError, Global};

/// Runs a program that was typed in by nobody (programmer, player and caller are #-1), at the moment 0 and without
/// connections. Returns the lines that show its end: the value's literal, or the traceback. Err is lack of memory,
/// also the program's own. Its notices are dropped.
pub fn run_typed(
    alloc: Global,
    world: &mut World,
    program: Program,
) -> Result<Vec<Vec<u8>>, AllocError>
    ensures { IfOk result (λ lines. (end : End) × (notices : List Notice) × TaskEnds Faults nowhere (typed_frame program (negsuc 0) (negsuc 0) (negsuc 0)) world.old end world.new notices × (texts lines.items ≡ shown end)) }
{
    let start = typed_frame(alloc, program, -1, -1, -1)?;
    match run_task(alloc, world, start, &mut nowhere(alloc)) {
        Ended::Value(value) => {
            let lines = one_line(alloc, value.to_literal(alloc)?)?;
            Ok(lines)
        }
        Ended::Uncaught(lines) => Ok(lines),
        Ended::OutOfTicks(lines) => Ok(lines),
        Ended::Memory => Err(AllocError),
    }
}

// Returns the surroundings of the moment 0 without connections.
fn nowhere(alloc: Global) -> TaskEnv<'static>
    ensures { surroundings_of result.surroundings ≡ nowhere }
{
    TaskEnv {
        surroundings: Surroundings {
            moment: 0,
            connections: &[],
        },
        notices: Vec::new(alloc),
    }
}

/// Returns one line as a list of lines.
pub(crate) fn one_line(alloc: Global, line: Vec<u8>) -> Result<Vec<Vec<u8>>, AllocError>
    ensures { IfOk result (λ lines. texts lines.items ≡ line.items ∷ []) }
{
    let mut lines = Vec::new(alloc);
    lines.push(line)?;
    Ok(lines)
}
