//! Steps and stages of a function that calls verbs.
ghost use Rattle.std.specs.Prelude.{◌≡◌, IfOk};
ghost use Rattle.moo_eval_access.specs.SeenCalled.{entered_of};
ghost use Rattle.moo_eval_semantics.specs.Progressing.{verb_next};
ghost use Rattle.moo_eval_hook.specs.SeenByHooks.{as_outcome, progress_of};

use moo_eval_access::{Called, failed};
use moo_eval_frame::Failure;
use moo_eval_semantics::Stage;
use moo_value::Value;
use moo_world::WorldFault;
use std::alloc::{AllocError, Global};

/// Holds what a function does next.
#[derive(Drop)]
pub enum Progress<'a> {
    /// It returns this value.
    Done(Value),
    /// A verb runs, and its value goes to the stage.
    VerbNext(Box<Called<'a>>, Stage),
    /// The stage comes at once, as after a verb that returns 0.
    StageNext(Stage),
}

impl<'a> Progress<'a> {
    /// Returns the step in which a verb runs, and its value goes to the stage. The verb is boxed, since most steps have
    /// none. Err is out of memory.
    pub(crate) fn verb_next(
        alloc: Global,
        called: Called<'a>,
        stage: Stage,
    ) -> Result<Progress<'a>, AllocError>
        ensures { IfOk result (λ step. progress_of step ≡ verb_next (entered_of called.entry) stage) }
    {
        let called = Box::new(alloc, called)?;
        Ok(Progress::VerbNext(called, stage))
    }
}

/// Converts a result of the world to the outcome of a function.
pub(crate) fn as_outcome<T: Drop>(answer: Result<T, WorldFault>) -> Result<T, Failure>
    ensures { result ≡ as_outcome answer }
{
    match answer {
        Ok(value) => Ok(value),
        Err(fault) => Err(failed(fault)),
    }
}
