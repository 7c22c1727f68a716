//! Frames and the entries of a trace: 'Naming Values Within a Verb' and 'MOO Tasks' of the LambdaMOO Programmer's
//! Manual, 'Variables' and 'Tracebacks' of docs/reference/language.md. Objects are given by their numbers, #-1 for
//! none.
ghost use Rattle.std.specs.Prelude.{◌≡◌, IfOk};
ghost use Rattle.moo_eval_frame.specs.State.{trace_frame, running_of};
ghost use Rattle.moo_eval_frame.specs.Seen.{trace_of};

use crate::callers::Callers;
use crate::surroundings::Surroundings;
use crate::variables::Variables;
use moo_syntax_program::Program;
use moo_value::{MooList, MooStr};
use std::alloc::{AllocError, Global};

/// Holds a program that is to run, and the values that its code begins with.
#[derive(Drop)]
pub struct Frame {
    pub program: Program,
    /// The d bit: errors are raised. Without it an expression that fails has the error as its value.
    pub d: bool,
    /// With whose rights the code begins.
    pub programmer: i32,
    /// The object that the verb was called on.
    pub this: i32,
    /// The object that has the verb.
    pub definer: i32,
    /// The object whose verb made the call: its `this`.
    pub caller: i32,
    /// The player who began the task, or another one whom a wizard put into `player` before a call.
    pub player: i32,
    /// The direct object of the command.
    pub dobj: i32,
    /// The indirect object of the command.
    pub iobj: i32,
    /// All names of the verb.
    pub names: MooStr,
    /// The name that it was called by.
    pub verb: MooStr,
    /// The text after the first word of the command.
    pub argstr: MooStr,
    /// The words of the direct object.
    pub dobjstr: MooStr,
    /// The preposition, as the command has it.
    pub prepstr: MooStr,
    /// The words of the indirect object.
    pub iobjstr: MooStr,
    /// The arguments of the call, or the words of the command.
    pub args: MooList,
}

/// Holds the running code and what is fixed while it runs. A traceback shows some of it, and called verbs get some of
/// it.
#[derive(Drop)]
pub struct Running {
    pub program: Program,
    /// The d bit: errors are raised. Without it an expression that fails has the error as its value.
    pub d: bool,
    /// With whose rights the code begins.
    pub programmer: i32,
    /// The object that the verb was called on.
    pub this: i32,
    /// The object that has the verb.
    pub definer: i32,
    /// The player who began the task, or another one whom a wizard put into `player` before a call.
    pub player: i32,
    /// All names of the verb.
    pub names: MooStr,
    /// The name that it was called by.
    pub verb: MooStr,
}

/// Holds the data of one frame of a task, as a traceback, `callers` and a handler show it.
#[derive(Drop)]
pub struct TraceFrame {
    /// The object that the verb was called on.
    pub this: i32,
    /// The name that it was called by.
    pub verb: MooStr,
    /// With whose rights the frame runs now.
    pub programmer: i32,
    /// The object that has the verb.
    pub definer: i32,
    /// The player for whom the frame runs, as in `Running`.
    pub player: i32,
    /// All names of the verb, which a traceback shows.
    pub names: MooStr,
}

/// Holds one entry of a trace. A trace goes from the running code to the code that began the task.
#[derive(Drop)]
pub enum TraceEntry {
    /// A frame of a verb, or of a program that is typed in.
    Verb(TraceFrame),
    /// The name of a built-in function, which called the code of the entry before this one.
    BuiltIn(MooStr),
}

/// Holds the running frame and its callers, with the surroundings of the task.
#[derive(Drop)]
pub struct CallStack<'a> {
    pub running: Running,
    /// The nearest first.
    pub callers: Callers<'a>,
    pub surroundings: &'a Surroundings<'a>,
}

impl Frame {
    /// Returns what is fixed while the frame's code runs.
    pub fn running(self) -> Running
        ensures { result ≡ running_of self }
    {
        Running {
            program: self.program,
            d: self.d,
            programmer: self.programmer,
            this: self.this,
            definer: self.definer,
            player: self.player,
            names: self.names,
            verb: self.verb,
        }
    }
}

impl Running {
    /// Returns the data of the frame while it runs for this programmer.
    pub(crate) fn trace_frame(&self, programmer: i32) -> Result<TraceFrame, AllocError>
        ensures { IfOk result (λ told. told ≡ trace_frame self.now programmer) }
    {
        Ok(TraceFrame {
            this: self.this,
            verb: self.verb.try_clone()?,
            programmer,
            definer: self.definer,
            player: self.player,
            names: self.names.try_clone()?,
        })
    }
}

impl CallStack<'_> {
    /// Returns the entries from the running frame down.
    pub fn trace(&self, alloc: Global, active: &Activation) -> Result<Vec<TraceEntry>, AllocError>
        ensures { IfOk result (λ all. all.items ≡ trace_of self.now active.now) }
    {
        let running = self.running.trace_frame(active.programmer)?;
        let mut all = Vec::new(alloc);
        all.push(TraceEntry::Verb(running))?;
        self.callers.append_to(alloc, &mut all)?;
        Ok(all)
    }

    /// Returns the callers of a verb that the running frame calls.
    #[inline(always)]
    pub fn callers_of_called<'b>(&'b self, active: &Activation) -> Result<Callers<'b>, AllocError>
        ensures { IfOk result (λ all. all ≡ trace_of self.now active.now) }
    {
        let callers: &'b Callers<'b> = &self.callers;
        Callers::called_by(&self.running, active.programmer, callers)
    }
}

/// Holds the state of a frame that changes while it runs.
#[derive(Drop)]
pub struct Activation {
    pub variables: Variables,
    /// With whose rights the code goes on: `set_task_perms` changes it.
    pub programmer: i32,
}
