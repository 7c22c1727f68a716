//! Verbs of #0 that the server itself calls.
ghost use Rattle.std.specs.Prelude.{◌≡◌, IfOk};
ghost use Rattle.moo_value.specs.Size.{IsString};
ghost use Rattle.moo_builtin.specs.Telling.{Faults};
ghost use Rattle.moo_eval_access.specs.SeenCalled.{found_of};
ghost use Rattle.moo_session_task.specs.Frames.{server_frame};
ghost use Rattle.moo_session_task.specs.Tasks.{CallsServerVerb};
ghost use Rattle.moo_session_task.specs.Seen.{seen_answer};

use crate::WorldState;
use crate::tasks::run;
use moo_eval_access::{Call, Found, called_verb, verb_frame};
use moo_eval_frame::Frame;
use moo_value::{MooList, MooStr, Value};
use std::alloc::{AllocError, Global};

/// Calls the verb of #0 with this name at this moment, in seconds, if there is one that can be executed. It gets these
/// arguments, this text as `argstr`, and this number as `player`, which need not be a player's. Returns the value of
/// its task, if it has one. Fails only if memory runs out.
pub fn call_server_verb(
    alloc: Global,
    live: &mut WorldState,
    moment: u32,
    verb: &[u8],
    player: i32,
    args: MooList,
    argstr: MooStr,
) -> Result<Option<Value>, AllocError>
    requires { IsString verb.now }
    ensures { IfOk result (λ v. CallsServerVerb Faults moment verb.now player args argstr live.old (seen_answer v) live.new) }
{
    let Some(found) = called_verb(&live.world, 0, verb) else {
        return Ok(None);
    };
    let frame = server_frame(
        alloc,
        found,
        MooStr::from_slice(alloc, verb)?,
        player,
        args,
        argstr,
    )?;
    run(alloc, live, moment, frame)
}

fn server_frame(
    alloc: Global,
    found: Found<'_>,
    verb: MooStr,
    player: i32,
    args: MooList,
    argstr: MooStr,
) -> Result<Frame, AllocError>
    ensures { IfOk result (λ frame. frame ≡ server_frame (found_of found.entry) verb player args argstr) }
{
    let call = Call {
        this: 0,
        caller: -1,
        player,
        dobj: -1,
        iobj: -1,
        verb,
        argstr,
        dobjstr: MooStr::empty(alloc)?,
        prepstr: MooStr::empty(alloc)?,
        iobjstr: MooStr::empty(alloc)?,
        args,
    };
    verb_frame(alloc, found, call)
}
