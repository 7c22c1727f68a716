//! The work of a line of a script.
ghost use Rattle.std.specs.Prelude.{◌≡◌, ◌++◌, codes, IfErr, IfOk};
ghost use Rattle.moo_cli_script.specs.ScriptLines.{Step, step};
ghost use Rattle.moo_cli_script.specs.Script.{Does, Fits, IsRefused};
ghost use Rattle.moo_cli_script.specs.Works.{IsWork, is_show};

use crate::ScriptLine;
use crate::script::{Refused, Script};
use moo_server_core::{Event, StartApplication};
use std::alloc::{AllocError, Global};

/// The work that a line of a script asks for.
#[derive(Drop)]
pub(crate) enum Work {
    /// Give the server an event.
    Event(Event),
    /// Set a call of the disk to fail, without or with its effect.
    Fail(u64, bool),
    /// Open another server.
    Reopen,
    /// Crash with the text of this number, and open another server.
    Crash(usize),
    /// Print the main text.
    Show,
}

impl Work {
    pub(crate) fn is_show(&self) -> bool
        ensures { result ≡ is_show self.now }
    {
        matches!(self, Work::Show)
    }
}

/// Returns the work of a line. Fails only if memory runs out.
pub(crate) fn work_of(alloc: Global, asked: ScriptLine<'_>) -> Result<Work, AllocError>
    ensures { IfOk result (λ work. IsWork work (step asked.entry)) }
{
    let work = match asked {
        ScriptLine::Open(c) => Work::Event(Event::Open(c)),
        ScriptLine::Line(c, text) => Work::Event(Event::Bytes(c, typed(alloc, text)?)),
        ScriptLine::Bytes(c, bytes) => Work::Event(Event::Bytes(c, bytes)),
        ScriptLine::Hangup(c) => Work::Event(Event::Hangup(c)),
        ScriptLine::Moment(moment) => Work::Event(Event::Moment(moment)),
        ScriptLine::Flush => Work::Event(Event::Flush),
        ScriptLine::Fail(k, has_effect) => Work::Fail(k, has_effect),
        ScriptLine::Reopen => Work::Reopen,
        ScriptLine::Crash(i) => Work::Crash(i),
        ScriptLine::Show => Work::Show,
    };
    Ok(work)
}

// Returns the text and an LF.
fn typed(alloc: Global, text: &[u8]) -> Result<Vec<u8>, AllocError>
    ensures { IfOk result (λ bytes. bytes.items ≡ text.now ++ codes "\n") }
{
    let mut bytes = Vec::from_slice(alloc, text)?;
    bytes.push(b'\n')?;
    Ok(bytes)
}

/// Does the work, or returns why it is refused.
pub(crate) fn follow<S: StartApplication>(
    alloc: Global,
    script: Script<S>,
    work: Work,
) -> Result<Script<S>, Refused>
    requires { Fits S.layer script }
    ensures does { IfOk result (λ new. (s : Step) → IsWork work s → Does S.layer s script new) }
    ensures fits { IfOk result (Fits S.layer) }
    ensures refused { IfErr result (λ refused. (s : Step) → IsWork work s → IsRefused S.layer s script refused) }
{
    match work {
        Work::Event(event) => {
            let mut script = script;
            match script.take(event) {
                Ok(()) => Ok(script),
                Err(cause) => Err(Refused::Event(cause)),
            }
        }
        Work::Fail(k, has_effect) => Ok(script.fail(k, has_effect)),
        Work::Reopen => script.reopen(alloc).map_err(Refused::Opening),
        Work::Crash(i) => script.crash(alloc, i),
        Work::Show => Ok(script),
    }
}
