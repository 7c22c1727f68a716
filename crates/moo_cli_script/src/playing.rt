//! The lines of a script, one after another.
ghost use Rattle.std.specs.Prelude.{◌≡◌, IfErr, IfOk};
ghost use Rattle.moo_cli_io.specs.Refused.{IsEarned};
ghost use Rattle.moo_cli_script.specs.Script.{Fits};
ghost use Rattle.moo_cli_script.specs.Playing.{PlaysInput};
ghost use Rattle.moo_cli_script.specs.Works.{HasGrown, IsDone, IsNext, IsSilent};

use crate::script::Script;
use crate::telling::{Stop, report_stop};
use crate::work::{Work, follow, work_of};
use crate::{next_line, read_script_line};
use log::Log;
use moo_cli_io::{ExitReason, Watch};
use moo_server_core::StartApplication;
use std::alloc::Global;
use std::io::{BufRead, Write};

/// The state after a line.
pub(crate) enum Next<S: StartApplication> {
    /// The script goes on.
    Goes(Script<S>),
    /// It ends at this line.
    Stops(Stop),
}

/// Does what the input's lines ask for, prints what comes of each, and returns the exit status. Returns the refusal if the
/// input or the output fails or memory runs out.
pub(crate) fn play<S: StartApplication, R: Log, I: BufRead, O: Write>(
    alloc: Global,
    rt: &R,
    script: Script<S>,
    input: &mut I,
    output: &mut O,
    watch: &mut Watch,
) -> Result<u8, ExitReason>
    requires { Fits S.layer script }
    ensures plays { IfOk result (PlaysInput S.layer script (I.remaining input.old) (O.contents output.old) (O.contents output.new)) }
    ensures earned { IfErr result (IsEarned watch.new) }
    ensures grown { IfErr result (λ r. HasGrown watch.new (O.contents output.old) (O.contents output.new)) }
{
    let mut script = script;
    let mut number = 0u64;
    while let Some(line) = next_line(alloc, input, watch)? {
        number += 1;
        match play_line(alloc, rt, script, line.as_slice(), output, watch)? {
            Next::Goes(next) => script = next,
            Next::Stops(stop) => return report_stop(alloc, stop, number, output, watch),
        }
    }
    Ok(0)
}

// Does what a line asks for, and prints what comes of it. Prints nothing if the script ends at the line.
#[tactic(auto, using(crate::proofs::Growing::still_silent))]
fn play_line<S: StartApplication, R: Log, O: Write>(
    alloc: Global,
    rt: &R,
    script: Script<S>,
    line: &[u8],
    output: &mut O,
    watch: &mut Watch,
) -> Result<Next<S>, ExitReason>
    requires { Fits S.layer script }
    ensures next { IfOk result (IsNext S.layer script line.now (O.contents output.old) (O.contents output.new)) }
    ensures earned { IfErr result (IsEarned watch.new) }
    ensures silent { IfErr result (λ r. IsSilent watch.new (O.contents output.old) (O.contents output.new)) }
    ensures counted { watch.new.reads ≡ watch.old.reads }
{
    let Ok(read) = read_script_line(alloc, line) else {
        return Err(watch.lack());
    };
    let Some(asked) = read else {
        return Ok(Next::Stops(Stop::BadLine));
    };
    let Ok(work) = work_of(alloc, asked) else {
        return Err(watch.lack());
    };
    play_work(alloc, rt, script, work, output, watch)
}

// Does the work of a line, and prints what comes of it.
fn play_work<S: StartApplication, R: Log, O: Write>(
    alloc: Global,
    rt: &R,
    script: Script<S>,
    work: Work,
    output: &mut O,
    watch: &mut Watch,
) -> Result<Next<S>, ExitReason>
    requires { Fits S.layer script }
    ensures next { IfOk result (IsDone S.layer script work (O.contents output.old) (O.contents output.new)) }
    ensures earned { IfErr result (IsEarned watch.new) }
    ensures silent { IfErr result (λ r. IsSilent watch.new (O.contents output.old) (O.contents output.new)) }
    ensures counted { watch.new.reads ≡ watch.old.reads }
{
    let show = work.is_show();
    match follow(alloc, script, work) {
        Ok(mut script) => {
            script.hand_out(rt, show, output, watch)?;
            Ok(Next::Goes(script))
        }
        Err(refused) => Ok(Next::Stops(Stop::Refused(refused))),
    }
}
