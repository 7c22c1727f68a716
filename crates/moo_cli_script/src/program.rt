//! The command `moo script`.
ghost use Rattle.std.specs.Prelude.{◌⊎◌, IfErr, IfOk};
ghost use Rattle.moo_cli_script.specs.Playing.{GivesUp, IsAnswered, ShowsScript};
ghost use Rattle.moo_cli_script.specs.Works.{HasGrown, IsEarnedIn};

use crate::playing::play;
use crate::script::Script;
use crate::telling::report_opening;
use crate::whole_text;
use log::Log;
use moo_cli_io::{ExitReason, Watch};
use moo_disk::{FailAt, MemoryDisk};
use moo_server_core::StartApplication;
use std::alloc::Global;
use std::io::{BufRead, Read, Write};

/// Opens a server over the database in memory, at moment 0. Gives it the events of the script's lines, prints what it sends
/// after each, and returns the exit status (docs/reference/script.md). Logs each line of the server's log as a record of
/// level Info. Only reads the database.
pub fn run_script<S: StartApplication, R: Log, F: Read, I: BufRead, O: Write>(
    alloc: Global,
    rt: &R,
    database: &mut F,
    input: &mut I,
    output: &mut O,
) -> u8
    ensures { ShowsScript S.layer (F.remaining database.old) (I.remaining input.old) (O.contents output.old) (O.contents output.new) result }
{
    script_watched::<S, R, F, I, O>(
        alloc,
        rt,
        database,
        input,
        output,
        &mut Watch::new(),
        &mut Watch::new(),
    )
}

/// Runs a script as `run_script` does. Records in `loading` the failures of the database, and in `watch` those of the input,
/// the output and memory.
pub fn script_watched<S: StartApplication, R: Log, F: Read, I: BufRead, O: Write>(
    alloc: Global,
    rt: &R,
    database: &mut F,
    input: &mut I,
    output: &mut O,
    loading: &mut Watch,
    watch: &mut Watch,
) -> u8
    ensures { IsAnswered S.layer (F.remaining database.old) (I.remaining input.old) (O.contents output.old) (O.contents output.new) result
        ⊎ GivesUp (O.contents output.old) (O.contents output.new) loading.new watch.new result }
{
    match serve::<S, R, F, I, O>(alloc, rt, database, input, output, loading, watch) {
        Ok(status) => status,
        Err(refusal) => refusal.report_watched(output, watch),
    }
}

// Opens a server over the database, and plays the script.
fn serve<S: StartApplication, R: Log, F: Read, I: BufRead, O: Write>(
    alloc: Global,
    rt: &R,
    database: &mut F,
    input: &mut I,
    output: &mut O,
    loading: &mut Watch,
    watch: &mut Watch,
) -> Result<u8, ExitReason>
    ensures answered { IfOk result (IsAnswered S.layer (F.remaining database.old) (I.remaining input.old) (O.contents output.old) (O.contents output.new)) }
    ensures earned { IfErr result (IsEarnedIn loading.new watch.new) }
    ensures grown { IfErr result (λ r. HasGrown watch.new (O.contents output.old) (O.contents output.new)) }
{
    let text = whole_text(alloc, database, loading)?;
    let disk = FailAt::new(MemoryDisk::new(alloc, text), 0, false);
    match Script::<S>::open(alloc, disk, 0) {
        Ok(mut script) => {
            script.hand_out(rt, false, output, watch)?;
            play(alloc, rt, script, input, output, watch)
        }
        Err(fault) => report_opening(alloc, fault, output, watch),
    }
}
