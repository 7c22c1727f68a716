//! `moo expr`: evaluates the first line of the input.
ghost use Rattle.std.specs.Prelude.{◌⊎◌, ◌++◌, codes, IfErr, IfOk, OnOk};
ghost use Rattle.std.specs.Io.KnownBytes.{Appends, Keeps};
ghost use Rattle.moo_eval.specs.Ends.{texts};
ghost use Rattle.moo_cli_io.specs.GivingUp.{HasGivenUp};
ghost use Rattle.moo_cli_io.specs.Refused.{IsEarned};
ghost use Rattle.moo_cli_io.specs.Watching.{HasFailed};
ghost use Rattle.moo_cli_expr.specs.Expr.{IsAnswered, ShowsAnswer, printed};

use crate::first_line::read_first_line;
use moo_cli_io::{ExitReason, Watch};
use moo_eval::eval_line;
use std::alloc::Global;
use std::io::{BufRead, Write};

/// Evaluates the first line of the input, up to LF or the end, and writes the resulting lines, each with LF. Returns
/// the exit status 0, or 5 if the line is no program. If the input or the output fails, returns 3; if memory runs
/// out, returns 4. These are reported in a line if the output still takes it.
pub fn run_expr<I: BufRead, O: Write>(alloc: Global, input: &mut I, output: &mut O) -> u8
    ensures { ShowsAnswer (I.remaining input.old) (O.contents output.old) (O.contents output.new) result }
{
    expr_watched(alloc, input, output, &mut Watch::new())
}

/// Evaluates a line as `run_expr` does, and records failures of the input, the output and memory in `watch`.
pub fn expr_watched<I: BufRead, O: Write>(
    alloc: Global,
    input: &mut I,
    output: &mut O,
    watch: &mut Watch,
) -> u8
    ensures { IsAnswered (I.remaining input.old) (O.contents output.old) (O.contents output.new) result ⊎ HasGivenUp (O.contents output.old) (O.contents output.new) watch.new result }
{
    match evaluated(alloc, input, output, watch) {
        Ok(status) => status,
        Err(refusal) => refusal.report_watched(output, watch),
    }
}

fn evaluated<I: BufRead, O: Write>(
    alloc: Global,
    input: &mut I,
    output: &mut O,
    watch: &mut Watch,
) -> Result<u8, ExitReason>
    ensures answered { IfOk result (λ status. IsAnswered (I.remaining input.old) (O.contents output.old) (O.contents output.new) status) }
    ensures earned { IfErr result (IsEarned watch.new) }
    ensures silent { IfErr result (λ r. HasFailed watch.new ⊎ Keeps (O.contents output.old) (O.contents output.new)) }
{
    let line = read_first_line(alloc, input, watch)?;
    let Ok(answer) = eval_line(alloc, line.as_slice()) else {
        return Err(watch.lack());
    };
    print(answer.lines.as_slice(), output, watch)?;
    Ok(answer.status)
}

fn print<O: Write>(lines: &[Vec<u8>], output: &mut O, watch: &mut Watch) -> Result<(), ExitReason>
    ensures text { OnOk result (Appends (O.contents output.old) (O.contents output.new) (printed (texts lines.now))) }
    ensures earned { IfErr result (IsEarned watch.new) }
    ensures failed { IfErr result (λ r. HasFailed watch.new) }
{
    for line in lines {
        print_line(line.as_slice(), output, watch)?;
    }
    Ok(())
}

fn print_line<O: Write>(line: &[u8], output: &mut O, watch: &mut Watch) -> Result<(), ExitReason>
    ensures text { OnOk result (Appends (O.contents output.old) (O.contents output.new) (line.now ++ codes "\n")) }
    ensures earned { IfErr result (IsEarned watch.new) }
    ensures failed { IfErr result (λ r. HasFailed watch.new) }
{
    watch.put(output, line)?;
    watch.write(output, b"\n")
}
