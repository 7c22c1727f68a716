//! The printed form of a script's output.
ghost use Rattle.std.specs.Prelude.{◌≡◌, IfErr, OnErr, OnOk};
ghost use Rattle.std.specs.Io.KnownBytes.{Appends};
ghost use Rattle.moo_cli_io.specs.Refused.{IsEarned};
ghost use Rattle.moo_cli_io.specs.Watching.{HasFailed};
ghost use Rattle.moo_cli_script.specs.Printed.{bad_line, sent_line, sent_lines};

use crate::line::{first_line, without_return};
use itoa::Buffer;
use moo_cli_io::{ExitReason, Watch};
use std::io::Write;

/// Prints each line that was sent on a connection, after the connection's number. Returns the refusal if the output
/// fails.
pub fn print_sent<O: Write>(
    c: u16,
    sent: &[u8],
    output: &mut O,
    watch: &mut Watch,
) -> Result<(), ExitReason>
    ensures text { OnOk result (Appends (O.contents output.old) (O.contents output.new) (sent_lines c sent.now)) }
    ensures earned { IfErr result (IsEarned watch.new) }
    ensures failed { OnErr result (HasFailed watch.new) }
    ensures counted { watch.new.reads ≡ watch.old.reads }
{
    let mut rest = sent;
    while let Some((line, following)) = first_line(rest) {
        print_line(c, line, output, watch)?;
        rest = following;
    }
    Ok(())
}

fn print_line<O: Write>(
    c: u16,
    line: &[u8],
    output: &mut O,
    watch: &mut Watch,
) -> Result<(), ExitReason>
    ensures text { OnOk result (Appends (O.contents output.old) (O.contents output.new) (sent_line c line.now)) }
    ensures earned { IfErr result (IsEarned watch.new) }
    ensures failed { OnErr result (HasFailed watch.new) }
    ensures counted { watch.new.reads ≡ watch.old.reads }
{
    let mut number = Buffer::new();
    watch.put(output, number.format(c).as_bytes())?;
    watch.put(output, b": ")?;
    watch.put(output, without_return(line))?;
    watch.put(output, b"\n")
}

/// Prints that the script's line of this number, from 1, has no form. Returns the refusal if the output fails.
pub fn print_bad_line<O: Write>(
    number: u64,
    output: &mut O,
    watch: &mut Watch,
) -> Result<(), ExitReason>
    ensures text { OnOk result (Appends (O.contents output.old) (O.contents output.new) (bad_line number)) }
    ensures earned { IfErr result (IsEarned watch.new) }
    ensures failed { OnErr result (HasFailed watch.new) }
{
    let mut digits = Buffer::new();
    watch.put(output, b"bad line ")?;
    watch.put(output, digits.format(number).as_bytes())?;
    watch.write(output, b"\n")
}
