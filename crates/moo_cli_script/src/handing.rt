//! The output and the log lines that wait in a server.
ghost use Rattle.std.specs.Prelude.{◌≡◌, ◌<◌, ◌≤◌, ℕ, [], IfErr, OnErr, OnOk};
ghost use Rattle.std.specs.Io.KnownBytes.{Appends};
ghost use Rattle.moo_server_core.specs.Application.{Output};
ghost use Rattle.moo_server_core.specs.Server.{Hands, Same, waiting_of};
ghost use Rattle.moo_cli_io.specs.Refused.{IsEarned};
ghost use Rattle.moo_cli_io.specs.Watching.{HasFailed};
ghost use Rattle.moo_cli_script.specs.Script.{Fits, HandsOut, printed_below};
ghost use Rattle.moo_cli_script.specs.Works.{printed_of};

use crate::print_sent;
use crate::script::Script;
use log::{Log, info};
use moo_cli_io::{ExitReason, Watch};
use moo_server_core::{ServerCore, StartApplication};
use moo_value::MooStr;
use std::io::Write;

impl<S: StartApplication> Script<S> {
    /// Prints the main text if `show` says so, then what was sent, connection by connection. Logs the lines of the server's
    /// log. Returns the refusal if the output fails.
    pub(crate) fn hand_out<R: Log, O: Write>(
        &mut self,
        rt: &R,
        show: bool,
        output: &mut O,
        watch: &mut Watch,
    ) -> Result<(), ExitReason>
        requires { Fits S.layer self.old }
        ensures handed { OnOk result (HandsOut S.layer self.old self.new) }
        ensures text { OnOk result (Appends (O.contents output.old) (O.contents output.new) (printed_of S.layer show self.old)) }
        ensures fits { OnOk result (Fits S.layer self.new) }
        ensures earned { IfErr result (IsEarned watch.new) }
        ensures failed { OnErr result (HasFailed watch.new) }
        ensures counted { watch.new.reads ≡ watch.old.reads }
    {
        if show {
            watch.put(output, self.disk.inner().main_text())?;
        }
        print_below(&mut self.server, self.top, output, watch)?;
        log_lines(rt, &self.server.take_log());
        watch.write(output, b"")
    }
}

// Prints what was sent on each connection below a number, in rising order.
fn print_below<S: StartApplication, O: Write>(
    server: &mut ServerCore<S>,
    top: u32,
    output: &mut O,
    watch: &mut Watch,
) -> Result<(), ExitReason>
    requires { top ≤ 65536 }
    ensures same { Same S.layer server.old server.new }
    ensures handed { OnOk result ((handed : Output) × Hands S.layer handed server.old server.new) }
    ensures text { OnOk result (Appends (O.contents output.old) (O.contents output.new) (printed_below top (waiting_of S.layer server.old).sent)) }
    ensures nothing { OnOk result ((c : ℕ) → c < top → (waiting_of S.layer server.new).sent c ≡ []) }
    ensures others { (c : ℕ) → top ≤ c → (waiting_of S.layer server.new).sent c ≡ (waiting_of S.layer server.old).sent c }
    ensures log { (waiting_of S.layer server.new).logged ≡ (waiting_of S.layer server.old).logged }
    ensures earned { IfErr result (IsEarned watch.new) }
    ensures failed { OnErr result (HasFailed watch.new) }
    ensures counted { watch.new.reads ≡ watch.old.reads }
{
    for c in 0..top {
        let sent = server.take_output(c as u16);
        print_sent(c as u16, &sent, output, watch)?;
    }
    Ok(())
}

// Logs each line as a record of its own.
fn log_lines<R: Log>(rt: &R, lines: &[MooStr]) {
    for line in lines {
        if let Ok(line) = str::from_utf8(line.as_bytes()) {
            info!(rt; target: "moo", "{line}");
        }
    }
}
