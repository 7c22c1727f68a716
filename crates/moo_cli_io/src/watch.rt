//! A record of whether an input, an output or memory has failed.
ghost use Rattle.std.specs.Prelude.{◌≡◌, ◌<◌, ◌≤◌, ◌+◌, [], length, take, true, false, IfErr, IfNone, IfOk, IfSome, OnErr, OnOk};
ghost use Rattle.std.specs.Io.KnownBytes.{Appends, Consumes, IsAtEnd};
ghost use Rattle.moo_cli_io.specs.Refused.{without_memory, IsEarned};
ghost use Rattle.moo_cli_io.specs.Watching.{most_reads, HasFailed, Remembers};

use crate::exit_reason::ExitReason;
use std::io;
use std::io::{ErrorKind, Read, Write};

/// The greatest number of reads of one input.
const MOST_READS: u64 = 4_294_967_296;

/// Holds whether a call of an input or an output has failed, whether memory has run out, and the number of reads.
#[derive(Debug, Drop)]
pub struct Watch {
    failed: bool,
    lacked: bool,
    reads: u64,
}

impl Watch {
    /// Returns a record before the first call.
    pub fn new() -> Watch
        ensures failed { result.failed ≡ false }
        ensures lacked { result.lacked ≡ false }
        ensures reads { result.reads ≡ 0 }
    {
        Watch {
            failed: false,
            lacked: false,
            reads: 0,
        }
    }

    /// Records that memory ran out in a call, and returns that refusal.
    pub fn lack(&mut self) -> ExitReason
        ensures refusal { result ≡ without_memory }
        ensures earned { IsEarned self.new result }
        ensures remembers { Remembers self.old self.new }
        ensures counted { self.new.reads ≡ self.old.reads }
    {
        self.lacked = true;
        ExitReason::Memory
    }

    /// Records the error of a device, and returns the refusal for it.
    pub(crate) fn fail(&mut self, error: io::Error) -> ExitReason
        ensures failed { HasFailed self.new }
        ensures earned { IsEarned self.new result }
        ensures remembers { Remembers self.old self.new }
        ensures counted { self.new.reads ≡ self.old.reads }
    {
        self.failed = true;
        match ExitReason::from(error) {
            ExitReason::Device => ExitReason::Device,
            ExitReason::Memory => self.lack(),
        }
    }

    /// Counts a read of the input. Returns `Device` once `MOST_READS` are counted.
    pub(crate) fn count(&mut self) -> Result<(), ExitReason>
        ensures count { OnOk result ((self.old.reads < self.new.reads) × (self.new.reads ≤ most_reads)) }
        ensures counted { self.new.reads ≤ self.old.reads + 1 }
        ensures failed { OnErr result (HasFailed self.new) }
        ensures earned { IfErr result (IsEarned self.new) }
        ensures remembers { Remembers self.old self.new }
    {
        if self.reads >= MOST_READS {
            return Err(ExitReason::Device);
        }
        self.reads += 1;
        Ok(())
    }

    /// Reads into the buffer, and returns the number of bytes, or 0 if the read was interrupted. Returns `None` at
    /// the input's end. Returns the refusal if the input fails.
    pub fn read<I: Read>(
        &mut self,
        input: &mut I,
        buffer: &mut [u8],
    ) -> Result<Option<usize>, ExitReason>
        requires { 0 < length buffer.old }
        ensures room { length buffer.new ≡ length buffer.old }
        ensures some { IfOk result (λ r. IfSome r (λ n. (n ≤ length buffer.new) × Consumes (I.remaining input.old) (I.remaining input.new) (take n buffer.new))) }
        ensures end { IfOk result (λ r. IfNone r (Consumes (I.remaining input.old) (I.remaining input.new) [] × IsAtEnd (I.remaining input.new))) }
        ensures count { OnOk result ((self.old.reads < self.new.reads) × (self.new.reads ≤ most_reads)) }
        // It counts at most one read.
        ensures counted { self.new.reads ≤ self.old.reads + 1 }
        ensures failed { OnErr result (HasFailed self.new) }
        ensures earned { IfErr result (IsEarned self.new) }
        ensures remembers { Remembers self.old self.new }
    {
        self.count()?;
        match input.read(buffer) {
            Ok(0) => Ok(None),
            Ok(count) => Ok(Some(count)),
            Err(error) => {
                if error.kind() == ErrorKind::Interrupted {
                    return Ok(Some(0));
                }
                Err(self.fail(error))
            }
        }
    }

    /// Writes a text, which the output may buffer. Returns the refusal if the output fails.
    pub fn put<O: Write>(&mut self, output: &mut O, text: &[u8]) -> Result<(), ExitReason>
        ensures text { OnOk result (Appends (O.contents output.old) (O.contents output.new) text.now) }
        ensures failed { OnErr result (HasFailed self.new) }
        ensures earned { IfErr result (IsEarned self.new) }
        ensures remembers { Remembers self.old self.new }
        ensures counted { self.new.reads ≡ self.old.reads }
    {
        match output.write_all(text) {
            Ok(()) => Ok(()),
            Err(error) => Err(self.fail(error)),
        }
    }

    /// Writes a text, and flushes the output. Returns the refusal if the output fails.
    pub fn write<O: Write>(&mut self, output: &mut O, text: &[u8]) -> Result<(), ExitReason>
        ensures text { OnOk result (Appends (O.contents output.old) (O.contents output.new) text.now) }
        ensures failed { OnErr result (HasFailed self.new) }
        ensures earned { IfErr result (IsEarned self.new) }
        ensures remembers { Remembers self.old self.new }
        ensures counted { self.new.reads ≡ self.old.reads }
    {
        self.put(output, text)?;
        match output.flush() {
            Ok(()) => Ok(()),
            Err(error) => Err(self.fail(error)),
        }
    }

    /// Writes a text, and flushes the output. If the output fails, records it and returns the output's error.
    pub fn print<O: Write>(&mut self, output: &mut O, text: &[u8]) -> io::Result<()>
        ensures text { OnOk result (Appends (O.contents output.old) (O.contents output.new) text.now) }
        ensures failed { OnErr result (HasFailed self.new) }
        ensures remembers { Remembers self.old self.new }
    {
        let written = write_flushed(output, text);
        if written.is_err() {
            self.failed = true;
        }
        written
    }
}

fn write_flushed<O: Write>(output: &mut O, text: &[u8]) -> io::Result<()>
    ensures { OnOk result (Appends (O.contents output.old) (O.contents output.new) text.now) }
{
    output.write_all(text)?;
    output.flush()
}
