//! The reasons why the program gives up.
ghost use Rattle.std.specs.Prelude.{◌≡◌, ◌⊎◌};
ghost use Rattle.std.specs.Io.KnownBytes.{Appends};
ghost use Rattle.moo_cli_io.specs.Refused.{refusal_line, refusal_status, without_memory};
ghost use Rattle.moo_cli_io.specs.Watching.{HasFailed, Remembers};

use crate::watch::Watch;
use std::alloc::AllocError;
use std::io;
use std::io::Write;
use thiserror::Error;

/// The reason why the program gives up.
#[derive(Clone, Copy, Debug, PartialEq, Eq, Error)]
pub enum ExitReason {
    /// A file, or standard input or output, failed.
    #[error("refused: Device")]
    Device,
    /// Memory ran out.
    #[error("refused: Memory")]
    Memory,
}

impl ExitReason {
    /// Returns the exit status: 3 for `Device`, 4 for `Memory`.
    pub fn status(self) -> u8
        ensures { result ≡ refusal_status self }
    {
        match self {
            ExitReason::Device => 3,
            ExitReason::Memory => 4,
        }
    }

    fn line(self) -> &'static [u8]
        ensures { result.now ≡ refusal_line self }
    {
        match self {
            ExitReason::Device => b"refused: Device\n",
            ExitReason::Memory => b"refused: Memory\n",
        }
    }

    /// Writes the refusal as a line, if the output still takes it, and returns the exit status.
    pub fn report<O: Write>(self, output: &mut O) -> u8
        ensures { result ≡ refusal_status self }
    {
        self.report_watched(output, &mut Watch::new())
    }

    /// Writes the refusal and returns the exit status as `report` does, with the output watched.
    pub fn report_watched<O: Write>(self, output: &mut O, watch: &mut Watch) -> u8
        ensures status { result ≡ refusal_status self }
        ensures reported { HasFailed watch.new ⊎ Appends (O.contents output.old) (O.contents output.new) (refusal_line self) }
        ensures remembers { Remembers watch.old watch.new }
    {
        let _ = watch.write(output, self.line());
        self.status()
    }
}

impl From<io::Error> for ExitReason {
    fn from(error: io::Error) -> ExitReason {
        match error.kind() {
            io::ErrorKind::OutOfMemory => ExitReason::Memory,
            _ => ExitReason::Device,
        }
    }
}

impl From<AllocError> for ExitReason {
    ghost from_gives = { λ e r. r ≡ without_memory };

    fn from(_fault: AllocError) -> ExitReason {
        ExitReason::Memory
    }
}
