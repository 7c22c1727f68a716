//! Inputs and outputs, with the names by which their faults are logged.
ghost use Rattle.std.specs.Prelude.{◌≡◌};

use log::{Log, warn};
use std::fs::File;
use std::io;
use std::io::{ErrorKind, Read, Write};
use std::rt::Files;

/// An input or an output that passes on each call, and logs its first fault.
#[derive(Drop)]
pub struct Device<'a, L, T> {
    rt: &'a L,
    name: &'a str,
    inner: T,
    is_told: bool,
}

/// Opens the file of this path for reading. Logs the reason if it can't be opened.
pub fn open<'a, R: Log + Files>(rt: &'a R, path: &'a str) -> io::Result<Device<'a, R, R::File>> {
    match File::open(rt, path) {
        Ok(file) => Ok(Device::new(rt, path, file)),
        Err(error) => {
            log_error(rt, path, &error);
            Err(error)
        }
    }
}

/// Logs why a file or a stream of this name has failed. Running out of memory is no such failure.
pub fn log_error<L: Log>(rt: &L, name: &str, error: &io::Error) {
    if error.kind() != ErrorKind::OutOfMemory {
        warn!(rt; target: "moo::io", "{name}: {error}");
    }
}

impl<'a, L: Log, T> Device<'a, L, T> {
    /// Wraps an input or an output, whose fault is logged by this name.
    pub fn new(rt: &'a L, name: &'a str, inner: T) -> Device<'a, L, T>
        ensures { result.inner ≡ inner }
    {
        Device {
            rt,
            name,
            inner,
            is_told: false,
        }
    }

    // Logs the first fault. An interrupted call is none, because it is made again.
    fn look<V>(&mut self, answer: &io::Result<V>)
        ensures { self.new.inner ≡ self.old.inner }
    {
        if let Err(error) = answer {
            if !self.is_told && error.kind() != ErrorKind::Interrupted {
                self.is_told = true;
                log_error(self.rt, self.name, error);
            }
        }
    }
}

impl<L: Log, T: Read> Read for Device<'_, L, T> {
    ghost remaining = { λ d. T.remaining d.inner };

    fn read(&mut self, buf: &mut [u8]) -> io::Result<usize> {
        let answer = self.inner.read(buf);
        self.look(&answer);
        answer
    }
}

impl<L: Log, T: Write> Write for Device<'_, L, T> {
    ghost contents = { λ d. T.contents d.inner };

    fn write(&mut self, buf: &[u8]) -> io::Result<usize> {
        let answer = self.inner.write(buf);
        self.look(&answer);
        answer
    }

    fn flush(&mut self) -> io::Result<()> {
        let answer = self.inner.flush();
        self.look(&answer);
        answer
    }
}
