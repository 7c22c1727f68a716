//! Standard error, which is written only as far as it takes bytes at once.
ghost use Rattle.std.specs.Prelude.{◌≡◌, OnOk};
ghost use Rattle.arrayvec.specs.ArrayVec.{array_vec_len};

use arrayvec::ArrayVec;
use libc::STDERR_FILENO;
use libc::net::{POLLOUT, poll};
use libc::types::pollfd;
use std::fmt;

/// Writes a text to standard error in pieces of 4,096 bytes. Stops before the first piece that isn't taken at once, since
/// a write of it would wait for a reader.
#[derive(Drop)]
pub(crate) struct StandardError {
    /// The bytes that aren't written yet.
    piece: ArrayVec<u8, 4096>,
    has_written: bool,
}

impl StandardError {
    /// Returns a writer that has written nothing.
    pub(crate) fn new() -> StandardError {
        StandardError {
            piece: ArrayVec::new(),
            has_written: false,
        }
    }

    /// Returns whether a piece was written.
    pub(crate) fn has_written(&self) -> bool
        ensures { result ≡ self.now.has_written }
    {
        self.has_written
    }

    /// Writes what isn't written yet. Fails if standard error doesn't take it at once. A write that fails is dropped: there
    /// is no other place for it.
    pub(crate) fn write_piece(&mut self) -> fmt::Result
        ensures { OnOk result (array_vec_len self.new.piece ≡ 0) }
    {
        if !is_ready() {
            return Err(fmt::Error);
        }
        let _ = libc::write(STDERR_FILENO, self.piece.as_slice());
        self.piece.clear();
        self.has_written = true;
        Ok(())
    }
}

impl fmt::Write for StandardError {
    fn write_str(&mut self, text: &str) -> fmt::Result {
        for byte in text.as_bytes() {
            if self.piece.is_full() {
                self.write_piece()?;
            }
            self.piece.push(*byte);
        }
        Ok(())
    }
}

// Returns whether standard error takes bytes at once, or has failed. A pipe that takes any takes 4,096 bytes at once.
fn is_ready() -> bool {
    let mut asked = [pollfd {
        fd: STDERR_FILENO,
        events: POLLOUT,
        revents: 0,
    }];
    poll(&mut asked, 0) != 0
}
