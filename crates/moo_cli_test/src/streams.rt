//! Readers and a writer of bytes in memory that fail at given places.

use std::alloc::Global;
use std::io;
use std::io::{BufRead, ErrorKind, Read, Write};

/// Is a reader that gives its bytes, and then ends, or fails with an error of this kind.
#[derive(Drop)]
pub struct Source<'a> {
    rest: &'a [u8],
    fault: Option<ErrorKind>,
}

impl<'a> Source<'a> {
    /// A reader that ends after these bytes.
    pub fn whole(bytes: &'a [u8]) -> Source<'a> {
        Source {
            rest: bytes,
            fault: None,
        }
    }

    /// A reader that fails after these bytes.
    pub fn failing(bytes: &'a [u8], kind: ErrorKind) -> Source<'a> {
        Source {
            rest: bytes,
            fault: Some(kind),
        }
    }
}

impl Read for Source<'_> {
    fn read(&mut self, buf: &mut [u8]) -> io::Result<usize> {
        match self.fault {
            Some(kind) if self.rest.is_empty() => Err(io::Error::from(kind)),
            _ => self.rest.read(buf),
        }
    }
}

impl BufRead for Source<'_> {
    fn fill_buf(&mut self) -> io::Result<&[u8]> {
        match self.fault {
            Some(kind) if self.rest.is_empty() => Err(io::Error::from(kind)),
            _ => Ok(self.rest),
        }
    }

    fn consume(&mut self, amount: usize) {
        self.rest.consume(amount);
    }
}

/// Is a reader that is interrupted once, and then gives its bytes.
#[derive(Drop)]
pub struct Interrupted<'a> {
    pub is_first: bool,
    pub rest: &'a [u8],
}

impl Read for Interrupted<'_> {
    fn read(&mut self, buf: &mut [u8]) -> io::Result<usize> {
        self.rest.read(buf)
    }
}

impl BufRead for Interrupted<'_> {
    fn fill_buf(&mut self) -> io::Result<&[u8]> {
        if self.is_first {
            self.is_first = false;
            return Err(io::Error::from(ErrorKind::Interrupted));
        }
        Ok(self.rest)
    }

    fn consume(&mut self, amount: usize) {
        self.rest.consume(amount);
    }
}

/// Is a writer that takes so many bytes, and fails then.
#[derive(Drop)]
pub struct Paper {
    pub written: Vec<u8>,
    room: usize,
}

impl Paper {
    /// One with room for so many bytes.
    pub fn new(alloc: Global, room: usize) -> Paper {
        Paper {
            written: Vec::new(alloc),
            room,
        }
    }
}

impl Write for Paper {
    fn write(&mut self, buf: &[u8]) -> io::Result<usize> {
        if self.room == 0 {
            return Err(io::Error::from(ErrorKind::StorageFull));
        }
        let taken = buf.len().min(self.room);
        self.written.extend_from_slice(&buf[..taken])?;
        self.room -= taken;
        Ok(taken)
    }

    fn flush(&mut self) -> io::Result<()> {
        Ok(())
    }
}
