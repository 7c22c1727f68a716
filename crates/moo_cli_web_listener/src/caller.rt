//! The connection of a browser, from its request to the end of the response.
ghost use Rattle.std.specs.Prelude.{◌≡◌, ◌≢◌, ◌⊎◌, ◌≤◌, List, [], ℕ, drop, length, true, false, IfOk, IfSome};
ghost use Rattle.moo_cli_web_request.specs.Requests.{AsksFor};
ghost use Rattle.moo_cli_web_request.specs.declared.allowed.Allowed.{Allowed};
ghost use Rattle.moo_cli_web_listener.specs.Callers.{BeginsToLinger, GoesOnLingering, HandsOn, IsAt, IsCaller, Lingers, is_over, is_upgrading, place_of};

use mio::net::TcpStream;
use moo_cli_web_page::PAGE;
use moo_cli_web_request::{Allowed, Request, read_request};
use std::alloc::{AllocError, Global};
use std::io;
use std::io::{ErrorKind, Read, Write};
use std::net::Shutdown;

/// The greatest number of bytes in one read of a request.
const READ_MOST: usize = 1024;

/// The greatest number of bytes that are dropped after a response.
const DROPPED_MOST: usize = 65536;

/// The seconds after a response in which the client may end the connection.
const LINGER_SECONDS: u64 = 2;

/// How far the answer to a request is.
#[derive(Clone, Copy)]
pub enum Stage {
    /// Its head isn't whole.
    Reading,
    /// These bytes of the response aren't written yet.
    Writing(&'static [u8]),
    /// It waits to become a WebSocket: the value that accepts its key, and the length of its head.
    Upgrading([u8; 28], usize),
    /// The response is out. Up to so many bytes more are dropped, for two seconds from this one on: if the connection were closed
    /// before bytes that come, the client might lose the response.
    Lingering(usize, u64),
}

/// What a step of a caller did.
#[derive(Clone, Copy, Debug, PartialEq, Eq)]
pub enum Progress {
    /// Bytes were read or written.
    Some,
    /// Nothing can be done until the system reports the connection as ready.
    None,
    /// The caller is done, and its connection is to be closed.
    Done,
}

/// A browser's connection that becomes a WebSocket.
#[derive(Drop)]
pub struct Upgrade {
    pub stream: TcpStream,
    /// The value that accepts its key.
    pub accept: [u8; 28],
    /// The bytes that came after its request.
    pub frames: Vec<u8>,
}

/// The connection of a browser, from its request to the end of the response.
#[derive(Drop)]
pub struct Caller {
    stream: TcpStream,
    /// The bytes of the request that came.
    input: Vec<u8>,
    pub(crate) stage: Stage,
    /// Whether the system may have something for it.
    is_ready: bool,
    /// The number of callers that came before it, and itself.
    pub(crate) arrival: u64,
}

impl Caller {
    /// Returns a caller that was just accepted.
    pub fn new(alloc: Global, stream: TcpStream, arrival: u64) -> Caller
        ensures input { result.input.items ≡ [] }
        ensures stage { result.stage ≡ Stage.Reading }
        ensures stream { (result.stream ≡ stream) × (result.arrival ≡ arrival) }
    {
        Caller {
            stream,
            input: Vec::new(alloc),
            stage: Stage::Reading,
            is_ready: true,
            arrival,
        }
    }

    /// Records that the system reports the connection as ready.
    pub fn wake(&mut self)
        ensures { self.new ≡ record self.old { is_ready = true } }
    {
        self.is_ready = true;
    }

    /// Returns whether it waits to become a WebSocket.
    pub fn is_upgrading(&self) -> bool {
        matches!(self.stage, Stage::Upgrading(_, _))
    }

    /// Returns its place in the order in which callers make room for others.
    pub fn place(&self) -> u64
        ensures { result ≡ place_of self.now }
    {
        match self.stage {
            Stage::Lingering(_, _) => 0,
            _ => self.arrival,
        }
    }

    /// Reads once of its request, or writes once of the response, or drops once what comes after that. Fails only if memory runs out.
    pub fn step(&mut self, allowed: &Allowed, now: u64) -> Result<Progress, AllocError>
        ensures keeps { IsCaller allowed.now self.old → IsCaller allowed.now self.new }
        ensures same { (self.new.stream ≡ self.old.stream) × (self.new.arrival ≡ self.old.arrival) }
        ensures waits { is_upgrading self.old.stage ≡ true → (self.new ≡ self.old) × (result ≡ Ok Progress.None) }
        ensures lingers { Lingers now self.old.stage self.new.stage }
        ensures timely { IfOk result (λ progress. progress ≢ Progress.Done → is_over now self.new.stage ≡ false) }
    {
        if self.is_over(now) {
            return Ok(Progress::Done);
        }
        if !self.is_ready {
            return Ok(Progress::None);
        }
        match self.stage {
            Stage::Reading => self.read(allowed),
            Stage::Writing(rest) => Ok(self.write(rest, now)),
            Stage::Upgrading(_, _) => Ok(Progress::None),
            Stage::Lingering(left, since) => Ok(self.drop_input(left, since)),
        }
    }

    // Returns whether its response has been out for two seconds.
    fn is_over(&self, now: u64) -> bool
        ensures { result ≡ is_over now self.now.stage }
    {
        match self.stage {
            Stage::Lingering(_, since) => now.saturating_sub(since) >= LINGER_SECONDS,
            _ => false,
        }
    }

    // Reads once, and looks at what the request asks for.
    fn read(&mut self, allowed: &Allowed) -> Result<Progress, AllocError>
        requires { self.old.stage ≡ Stage.Reading }
        ensures keeps { IsCaller allowed.now self.old → IsCaller allowed.now self.new }
        ensures same { (self.new.stream ≡ self.old.stream) × (self.new.arrival ≡ self.old.arrival) }
        ensures lingers { (now : ℕ) → BeginsToLinger now self.new.stage }
        ensures timely { (now : ℕ) → is_over now self.new.stage ≡ false }
    {
        let mut buffer = [0u8; READ_MOST];
        let count = match self.stream.read(&mut buffer) {
            Ok(0) => return Ok(Progress::Done),
            Ok(count) => count,
            Err(error) => return Ok(self.wait(&error)),
        };
        self.input.extend_from_slice(&buffer[..count])?;
        self.stage = begin_answer(read_request(&self.input, allowed));
        Ok(Progress::Some)
    }

    // Writes once of the response. Once all of it is out, nothing more is written.
    fn write(&mut self, rest: &'static [u8], now: u64) -> Progress
        requires { self.old.stage ≡ Stage.Writing rest }
        ensures keeps { (allowed : Allowed) → IsCaller allowed self.old → IsCaller allowed self.new }
        ensures same { (self.new.stream ≡ self.old.stream) × (self.new.arrival ≡ self.old.arrival) }
        ensures lingers { BeginsToLinger now self.new.stage }
        ensures timely { is_over now self.new.stage ≡ false }
    {
        match self.stream.write(rest) {
            Ok(count) if count == rest.len() => self.linger(now),
            Ok(count) => {
                self.stage = Stage::Writing(skip_front(rest, count));
                Progress::Some
            }
            Err(error) => self.wait(&error),
        }
    }

    // Ends the writing side of the connection.
    fn linger(&mut self, now: u64) -> Progress
        ensures { (self.new ≡ self.old) ⊎ (self.new ≡ record self.old { stage = Stage.Lingering 65536 now }) }
    {
        if self.stream.shutdown(Shutdown::Write).is_err() {
            return Progress::Done;
        }
        self.stage = Stage::Lingering(DROPPED_MOST, now);
        Progress::Some
    }

    // Reads once, and drops what came.
    fn drop_input(&mut self, left: usize, since: u64) -> Progress
        requires { self.old.stage ≡ Stage.Lingering left since }
        ensures keeps { (allowed : Allowed) → IsCaller allowed self.old → IsCaller allowed self.new }
        ensures same { (self.new.stream ≡ self.old.stream) × (self.new.arrival ≡ self.old.arrival) }
        ensures lingers { GoesOnLingering left since self.new.stage }
    {
        let mut buffer = [0u8; READ_MOST];
        match self.stream.read(&mut buffer) {
            Ok(count) if count == 0 || count >= left => Progress::Done,
            Ok(count) => {
                self.stage = Stage::Lingering(left - count, since);
                Progress::Some
            }
            Err(error) => self.wait(&error),
        }
    }

    // Waits until the system reports the connection as ready, if an error says no more. Another error ends it.
    fn wait(&mut self, error: &io::Error) -> Progress
        ensures { self.new ≡ record self.old { is_ready = self.new.is_ready } }
    {
        match error.kind() {
            ErrorKind::WouldBlock => {
                self.is_ready = false;
                Progress::None
            }
            ErrorKind::Interrupted => Progress::Some,
            _ => Progress::Done,
        }
    }

    /// Makes a WebSocket of it, if it waits to become one. Fails only if memory runs out.
    pub fn upgrade(self, alloc: Global) -> Result<Option<Upgrade>, AllocError>
        ensures { IfOk result (λ upgrade. IfSome upgrade (λ upgrade. (length : ℕ) × HandsOn self length upgrade)) }
    {
        let Caller {
            stream,
            input,
            stage,
            ..
        } = self;
        let Stage::Upgrading(accept, length) = stage else {
            return Ok(None);
        };
        let frames = match input.get(length..) {
            Some(frames) => frames.to_vec(alloc)?,
            None => Vec::new(alloc),
        };
        Ok(Some(Upgrade {
            stream,
            accept,
            frames,
        }))
    }
}

// Returns how far the answer to a request is that was just read.
fn begin_answer(request: Request) -> Stage
    ensures answers { (allowed : Allowed) (bytes : List ℕ) → AsksFor allowed bytes request → IsAt allowed bytes result }
    ensures lingers { (now : ℕ) → BeginsToLinger now result }
    ensures timely { (now : ℕ) → is_over now result ≡ false }
{
    match request {
        Request::Incomplete => Stage::Reading,
        Request::Page => Stage::Writing(PAGE),
        Request::Refused(refusal) => Stage::Writing(refusal.response()),
        Request::Upgrade(accept, length) => Stage::Upgrading(accept, length),
    }
}

// Returns these bytes without the first `count`.
fn skip_front(bytes: &'static [u8], count: usize) -> &'static [u8]
    requires { count ≤ length bytes.now }
    ensures { result.now ≡ drop count bytes.now }
{
    &bytes[count..]
}
