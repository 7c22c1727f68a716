//! The console: the operator's own connection, over standard input and standard output.
ghost use Rattle.std.specs.Prelude.{◌≡◌, ◌≢◌, ◌<◌, ◌≤◌, ◌||◌, ℕ, [], IfOk, IfSome, OnOk, false, is_some, length, true};
ghost use Rattle.moo_server_core.specs.Application.{Output};
ghost use Rattle.moo_server_core.specs.Server.{Hands, waiting_of};
ghost use Rattle.moo_cli_serve.specs.Console.{IsConsolesInput, Types, end_of, new_console, opening_of, shown, stays_open};

use libc::net::{POLLIN, POLLOUT, poll};
use libc::types::pollfd;
use libc::{STDIN_FILENO, STDOUT_FILENO};
use moo_cli_sockets::{CONSOLE, put};
use moo_server_core::{Event, ServerCore, StartApplication};
use std::alloc::{AllocError, Global};

/// The greatest number of bytes in one read.
const READ_MOST: usize = 256;

/// The greatest number of bytes in one write. A pipe that takes any takes so many at once.
const WRITE_MOST: usize = 4096;

/// The operator's own connection. It opens when the first bytes come on standard input.
#[derive(Drop)]
pub struct Console {
    /// Whether there is a console at all.
    pub(crate) is_on: bool,
    /// Whether the server has the connection.
    is_open: bool,
    /// Whether the server ends the connection.
    is_leaving: bool,
    /// Whether standard input has ended.
    has_ended: bool,
    /// Whether bytes came in the last call of `take`.
    is_busy: bool,
}

impl Console {
    /// Returns a console, or none if `is_on` is false.
    pub fn new(is_on: bool) -> Console
        ensures { result ≡ new_console is_on }
    {
        Console {
            is_on,
            is_open: false,
            is_leaving: false,
            has_ended: false,
            is_busy: false,
        }
    }

    /// Returns whether bytes came in the last call of `take`.
    pub fn is_busy(&self) -> bool
        ensures { result ≡ self.now.is_busy }
    {
        self.is_busy
    }

    /// Appends what comes from the console: its hang-up if the server ends the connection, and one read of standard
    /// input if bytes wait there. The connection opens before its first bytes. Fails only if memory runs out.
    pub fn take(&mut self, alloc: Global, events: &mut Vec<Event>) -> Result<(), AllocError>
        ensures { OnOk result (Types self.old self.new events.old.items events.new.items) }
    {
        self.is_busy = false;
        if !self.is_on {
            return Ok(());
        }
        let end = self.hang_up();
        put(events, end)?;
        let input = self.read(alloc)?;
        let opening = self.open(input.is_some());
        put(events, opening)?;
        put(events, input)
    }

    // Returns the hang-up of a connection that the server ends.
    fn hang_up(&mut self) -> Option<Event>
        ensures end { result ≡ end_of self.old }
        ensures state { self.new ≡ record self.old { is_open = stays_open self.old; is_leaving = false } }
    {
        if !self.is_leaving {
            return None;
        }
        self.is_leaving = false;
        self.is_open = false;
        Some(Event::Hangup(CONSOLE))
    }

    // Returns the opening of the connection, if bytes came and it isn't open.
    fn open(&mut self, has_input: bool) -> Option<Event>
        ensures opening { result ≡ opening_of self.old.is_open has_input }
        ensures state { self.new ≡ record self.old { is_open = self.old.is_open || has_input } }
    {
        if self.is_open || !has_input {
            return None;
        }
        self.is_open = true;
        Some(Event::Open(CONSOLE))
    }

    // Reads once from standard input, if bytes wait there. After its end nothing comes.
    fn read(&mut self, alloc: Global) -> Result<Option<Event>, AllocError>
        ensures input { IfOk result (λ event. IsConsolesInput event) }
        ensures state { IfOk result (λ event. self.new ≡ record self.old { has_ended = self.new.has_ended; is_busy = is_some event || self.old.is_busy }) }
        ensures ended { self.old.has_ended ≡ true → (result ≡ Ok None) × (self.new.has_ended ≡ true) }
    {
        if self.has_ended || !is_ready(STDIN_FILENO, POLLIN) {
            return Ok(None);
        }
        let mut buffer = [0u8; READ_MOST];
        let count = libc::read(STDIN_FILENO, &mut buffer);
        self.has_ended = count == 0;
        let Some(piece) = front(&buffer, count) else {
            return Ok(None);
        };
        self.is_busy = true;
        Ok(Some(Event::Bytes(CONSOLE, piece.to_vec(alloc)?)))
    }

    /// Writes what waits for the console to standard output, as much of it as is taken at once. The rest is dropped.
    /// Without a console it does nothing.
    pub fn show<S: StartApplication>(&mut self, server: &mut ServerCore<S>)
        ensures handed { (handed : Output) × Hands S.layer handed server.old server.new }
        ensures shows { self.old.is_on ≡ true → (waiting_of S.layer server.new).sent 65535 ≡ [] }
        ensures unsent { self.old.is_on ≡ false → (waiting_of S.layer server.new).sent ≡ (waiting_of S.layer server.old).sent }
        ensures others { (c : ℕ) → c ≢ 65535 → (waiting_of S.layer server.new).sent c ≡ (waiting_of S.layer server.old).sent c }
        ensures log { (waiting_of S.layer server.new).logged ≡ (waiting_of S.layer server.old).logged }
        ensures state { self.new ≡ shown S.layer server.old self.old }
    {
        if !self.is_on {
            return;
        }
        self.is_leaving = self.is_open && server.is_leaving(CONSOLE);
        let output = server.take_output(CONSOLE);
        print(&output);
    }
}

// Returns the first bytes of a buffer, if a read gave any.
fn front(buffer: &[u8], count: isize) -> Option<&[u8]>
    ensures { IfSome result (λ piece. (0 < length piece.now) × (length piece.now ≤ length buffer.now)) }
{
    match usize::try_from(count) {
        Ok(count) if count != 0 => buffer.get(..count),
        _ => None,
    }
}

// Returns whether a descriptor can be read or written at once, or has failed.
fn is_ready(fd: i32, events: i16) -> bool {
    let mut asked = [pollfd {
        fd,
        events,
        revents: 0,
    }];
    poll(&mut asked, 0) > 0
}

// Writes to standard output for as long as it takes bytes at once.
fn print(bytes: &[u8]) {
    for piece in bytes.chunks(WRITE_MOST) {
        if !is_ready(STDOUT_FILENO, POLLOUT) || libc::write(STDOUT_FILENO, piece) < 0 {
            return;
        }
    }
}
