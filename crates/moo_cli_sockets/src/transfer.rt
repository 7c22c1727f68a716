//! The calls of a socket.
ghost use Rattle.std.specs.Prelude.{◌≡◌, ◌≤◌, ◌<◌, ◌++◌, [], length, drop, false, true, IfOk, OnOk, OnErr};
ghost use Rattle.moo_cli_sockets.specs.Reading.{IsInput, IsSame, Keeps, Reads, Receives, filter_after, text_of};
ghost use Rattle.moo_cli_sockets.specs.Sending.{MayFail};
ghost use Rattle.moo_cli_sockets.specs.Waiting.{IsCame, IsNext, IsPiece, is_readable, waits_of};

use crate::age::Age;
use crate::piece::{READ_MOST, piece_length};
use crate::socket::{Came, Socket};
use crate::waiting::Waiting;
use mio::event::Event;
use mio::net::TcpStream;
use moo_cli_telnet::Telnet;
use moo_cli_web_frames::Channel;
use std::alloc::{AllocError, Global};
use std::io::{ErrorKind, Read, Write};
use std::{io, mem};

impl Socket {
    /// Returns a socket that was just accepted. The system reports later that bytes came. It is a WebSocket if it has
    /// a channel: then bytes may have come before.
    pub fn new(
        alloc: Global,
        stream: TcpStream,
        age: Age,
        telnet: Option<Telnet>,
        channel: Option<Channel>,
    ) -> Socket
        ensures waits { waits_of result ≡ [] }
        ensures input { result.input.items ≡ [] }
        ensures kind { (result.telnet ≡ telnet) × (result.channel ≡ channel) × (result.stream ≡ stream) }
    {
        let may_read = channel.is_some();
        Socket {
            stream,
            waiting: Waiting::new(alloc),
            input: Vec::new(alloc),
            may_read,
            is_ending: false,
            may_write: true,
            age,
            telnet,
            channel,
            carried: 0,
        }
    }

    /// Returns when it was accepted.
    pub fn age(&self) -> Age {
        self.age
    }

    /// Records what the system reports of the socket.
    pub fn wake(&mut self, event: &Event)
        ensures waits { waits_of self.new ≡ waits_of self.old }
        ensures same { IsSame self.old self.new }
    {
        if event.is_read_closed() || event.is_error() {
            self.is_ending = true;
        }
        if event.is_readable() || self.is_ending {
            self.may_read = true;
        }
        if event.is_writable() || event.is_write_closed() || event.is_error() {
            self.may_write = true;
        }
    }

    /// Returns whether a read may return something.
    pub fn is_readable(&self) -> bool
        ensures { result ≡ is_readable self.now }
    {
        self.may_read || !self.input.is_empty()
    }

    /// Returns whether a write may send something: output or frames wait, and the system may take some.
    pub fn is_writable(&self) -> bool {
        self.may_write && (self.has_frames() || !self.waiting.is_empty())
    }

    /// Returns the number of bytes that wait for it.
    pub fn waiting(&self) -> usize
        ensures { result ≡ length (waits_of self.now) }
    {
        self.waiting.count()
    }

    /// Appends output to what waits for it. Fails only if memory runs out.
    pub fn give(&mut self, output: Vec<u8>) -> Result<(), AllocError>
        ensures ok { OnOk result (waits_of self.new ≡ waits_of self.old ++ output.items) }
        ensures err { OnErr result (waits_of self.new ≡ waits_of self.old) }
        ensures same { IsSame self.old self.new × (self.new.may_write ≡ self.old.may_write) }
    {
        self.waiting.add(output)
    }

    /// Returns the next piece of the input. Reads once from the system if all that was read before was returned. Fails
    /// only if memory runs out.
    #[tactic(auto, using(crate::proofs::Keeping::reads_on))]
    pub fn read(&mut self, alloc: Global) -> Result<Came, AllocError>
        ensures came { IfOk result IsCame }
        ensures next { IfOk result (λ came. 0 < length self.old.input.items → IsNext came self.old.input.items self.new.input.items) }
        ensures reads { IfOk result (λ came. Reads came self.old self.new) }
        ensures waits { waits_of self.new ≡ waits_of self.old }
    {
        if !self.fill(alloc)? {
            return Ok(Came::End);
        }
        if self.input.is_empty() {
            return Ok(Came::NothingYet);
        }
        let piece = self.take_piece(alloc)?;
        Ok(Came::Bytes(piece))
    }

    // Reads once from the system if all that was read before was returned. Returns false at the end and after a fault.
    fn fill(&mut self, alloc: Global) -> Result<bool, AllocError>
        ensures receives { OnOk result (Receives self.old self.new) }
        ensures kept { 0 < length self.old.input.items → (self.new ≡ self.old) × (result ≡ Ok true) }
        ensures end { IfOk result (λ goes. goes ≡ false → IsSame self.old self.new) }
        ensures waits { waits_of self.new ≡ waits_of self.old }
    {
        if !self.input.is_empty() {
            return Ok(true);
        }
        self.receive(alloc)
    }

    // Reads once from the system, unless frames hold a WebSocket up. Returns false at the end and after a fault. A read
    // that doesn't fill the buffer has emptied the system's, and the system reports what comes later. But an end may have
    // been reported before the read.
    #[tactic(auto, using(crate::proofs::Keeping::received))]
    fn receive(&mut self, alloc: Global) -> Result<bool, AllocError>
        requires { length self.old.input.items ≡ 0 }
        ensures receives { OnOk result (Receives self.old self.new) }
        ensures end { IfOk result (λ goes. goes ≡ false → IsSame self.old self.new) }
        ensures waits { waits_of self.new ≡ waits_of self.old }
    {
        if self.is_over() {
            return Ok(false);
        }
        if self.is_held_up() {
            self.may_read = false;
            return Ok(true);
        }
        let mut buffer = [0u8; READ_MOST];
        match self.stream.read(&mut buffer) {
            Ok(0) => Ok(false),
            Ok(count) => {
                self.may_read = self.is_ending || count == READ_MOST;
                self.keep_input(alloc, &buffer[..count])?;
                Ok(true)
            }
            Err(error) if error.kind() == ErrorKind::WouldBlock => {
                self.may_read = false;
                Ok(true)
            }
            Err(error) if error.kind() == ErrorKind::Interrupted => Ok(true),
            Err(_) => Ok(false),
        }
    }

    // Keeps what these bytes of the client say: the payload of the messages that they complete, or text.
    fn keep_input(&mut self, alloc: Global, bytes: &[u8]) -> Result<(), AllocError>
        ensures input { OnOk result (IsInput bytes.now self.old self.new) }
        ensures waits { waits_of self.new ≡ waits_of self.old }
    {
        if self.channel.is_some() {
            return self.keep_payload(alloc, bytes);
        }
        self.input = self.text(alloc, bytes)?;
        Ok(())
    }

    // Removes the first piece from the input.
    fn take_piece(&mut self, alloc: Global) -> Result<Vec<u8>, AllocError>
        requires { 0 < length self.old.input.items }
        ensures piece { IfOk result IsPiece }
        ensures next { IfOk result (λ piece. self.old.input.items ≡ piece.items ++ self.new.input.items) }
        ensures same { (self.new.telnet ≡ self.old.telnet) × (self.new.channel ≡ self.old.channel) × (self.new.stream ≡ self.old.stream) }
        ensures waits { waits_of self.new ≡ waits_of self.old }
    {
        let count = piece_length(&self.input);
        let rest = self.input[count..].to_vec(alloc)?;
        self.input.truncate(count);
        Ok(mem::replace(&mut self.input, rest))
    }

    // Returns what these bytes of the client are without the commands of telnet, or all of them if none are dropped.
    fn text(&mut self, alloc: Global, piece: &[u8]) -> Result<Vec<u8>, AllocError>
        ensures text { IfOk result (λ text. text.items ≡ text_of self.old.telnet piece.now) }
        ensures filter { OnOk result (self.new.telnet ≡ filter_after self.old.telnet piece.now) }
        ensures same { (self.new.input ≡ self.old.input) × (self.new.channel ≡ self.old.channel) × (self.new.stream ≡ self.old.stream) }
        ensures waits { waits_of self.new ≡ waits_of self.old }
    {
        match &mut self.telnet {
            Some(telnet) => telnet.text(alloc, piece),
            None => piece.to_vec(alloc),
        }
    }

    /// Writes once from the front of what waits, if anything does, and returns the number of bytes. A failed write
    /// removes none. The bytes that a frame of a WebSocket carries are out once all of the frame is.
    #[tactic(auto, using(crate::proofs::Keeping::frames_fail, crate::proofs::Keeping::text_fails))]
    pub fn write(&mut self) -> io::Result<usize>
        ensures out { IfOk result (λ count. (count ≤ length (waits_of self.old)) × (waits_of self.new ≡ drop count (waits_of self.old))) }
        ensures failed { OnErr result (waits_of self.new ≡ waits_of self.old) }
        ensures same { Keeps self.old self.new }
        ensures tried { OnErr result (MayFail [] self.old) }
    {
        if self.channel.is_some() {
            return self.write_frames();
        }
        self.write_text()
    }

    // Writes once from the front of what waits. No frame carries any of it.
    fn write_text(&mut self) -> io::Result<usize>
        ensures out { IfOk result (λ count. (count ≤ length (waits_of self.old)) × (waits_of self.new ≡ drop count (waits_of self.old))) }
        ensures failed { OnErr result (waits_of self.new ≡ waits_of self.old) }
        ensures same { Keeps self.old self.new }
        ensures tried { OnErr result ((self.old.may_write ≡ true) × (0 < length (waits_of self.old))) }
    {
        self.carried = 0;
        self.waiting.turn();
        let count = write_once(&mut self.stream, &mut self.may_write, self.waiting.front())?;
        self.waiting.take(count);
        Ok(count)
    }
}

/// Writes bytes once, if there are any and the socket may take some, and returns the number that it took.
pub(crate) fn write_once(
    stream: &mut TcpStream,
    may_write: &mut bool,
    bytes: &[u8],
) -> io::Result<usize>
    ensures out { IfOk result (λ count. count ≤ length bytes.now) }
    ensures tried { OnErr result ((may_write.old ≡ true) × (0 < length bytes.now)) }
    ensures same { stream.new ≡ stream.old }
{
    if !*may_write || bytes.is_empty() {
        return Ok(0);
    }
    match stream.write(bytes) {
        Ok(count) => Ok(count),
        Err(error) if error.kind() == ErrorKind::WouldBlock => {
            *may_write = false;
            Ok(0)
        }
        Err(error) if error.kind() == ErrorKind::Interrupted => Ok(0),
        Err(error) => Err(error),
    }
}
