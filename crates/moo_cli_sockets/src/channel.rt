//! The calls of a socket that is a WebSocket.
ghost use Rattle.std.specs.Prelude.{◌≡◌, ◌≤◌, ◌++◌, length, drop, true, IfOk, OnErr, OnOk};
ghost use Rattle.websocket.specs.Stream.{read_all};
ghost use Rattle.moo_cli_sockets.specs.Framing.{AreWhole, Carries, Hears, IsHeard, LooksAt};
ghost use Rattle.moo_cli_sockets.specs.Reading.{IsSame, Keeps};
ghost use Rattle.moo_cli_sockets.specs.Waiting.{waits_of};

use crate::socket::Socket;
use crate::transfer::write_once;
use moo_cli_web_frames::Channel;
use std::alloc::{AllocError, Global};
use std::io;
use std::io::ErrorKind;

impl Socket {
    // Returns whether its channel is over: nothing more is received.
    pub(crate) fn is_over(&self) -> bool {
        match &self.channel {
            Some(channel) => channel.is_over(),
            None => false,
        }
    }

    // Returns whether so many frames wait that nothing is received.
    pub(crate) fn is_held_up(&self) -> bool {
        match &self.channel {
            Some(channel) => channel.is_full(),
            None => false,
        }
    }

    // Returns whether frames wait to be written.
    pub(crate) fn has_frames(&self) -> bool {
        match &self.channel {
            Some(channel) => !channel.pending().is_empty(),
            None => false,
        }
    }

    // Receives bytes that came, and keeps the payload of the messages that they complete as input. Fails only if memory
    // runs out.
    #[tactic(auto, using(crate::proofs::Keeping::hears_on))]
    pub(crate) fn keep_payload(&mut self, alloc: Global, bytes: &[u8]) -> Result<(), AllocError>
        ensures waits { waits_of self.new ≡ waits_of self.old }
        ensures hears { OnOk result (Hears bytes.now self.old self.new) }
        ensures filter { (self.new.telnet ≡ self.old.telnet) × (self.new.stream ≡ self.old.stream) }
    {
        let Some(channel) = &mut self.channel else {
            return Ok(());
        };
        self.input = receive_payload(alloc, channel, bytes)?;
        self.notice_end();
        Ok(())
    }

    // Lets the end be read, if the channel is over.
    fn notice_end(&mut self)
        ensures waits { waits_of self.new ≡ waits_of self.old }
        ensures same { IsSame self.old self.new }
    {
        if self.is_over() {
            self.may_read = true;
        }
    }

    /// Sends a ping if nothing has come on a WebSocket for long, and ends its channel if nothing has come for longer. Fails
    /// only if memory runs out.
    #[tactic(auto, using(crate::proofs::Keeping::tends_on))]
    pub fn tend(&mut self, now: u64) -> Result<(), AllocError>
        ensures waits { waits_of self.new ≡ waits_of self.old }
        ensures same { Keeps self.old self.new }
        ensures tends { OnOk result (LooksAt now self.old self.new) }
    {
        let Some(channel) = &mut self.channel else {
            return Ok(());
        };
        channel.tend(now)?;
        self.notice_end();
        Ok(())
    }

    /// Sends the close of a WebSocket, as far as the system takes it at once. The socket is closed next.
    pub fn send_close(&mut self)
        ensures waits { waits_of self.new ≡ waits_of self.old }
        ensures same { Keeps self.old self.new }
    {
        if let Some(channel) = &mut self.channel {
            channel.close();
            let _ = write_once(&mut self.stream, &mut self.may_write, channel.pending());
        }
    }

    // Writes once from the frames. If all of them are out, what waits goes into the next. Input is received again if few
    // enough wait now.
    pub(crate) fn write_frames(&mut self) -> io::Result<usize>
        ensures out { IfOk result (λ count. (count ≤ length (waits_of self.old)) × (waits_of self.new ≡ drop count (waits_of self.old))) }
        ensures failed { OnErr result (waits_of self.new ≡ waits_of self.old) }
        ensures whole { IfOk result (λ count. AreWhole count self.new) }
        ensures same { Keeps self.old self.new }
    {
        self.load()?;
        let was_held_up = self.is_held_up();
        let is_out = self.write_pending()?;
        if was_held_up && !self.is_held_up() {
            self.may_read = true;
        }
        if !is_out {
            return Ok(0);
        }
        let carried = self.carried;
        self.carried = 0;
        self.waiting.take(carried);
        Ok(carried)
    }

    // Writes once from the frames, and returns whether all of them are out.
    fn write_pending(&mut self) -> io::Result<bool>
        ensures waits { waits_of self.new ≡ waits_of self.old }
        ensures carried { self.new.carried ≡ self.old.carried }
        ensures same { Keeps self.old self.new }
        ensures whole { IfOk result (λ is_out. is_out ≡ true → AreWhole 1 self.new) }
    {
        let Some(channel) = &mut self.channel else {
            return Ok(false);
        };
        let count = write_once(&mut self.stream, &mut self.may_write, channel.pending())?;
        Ok(channel.advance(count))
    }

    // Makes a frame of the front of what waits, if all frames are out.
    fn load(&mut self) -> io::Result<()>
        ensures waits { waits_of self.new ≡ waits_of self.old }
        ensures carries { OnOk result (Carries self.old self.new) }
        ensures same { Keeps self.old self.new }
    {
        let Some(channel) = &mut self.channel else {
            return Ok(());
        };
        if self.carried != 0 || !channel.pending().is_empty() {
            return Ok(());
        }
        self.waiting.turn();
        match channel.load(self.waiting.front()) {
            Ok(count) => {
                self.carried = count;
                Ok(())
            }
            Err(_) => Err(io::Error::from(ErrorKind::OutOfMemory)),
        }
    }
}

// Receives bytes that came on a channel, and returns the payload of the messages that they complete. Fails only if memory
// runs out.
fn receive_payload(
    alloc: Global,
    channel: &mut Channel,
    bytes: &[u8],
) -> Result<Vec<u8>, AllocError>
    ensures { IfOk result (λ payload. IsHeard (read_all channel.old.endpoint.context (channel.old.endpoint.input.items ++ bytes.now)) channel.old channel.new payload.items) }
{
    channel.receive(bytes)?;
    Ok(channel.take_payload(alloc))
}
