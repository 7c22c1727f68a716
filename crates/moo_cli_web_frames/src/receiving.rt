//! What comes on a WebSocket, and what is taken of it.
ghost use Rattle.std.specs.Prelude.{◌≡◌, ◌++◌, [], length, true, OnOk};
ghost use Rattle.websocket.specs.Stream.{read_all};
ghost use Rattle.moo_cli_web_frames.specs.Channels.{Accepts, IsNew, KeepsInput, is_full, pending};
ghost use Rattle.moo_cli_web_frames.specs.Silence.{silence_from};
ghost use Rattle.moo_cli_web_frames.specs.Tending.{Asks, Tends};

use crate::channel::{Channel, FRAMES_MOST};
use crate::endpoint::{Endpoint, close_code};
use crate::silence::{Due, Silence};
use std::alloc::{AllocError, Global};
use std::mem;
use websocket::error::Error;
use websocket::protocol::CloseCode;

impl Channel {
    /// Returns the channel of a WebSocket that opens at this second, after these bytes of its handshake are written.
    pub fn new(alloc: Global, response: Vec<u8>, second: u64) -> Channel
        ensures new { IsNew response.items result }
        ensures silence { result.silence ≡ silence_from second }
    {
        Channel {
            endpoint: Endpoint::new(alloc),
            payload: Vec::new(alloc),
            frames: response,
            written: 0,
            is_over: false,
            silence: Silence::new(second),
        }
    }

    /// Receives bytes that came. Bytes that break the protocol end the channel, with a close that has the reason. Fails only if
    /// memory runs out. Then the channel is over, and what it held is dropped.
    pub fn receive(&mut self, bytes: &[u8]) -> Result<(), AllocError>
        ensures accepts { OnOk result (Accepts (read_all self.old.endpoint.context (self.old.endpoint.input.items ++ bytes.now)) self.old self.new) }
        ensures heard { self.new.silence ≡ record self.old.silence { has_heard = true } }
    {
        self.silence.hear();
        let received = self
            .endpoint
            .receive(bytes, &mut self.payload, &mut self.frames);
        let Err(error) = received else {
            return Ok(());
        };
        if error == Error::OutOfMemory {
            self.payload.clear();
            self.frames.clear();
            self.written = 0;
            self.is_over = true;
            return Err(AllocError);
        }
        self.is_over = true;
        let _ = self.endpoint.close(close_code(&error), &mut self.frames);
        Ok(())
    }

    /// Returns whether nothing more is received.
    pub fn is_over(&self) -> bool
        ensures { result ≡ self.now.is_over }
    {
        self.is_over
    }

    /// Returns whether so many frames wait that nothing is to be received.
    pub fn is_full(&self) -> bool
        ensures { result ≡ is_full (length (pending self.now)) }
    {
        self.frames.len() - self.written > FRAMES_MOST
    }

    /// Returns the payload that came since the last call.
    pub fn take_payload(&mut self, alloc: Global) -> Vec<u8>
        ensures payload { result.items ≡ self.old.payload.items }
        ensures rest { self.new.payload.items ≡ [] }
        ensures same { (self.new.frames ≡ self.old.frames) × (self.new.written ≡ self.old.written) × (self.new.is_over ≡ self.old.is_over) × (self.new.endpoint ≡ self.old.endpoint) }
        ensures silence { self.new.silence ≡ self.old.silence }
    {
        mem::replace(&mut self.payload, Vec::new(alloc))
    }

    /// Asks the other side with a ping whether it is there, if nothing came for 30 seconds. Ends the channel if nothing came for 90.
    /// Sends no ping after a close. Fails only if memory runs out.
    pub fn tend(&mut self, now: u64) -> Result<(), AllocError>
        ensures tends { OnOk result (Tends now self.old self.new) }
        ensures input { KeepsInput self.old self.new }
    {
        match self.silence.due(now) {
            Due::Nothing => Ok(()),
            Due::Ping => self.ask(),
            Due::End => {
                self.is_over = true;
                let _ = self.endpoint.close(CloseCode::Away, &mut self.frames);
                Ok(())
            }
        }
    }

    // Appends a ping to the frames, unless a close was sent or received.
    fn ask(&mut self) -> Result<(), AllocError>
        ensures asks { OnOk result (Asks self.old self.new) }
        ensures same { (self.new.payload ≡ self.old.payload) × (self.new.silence ≡ self.old.silence) × (self.new.endpoint ≡ self.old.endpoint) }
    {
        match self.endpoint.ping(&mut self.frames) {
            Err(Error::OutOfMemory) => Err(AllocError),
            _ => Ok(()),
        }
    }
}
