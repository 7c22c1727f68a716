//! The server's end of a WebSocket: bytes that come in frames, and bytes that go out in them.
ghost use Rattle.std.specs.Prelude.{◌≡◌, ◌⊎◌, ◌++◌, ◌≤◌, ℕ, List, [], length, drop, None, Some, Ok, Err, false, IfErr, IfOk, OnErr, OnOk};
ghost use Rattle.websocket.specs.Connection.{close_step, read_step, write_step};
ghost use Rattle.websocket.specs.Content.{binary, ping};
ghost use Rattle.websocket.specs.Stream.{read_all};
ghost use Rattle.websocket.specs.View.{GivesError, Leaves};
ghost use Rattle.moo_cli_web_frames.specs.Frames.{FailsFor, StepFails, Steps, Receives, opened};

use crate::payload::append_payload;
use std::alloc::Global;
use websocket::error::{CapacityError, Error};
use websocket::protocol::{
    CloseCode, CloseFrame, FrameStatus, Message, NoMask, Role, WebSocketConfig, WebSocketContext,
};

/// The greatest number of bytes of a frame's payload, and of a message.
pub const FRAME_MOST: usize = 65536;

/// The server's end of a WebSocket, with the bytes of a frame that isn't whole yet.
#[derive(Drop)]
pub struct Endpoint {
    pub(crate) context: WebSocketContext,
    pub(crate) input: Vec<u8>,
}

impl Endpoint {
    /// Returns the end of a WebSocket that was just opened. Its frames have to be masked, and have at most 65,536 bytes of payload.
    pub fn new(alloc: Global) -> Endpoint
        ensures opened { result.context ≡ opened }
        ensures empty { result.input.items ≡ [] }
    {
        let config = WebSocketConfig {
            max_message_size: Some(FRAME_MOST),
            max_frame_size: Some(FRAME_MOST),
            accept_unmasked_frames: false,
        };
        Endpoint {
            context: WebSocketContext::new(alloc, Role::Server, config),
            input: Vec::new(alloc),
        }
    }

    /// Receives bytes that came. Appends the payload of each text or binary message that they complete to `payload`, and the frames
    /// that answer pings and a close to `output`. Keeps what isn't a whole frame yet. An `Err` ends the connection: the bytes break
    /// the protocol, the other side closed, or memory ran out.
    pub fn receive(
        &mut self,
        bytes: &[u8],
        payload: &mut Vec<u8>,
        output: &mut Vec<u8>,
    ) -> Result<(), Error>
        ensures ok { OnOk result (Receives (read_all self.old.context (self.old.input.items ++ bytes.now)) (Ok (self.new.context, self.new.input.items))
            payload.old.items payload.new.items output.old.items output.new.items) }
        ensures err { IfErr result (FailsFor (read_all self.old.context (self.old.input.items ++ bytes.now)) payload.old.items payload.new.items output.old.items output.new.items) }
    {
        self.input.extend_from_slice(bytes)?;
        let rounds = self.input.len() + 1;
        for _made in 0..rounds {
            let more = self.receive_frame(payload, output)?;
            if !more {
                return Ok(());
            }
        }
        Ok(())
    }

    // Receives the frame at the front of the input, if a whole one is there, and returns whether one was.
    fn receive_frame(&mut self, payload: &mut Vec<u8>, output: &mut Vec<u8>) -> Result<bool, Error>
        ensures ok { IfOk result (λ more. Steps (read_step self.old.context self.old.input.items) more self.old.context self.new.context
            self.old.input.items self.new.input.items payload.old.items payload.new.items output.old.items output.new.items) }
        ensures err { IfErr result (λ e. StepFails (read_step self.old.context self.old.input.items) e payload.old.items payload.new.items output.old.items output.new.items) }
    {
        match self
            .context
            .read(self.input.as_mut_slice(), output, &mut NoMask)?
        {
            FrameStatus::Partial(_) => Ok(false),
            FrameStatus::Complete(step) => {
                append_payload(&step.message, &self.input, payload)?;
                self.drop_front(step.consumed);
                Ok(true)
            }
        }
    }

    // Removes the first `count` bytes of the input.
    fn drop_front(&mut self, count: usize)
        requires { count ≤ length self.old.input.items }
        ensures input { self.new.input.items ≡ drop count self.old.input.items }
        ensures context { self.new.context ≡ self.old.context }
    {
        let rest = self.input.len() - count;
        self.input.copy_within(count.., 0);
        self.input.truncate(rest);
    }

    /// Appends a binary message of one frame with these bytes to `output`. Fails if a close was sent or received, or if memory runs
    /// out.
    #[tactic(auto, using(crate::proofs::Stepping::sent_keeps))]
    pub fn send(&mut self, bytes: &[u8], output: &mut Vec<u8>) -> Result<(), Error>
        ensures ok { OnOk result (Leaves (write_step self.old.context (binary bytes.now)) self.new.context output.old.items output.new.items) }
        ensures err { IfErr result (GivesError (write_step self.old.context (binary bytes.now))) }
        ensures unchanged { OnErr result (output.new.items ≡ output.old.items) }
        ensures same { self.new ≡ self.old }
    {
        self.context
            .write(Message::Binary(bytes), output, &mut NoMask)
    }

    /// Appends an empty ping to `output`. Fails if a close was sent or received, or if memory runs out.
    #[tactic(auto, using(crate::proofs::Stepping::asked_keeps))]
    pub fn ping(&mut self, output: &mut Vec<u8>) -> Result<(), Error>
        ensures ok { OnOk result (Leaves (write_step self.old.context (ping [])) self.new.context output.old.items output.new.items) }
        ensures err { IfErr result (GivesError (write_step self.old.context (ping []))) }
        ensures unchanged { OnErr result (output.new.items ≡ output.old.items) }
        ensures same { self.new ≡ self.old }
    {
        self.context.write(Message::Ping(b""), output, &mut NoMask)
    }

    /// Appends a close to `output`, unless one was sent before. Fails if the close can't be sent, or if memory runs out.
    #[tactic(auto, using(crate::proofs::Stepping::closed_keeps))]
    pub fn close(&mut self, code: CloseCode, output: &mut Vec<u8>) -> Result<(), Error>
        ensures ok { OnOk result (Leaves (close_step self.old.context (Some (code, []))) self.new.context output.old.items output.new.items) }
        ensures appends { (more : List ℕ) × (output.new.items ≡ output.old.items ++ more) }
        ensures err { OnErr result (output.new.items ≡ output.old.items) }
        ensures input { self.new.input ≡ self.old.input }
        ensures state { self.new.context ≡ record self.old.context { state = self.new.context.state } }
    {
        self.context
            .close(Some(CloseFrame { code, reason: "" }), output, &mut NoMask)
    }
}

/// Returns the code of the close that tells the other side of the error which ends a connection.
pub fn close_code(error: &Error) -> CloseCode {
    match error {
        Error::ConnectionClosed => CloseCode::Normal,
        Error::Capacity(CapacityError::MessageTooLong { .. }) => CloseCode::Size,
        Error::Utf8 => CloseCode::Invalid,
        Error::Protocol(_) => CloseCode::Protocol,
        Error::AlreadyClosed | Error::OutOfMemory => CloseCode::Error,
    }
}
