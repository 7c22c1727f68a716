//! What goes out on a WebSocket.
ghost use Rattle.std.specs.Prelude.{◌≡◌, ◌≤◌, ◌↔◌, [], length, drop, IfOk, IsTrue, OnErr};
ghost use Rattle.moo_cli_web_frames.specs.Channels.{KeepsInput, Loads, pending};

use crate::channel::{Channel, PAYLOAD_MOST};
use websocket::error::Error;
use websocket::protocol::CloseCode;

impl Channel {
    /// Returns the bytes of frames that are written next.
    pub fn pending(&self) -> &[u8]
        ensures { result.now ≡ pending self.now }
    {
        &self.frames[self.written..]
    }

    /// Appends a frame of the front of these bytes, and returns the number of them that it carries. Appends nothing if there are
    /// none, or if the channel is over. Fails if a close was sent, or if memory runs out.
    pub fn load(&mut self, bytes: &[u8]) -> Result<usize, Error>
        ensures loads { IfOk result (λ count. Loads bytes.now count self.old self.new) }
        ensures payload { self.new.payload ≡ self.old.payload }
        ensures silence { self.new.silence ≡ self.old.silence }
        ensures same { (self.new.endpoint ≡ self.old.endpoint) × (self.new.is_over ≡ self.old.is_over) }
        ensures err { OnErr result (pending self.new ≡ pending self.old) }
    {
        if self.is_over || bytes.is_empty() {
            return Ok(0);
        }
        let count = bytes.len().min(PAYLOAD_MOST);
        self.endpoint.send(&bytes[..count], &mut self.frames)?;
        Ok(count)
    }

    /// Records that `count` bytes of the frames were written, and returns whether all of them are.
    pub fn advance(&mut self, count: usize) -> bool
        requires { count ≤ length (pending self.old) }
        ensures rest { pending self.new ≡ drop count (pending self.old) }
        ensures all { IsTrue result ↔ (length (pending self.new) ≡ 0) }
        ensures payload { self.new.payload ≡ self.old.payload }
        ensures silence { self.new.silence ≡ self.old.silence }
        ensures same { (self.new.endpoint ≡ self.old.endpoint) × (self.new.is_over ≡ self.old.is_over) }
    {
        self.written += count;
        if self.written < self.frames.len() {
            return false;
        }
        self.frames.clear();
        self.written = 0;
        true
    }

    /// Appends a close to the frames, unless one was sent before or memory runs out.
    pub fn close(&mut self)
        ensures input { KeepsInput self.old self.new }
        ensures silence { self.new.silence ≡ self.old.silence }
        ensures over { self.new.is_over ≡ self.old.is_over }
    {
        let _ = self.endpoint.close(CloseCode::Normal, &mut self.frames);
    }
}
