//! The queue of output that waits for a socket.
ghost use Rattle.std.specs.Prelude.{◌≡◌, ◌≤◌, ◌+◌, ◌↔◌, ◌++◌, [], length, drop, IsTrue, OnOk, OnErr};
ghost use Rattle.moo_cli_sockets.specs.Waiting.{bytes_of, front_of};

use crate::waiting::Waiting;
use std::alloc::{AllocError, Global};
use std::mem;

impl Waiting {
    /// Returns an empty queue.
    pub fn new(alloc: Global) -> Waiting
        ensures bytes { bytes_of result ≡ [] }
        ensures front { (result.gone ≡ 0) × (result.going.items ≡ []) }
    {
        Waiting {
            going: Vec::new(alloc),
            gone: 0,
            following: Vec::new(alloc),
        }
    }

    /// Returns whether nothing waits.
    pub fn is_empty(&self) -> bool
        ensures { IsTrue result ↔ (length (bytes_of self.now) ≡ 0) }
    {
        self.count() == 0
    }

    /// Returns the number of bytes that wait.
    pub fn count(&self) -> usize
        ensures { result ≡ length (bytes_of self.now) }
    {
        (self.going.len() - self.gone).saturating_add(self.following.len())
    }

    /// Appends output to what waits. Doesn't copy it if nothing is gathered. Fails only if memory runs out.
    pub fn add(&mut self, output: Vec<u8>) -> Result<(), AllocError>
        ensures ok { OnOk result (bytes_of self.new ≡ bytes_of self.old ++ output.items) }
        ensures err { OnErr result (bytes_of self.new ≡ bytes_of self.old) }
        ensures front { (self.new.going ≡ self.old.going) × (self.new.gone ≡ self.old.gone) }
    {
        if self.following.is_empty() {
            self.following = output;
            return Ok(());
        }
        self.following.extend_from_slice(&output)
    }

    /// If all of the front was written, makes the gathered bytes the new front.
    pub fn turn(&mut self)
        ensures bytes { bytes_of self.new ≡ bytes_of self.old }
        ensures front { length (front_of self.old) ≤ length (front_of self.new) }
    {
        if self.gone == self.going.len() {
            self.gone = 0;
            self.going.clear();
            mem::swap(&mut self.going, &mut self.following);
        }
    }

    /// Returns the bytes at the front, which are written next.
    pub fn front(&self) -> &[u8]
        ensures { result.now ≡ front_of self.now }
    {
        &self.going[self.gone..]
    }

    /// Removes `count` bytes from the front, after they were written.
    pub fn take(&mut self, count: usize)
        requires { count ≤ length (front_of self.old) }
        ensures bytes { bytes_of self.new ≡ drop count (bytes_of self.old) }
        ensures front { (self.new.going ≡ self.old.going) × (self.new.gone ≡ self.old.gone + count) }
    {
        self.gone += count;
    }
}
