//! The output of sockets.
ghost use Rattle.std.specs.Prelude.{◌≡◌, ◌≢◌, ℕ, None, IfOk, IfSome};
ghost use Rattle.moo_cli_sockets.specs.Coming.{held};
ghost use Rattle.moo_cli_sockets.specs.Reading.{IsAlike, IsKept};
ghost use Rattle.moo_cli_sockets.specs.Sending.{MayFail, Sends};
ghost use Rattle.slab.specs.Slab.{get};

use crate::sockets::Sockets;
use std::alloc::AllocError;
use std::mem;

impl Sockets {
    /// Appends this output to what waits for a connection's socket, and writes once. Returns the number of bytes that
    /// still wait, or `None` if the socket failed or doesn't exist. Fails only if memory runs out.
    pub fn write(&mut self, c: u16, output: Vec<u8>) -> Result<Option<usize>, AllocError>
        ensures sent { IfOk result (λ answer. IfSome answer (λ waiting. Sends output.items (held self.old.sockets c) (held self.new.sockets c) waiting)) }
        ensures others { (k : ℕ) → k ≢ c → get self.new.sockets k ≡ get self.old.sockets k }
        ensures kept { (k : ℕ) → IsKept (get self.old.sockets k) (get self.new.sockets k) }
        ensures failed { IfOk result (λ answer. answer ≡ None → IfSome (get self.old.sockets c) (MayFail output.items)) }
        ensures alike { IsAlike self.old self.new }
    {
        let waiting = self.write_once(c, output)?;
        self.keep_readable(c)?;
        Ok(waiting)
    }

    // Appends this output to what waits for a connection's socket, and writes once.
    #[tactic(auto, using(crate::proofs::Keeping::fails_at, crate::proofs::Keeping::kept_given, crate::proofs::Keeping::kept_same, crate::proofs::Keeping::kept_sent, crate::proofs::Keeping::none_fails))]
    fn write_once(&mut self, c: u16, output: Vec<u8>) -> Result<Option<usize>, AllocError>
        ensures sent { IfOk result (λ answer. IfSome answer (λ waiting. Sends output.items (held self.old.sockets c) (held self.new.sockets c) waiting)) }
        ensures others { (k : ℕ) → k ≢ c → get self.new.sockets k ≡ get self.old.sockets k }
        ensures kept { (k : ℕ) → IsKept (get self.old.sockets k) (get self.new.sockets k) }
        ensures failed { IfOk result (λ answer. answer ≡ None → IfSome (get self.old.sockets c) (MayFail output.items)) }
        ensures alike { IsAlike self.old self.new }
    {
        let Some(socket) = self.sockets.get_mut(usize::from(c)) else {
            return Ok(None);
        };
        socket.give(output)?;
        let Ok(_count) = socket.write() else {
            return Ok(None);
        };
        let waiting = socket.waiting();
        Ok(Some(waiting))
    }

    /// Lists a socket as one to which more may be written, if output or frames wait for it and the system may take some.
    /// Fails only if memory runs out.
    pub fn keep_writable(&mut self, c: u16) -> Result<(), AllocError>
        ensures same { self.new.sockets ≡ self.old.sockets }
        ensures alike { IsAlike self.old self.new }
    {
        self.list_writable(c)
    }

    // Lists a socket as one to which more may be written, if output or frames wait for it and the system may take some.
    pub(crate) fn list_writable(&mut self, c: u16) -> Result<(), AllocError>
        ensures same { self.new.sockets ≡ self.old.sockets }
        ensures alike { IsAlike self.old self.new }
    {
        if let Some(socket) = self.sockets.get(usize::from(c)) {
            if socket.is_writable() {
                self.writable.push(c)?;
            }
        }
        Ok(())
    }

    /// Returns the numbers of the sockets to which more may be written, and clears the list.
    pub fn take_writable(&mut self) -> Vec<u16>
        ensures same { self.new.sockets ≡ self.old.sockets }
        ensures alike { IsAlike self.old self.new }
    {
        mem::replace(&mut self.writable, Vec::new(self.alloc))
    }
}
