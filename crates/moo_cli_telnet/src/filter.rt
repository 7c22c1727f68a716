//! A filter that drops the commands of telnet, however the bytes are cut into pieces.
ghost use Rattle.std.specs.Prelude.{◌≡◌, ◌≤◌, ◌+◌, ◌++◌, length, IfOk, OnOk};
ghost use Rattle.moo_cli_telnet.specs.Commands.{is_text, next, state_after, text_from, text_of_byte};

use std::alloc::{AllocError, Global};

/// The byte that begins a command: "interpret as command" of RFC 854.
const IAC: u8 = 255;

/// The command that begins a subnegotiation, up to the command `SE`.
const SB: u8 = 250;

/// The command that ends a subnegotiation.
const SE: u8 = 240;

/// The first of the four commands that have an option after them: `WILL`, `WONT`, `DO` and `DONT`.
const WILL: u8 = 251;

/// What the last bytes have begun.
#[derive(Clone, Copy, Debug, PartialEq, Eq)]
pub enum State {
    /// Nothing: a byte is text.
    Text,
    /// A command, of which the byte 255 has come.
    Command,
    /// A command that has an option after it, which comes next.
    Option,
    /// A subnegotiation.
    Inside,
    /// A subnegotiation, in which the byte 255 has come.
    CommandInside,
}

/// Drops the commands of telnet from the bytes of one connection.
#[derive(Clone, Copy, Debug, PartialEq, Eq)]
pub struct Telnet {
    pub(crate) state: State,
}

impl Telnet {
    /// Returns a filter for a connection of which nothing has come.
    pub fn new() -> Telnet
        ensures { result.state ≡ State.Text }
    {
        Telnet { state: State::Text }
    }

    /// Returns the next piece of what a client sends without the commands of telnet. A command may begin in one piece
    /// and end in another. Fails only if memory runs out.
    pub fn text(&mut self, alloc: Global, piece: &[u8]) -> Result<Vec<u8>, AllocError>
        ensures text { IfOk result (λ text. text.items ≡ text_from self.old.state piece.now) }
        ensures state { OnOk result (self.new.state ≡ state_after self.old.state piece.now) }
        ensures most { IfOk result (λ text. length text.items ≤ length piece.now) }
    {
        let mut text = Vec::new(alloc);
        for byte in piece {
            self.put(&mut text, *byte)?;
        }
        Ok(text)
    }

    // Takes the next byte, and appends it to the text if it belongs to no command.
    fn put(&mut self, text: &mut Vec<u8>, byte: u8) -> Result<(), AllocError>
        ensures text { OnOk result (text.new.items ≡ text.old.items ++ text_of_byte self.old.state byte) }
        ensures most { OnOk result (length text.new.items ≤ length text.old.items + 1) }
        ensures state { self.new.state ≡ next self.old.state byte }
    {
        let was = self.state;
        self.state = next(was, byte);
        if is_text(was, byte) {
            text.push(byte)?;
        }
        Ok(())
    }
}

// Returns the state after a byte.
fn next(state: State, byte: u8) -> State
    ensures { result ≡ next state byte }
{
    match state {
        State::Text if byte == IAC => State::Command,
        State::Command if byte == SB => State::Inside,
        State::Command if (WILL..IAC).contains(&byte) => State::Option,
        State::Text | State::Command | State::Option => State::Text,
        State::Inside if byte == IAC => State::CommandInside,
        State::CommandInside if byte == SE => State::Text,
        State::Inside | State::CommandInside => State::Inside,
    }
}

// Returns whether a byte belongs to no command. Of two bytes 255 the second one does not.
fn is_text(state: State, byte: u8) -> bool
    ensures { result ≡ is_text state byte }
{
    match state {
        State::Text => byte != IAC,
        State::Command => byte == IAC,
        State::Option | State::Inside | State::CommandInside => false,
    }
}
