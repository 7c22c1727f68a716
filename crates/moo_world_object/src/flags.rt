//! The flags of an object.
ghost use Rattle.std.specs.Prelude.{◌≡◌};
ghost use Rattle.moo_world_object.specs.Flags.{flags_number, no_flags};

use crate::bits::{bit, take_bit};

/// The flags of an object. The two obsolete ones have no meaning, but are kept.
#[derive(Clone, Copy, Debug, PartialEq, Eq)]
pub struct Flags {
    pub player: bool,
    pub programmer: bool,
    pub wizard: bool,
    pub obsolete_8: bool,
    pub read: bool,
    pub write: bool,
    pub obsolete_64: bool,
    pub fertile: bool,
}

impl Flags {
    /// Returns flags of which none is set.
    pub fn none() -> Flags
        ensures { result ≡ no_flags }
    {
        Flags {
            player: false,
            programmer: false,
            wizard: false,
            obsolete_8: false,
            read: false,
            write: false,
            obsolete_64: false,
            fertile: false,
        }
    }

    /// Returns the flags with `player` set or cleared.
    pub fn with_player(self, player: bool) -> Flags
        ensures { result ≡ record self { player = player } }
    {
        Flags { player, ..self }
    }

    /// Returns the flags with `programmer` set or cleared.
    pub fn with_programmer(self, programmer: bool) -> Flags
        ensures { result ≡ record self { programmer = programmer } }
    {
        Flags { programmer, ..self }
    }

    /// Returns the flags with `wizard` set or cleared.
    pub fn with_wizard(self, wizard: bool) -> Flags
        ensures { result ≡ record self { wizard = wizard } }
    {
        Flags { wizard, ..self }
    }

    /// Returns the flags with `read` set or cleared.
    pub fn with_read(self, read: bool) -> Flags
        ensures { result ≡ record self { read = read } }
    {
        Flags { read, ..self }
    }

    /// Returns the flags with `write` set or cleared.
    pub fn with_write(self, write: bool) -> Flags
        ensures { result ≡ record self { write = write } }
    {
        Flags { write, ..self }
    }

    /// Returns the flags with `fertile` set or cleared.
    pub fn with_fertile(self, fertile: bool) -> Flags
        ensures { result ≡ record self { fertile = fertile } }
    {
        Flags { fertile, ..self }
    }

    /// Returns the flags as bits: 1 player, 2 programmer, 4 wizard, 16 read, 32 write, 128 fertile, and 8 and 64
    /// obsolete.
    pub fn number(self) -> u8
        ensures { result ≡ flags_number self }
    {
        let low = bit(self.player, 1)
            + bit(self.programmer, 2)
            + bit(self.wizard, 4)
            + bit(self.obsolete_8, 8);
        low + bit(self.read, 16)
            + bit(self.write, 32)
            + bit(self.obsolete_64, 64)
            + bit(self.fertile, 128)
    }

    /// Returns the flags that have this number.
    pub fn from_number(number: u8) -> Flags
        ensures { flags_number result ≡ number }
    {
        let mut bits = number;
        let player = take_bit(&mut bits);
        let programmer = take_bit(&mut bits);
        let wizard = take_bit(&mut bits);
        let obsolete_8 = take_bit(&mut bits);
        let read = take_bit(&mut bits);
        let write = take_bit(&mut bits);
        let obsolete_64 = take_bit(&mut bits);
        let fertile = take_bit(&mut bits);
        Flags {
            player,
            programmer,
            wizard,
            obsolete_8,
            read,
            write,
            obsolete_64,
            fertile,
        }
    }
}
