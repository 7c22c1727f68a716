//! The state that a connection keeps for its player.
ghost use Rattle.std.specs.Prelude.{◌≡◌, None};
ghost use Rattle.std.specs.Option.{option_and_then};
ghost use Rattle.moo_session_connection.specs.Connections.{client_here};
ghost use Rattle.moo_session_connection.specs.Changes.{with_changed, with_prefix, with_suffix, with_gathering};

use crate::connections::Connections;
use crate::gathering::Gathering;
use moo_value::MooStr;
use std::mem;

impl Connections {
    /// Sets the text that goes before the output of commands.
    pub fn set_prefix(&mut self, number: u16, text: MooStr)
        ensures { self.new ≡ with_changed number (with_prefix text) self.old }
    {
        let Some(place) = self.place_here(number) else {
            return;
        };
        self.clients[place].prefix = text;
    }

    /// Sets the text that goes after the output of commands.
    pub fn set_suffix(&mut self, number: u16, text: MooStr)
        ensures { self.new ≡ with_changed number (with_suffix text) self.old }
    {
        let Some(place) = self.place_here(number) else {
            return;
        };
        self.clients[place].suffix = text;
    }

    /// Sets or clears the program for which the connection gathers lines.
    pub fn gather(&mut self, number: u16, gathering: Option<Gathering>)
        ensures { self.new ≡ with_changed number (with_gathering gathering) self.old }
    {
        let Some(place) = self.place_here(number) else {
            return;
        };
        self.clients[place].gathering = gathering;
    }

    /// Removes and returns the program for which the connection gathers lines.
    pub fn take_gathering(&mut self, number: u16) -> Option<Gathering>
        ensures taken { result ≡ option_and_then (λ c. c.gathering) (client_here number self.old) }
        ensures changed { self.new ≡ with_changed number (with_gathering None) self.old }
    {
        let place = self.place_here(number)?;
        mem::replace(&mut self.clients[place].gathering, None)
    }
}
