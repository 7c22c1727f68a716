//! Connections that leave.
ghost use Rattle.std.specs.Prelude.{◌≡◌, ◌<◌, ◌++◌, ◌∷◌, [], map, length, IfOk, OnOk, OnErr, slice_index_or};
ghost use Rattle.std.specs.List.{remove};
ghost use Rattle.moo_session_connection.specs.Clients.{number_of};
ghost use Rattle.moo_session_connection.specs.Connections.{NonePlayedBy};
ghost use Rattle.moo_session_connection.specs.Changes.{left_by, displaced, all_left};
ghost use Rattle.moo_session_connection.specs.declared.client.Client.{Client as client_contents};

use crate::client::Client;
use crate::connections::Connections;
use crate::playing::remove_player;
use std::alloc::{AllocError, Global};

impl Connections {
    /// Marks the connection that goes by this number as leaving, if there is one. Fails only if memory runs out.
    pub fn leave(&mut self, who: i32) -> Result<(), AllocError>
        ensures { OnOk result (self.new ≡ left_by who self.old) }
    {
        match self.place_known_as(who) {
            Some(place) => self.leave_at(place),
            None => Ok(()),
        }
    }

    /// Marks the connection of this player as leaving, if there is one. Fails only if memory runs out.
    pub(crate) fn displace(&mut self, player: i32) -> Result<(), AllocError>
        ensures left { OnOk result (self.new ≡ displaced player self.old) }
        ensures gone { OnOk result (NonePlayedBy player self.new.clients) }
    {
        match self.place_playing(player) {
            Some(place) => self.leave_at(place),
            None => Ok(()),
        }
    }

    fn leave_at(&mut self, place: usize) -> Result<(), AllocError>
        requires { place < length self.old.clients }
        ensures { OnOk result ((d : client_contents) → self.new ≡ record { clients = remove self.old.clients place; leaving = self.old.leaving ++ number_of (slice_index_or self.old.clients place d) ∷ [] }) }
    {
        self.leaving.push(self.clients[place].connection.number)?;
        let client = self.clients.remove(place);
        let _connection = self.row.remove(place);
        remove_player(&mut self.players, &client);
        Ok(())
    }

    /// Marks every connection as leaving. Fails only if memory runs out.
    pub fn leave_all(&mut self) -> Result<(), AllocError>
        ensures { OnOk result (self.new ≡ all_left self.old) }
    {
        push_numbers(self.alloc, &mut self.leaving, &self.clients)?;
        self.clients.clear();
        self.row.clear();
        self.players.clear();
        Ok(())
    }
}

// Appends the numbers of these connections. If memory runs out, nothing changes.
fn push_numbers(alloc: Global, numbers: &mut Vec<u16>, clients: &[Client]) -> Result<(), AllocError>
    ensures ok { OnOk result (numbers.new.items ≡ numbers.old.items ++ map number_of clients.now) }
    ensures err { OnErr result (numbers.new.items ≡ numbers.old.items) }
{
    let more = numbers_of(alloc, clients)?;
    numbers.extend_from_slice(&more)
}

fn numbers_of(alloc: Global, clients: &[Client]) -> Result<Vec<u16>, AllocError>
    ensures { IfOk result (λ numbers. numbers.items ≡ map number_of clients.now) }
{
    let mut numbers = Vec::new(alloc);
    for client in clients {
        numbers.push(client.connection.number)?;
    }
    Ok(numbers)
}
