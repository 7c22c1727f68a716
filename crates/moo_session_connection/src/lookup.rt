//! Connections by the numbers that they go by.
ghost use Rattle.std.specs.Prelude.{◌≡◌, ℕ, None, true, position, IfOk, IfErr, IfSome, IfNone};
ghost use Rattle.std.specs.Option.{option_copied};
ghost use Rattle.moo_session_connection.specs.Clients.{own_number, has_number, is_known_as, is_played_by};
ghost use Rattle.moo_session_connection.specs.Searching.{IsRising, IsAt, IsGap};
ghost use Rattle.moo_session_connection.specs.Players.{is_unplayed_as, earlier};
ghost use Rattle.moo_session_connection.specs.Connections.{client_here, client_known_as, is_open, is_leaving, HaveOwnPlayers};

use crate::client::Client;
use crate::connections::Connections;
use moo_eval_frame::Connection;

impl Connections {
    /// Returns the connection of this number, if it is open and not leaving.
    pub fn client_here(&self, number: u16) -> Option<&Client>
        ensures { option_copied result ≡ client_here number self.now }
    {
        let place = self.place_here(number)?;
        Some(&self.clients[place])
    }

    /// Returns the connection that goes by this number: its player's, or its own while nobody is connected on it.
    pub fn client_known_as(&self, who: i32) -> Option<&Client>
        ensures { option_copied result ≡ client_known_as who self.now }
    {
        let place = self.place_known_as(who)?;
        Some(&self.clients[place])
    }

    /// Returns whether the connection of this number is leaving.
    pub fn is_leaving(&self, number: u16) -> bool
        ensures is { result ≡ is_leaving number self.now }
        // nobody is on it any more
        ensures left { is_leaving number self.now ≡ true → client_here number self.now ≡ None }
    {
        self.leaving.iter().any(|other| *other == number)
    }

    /// Returns whether a connection of this number is open, leaving or not.
    pub fn is_open(&self, number: u16) -> bool
        ensures { result ≡ is_open number self.now }
    {
        self.client_here(number).is_some() || self.is_leaving(number)
    }

    pub(crate) fn place_here(&self, number: u16) -> Option<usize>
        ensures { result ≡ position (has_number number) self.now.clients }
    {
        self.place_numbered(u32::from(number))
    }

    // Returns the index of the connection of this number. The row is in the order of the numbers, so this is a binary
    // search.
    fn place_numbered(&self, number: u32) -> Option<usize>
        ensures { result ≡ position (has_number number) self.now.clients }
    {
        match search(&self.row, number) {
            Ok(place) => Some(place),
            Err(_) => None,
        }
    }

    // A player may have a number below -1, so two connections may go by one number. The earlier one counts.
    pub(crate) fn place_known_as(&self, who: i32) -> Option<usize>
        ensures { result ≡ position (is_known_as who) self.now.clients }
    {
        earlier(self.place_playing(who), self.place_unplayed(who))
    }

    pub(crate) fn place_playing(&self, player: i32) -> Option<usize>
        ensures place { result ≡ position (is_played_by player) self.now.clients }
        ensures own { HaveOwnPlayers self.now.clients }
    {
        let number = self.players.get(&player)?;
        self.place_here(*number)
    }

    // Returns the index of the connection with this own number, while nobody is connected on it.
    fn place_unplayed(&self, who: i32) -> Option<usize>
        ensures { result ≡ position (is_unplayed_as who) self.now.clients }
    {
        let number = number_owning(who)?;
        let place = self.place_numbered(number)?;
        match self.clients[place].connection.login {
            Some(_) => None,
            None => Some(place),
        }
    }
}

// Returns the index of the connection of this number in a row, or as an error the index at which it would be.
pub(crate) fn search(row: &[Connection], number: u32) -> Result<usize, usize>
    requires { IsRising row.now }
    ensures found { IfOk result (IsAt row.now number) }
    ensures absent { IfErr result (IsGap row.now number) }
{
    row.binary_search_by_key(&number, |connection| u32::from(connection.number))
}

// Returns the number of the connection that goes by this own number.
fn number_owning(who: i32) -> Option<u32>
    ensures some { IfSome result (λ number. who ≡ own_number number) }
    ensures none { IfNone result ((number : ℕ) → who ≡ own_number number → ⊥) }
{
    if who < -1 {
        Some(who.unsigned_abs() - 2)
    } else {
        None
    }
}

fn earlier(a: Option<usize>, b: Option<usize>) -> Option<usize>
    ensures { result ≡ earlier a b }
{
    match (a, b) {
        (Some(a), Some(b)) => Some(a.min(b)),
        (Some(a), None) => Some(a),
        (None, b) => b,
    }
}
