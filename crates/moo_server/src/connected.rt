//! The players who are connected.
ghost use Rattle.std.specs.Prelude.{◌≡◌};
ghost use Rattle.moo_server.specs.Live.{player_here};

use moo_session_connection::Connections;

/// Returns the player who is connected on the connection of this number, if any.
pub(crate) fn player_here(connections: &Connections, number: u16) -> Option<i32>
    ensures { result ≡ player_here connections.now number }
{
    match connections.client_here(number) {
        Some(client) => client.player(),
        None => None,
    }
}
