//! The sockets of clients, and how many bytes may wait for each.
ghost use Rattle.std.specs.Prelude.{◌≡◌, true};
ghost use Rattle.std.proofs.Props.{props};
ghost use Rattle.moo_cli_serve.specs.Room.{HaveRoom};

use moo_cli_sockets::Sockets;

/// The sockets of clients. After a round that ended well, no more bytes wait for any of them than may.
#[derive(Drop)]
pub struct Clients {
    pub(crate) sockets: Sockets,
    /// The number of waiting bytes past which a connection is hung up.
    pub(crate) most_waiting: usize,
    /// Whether the last round ended without a fault.
    pub(crate) is_settled: bool,
    ghost room: { is_settled ≡ true → HaveRoom most_waiting sockets.sockets } by { Prim.hlevel props },
}
