//! The surface of `moo_session`.
use moo_session::{Client, Connections, Gathering, Hook, LineReader, Outbox, Sent, Session};
use moo_value::MooStr;
use std::alloc::{AllocError, Global};

pub fn new(alloc: Global) -> LineReader {
    LineReader::new(alloc)
}

pub fn feed(reader: &mut LineReader, piece: &[u8]) -> Result<Vec<MooStr>, AllocError> {
    reader.feed(piece)
}

pub fn take(outbox: &mut Outbox, number: u16) -> Vec<u8> {
    outbox.take(number)
}

pub fn take_log(outbox: &mut Outbox) -> Vec<MooStr> {
    outbox.take_log()
}

/// Returns a session without connections.
pub fn session(alloc: Global) -> Session {
    Session::new(alloc)
}

pub fn connections(session: &Session) -> &Connections {
    session.connections()
}

pub fn client_here(connections: &Connections, number: u16) -> Option<&Client> {
    connections.client_here(number)
}

/// Returns the lines that a connection gathers, if it gathers any.
pub fn gathered(client: &Client) -> Option<&[MooStr]> {
    match &client.gathering {
        Some(gathering) => Some(gathering.lines()),
        None => None,
    }
}

pub fn gathering(alloc: Global, object: i32, verb: MooStr) -> Gathering {
    Gathering::new(alloc, object, verb)
}

pub fn cause(session: &mut Session, hook: Hook) -> Result<(), AllocError> {
    session.cause(hook)
}

pub fn next_hook(session: &mut Session) -> Option<Hook> {
    session.next_hook()
}

pub fn take_sent(session: &mut Session) -> Vec<Sent> {
    session.take_sent()
}

pub fn add(outbox: &mut Outbox, sent: &[Sent], log: &[MooStr]) -> Result<(), AllocError> {
    outbox.add(sent, log)
}

/// Returns the player of a hook.
pub fn player(hook: Hook) -> i32 {
    match hook {
        Hook::Created(player) => player,
        Hook::Connected(player) => player,
        Hook::Reconnected(player) => player,
        Hook::Disconnected(player) => player,
        Hook::ClientDisconnected(player) => player,
    }
}
