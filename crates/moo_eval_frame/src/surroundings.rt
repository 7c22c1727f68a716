//! The surroundings of a task, and the notices that it leaves.
ghost use Rattle.std.specs.Prelude.{◌≡◌};
ghost use Rattle.moo_eval_frame.specs.Surroundings.{own_number};

use crate::notice::Notice;

/// Holds the player who is connected on a connection, and the moment of the login, in seconds since 1970.
#[derive(Clone, Copy)]
pub struct Login {
    pub player: i32,
    pub moment: u32,
}

/// Describes an open connection. Its moments are in seconds since 1970.
#[derive(Clone, Copy)]
pub struct Connection {
    pub number: u16,
    /// Who is connected on it, if anybody is.
    pub login: Option<Login>,
    /// When it was opened.
    pub opened: u32,
    /// When bytes last came, if any have come.
    pub heard: Option<u32>,
}

/// Holds the surroundings of a task, which stay while it runs. They are the moment, in seconds since 1970, and the open
/// connections, in the order of their numbers. The connections are borrowed, so that beginning a task copies none.
#[derive(Clone, Copy)]
pub struct Surroundings<'a> {
    pub moment: u32,
    pub connections: &'a [Connection],
}

/// Holds what a task gets besides the world: its surroundings, and the place for its notices.
#[derive(Drop)]
pub struct TaskEnv<'a> {
    pub surroundings: Surroundings<'a>,
    /// The notices, in the order in which they are to be carried out.
    pub notices: Vec<Notice>,
}

/// Returns the number of a connection on which no one is connected: -2 - c, for the connection number c.
pub fn own_number(number: u16) -> i32
    ensures { result ≡ own_number number }
{
    -2 - i32::from(number)
}
