//! The contents of a server's database file.

use moo_world::World;

/// A world, and the players who were connected.
#[derive(Drop)]
pub struct Saved {
    pub world: World,
    /// The numbers of the connected players, in the order of their connections.
    pub connected: Vec<i32>,
}
