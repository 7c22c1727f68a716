//! A world with its sessions.

use crate::session::Session;
use moo_world::World;

/// Holds what an event changes: the world and its sessions.
#[derive(Drop)]
pub struct WorldState {
    pub world: World,
    pub session: Session,
}
