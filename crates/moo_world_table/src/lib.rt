//! The table of objects by number, and their trees. A change of one object is tested and made here over slices of the
//! objects that it affects. An internal crate of `moo_world`.
#![tactic(auto)]

pub mod clashing;
pub mod defining;
pub mod deleting;
pub mod editing;
pub mod fitting;
pub mod looking;
pub mod places;
pub mod players;
pub mod properties;
pub mod recycling;
pub mod renaming;
pub mod verbs;
pub mod written;

/// The largest count of object numbers given out, of properties or verbs on one object, and of players.
pub const MOST: usize = 1_000_000;
