//! The slots of the variables of a program, and the strings and lists that grow in them. An internal crate of
//! `moo_eval`.
#![tactic(auto)]

mod growing;
mod inner_list;
mod slots;

pub use growing::{extended, has_room_after, has_room_for, prepended, pushed};
pub use slots::Slots;
