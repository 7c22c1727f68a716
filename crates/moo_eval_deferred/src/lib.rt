//! Lists that are changed only when a place takes them: longer lists, calls such as `setadd(l, x)`, and parts of lists.
//! The variable, the property or the outer list that holds the old list lets go of it first. An internal crate of
//! `moo_eval`.
#![tactic(auto)]

mod deferred;
mod list_call;
mod list_part;
mod longer_list;
mod place;

pub use deferred::{
    Deferred, assign_deferred, set_deferred, set_deferred_at, set_property_deferred_at,
    write_deferred, write_written_deferred,
};
pub use list_call::{ListCall, set_called};
pub use list_part::{ListPart, deferred_range};
pub use longer_list::LongerList;
