//! One object of the world, without its relations to others, and the rules of names.
//! An internal crate of `moo_world`.
#![tactic(auto)]

mod bits;
mod built_in_property;
mod cell;
mod filter_letter;
mod flags;
pub mod laws;
mod name;
mod name_filter;
mod object;
mod pattern;
mod row;
mod verb;
mod verb_args;
mod verb_index;
mod verb_list;

pub use built_in_property::{BuiltInProperty, built_in};
pub use cell::{PropCell, PropPerms};
pub use flags::Flags;
pub use name::{folded_name, same_name};
pub use object::Object;
pub use pattern::{fits, fits_names, has_word};
pub use row::{Row, cell_at, cell_named, note_place, place_known, place_named, place_named_as};
pub use verb::{Need, Verb, VerbPerms};
pub use verb_args::{ObjectSpecifier, Preposition, PrepositionSpecifier, VerbArgs};
