//! The texts of permissions of properties and verbs, and of the argument specifiers of verbs.
//! An internal crate of `moo_world`.
#![tactic(auto)]

pub mod laws;
mod permissions;
mod specifiers;

pub use permissions::{
    prop_perms_from_text, prop_perms_text, verb_perms_from_text, verb_perms_text,
};
pub use specifiers::{
    object_specifier_from_text, object_specifier_text, preposition_from_text,
    preposition_specifier_from_text, preposition_specifier_text, preposition_text,
};
