//! The built-in functions that read or change the world, but call no verb. An internal crate of `moo_builtin`.
#![tactic(auto)]

mod allowed;
mod call;
mod forms;
mod giving;
mod made;
mod objects;
mod properties;
mod refusing;
mod verb_changes;
mod verbs;

pub use allowed::numbered_verb;
pub use call::call_world;
pub use objects::shown;
pub use refusing::refusal;
pub use verbs::chosen;
