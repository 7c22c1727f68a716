//! The built-in functions that call verbs, and `eval`, which runs a program. Each runs in stages: the work between
//! two verbs, and the verb that comes next. An internal crate of `moo_eval`.
#![tactic(auto)]

mod creating;
mod evaluating;
mod hook;
mod moving;
mod objects;
mod passing;
mod progress;
mod quota;
mod recycling;
mod stages;
mod verb_call;

pub use evaluating::typed_frame;
pub use progress::Progress;
pub use stages::resume_call;
pub use verb_call::{start_call, verb_caller};
