//! What statements do with values and errors: how scatters assign values to names, and which handler takes an error.
//! Also how loops and cleanups end, and the lines of a traceback. An internal crate of `moo_eval`.
#![tactic(auto)]

mod catching;
mod handling;
pub mod laws;
mod leading;
mod scatter;
mod traceback;

pub use catching::{caught, is_caught, settle_codes};
pub use handling::{
    Guarded, HandlerParts, chosen, frame_lists, handler_parts, push_guarded, set_caught,
    with_values,
};
pub use leading::{Span, after_finally, after_turn, copied_name, no_turn, runs_finally};
pub use scatter::{LeftOut, deal, set_names, try_set_names};
pub use traceback::traceback_lines;
