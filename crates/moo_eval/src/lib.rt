//! Runs programs: their expressions and statements, and their budget of ticks.
#![tactic(auto)]

pub mod laws;
mod line;
mod task;
mod typed;

pub use line::{EvalLine, eval_line};
pub use moo_eval_frame::{Connection, Frame, Login, Notice, Surroundings, TaskEnv};
pub use moo_eval_hook::typed_frame;
pub use task::{Ended, run_task};
pub use typed::run_typed;
