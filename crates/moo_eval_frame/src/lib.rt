//! The data of evaluation: frames with their variables and callers, outcomes, and values that are gathered. An internal
//! crate of `moo_eval`.
#![tactic(auto)]

mod access;
mod callers;
mod frame;
mod gathered;
mod given_values;
mod memory;
mod notice;
mod outcome;
mod shared_values;
mod spelling;
mod surroundings;
mod variables;

pub use access::{measure, push, read_variable};
pub use callers::Callers;
pub use frame::{Activation, CallStack, Frame, Running, TraceEntry, TraceFrame};
pub use gathered::{Gathered, Stretch};
pub use given_values::GivenValues;
pub use memory::FrameMemory;
pub use notice::Notice;
pub use outcome::{Account, Failure, Flow, Raise, Stop, raised, settle};
pub use spelling::is_same_name;
pub use surroundings::{Connection, Login, Surroundings, TaskEnv, own_number};
pub use variables::Variables;
