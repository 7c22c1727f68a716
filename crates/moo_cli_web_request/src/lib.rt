//! What a browser's request asks for, and the responses that refuse it.
//! An internal crate of the program `moo`.
#![tactic(auto)]

mod allowed;
mod reading;
mod refusal;
mod request;
mod target;

pub use allowed::Allowed;
pub use reading::{HEAD_MOST, read_request};
pub use refusal::Refusal;
pub use request::Request;
