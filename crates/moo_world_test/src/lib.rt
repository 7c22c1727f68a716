//! A call of the world that is refused because memory is short leaves an equal world. This crate has tests only, so that the
//! crates that they test are proved once.
#![tactic(auto)]

#[cfg(test)]
mod args;
#[cfg(test)]
mod calls;
#[cfg(test)]
mod functions;
#[cfg(test)]
mod memory;
#[cfg(test)]
mod same;
#[cfg(test)]
mod script;
#[cfg(test)]
mod worlds;
