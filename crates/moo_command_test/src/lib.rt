//! Calls on lines and commands that allocate, while memory is short, and a command of nearly a million bytes. This crate has
//! tests only, so that the crates that they test are proved once.
#![tactic(auto)]

#[cfg(test)]
mod answers;
#[cfg(test)]
mod lines;
#[cfg(test)]
mod memory;
#[cfg(test)]
mod parsing;
#[cfg(test)]
mod worlds;
