//! What no script shows of a server over a disk in memory: stops within a call of the disk, lists of lives, memory that is
//! short, and a leaving connection. This crate has tests only, so that the crates that they test are proved once.
#![tactic(auto)]

#[cfg(test)]
mod lives;
#[cfg(test)]
mod memory;
#[cfg(test)]
mod playing;
#[cfg(test)]
mod stops;
