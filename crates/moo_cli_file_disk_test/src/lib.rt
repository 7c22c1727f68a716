//! The disk over files: tests alone.
#![tactic(auto)]

#[cfg(test)]
mod files;
