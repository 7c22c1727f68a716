//! Databases in pieces and damaged, what a crash leaves of a disk in memory, and what a start leaves on a disk. This crate has
//! tests only, so that the crates that they test are proved once.
#![tactic(auto)]

#[cfg(test)]
mod boastful;
#[cfg(test)]
mod checkpoints;
#[cfg(test)]
mod damage;
#[cfg(test)]
mod databases;
#[cfg(test)]
mod disks;
#[cfg(test)]
mod pieces;
#[cfg(test)]
mod recovering;
