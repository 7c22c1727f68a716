//! What the program prints and answers if a reader or a writer fails. This crate has tests only, so that the crates that
//! they test are proved once.
#![tactic(auto)]

#[cfg(test)]
mod answers;
#[cfg(test)]
mod playing;
#[cfg(test)]
mod scripts;
#[cfg(test)]
mod streams;
