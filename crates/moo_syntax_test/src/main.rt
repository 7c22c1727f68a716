//! Prints each row of its input, and after it the parser's answer to the row's text or token lists.
#![tactic(auto)]

mod exploring;
mod listings;
mod recogniser;
mod rows;
mod rules;
mod statement_rules;

use rows::answer;
use std::io::{self, Write};

fn main(rt: HostRuntime) -> io::Result<()> {
    for row in rt.lines(rt.alloc()) {
        let row = row?;
        let mut told = Vec::from_slice(rt.alloc(), b"> ")?;
        answer(rt.alloc(), row.as_str(), &mut told)?;
        io::writer(&rt).write_all(&told)?;
    }
    Ok(())
}
