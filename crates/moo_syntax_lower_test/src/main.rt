//! Lowers each program of the database text that is its input, and prints how many there are.
#![tactic(auto)]

mod programs;

use programs::Programs;
use std::io;

fn main(rt: HostRuntime) -> io::Result<()> {
    let mut programs = Programs::new(rt.alloc());
    for line in rt.lines(rt.alloc()) {
        programs.take_line(line?.as_str())?;
    }
    println!(rt; "{} programs lowered", programs.lowered)?;
    println!(rt; "{} texts refused", programs.refused)?;
    println!(rt; "{} statements outside of all others", programs.statements)?;
    Ok(())
}
