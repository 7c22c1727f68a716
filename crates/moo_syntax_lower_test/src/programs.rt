//! The programs of a database text.
use moo_syntax::{Names, parse};
use moo_syntax_lower::lower_block;
use moo_value::MooStr;
use std::alloc::{AllocError, Global};

/// Holds what was counted in the lines so far of a database text.
#[derive(Drop)]
pub struct Programs {
    alloc: Global,
    /// The lines so far of the program that is being read.
    lines: Option<Vec<MooStr>>,
    pub lowered: usize,
    pub refused: usize,
    /// The statements outside of all others.
    pub statements: usize,
}

impl Programs {
    /// Returns the counts of no lines.
    pub fn new(alloc: Global) -> Programs {
        Programs {
            alloc,
            lines: None,
            lowered: 0,
            refused: 0,
            statements: 0,
        }
    }

    /// Takes the next line. With the last line of a program it lowers the program.
    pub fn take_line(&mut self, line: &str) -> Result<(), AllocError> {
        let Some(mut lines) = self.lines.take() else {
            if is_heading(line) {
                self.lines = Some(Vec::new(self.alloc));
            }
            return Ok(());
        };
        if line == "." {
            return self.lower_program(&lines);
        }
        let Ok(line) = MooStr::try_from_bytes(self.alloc, line.as_bytes()) else {
            return Err(AllocError);
        };
        lines.push(line)?;
        self.lines = Some(lines);
        Ok(())
    }

    fn lower_program(&mut self, lines: &[MooStr]) -> Result<(), AllocError> {
        let Ok(program) = parse(self.alloc, lines, Names::Any) else {
            self.refused = self.refused.saturating_add(1);
            return Ok(());
        };
        let nodes = lower_block(self.alloc, program.statements())?;
        self.lowered = self.lowered.saturating_add(1);
        self.statements = self.statements.saturating_add(nodes.len());
        Ok(())
    }
}

// Returns whether a line begins a program: the numbers of an object and of a verb.
fn is_heading(line: &str) -> bool {
    let Some(numbers) = line.strip_prefix('#') else {
        return false;
    };
    match numbers.split_once(':') {
        Some((object, verb)) => object.parse::<i32>().is_ok() && verb.parse::<i32>().is_ok(),
        None => false,
    }
}
