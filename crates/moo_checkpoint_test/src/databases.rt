//! Small databases, and what is read of them.
use moo_checkpoint::OpenFault;
use moo_dbtext::{DbFault, Saved, write_db};
use std::alloc::Global;
use std::test::Fail;

/// A world of four objects with one program.
pub(crate) const SMALL: &[u8; 344] =
    b"** LambdaMOO Database, Format Version 4 **\n4\n1\n0\n1\n3\n#0\nSystem Object\n\n16\n3\n-1\n-1\n-1\n1\n-1\n2\n1\ndo_login_command\n3\n173\n-1\n0\n0\n#1\nRoot Class\n\n16\n3\n-1\n-1\n-1\n-1\n0\n-1\n0\n0\n0\n#2\nThe First Room\n\n0\n3\n-1\n3\n-1\n1\n-1\n3\n0\n0\n0\n#3\nWizard\n\n7\n3\n2\n-1\n-1\n1\n-1\n-1\n0\n0\n0\n#0:0\nreturn #3;\n.\n0 clocks\n0 queued tasks\n0 suspended tasks\n0 active connections with listeners\n";

/// The world of `SMALL` with a second verb and program.
pub(crate) const LARGER: &[u8; 405] =
    b"** LambdaMOO Database, Format Version 4 **\n4\n2\n0\n1\n3\n#0\nSystem Object\n\n16\n3\n-1\n-1\n-1\n1\n-1\n2\n1\ndo_login_command\n3\n173\n-1\n0\n0\n#1\nRoot Class\n\n16\n3\n-1\n-1\n-1\n-1\n0\n-1\n0\n0\n0\n#2\nThe First Room\n\n0\n3\n-1\n3\n-1\n1\n-1\n3\n0\n0\n0\n#3\nWizard\n\n7\n3\n2\n-1\n-1\n1\n-1\n-1\n1\neval\n3\n93\n-2\n0\n0\n#0:0\nreturn #3;\n.\n#3:0\nnotify(player, toliteral(eval(argstr)));\n.\n0 clocks\n0 queued tasks\n0 suspended tasks\n0 active connections with listeners\n";

/// A copy of a text.
pub(crate) fn copy_of(alloc: Global, text: &[u8]) -> Result<Vec<u8>, Fail> {
    let mut copy = Vec::new(alloc);
    copy.extend_from_slice(text)?;
    Ok(copy)
}

/// A text with one of its lines, counted from 1, replaced.
pub(crate) fn with_line(
    alloc: Global,
    text: &[u8],
    number: usize,
    new: &[u8],
) -> Result<Vec<u8>, Fail> {
    let mut out = Vec::new(alloc);
    let mut at: usize = 1;
    for line in text.split_inclusive(|byte| *byte == b'\n') {
        out.extend_from_slice(if at == number { new } else { line })?;
        at = at.saturating_add(1);
    }
    Ok(out)
}

/// The text of what was read, or the line that says why nothing was.
pub(crate) fn read_as(alloc: Global, answer: Result<Saved, DbFault>) -> Result<Vec<u8>, Fail> {
    match answer {
        Ok(saved) => Ok(write_db(alloc, &saved)?),
        Err(fault) => copy_of(alloc, format!(in alloc; "{fault}")?.as_bytes()),
    }
}

/// The text of what was recovered, or what is reported in its place.
pub(crate) fn recovered_as(
    alloc: Global,
    answer: Result<Saved, OpenFault>,
) -> Result<Vec<u8>, Fail> {
    match answer {
        Ok(saved) => Ok(write_db(alloc, &saved)?),
        Err(fault) => copy_of(alloc, format!(in alloc; "{fault}")?.as_bytes()),
    }
}
