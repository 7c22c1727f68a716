//! A small database, and scripts that are played over it. All are played by one call, with one kind of reader and of
//! writer, since the server is proved anew for each kind.

use crate::streams::{Paper, Source};
use log::sink::Memory;
use moo_cli_script::run_script;
use moo_server::MooApplication;
use std::alloc::Global;

/// A wizard, #3, in a room, #2. Who opens a connection is #3.
pub const SMALL: &[u8] =
    b"** LambdaMOO Database, Format Version 4 **\n4\n1\n0\n1\n3\n#0\nSystem Object\n\n16\n3\n-1\n-1\n-1\n1\n-1\n2\n1\ndo_login_command\n3\n173\n-1\n0\n0\n#1\nRoot Class\n\n16\n3\n-1\n-1\n-1\n-1\n0\n-1\n0\n0\n0\n#2\nThe First Room\n\n0\n3\n-1\n3\n-1\n1\n-1\n3\n0\n0\n0\n#3\nWizard\n\n7\n3\n2\n-1\n-1\n1\n-1\n-1\n0\n0\n0\n#0:0\nreturn #3;\n.\n0 clocks\n0 queued tasks\n0 suspended tasks\n0 active connections with listeners\n";

/// Plays a script, and returns its status.
pub fn play(
    alloc: Global,
    log: &Memory,
    mut database: Source,
    mut script: Source,
    printed: &mut Paper,
) -> u8 {
    run_script::<MooApplication, Memory, Source, Source, Paper>(
        alloc,
        log,
        &mut database,
        &mut script,
        printed,
    )
}
