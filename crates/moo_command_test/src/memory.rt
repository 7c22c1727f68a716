// Calls that grow, if memory is short. Each is made for its answer; if one allocation fails, as
// `rt try --test --fail-alloc N` lets the Nth, at most one of them is refused, and the others answer as ever. A reader is
// then as it was: the piece, fed once more, gives the same lines.
use crate::answers::{Call, Rows, is_answered};
use std::alloc::AllocError;
use std::test::Fail;

const OBJECTS: &str = "-1|-1|The Room\n-1|0|box\n-1|0|Wizard";

// Each a call and what it answers.
static ROWS: [Rows; 4] = [
    Rows {
        call: Call::Words,
        player: 2,
        objects: OBJECTS,
        rows: "put box on top of me --> put|box|on|top|of|me|",
    },
    Rows {
        call: Call::Typed,
        player: 2,
        objects: OBJECTS,
        rows: "put box on top of me --> put|box on top of me|box|on|top|of|me|",
    },
    Rows {
        call: Call::Parse,
        player: 2,
        objects: OBJECTS,
        rows: "put box on top of me --> put|box on top of me|[box][on][top][of][me]|box|1 on top of|4 me|2 ",
    },
    Rows {
        call: Call::Feed,
        player: 2,
        objects: OBJECTS,
        rows: " --> one|two|three||",
    },
];

#[test]
fn calls_that_grow(rt: HostRuntime) -> Result<(), Fail> {
    let mut is_short = false;
    for row in &ROWS {
        match is_answered(rt.alloc(), row, row.rows) {
            Ok(true) => {}
            Err(AllocError) if !is_short => is_short = true,
            _ => return Err(Fail::new(row.rows)),
        }
    }
    Ok(())
}
