//! The surface of `moo_checkpoint`.
use moo_checkpoint::{Checkpoint, OpenFault, Turn};
use moo_dbtext::{DbFault, Saved};
use moo_disk::Disk;
use std::alloc::Global;

/// Gives a new checkpoint its first turn.
#[tactic(auto, using(moo_checkpoint::proofs::TurnLemmas::fresh_continues))]
pub fn begin<D: Disk>(text: Vec<u8>, disk: &mut D) -> Turn {
    let mut checkpoint = Checkpoint::begin(text);
    checkpoint.turn(disk)
}

pub fn recover<D: Disk>(alloc: Global, disk: &mut D) -> Result<Saved, OpenFault> {
    moo_checkpoint::recover(alloc, disk)
}

/// Returns whether a checkpoint goes on.
pub fn goes_on(turn: Turn) -> bool {
    match turn {
        Turn::More => true,
        Turn::Done => false,
        Turn::Failed => false,
    }
}

/// Returns the fault of a text, if it is one.
pub fn text_fault(fault: OpenFault) -> Option<DbFault> {
    match fault {
        OpenFault::Device => None,
        OpenFault::Db(fault) => Some(fault),
        OpenFault::Memory => None,
    }
}
