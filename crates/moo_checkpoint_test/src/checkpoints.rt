//! A checkpoint of so many turns.
use moo_checkpoint::{Checkpoint, Turn};
use moo_disk::Disk;

/// The first answer other than `More`, within so many turns.
#[tactic(auto, using(moo_checkpoint::proofs::TurnLemmas::fresh_continues))]
pub(crate) fn write<D: Disk>(text: Vec<u8>, disk: &mut D, turns: usize) -> Turn {
    let mut checkpoint = Checkpoint::begin(text);
    for _ in 0..turns {
        let turn = checkpoint.turn(disk);
        if !matches!(turn, Turn::More) {
            return turn;
        }
    }
    Turn::More
}
